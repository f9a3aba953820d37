//! The values of starts.

ghost use Rattle.std.specs.Prelude.{◌≡◌};
ghost use Rattle.std.specs.Str.{bytes_eq, chars};
ghost use Rattle.box_eval.specs.Properties.{start_in};

use box_eval::inputs::Start;
use plain_types::box_id::BoxId;
use plain_types::count::Count;
use plain_types::text::Text;

/// Whether the texts are equal.
pub(crate) fn is_same(text: &Text, other: &str) -> bool
    ensures test { result ≡ bytes_eq text.now (chars other.now) }
{
    text.as_str() == other
}

/// The start of the counter of this name that this box creates; one that is not given is 0.
pub(crate) fn value_in(starts: &[Start], creator: BoxId, name: &str) -> Count
    ensures value { result ≡ start_in starts.now creator (chars name.now) }
{
    for start in starts {
        if start.creator == creator && is_same(&start.name, name) {
            return start.value;
        }
    }
    0
}
