//! Other elements, as target functions see them (CSS Generated Content 3, 2.6).

ghost use Rattle.std.specs.Prelude.{◌≡◌, ◌≢◌, IfOk, option_copied};
ghost use Rattle.std.specs.Option.{option_map};
ghost use Rattle.std.specs.Str.{chars};
ghost use Rattle.content_eval.specs.Targets.{Known, characters_at, counters_at, flat_at, reference, target_id};

use crate::generated::Piece;
use counter_sets::counter_set::CounterSet;
use plain_types::content::Part;
use plain_types::memory::Memory;
use plain_types::text::Text;
use std::alloc::Global;

/// What is known of the elements that urls name. A url that is not `#` and an id names none, and of an id that
/// no element has there is no target.
pub trait Targets {
    /// What it knows, by ids.
    ghost known: { Self → Known };

    /// The counters of the target's own box; None exactly without a target that has a box. It takes no memory.
    fn counters(&self, url: &str) -> Option<&CounterSet>
        ensures counters { option_copied result ≡ counters_at (known self.now) (chars url.now) };

    /// The characters under the target, one text after the other; none without a target. It takes memory and
    /// time in their number.
    fn characters(&self, alloc: Global, url: &str) -> Result<Text, Memory>
        ensures characters { IfOk result (λ text. text ≡ characters_at (known self.now) (chars url.now)) };

    /// The flat text of the target's `::before` or `::after` box; None exactly without that box. It takes no
    /// memory.
    fn flat(&self, url: &str, part: Part) -> Option<&Text>
        requires part { part ≢ Part.Content }
        ensures flat { option_copied result ≡ flat_at (known self.now) (chars url.now) part };
}

/// The id that a url names: what follows its leading `#`, as written. It may be empty. None exactly where the url
/// does not begin with `#`. Constant time.
pub fn target_id(url: &str) -> Option<&str>
    ensures id { option_map chars (option_copied result) ≡ target_id (chars url.now) }
{
    url.strip_prefix('#')
}

/// The id to which a piece refers, whether an element has it or not. Constant time.
pub fn reference(piece: &Piece) -> Option<&str>
    ensures id { option_map chars (option_copied result) ≡ reference piece.now }
{
    match piece {
        Piece::Chars(_) => None,
        Piece::TargetCounter { url, .. }
        | Piece::TargetCounters { url, .. }
        | Piece::TargetText { url, .. } => target_id(url.as_str()),
    }
}
