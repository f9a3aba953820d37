//! What values of every kind have in common.

ghost use Rattle.std.specs.Prelude.{◌≡◌};
ghost use Rattle.reading.specs.Reading.{only};
ghost use Rattle.css_values.specs.Parts.{solid, some_of, alone};

use crate::parts::is_nothing_left;
use css_tokens::token::Token;
use plain_types::list::List;

/// What was read, where nothing is left after it.
pub(crate) fn only<T: Drop>(value: T, rest: &[Token]) -> Option<T>
    ensures { result ≡ only value (solid rest.now) }
{
    if is_nothing_left(rest) {
        Some(value)
    } else {
        None
    }
}

/// One piece or more, where nothing is left after them.
pub(crate) fn all<T: Drop>(pieces: List<T>, rest: &[Token]) -> Option<List<T>>
    ensures { result ≡ alone (some_of (pieces, solid rest.now)) }
{
    if pieces.is_empty() {
        None
    } else {
        only(pieces, rest)
    }
}
