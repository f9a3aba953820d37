//! Words of a line.

ghost use Rattle.std.specs.Prelude.{◌≡◌, ◌<◌, ◌^◌, ℕ, IfOk, IfErr, IfSome, IfNone};
ghost use Rattle.std.specs.Fmt.{decimal};
ghost use Rattle.std.specs.Str.{chars, IsUtf8};
ghost use Rattle.edit_script.specs.Machinery.LineFaults.{IsLineFault};
ghost use Rattle.edit_script.specs.Machinery.Words.{AreParts, IsPositionText, IsWordAndRest};

use crate::line_fault::LineFault;
use itoa::Buffer;
use xhtml_items::text::split_once;

/// The first word, and what stands behind its space.
pub(crate) fn split_word(text: &str) -> Result<(&str, &str), LineFault>
    ensures found { IfOk result (λ x. IsWordAndRest (chars text.now) (chars x.0.now) (chars x.1.now)) }
    ensures fault { IfErr result (IsLineFault (AreParts (chars text.now))) }
    ensures word { IfOk result (λ x. IsUtf8 x.0.now) }
    ensures rest { IfOk result (λ x. IsUtf8 x.1.now) }
{
    match split_once(" ", text) {
        Some(parts) => Ok(parts),
        None => Err(LineFault::NoForm),
    }
}

/// The number below 2^32 that is written so: `0`, or digits that don't begin with `0`. It takes no memory.
pub fn read_natural(text: &str) -> Option<u32>
    ensures found { IfSome result (λ number. text.now ≡ decimal number) }
    ensures none { IfNone result ((number : ℕ) → number < 2 ^ 32 → text.now ≡ decimal number → ⊥) }
{
    let Ok(number) = text.parse::<u32>() else {
        return None;
    };
    let mut buffer = Buffer::new();
    if buffer.format(number) == text {
        Some(number)
    } else {
        None
    }
}

/// A position, or an index, if the text is one. It takes no memory.
pub(crate) fn position_of(text: &str) -> Option<usize>
    ensures found { IfSome result (IsPositionText (chars text.now)) }
    ensures none { IfNone result ((number : ℕ) → IsPositionText (chars text.now) number → ⊥) }
{
    match read_natural(text) {
        Some(number) => Some(number as usize),
        None => None,
    }
}

/// A position, or an index.
pub(crate) fn read_position(text: &str) -> Result<usize, LineFault>
    ensures found { IfOk result (IsPositionText (chars text.now)) }
    ensures fault { IfErr result (IsLineFault (IsPositionText (chars text.now))) }
{
    match position_of(text) {
        Some(position) => Ok(position),
        None => Err(LineFault::NoForm),
    }
}
