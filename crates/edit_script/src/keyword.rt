//! Keywords of commands.

ghost use Rattle.std.specs.Prelude.{IfSome};
ghost use Rattle.std.specs.Str.{chars, IsUtf8};
ghost use Rattle.reading.specs.Reading.{Reads};
ghost use Rattle.edit_script.specs.Machinery.Operands.{keyword_at, keyword_view};

use xhtml_items::text::past_word;

#[derive(Clone, Copy)]
pub(crate) enum Keyword {
    Insert,
    Remove,
    Move,
    Set,
    Unset,
    Sheet,
    Show,
}

/// The keyword at the front of a line, and its operands.
#[tactic(auto, unfolding(crate::specs::Machinery::Operands::keyword_at))]
pub(crate) fn split_keyword(line: &str) -> Option<(Keyword, &str)>
    ensures reads { Reads keyword_view result (keyword_at (chars line.now)) }
    ensures text { IfSome result (λ x. IsUtf8 x.1.now) }
{
    if let Some(operands) = past_word("insert ", line) {
        Some((Keyword::Insert, operands))
    } else if let Some(operands) = past_word("remove ", line) {
        Some((Keyword::Remove, operands))
    } else if let Some(operands) = past_word("move ", line) {
        Some((Keyword::Move, operands))
    } else if let Some(operands) = past_word("set ", line) {
        Some((Keyword::Set, operands))
    } else if let Some(operands) = past_word("unset ", line) {
        Some((Keyword::Unset, operands))
    } else if let Some(operands) = past_word("sheet ", line) {
        Some((Keyword::Sheet, operands))
    } else if let Some(operands) = past_word("show", line) {
        Some((Keyword::Show, operands))
    } else {
        None
    }
}
