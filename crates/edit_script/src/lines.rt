//! Lines of a text.

ghost use Rattle.std.specs.Prelude.{◌≡◌, ◌∷◌, ◌<◌, ◌||◌, ◌==◌, [], IfSome, MatchOption, length};
ghost use Rattle.std.specs.Str.{chars, IsUtf8};
ghost use Rattle.edit_script.specs.Lines.{is_skipped, lines};
ghost use Rattle.edit_script.specs.Machinery.Words.{without_return};

use xhtml_items::text::{past_word, split_once};

/// A line, which a line feed ended, without the rest of its end.
fn without_return(line: &str) -> &str
    ensures front { chars result.now ≡ without_return (chars line.now) }
    ensures text { IsUtf8 result.now }
{
    match line.strip_suffix('\r') {
        Some(front) => front,
        None => line,
    }
}

/// The first line, without its end, and what stands behind its end.
pub(crate) fn split_line(text: &str) -> Option<(&str, &str)>
    ensures lines { MatchOption result (chars text.now ≡ []) (λ x. lines (chars text.now) ≡ chars x.0.now ∷ lines (chars x.1.now)) }
    ensures shorter { IfSome result (λ x. length (chars x.1.now) < length (chars text.now)) }
    ensures line { IfSome result (λ x. IsUtf8 x.0.now) }
    ensures rest { IfSome result (λ x. IsUtf8 x.1.now) }
{
    if text.is_empty() {
        return None;
    }
    match split_once("\n", text) {
        Some((line, rest)) => Some((without_return(line), rest)),
        None => Some((text, "")),
    }
}

fn is_space_or_tab(c: char) -> bool
    ensures { result ≡ (c == 32 || c == 9) }
{
    c == ' ' || c == '\t'
}

/// Whether the line is passed over: blank, or a comment.
pub(crate) fn is_skipped(line: &str) -> bool
    ensures { result ≡ is_skipped (chars line.now) }
{
    past_word("#", line).is_some() || line.chars().all(|c| is_space_or_tab(c))
}
