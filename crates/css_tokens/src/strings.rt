//! Strings.

ghost use Rattle.std.specs.Prelude.{◌≡◌, ◌∷◌, ◌++◌, [], IfSome, IfOk, OnOk};
ghost use Rattle.std.specs.Str.{chars, IsUtf8};
ghost use Rattle.reading.specs.Reading.{Reads, run_at};
ghost use Rattle.css_tokens.specs.Strings.{string_escape_at, string_piece_at, string_at, string_end, kept};

use crate::identifiers::escape;
use crate::token::TokenKind;
use crate::token_text::TokenText;
use plain_types::memory::Memory;
use plain_types::text::Text;
use reading::characters::{first_char, is_quote};
use std::alloc::Global;

/// The character that a `\` before this text leaves in a string, if it leaves one, and the text after it.
fn string_escape(text: &str) -> Option<(Option<char>, &str)>
    ensures gives { Reads (λ x. (x.0, chars x.1.now)) result (string_escape_at (chars text.now)) }
    ensures text { IfSome result (λ x. IsUtf8 x.1.now) }
{
    let Some((first, after)) = first_char(text) else {
        return Some((None, text));
    };
    if first == '\n' {
        return Some((None, after));
    }
    let (escaped, rest) = escape(text)?;
    Some((Some(escaped), rest))
}

/// A piece of a string between two quotes: the character that it leaves, if it leaves one, and the text
/// after it.
#[tactic(auto, unfolding(crate::specs::Strings::string_piece_at))]
fn string_piece(quote: char, text: &str) -> Option<(Option<char>, &str)>
    ensures gives { Reads (λ x. (x.0, chars x.1.now)) result (string_piece_at quote (chars text.now)) }
    ensures text { IfSome result (λ x. IsUtf8 x.1.now) }
{
    let (first, after) = first_char(text)?;
    if first == quote || first == '\n' {
        None
    } else if first == '\\' {
        string_escape(after)
    } else {
        Some((Some(first), after))
    }
}

fn push_left(value: &mut Text, left: Option<char>) -> Result<(), Memory>
    ensures ok { OnOk result (value.new ≡ value.old ++ kept (left ∷ [])) }
{
    if let Some(c) = left {
        value.push(c)?;
    }
    Ok(())
}

/// The characters of a string, and the text from where it ends or breaks.
fn string_value(alloc: Global, quote: char, text: &str) -> Result<(TokenText, &str), Memory>
    ensures value { IfOk result (λ x. x.0 ≡ kept (run_at (string_piece_at quote) (chars text.now)).0) }
    ensures rest { IfOk result (λ x. chars x.1.now ≡ (run_at (string_piece_at quote) (chars text.now)).1) }
    ensures text { IfOk result (λ x. IsUtf8 x.1.now) }
{
    let mut value = Text::new(alloc);
    let mut rest = text;
    'pieces: while let Some((left, after)) = string_piece(quote, rest) {
        push_left(&mut value, left)?;
        rest = after;
    }
    Ok((TokenText::new(alloc, value)?, rest))
}

/// The string whose characters are read: what stands after them ends or breaks it.
fn string_end(quote: char, value: TokenText, text: &str) -> (TokenKind, &str)
    ensures gives { string_end quote value (chars text.now) ≡ (result.0, chars result.1.now) }
    ensures text { IsUtf8 result.1.now }
{
    match first_char(text) {
        None => (TokenKind::Chars(value), text),
        Some((first, rest)) => {
            if first == quote {
                (TokenKind::Chars(value), rest)
            } else {
                (TokenKind::BadString, text)
            }
        }
    }
}

/// The string at the front, and the text after it.
#[tactic(auto, unfolding(crate::specs::Strings::string_at))]
pub(crate) fn string(alloc: Global, text: &str) -> Result<Option<(TokenKind, &str)>, Memory>
    ensures gives { IfOk result (λ r. Reads (λ x. (x.0, chars x.1.now)) r (string_at (chars text.now))) }
    ensures text { IfOk result (λ r. IfSome r (λ x. IsUtf8 x.1.now)) }
{
    let Some((quote, after)) = first_char(text) else {
        return Ok(None);
    };
    if !is_quote(quote) {
        return Ok(None);
    }
    let (value, rest) = string_value(alloc, quote, after)?;
    Ok(Some(string_end(quote, value, rest)))
}
