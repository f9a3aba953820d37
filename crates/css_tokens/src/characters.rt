//! Characters at the front of a text, and their classes.

ghost use Rattle.std.specs.Prelude.{◌≡◌, IfSome};
ghost use Rattle.std.specs.Str.{chars, IsUtf8};
ghost use Rattle.reading.specs.Characters.{is_digit, is_hexadecimal_digit};
ghost use Rattle.reading.specs.Reading.{Reads, begins, past_one};
ghost use Rattle.css_definitions.specs.SheetCharacters.{is_ident_start, is_ident_character};
ghost use Rattle.css_tokens.specs.Tokens.{blanks_at};
ghost use Rattle.css_tokens.specs.Urls.{past_blanks};

use reading::characters::{first_char, is_blank};

/// Whether the character is an ASCII digit.
pub fn is_digit(c: char) -> bool
    ensures digit { result ≡ is_digit c }
{
    c.is_ascii_digit()
}

pub(crate) fn is_hexadecimal_digit(c: char) -> bool
    ensures { result ≡ is_hexadecimal_digit c }
{
    is_digit(c) || (c >= 'A' && c <= 'F') || (c >= 'a' && c <= 'f')
}

pub(crate) fn is_ident_start(c: char) -> bool
    ensures { result ≡ is_ident_start c }
{
    c.is_ascii_lowercase() || c.is_ascii_uppercase() || c >= '\u{80}' || c == '_'
}

pub(crate) fn is_ident_character(c: char) -> bool
    ensures { result ≡ is_ident_character c }
{
    is_ident_start(c) || is_digit(c) || c == '-'
}

/// Whether this character stands at the front.
pub fn begins(wanted: char, text: &str) -> bool
    ensures front { result ≡ begins wanted (chars text.now) }
{
    match first_char(text) {
        Some((first, _)) => first == wanted,
        None => false,
    }
}

/// The text without its first character.
pub fn past_one(text: &str) -> &str
    ensures gives { past_one (chars text.now) ≡ chars result.now }
    ensures text { IsUtf8 result.now }
{
    match first_char(text) {
        Some((_, rest)) => rest,
        None => text,
    }
}

/// The text after the blanks at its front.
#[tactic(auto, unfolding(reading::specs::Reading::span))]
pub fn past_blanks(text: &str) -> &str
    ensures gives { past_blanks (chars text.now) ≡ chars result.now }
    ensures text { IsUtf8 result.now }
{
    let mut rest = text;
    'blanks: while let Some((first, after)) = first_char(rest) {
        if !is_blank(first) {
            break;
        }
        rest = after;
    }
    rest
}

/// The text after one blank or more.
pub(crate) fn blanks(text: &str) -> Option<&str>
    ensures gives { Reads (λ x. chars x.now) result (blanks_at (chars text.now)) }
    ensures text { IfSome result (λ x. IsUtf8 x.now) }
{
    let (first, rest) = first_char(text)?;
    if is_blank(first) {
        Some(past_blanks(rest))
    } else {
        None
    }
}
