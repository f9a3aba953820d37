//! Escapes and identifiers.

ghost use Rattle.std.specs.Prelude.{◌≡◌, ◌-◌, ◌^◌, min, IfSome, IfOk, IsTrue};
ghost use Rattle.std.specs.Char.{digit_value};
ghost use Rattle.std.specs.Str.{chars, IsUtf8};
ghost use Rattle.std.specs.Str.Parse.{digits_value};
ghost use Rattle.reading.specs.Reading.{Reads, span_of};
ghost use Rattle.reading.specs.Characters.{is_hexadecimal_digit};
ghost use Rattle.css_definitions.specs.Identifiers.{character_of, past_blank, escape_at, is_escape, ident_character_at, ident_sequence_at, starts_letter, starts_identifier, identifier_at};

use crate::characters::{
    begins, is_digit, is_hexadecimal_digit, is_ident_character, is_ident_start,
};
use crate::token_text::TokenText;
use plain_types::memory::Memory;
use plain_types::text::Text;
use reading::characters::{first_char, is_blank};
use std::alloc::Global;

/// The number of a hexadecimal digit.
pub(crate) fn digit_value(c: char) -> u64
    requires { IsTrue (is_hexadecimal_digit c) }
    ensures { result ≡ digit_value c }
{
    if is_digit(c) {
        c as u64 - '0' as u64
    } else if c.is_ascii_lowercase() {
        c as u64 - 'a' as u64 + 10
    } else {
        c as u64 - 'A' as u64 + 10
    }
}

/// The number of at most six hexadecimal digits, and the text after them.
fn hex_digits(text: &str) -> (u64, &str)
    ensures number { result.0 ≡ min (digits_value 16 (span_of 6 is_hexadecimal_digit (chars text.now)).0) (2 ^ 64 - 1) }
    ensures rest { chars result.1.now ≡ (span_of 6 is_hexadecimal_digit (chars text.now)).1 }
    ensures text { IsUtf8 result.1.now }
{
    let mut number: u64 = 0;
    let mut rest = text;
    let mut most: usize = 6;
    'digits: while most > 0 {
        let Some((first, after)) = first_char(rest) else {
            break;
        };
        if !is_hexadecimal_digit(first) {
            break;
        }
        number = number.saturating_mul(16).saturating_add(digit_value(first));
        rest = after;
        most -= 1;
    }
    (number, rest)
}

/// The character of this code point, or U+FFFD where an escape may not name it.
fn character_of(number: u64) -> char
    ensures { result ≡ character_of number }
{
    if number == 0 || number > 0x10_ffff {
        return '\u{fffd}';
    }
    match char::from_u32(number as u32) {
        Some(c) => c,
        None => '\u{fffd}',
    }
}

/// The text after one blank, if it stands at the front.
fn past_blank(text: &str) -> &str
    ensures gives { past_blank (chars text.now) ≡ chars result.now }
    ensures text { IsUtf8 result.now }
{
    match first_char(text) {
        Some((first, rest)) if is_blank(first) => rest,
        _ => text,
    }
}

/// The character that a `\` before this text escapes, and the text after it.
#[tactic(auto, unfolding(css_definitions::specs::Identifiers::escape_at))]
pub(crate) fn escape(text: &str) -> Option<(char, &str)>
    ensures gives { Reads (λ x. (x.0, chars x.1.now)) result (escape_at (chars text.now)) }
    ensures text { IfSome result (λ x. IsUtf8 x.1.now) }
{
    let Some((first, after)) = first_char(text) else {
        return Some(('\u{fffd}', text));
    };
    if first == '\n' {
        None
    } else if is_hexadecimal_digit(first) {
        let (number, rest) = hex_digits(text);
        Some((character_of(number), past_blank(rest)))
    } else {
        Some((first, after))
    }
}

/// Whether a `\` before this text begins an escape.
fn is_escape(text: &str) -> bool
    ensures { result ≡ is_escape (chars text.now) }
{
    match first_char(text) {
        Some((first, _)) => first != '\n',
        None => true,
    }
}

/// A character of an identifier, and the text after it.
#[tactic(auto, unfolding(css_definitions::specs::Identifiers::ident_character_at))]
pub(crate) fn ident_character(text: &str) -> Option<(char, &str)>
    ensures gives { Reads (λ x. (x.0, chars x.1.now)) result (ident_character_at (chars text.now)) }
    ensures text { IfSome result (λ x. IsUtf8 x.1.now) }
{
    let (first, after) = first_char(text)?;
    if is_ident_character(first) {
        Some((first, after))
    } else if first == '\\' {
        escape(after)
    } else {
        None
    }
}

/// The longest run of identifier characters at the front, and the text after it.
pub(crate) fn ident_sequence(alloc: Global, text: &str) -> Result<(TokenText, &str), Memory>
    ensures gives { IfOk result (λ x. ident_sequence_at (chars text.now) ≡ (x.0, chars x.1.now)) }
    ensures text { IfOk result (λ x. IsUtf8 x.1.now) }
{
    let mut name = Text::new(alloc);
    let mut rest = text;
    'pieces: while let Some((c, after)) = ident_character(rest) {
        name.push(c)?;
        rest = after;
    }
    Ok((TokenText::new(alloc, name)?, rest))
}

/// The text after the longest run of identifier characters at its front.
pub(crate) fn past_ident_sequence(text: &str) -> &str
    ensures gives { (ident_sequence_at (chars text.now)).1 ≡ chars result.now }
    ensures text { IsUtf8 result.now }
{
    let mut rest = text;
    'pieces: while let Some((_, after)) = ident_character(rest) {
        rest = after;
    }
    rest
}

/// Whether an escape or a character that an identifier may start with stands at the front.
fn starts_letter(text: &str) -> bool
    ensures { result ≡ starts_letter (chars text.now) }
{
    let Some((first, rest)) = first_char(text) else {
        return false;
    };
    is_ident_start(first) || (first == '\\' && is_escape(rest))
}

/// Whether the text starts with an identifier.
pub(crate) fn starts_identifier(text: &str) -> bool
    ensures { result ≡ starts_identifier (chars text.now) }
{
    let Some((first, rest)) = first_char(text) else {
        return false;
    };
    if first == '-' {
        starts_letter(rest) || begins('-', rest)
    } else {
        starts_letter(text)
    }
}

/// The identifier at the front, and the text after it.
pub(crate) fn identifier(alloc: Global, text: &str) -> Result<Option<(TokenText, &str)>, Memory>
    ensures gives { IfOk result (λ r. Reads (λ x. (x.0, chars x.1.now)) r (identifier_at (chars text.now))) }
    ensures text { IfOk result (λ r. IfSome r (λ x. IsUtf8 x.1.now)) }
{
    if starts_identifier(text) {
        Ok(Some(ident_sequence(alloc, text)?))
    } else {
        Ok(None)
    }
}
