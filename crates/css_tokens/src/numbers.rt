//! Numbers, percentages and dimensions; and signs and digits alone, which other notations have too.

ghost use Rattle.std.specs.Prelude.{◌≡◌, ◌-◌, ◌^◌, min, IfSome};
ghost use Rattle.std.specs.Str.{chars, IsUtf8};
ghost use Rattle.std.specs.Str.Parse.{digits_value};
ghost use Rattle.reading.specs.Characters.{is_digit};
ghost use Rattle.reading.specs.Reading.{Reads, span};
ghost use Rattle.css_tokens.specs.Numbers.{sign_at, saturated, saturated_at, integer_at, fraction_at, exponent_at, number_end, after_fraction, after_digits, number_at};

use crate::characters::{begins, is_digit, past_one};
use crate::identifiers::{digit_value, past_ident_sequence, starts_identifier};
use crate::token::TokenKind;
use plain_types::count::{COUNT_HIGH, COUNT_LOW, Count};
use reading::characters::{first_char, past_character};

/// Whether a `-` stands at the front, and the text after an optional sign.
pub fn sign(text: &str) -> (bool, &str)
    ensures gives { sign_at (chars text.now) ≡ (result.0, chars result.1.now) }
    ensures text { IsUtf8 result.1.now }
{
    let Some((first, rest)) = first_char(text) else {
        return (false, text);
    };
    if first == '-' {
        (true, rest)
    } else if first == '+' {
        (false, rest)
    } else {
        (false, text)
    }
}

/// The number of the digits at the front, and the text after them.
fn digit_run(text: &str) -> (u64, &str)
    ensures number { result.0 ≡ min (digits_value 10 (span is_digit (chars text.now)).0) (2 ^ 64 - 1) }
    ensures rest { chars result.1.now ≡ (span is_digit (chars text.now)).1 }
    ensures text { IsUtf8 result.1.now }
{
    let mut number: u64 = 0;
    let mut rest = text;
    'digits: while let Some((first, after)) = first_char(rest) {
        if !is_digit(first) {
            break;
        }
        number = number.saturating_mul(10).saturating_add(digit_value(first));
        rest = after;
    }
    (number, rest)
}

/// The nearest count.
fn saturated(negative: bool, number: u64) -> Count
    ensures { result ≡ saturated negative number }
{
    let magnitude = i128::from(number);
    let value = if negative { -magnitude } else { magnitude };
    value.clamp(i128::from(COUNT_LOW), i128::from(COUNT_HIGH)) as Count
}

/// The count that is nearest to the number of one digit or more with this sign, and the text after them.
#[tactic(auto, using(crate::proofs::Digits::saturated_digits))]
pub fn digits(negative: bool, text: &str) -> Option<(Count, &str)>
    ensures gives { Reads (λ x. (x.0, chars x.1.now)) result (saturated_at negative (chars text.now)) }
    ensures text { IfSome result (λ x. IsUtf8 x.1.now) }
{
    let (first, _) = first_char(text)?;
    if !is_digit(first) {
        return None;
    }
    let (number, rest) = digit_run(text);
    Some((saturated(negative, number), rest))
}

/// The count that is nearest to an integer: an optional sign and one digit or more; and the text after it.
pub fn integer(text: &str) -> Option<(Count, &str)>
    ensures gives { Reads (λ x. (x.0, chars x.1.now)) result (integer_at (chars text.now)) }
    ensures text { IfSome result (λ x. IsUtf8 x.1.now) }
{
    let (negative, start) = sign(text);
    digits(negative, start)
}

/// The text after a point and digits.
fn fraction(text: &str) -> Option<&str>
    ensures gives { Reads (λ x. chars x.now) result (fraction_at (chars text.now)) }
    ensures text { IfSome result (λ x. IsUtf8 x.now) }
{
    let rest = past_character('.', text)?;
    let (_, rest) = digits(false, rest)?;
    Some(rest)
}

/// The text after an exponent.
fn exponent(text: &str) -> Option<&str>
    ensures gives { Reads (λ x. chars x.now) result (exponent_at (chars text.now)) }
    ensures text { IfSome result (λ x. IsUtf8 x.now) }
{
    let (first, after) = first_char(text)?;
    if first == 'e' || first == 'E' {
        let (_, rest) = sign(after);
        let (_, rest) = digits(false, rest)?;
        Some(rest)
    } else {
        None
    }
}

/// The token of a number that ends here, and the text after it.
fn number_end(whole: bool, value: Count, text: &str) -> (TokenKind, &str)
    ensures gives { number_end whole value (chars text.now) ≡ (result.0, chars result.1.now) }
    ensures text { IsUtf8 result.1.now }
{
    if starts_identifier(text) {
        (TokenKind::Dimension, past_ident_sequence(text))
    } else if begins('%', text) {
        (TokenKind::Percentage, past_one(text))
    } else {
        (TokenKind::Number { whole, value }, text)
    }
}

fn after_fraction(whole: bool, value: Count, text: &str) -> (TokenKind, &str)
    ensures gives { after_fraction whole value (chars text.now) ≡ (result.0, chars result.1.now) }
    ensures text { IsUtf8 result.1.now }
{
    match exponent(text) {
        Some(rest) => number_end(false, 0, rest),
        None => number_end(whole, value, text),
    }
}

fn after_digits(value: Count, text: &str) -> (TokenKind, &str)
    ensures gives { after_digits value (chars text.now) ≡ (result.0, chars result.1.now) }
    ensures text { IsUtf8 result.1.now }
{
    match fraction(text) {
        Some(rest) => after_fraction(false, 0, rest),
        None => after_fraction(true, value, text),
    }
}

/// The numeric token at the front, and the text after it.
#[tactic(auto, unfolding(crate::specs::Numbers::number_at))]
pub(crate) fn number(text: &str) -> Option<(TokenKind, &str)>
    ensures gives { Reads (λ x. (x.0, chars x.1.now)) result (number_at (chars text.now)) }
    ensures text { IfSome result (λ x. IsUtf8 x.1.now) }
{
    let (negative, start) = sign(text);
    if let Some((value, rest)) = digits(negative, start) {
        return Some(after_digits(value, rest));
    }
    let rest = fraction(start)?;
    Some(after_fraction(false, 0, rest))
}
