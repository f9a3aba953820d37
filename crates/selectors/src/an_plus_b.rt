//! The An+B notation (CSS Syntax 3, 6), read from the source text of the argument.

ghost use Rattle.std.specs.Prelude.{◌≡◌, ◌∷◌, true, false, MatchOption, IfOk, IfSome, codes, flat_map};
ghost use Rattle.std.specs.Str.{chars, IsUtf8};
ghost use Rattle.reading.specs.Reading.{Reads, past_text, run_at};
ghost use Rattle.reading.specs.Characters.{is_ascii};
ghost use Rattle.selectors.specs.AnPlusB.{only_blanks_after, written_sign_at, nearest_i32, signed_at, or_one, n_at, offset_at, odd_or_even, b_alone, a_and_b, an_plus_b_value, source_value, slice, argument_token_at, an_plus_b_at};

use css_tokens::characters::past_blanks;
use css_tokens::numbers::{digits, sign};
use css_tokens::token::{Token, TokenKind};
use css_tokens::token_reading::close;
use plain_types::count::Count;
use plain_types::memory::Memory;
use reading::characters::{first_char, past_character};
use std::alloc::Global;

/// The positions `a` times k plus `b`, for k from 0.
#[derive(Clone, Copy)]
pub(crate) struct AnPlusB {
    pub a: i32,
    pub b: i32,
}

/// What was read, where nothing but blanks is left.
fn only_blanks_after(a: i32, b: i32, text: &str) -> Option<AnPlusB>
    ensures { result ≡ only_blanks_after (record { a = a; b = b }) (chars text.now) }
{
    match first_char(past_blanks(text)) {
        None => Some(AnPlusB { a, b }),
        Some(_) => None,
    }
}

/// Whether the sign at the front is a `-`, and the text after it.
fn written_sign(text: &str) -> Option<(bool, &str)>
    ensures gives { Reads (λ x. (x.0, chars x.1.now)) result (written_sign_at (chars text.now)) }
    ensures text { IfSome result (λ x. IsUtf8 x.1.now) }
{
    let (first, rest) = first_char(text)?;
    if first == '-' {
        Some((true, rest))
    } else if first == '+' {
        Some((false, rest))
    } else {
        None
    }
}

/// The nearest number of 32 bits.
fn nearest_i32(count: Count) -> i32
    ensures { result ≡ nearest_i32 count }
{
    count.clamp(Count::from(i32::MIN), Count::from(i32::MAX)) as i32
}

/// The number of digits after a sign.
#[tactic(auto, using(crate::proofs::Numbering::signed_some, crate::proofs::Numbering::signed_none))]
fn signed(negative: bool, text: &str) -> Option<(i32, &str)>
    ensures gives { Reads (λ x. (x.0, chars x.1.now)) result (signed_at (negative, chars text.now)) }
    ensures text { IfSome result (λ x. IsUtf8 x.1.now) }
{
    let (count, rest) = digits(negative, text)?;
    Some((nearest_i32(count), rest))
}

/// The number of the digits after a sign, or of 1 where there are none.
fn signed_or_one(negative: bool, text: &str) -> (i32, &str)
    ensures gives { or_one (negative, chars text.now) (signed_at (negative, chars text.now)) ≡ (result.0, chars result.1.now) }
    ensures text { IsUtf8 result.1.now }
{
    match signed(negative, text) {
        Some((number, rest)) => (number, rest),
        None => (if negative { -1 } else { 1 }, text),
    }
}

/// `n` after a sign and perhaps digits.
fn n(negative: bool, text: &str) -> Option<(i32, &str)>
    ensures gives { Reads (λ x. (x.0, chars x.1.now)) result (n_at (negative, chars text.now)) }
    ensures text { IfSome result (λ x. IsUtf8 x.1.now) }
{
    let (number, rest) = signed_or_one(negative, text);
    let rest = past_character('n', rest)?;
    Some((number, rest))
}

/// Blanks, a sign, blanks and digits.
fn offset(text: &str) -> Option<(i32, &str)>
    ensures gives { Reads (λ x. (x.0, chars x.1.now)) result (offset_at (chars text.now)) }
    ensures text { IfSome result (λ x. IsUtf8 x.1.now) }
{
    let (negative, rest) = written_sign(past_blanks(text))?;
    signed(negative, past_blanks(rest))
}

fn past_odd(text: &str) -> Option<&str>
    ensures gives { Reads (λ x. chars x.now) result (past_text (codes "odd") (chars text.now)) }
    ensures text { IfSome result (λ x. IsUtf8 x.now) }
{
    past_character('d', past_character('d', past_character('o', text)?)?)
}

fn past_even(text: &str) -> Option<&str>
    ensures gives { Reads (λ x. chars x.now) result (past_text (codes "even") (chars text.now)) }
    ensures text { IfSome result (λ x. IsUtf8 x.now) }
{
    past_character(
        'n',
        past_character('e', past_character('v', past_character('e', text)?)?)?,
    )
}

/// `odd | even`
fn odd_or_even(text: &str) -> Option<AnPlusB>
    ensures { result ≡ odd_or_even (chars text.now) }
{
    if let Some(rest) = past_odd(text) {
        return only_blanks_after(2, 1, rest);
    }
    let rest = past_even(text)?;
    only_blanks_after(2, 0, rest)
}

/// `<integer>`
fn b_alone(text: &str) -> Option<AnPlusB>
    ensures { result ≡ b_alone (chars text.now) }
{
    let (negative, start) = sign(text);
    let (b, rest) = signed(negative, start)?;
    only_blanks_after(0, b, rest)
}

/// `<n-dimension> [ ['+' | '-'] <signless-integer> ]?`
fn a_and_b(text: &str) -> Option<AnPlusB>
    ensures { result ≡ a_and_b (chars text.now) }
{
    let (negative, start) = sign(text);
    let (a, rest) = n(negative, start)?;
    if let Some(found) = only_blanks_after(a, 0, rest) {
        return Some(found);
    }
    let (b, rest) = offset(rest)?;
    only_blanks_after(a, b, rest)
}

/// The meaning of the text, blanks at its ends left out.
#[tactic(auto, unfolding(crate::specs::AnPlusB::an_plus_b_value))]
fn an_plus_b_value(text: &str) -> Option<AnPlusB>
    ensures { result ≡ an_plus_b_value (chars text.now) }
{
    let start = past_blanks(text);
    if let Some(found) = odd_or_even(start) {
        return Some(found);
    }
    if let Some(found) = b_alone(start) {
        return Some(found);
    }
    a_and_b(start)
}

/// The bytes of the token.
fn slice<'a>(text: &'a str, token: &Token) -> &'a [u8]
    ensures { result.now ≡ slice text.now token.now }
{
    let rest = text.as_bytes().get(token.start as usize..).unwrap_or(&[]);
    let length = token.end.saturating_sub(token.start) as usize;
    rest.get(..length).unwrap_or(rest)
}

/// The source text of the tokens before the first `)`, and the tokens from that on.
fn argument<'a>(
    alloc: Global,
    text: &str,
    tokens: &'a [Token],
) -> Result<(Vec<u8>, &'a [Token]), Memory>
    ensures text { IfOk result (λ x. x.0.items ≡ flat_map (slice text.now) (run_at argument_token_at tokens.now).0) }
    ensures rest { IfOk result (λ x. x.1.now ≡ (run_at argument_token_at tokens.now).1) }
{
    let mut bytes = Vec::new(alloc);
    let mut rest = tokens;
    'pieces: while let Some((token, after)) = argument_token(rest) {
        bytes.extend_from_slice(slice(text, token))?;
        rest = after;
    }
    Ok((bytes, rest))
}

/// A token before the first `)`.
fn argument_token(tokens: &[Token]) -> Option<(&Token, &[Token])>
    ensures { Reads (λ x. (x.0.now, x.1.now)) result (argument_token_at tokens.now) }
{
    let (token, rest) = tokens.split_first()?;
    match &token.kind {
        TokenKind::Sign(')') => None,
        _ => Some((token, rest)),
    }
}

/// The text of these bytes, where all of them are ASCII.
fn ascii_text(bytes: &[u8]) -> Option<&str>
    ensures text { MatchOption result (is_ascii bytes.now ≡ false) (λ text. (is_ascii bytes.now ≡ true) × (chars text.now ≡ bytes.now) × IsUtf8 text.now) }
{
    if !bytes.is_ascii() {
        return None;
    }
    match std::str::from_utf8(bytes) {
        Ok(text) => Some(text),
        Err(_) => None,
    }
}

/// The meaning of the source text of an argument.
fn source_value(bytes: &[u8]) -> Option<AnPlusB>
    ensures { result ≡ source_value bytes.now }
{
    an_plus_b_value(ascii_text(bytes)?)
}

/// What stands after `:nth-child(` and its kin, with the end of the function.
#[tactic(auto, unfolding(crate::specs::AnPlusB::an_plus_b_at))]
pub(crate) fn an_plus_b<'a>(
    alloc: Global,
    text: &str,
    tokens: &'a [Token],
) -> Result<Option<(AnPlusB, &'a [Token])>, Memory>
    ensures { IfOk result (λ r. Reads (λ x. (x.0, x.1.now)) r (an_plus_b_at text.now tokens.now)) }
{
    let (mut bytes, rest) = argument(alloc, text, tokens)?;
    bytes.make_ascii_lowercase();
    let Some(value) = source_value(bytes.as_slice()) else {
        return Ok(None);
    };
    match close(')', rest) {
        Some(end) => Ok(Some((value, end))),
        None => Ok(None),
    }
}
