//! Identifiers, functions and addresses.

ghost use Rattle.std.specs.Prelude.{◌≡◌, IfSome, IfOk};
ghost use Rattle.std.specs.Str.{chars, IsUtf8};
ghost use Rattle.reading.specs.Reading.{Reads, run_at};
ghost use Rattle.css_definitions.specs.SheetCharacters.{is_non_printable};
ghost use Rattle.css_tokens.specs.Urls.{is_url_character, url_character_at, bad_url_character_at, past_bad_url, url_end, url_at, begins_quote, function_or_url, named_of, named_at, at_keyword_at};

use crate::characters::{begins, past_blanks, past_one};
use crate::identifiers::{escape, identifier};
use crate::token::TokenKind;
use crate::token_text::TokenText;
use crate::words::is_word;
use plain_types::memory::Memory;
use plain_types::text::Text;
use reading::characters::{first_char, is_blank, is_quote, past_character};
use std::alloc::Global;

fn is_non_printable(c: char) -> bool
    ensures { result ≡ is_non_printable c }
{
    c <= '\u{8}' || c == '\u{b}' || (c >= '\u{e}' && c <= '\u{1f}') || c == '\u{7f}'
}

fn is_url_character(c: char) -> bool
    ensures { result ≡ is_url_character c }
{
    !(is_blank(c) || is_quote(c) || c == '(' || c == ')' || c == '\\' || is_non_printable(c))
}

/// A character of an address, and the text after it.
#[tactic(auto, unfolding(crate::specs::Urls::url_character_at))]
fn url_character(text: &str) -> Option<(char, &str)>
    ensures gives { Reads (λ x. (x.0, chars x.1.now)) result (url_character_at (chars text.now)) }
    ensures text { IfSome result (λ x. IsUtf8 x.1.now) }
{
    let (first, after) = first_char(text)?;
    if first == '\\' {
        escape(after)
    } else if is_url_character(first) {
        Some((first, after))
    } else {
        None
    }
}

/// The characters of an address, and the text after them.
fn url_value(alloc: Global, text: &str) -> Result<(TokenText, &str), Memory>
    ensures gives { IfOk result (λ x. run_at url_character_at (chars text.now) ≡ (x.0, chars x.1.now)) }
    ensures text { IfOk result (λ x. IsUtf8 x.1.now) }
{
    let mut value = Text::new(alloc);
    let mut rest = text;
    'pieces: while let Some((c, after)) = url_character(rest) {
        value.push(c)?;
        rest = after;
    }
    Ok((TokenText::new(alloc, value)?, rest))
}

/// A character of an address that is bad, and the text after it.
#[tactic(auto, unfolding(crate::specs::Urls::bad_url_character_at))]
fn bad_url_character(text: &str) -> Option<(char, &str)>
    ensures gives { Reads (λ x. (x.0, chars x.1.now)) result (bad_url_character_at (chars text.now)) }
    ensures text { IfSome result (λ x. IsUtf8 x.1.now) }
{
    let (first, after) = first_char(text)?;
    if first == ')' {
        return None;
    }
    if first == '\\' {
        if let Some(escaped) = escape(after) {
            return Some(escaped);
        }
    }
    Some((first, after))
}

/// The text after the `)` that ends a bad address.
fn past_bad_url(text: &str) -> &str
    ensures gives { past_bad_url (chars text.now) ≡ chars result.now }
    ensures text { IsUtf8 result.now }
{
    let mut rest = text;
    'pieces: while let Some((_, after)) = bad_url_character(rest) {
        rest = after;
    }
    past_one(rest)
}

/// The address whose characters are read: what stands after them ends it or makes it bad.
fn url_end(value: TokenText, text: &str) -> (TokenKind, &str)
    ensures gives { url_end value (chars text.now) ≡ (result.0, chars result.1.now) }
    ensures text { IsUtf8 result.1.now }
{
    match first_char(text) {
        None => (TokenKind::Url(value), text),
        Some((first, rest)) => {
            if first == ')' {
                (TokenKind::Url(value), rest)
            } else {
                (TokenKind::BadUrl, past_bad_url(text))
            }
        }
    }
}

/// The address that stands after `url(`, and the text after it.
#[tactic(auto, unfolding(crate::specs::Urls::url_at))]
fn url(alloc: Global, text: &str) -> Result<(TokenKind, &str), Memory>
    ensures gives { IfOk result (λ x. url_at (chars text.now) ≡ (x.0, chars x.1.now)) }
    ensures text { IfOk result (λ x. IsUtf8 x.1.now) }
{
    let (value, rest) = url_value(alloc, past_blanks(text))?;
    Ok(url_end(value, past_blanks(rest)))
}

fn begins_quote(text: &str) -> bool
    ensures { result ≡ begins_quote (chars text.now) }
{
    match first_char(text) {
        Some((first, _)) => is_quote(first),
        None => false,
    }
}

/// The function or address of this name, and the text after it, which begins after the `(`.
fn function(alloc: Global, name: TokenText, text: &str) -> Result<(TokenKind, &str), Memory>
    ensures gives { IfOk result (λ x. function_or_url name (chars text.now) ≡ (x.0, chars x.1.now)) }
    ensures text { IfOk result (λ x. IsUtf8 x.1.now) }
{
    if is_word(name.as_str(), "url") && !begins_quote(past_blanks(text)) {
        url(alloc, text)
    } else {
        Ok((TokenKind::Function(name), text))
    }
}

/// The identifier, function or address at the front, and the text after it.
#[tactic(auto, unfolding(crate::specs::Urls::named_at))]
pub(crate) fn named(alloc: Global, text: &str) -> Result<Option<(TokenKind, &str)>, Memory>
    ensures gives { IfOk result (λ r. Reads (λ x. (x.0, chars x.1.now)) r (named_at (chars text.now))) }
    ensures text { IfOk result (λ r. IfSome r (λ x. IsUtf8 x.1.now)) }
{
    let Some((name, rest)) = identifier(alloc, text)? else {
        return Ok(None);
    };
    if begins('(', rest) {
        Ok(Some(function(alloc, name, past_one(rest))?))
    } else {
        Ok(Some((TokenKind::Word(name), rest)))
    }
}

/// The at-keyword at the front, and the text after it.
#[tactic(auto, unfolding(crate::specs::Urls::at_keyword_at))]
pub(crate) fn at_keyword(alloc: Global, text: &str) -> Result<Option<(TokenKind, &str)>, Memory>
    ensures gives { IfOk result (λ r. Reads (λ x. (x.0, chars x.1.now)) r (at_keyword_at (chars text.now))) }
    ensures text { IfOk result (λ r. IfSome r (λ x. IsUtf8 x.1.now)) }
{
    let Some(after) = past_character('@', text) else {
        return Ok(None);
    };
    let Some((name, rest)) = identifier(alloc, after)? else {
        return Ok(None);
    };
    Ok(Some((TokenKind::AtKeyword(name), rest)))
}
