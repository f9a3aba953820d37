//! Addresses, and the functions of `content` that look at a target.

ghost use Rattle.std.specs.Prelude.{◌≡◌, IfOk, IsTrue};
ghost use Rattle.std.specs.Str.{chars};
ghost use Rattle.reading.specs.Reading.{Reads};
ghost use Rattle.reading.specs.Characters.{is_ascii};
ghost use Rattle.css_values.specs.Parts.{solid};
ghost use Rattle.css_values.specs.Contents.{attr_name_at, attr_at, attr_url_at, url_token_at, url_function_at, address_at, url_at, name_between_at, target_at, target_counter_at, target_counters_at, part_word, last_part_at, target_text_at};

use crate::parts::{name, next, past_close, past_comma, past_function, past_keyword, string, word};
use crate::styles::last_style;
use css_tokens::token::{Token, TokenKind};
use css_tokens::words::is_word;
use plain_types::content::{Item, Part, Url};
use plain_types::duplicate::Duplicate;
use plain_types::memory::Memory;
use plain_types::text::Text;
use std::alloc::Global;

/// `attr( <name>`: the name is any identifier.
fn attr_name(tokens: &[Token]) -> Option<(&Text, &[Token])>
    ensures { Reads (λ x. (x.0.now, solid x.1.now)) result (attr_name_at (solid tokens.now)) }
{
    word(past_function("attr", tokens)?)
}

/// `attr( <name> )`
#[tactic(auto, unfolding(crate::specs::Contents::attr_at))]
pub(crate) fn attr(tokens: &[Token]) -> Option<(&Text, &[Token])>
    ensures { Reads (λ x. (x.0.now, solid x.1.now)) result (attr_at (solid tokens.now)) }
{
    let (name, rest) = attr_name(tokens)?;
    let end = past_close(rest)?;
    Some((name, end))
}

/// `attr( <name> ) | attr( <name> url )`
#[tactic(auto, unfolding(crate::specs::Contents::attr_url_at))]
fn attr_url(tokens: &[Token]) -> Option<(&Text, &[Token])>
    ensures { Reads (λ x. (x.0.now, solid x.1.now)) result (attr_url_at (solid tokens.now)) }
{
    if let Some(found) = attr(tokens) {
        return Some(found);
    }
    let (name, rest) = attr_name(tokens)?;
    let end = past_close(past_keyword("url", rest)?)?;
    Some((name, end))
}

fn url_token(tokens: &[Token]) -> Option<(&Text, &[Token])>
    ensures { Reads (λ x. (x.0.now, solid x.1.now)) result (url_token_at (solid tokens.now)) }
{
    let (kind, rest) = next(tokens)?;
    match kind {
        TokenKind::Url(value) => Some((value.as_text(), rest)),
        _ => None,
    }
}

/// `url( <string> )`
fn url_function(tokens: &[Token]) -> Option<(&Text, &[Token])>
    ensures { Reads (λ x. (x.0.now, solid x.1.now)) result (url_function_at (solid tokens.now)) }
{
    let (value, rest) = string(past_function("url", tokens)?)?;
    let end = past_close(rest)?;
    Some((value, end))
}

/// `<string> | <url>`
#[tactic(auto, unfolding(crate::specs::Contents::address_at))]
fn address(tokens: &[Token]) -> Option<(&Text, &[Token])>
    ensures { Reads (λ x. (x.0.now, solid x.1.now)) result (address_at (solid tokens.now)) }
{
    if let Some(found) = string(tokens) {
        return Some(found);
    }
    if let Some(found) = url_token(tokens) {
        return Some(found);
    }
    url_function(tokens)
}

/// `<string> | <url> | attr( <name> ) | attr( <name> url )`
#[tactic(auto, unfolding(crate::specs::Contents::url_at))]
fn url(alloc: Global, tokens: &[Token]) -> Result<Option<(Url, &[Token])>, Memory>
    ensures { IfOk result (λ r. Reads (λ x. (x.0, solid x.1.now)) r (url_at (solid tokens.now))) }
{
    if let Some((value, rest)) = address(tokens) {
        return Ok(Some((Url::Given(value.duplicate(alloc)?), rest)));
    }
    match attr_url(tokens) {
        Some((name, rest)) => Ok(Some((Url::FromAttr(name.duplicate(alloc)?), rest))),
        None => Ok(None),
    }
}

/// `<counter-name> , <string>`
#[tactic(auto, unfolding(crate::specs::Contents::name_between_at))]
pub(crate) fn name_between(tokens: &[Token]) -> Option<(&Text, &Text, &[Token])>
    ensures { Reads (λ x. ((x.0.now, x.1.now), solid x.2.now)) result (name_between_at (solid tokens.now)) }
{
    let (name, rest) = name(tokens)?;
    let (between, rest) = string(past_comma(rest)?)?;
    Some((name, between, rest))
}

/// The address with which a target function of this name begins.
fn target<'a>(
    alloc: Global,
    function: &str,
    tokens: &'a [Token],
) -> Result<Option<(Url, &'a [Token])>, Memory>
    requires { IsTrue (is_ascii function.now) }
    ensures { IfOk result (λ r. Reads (λ x. (x.0, solid x.1.now)) r (target_at function.now (solid tokens.now))) }
{
    let Some(rest) = past_function(function, tokens) else {
        return Ok(None);
    };
    url(alloc, rest)
}

/// `target-counter( <url> , <counter-name> [, <counter-style> ]? )`
#[tactic(auto, unfolding(crate::specs::Contents::target_counter_at))]
pub(crate) fn target_counter(
    alloc: Global,
    tokens: &[Token],
) -> Result<Option<(Item, &[Token])>, Memory>
    ensures { IfOk result (λ r. Reads (λ x. (x.0, solid x.1.now)) r (target_counter_at (solid tokens.now))) }
{
    let Some((url, rest)) = target(alloc, "target-counter", tokens)? else {
        return Ok(None);
    };
    let Some(rest) = past_comma(rest) else {
        return Ok(None);
    };
    let Some((name, rest)) = name(rest) else {
        return Ok(None);
    };
    let Some((style, end)) = last_style(alloc, rest)? else {
        return Ok(None);
    };
    let name = name.duplicate(alloc)?;
    Ok(Some((Item::TargetCounter { url, name, style }, end)))
}

/// `target-counters( <url> , <counter-name> , <string> [, <counter-style> ]? )`
#[tactic(auto, unfolding(crate::specs::Contents::target_counters_at))]
pub(crate) fn target_counters(
    alloc: Global,
    tokens: &[Token],
) -> Result<Option<(Item, &[Token])>, Memory>
    ensures { IfOk result (λ r. Reads (λ x. (x.0, solid x.1.now)) r (target_counters_at (solid tokens.now))) }
{
    let Some((url, rest)) = target(alloc, "target-counters", tokens)? else {
        return Ok(None);
    };
    let Some(rest) = past_comma(rest) else {
        return Ok(None);
    };
    let Some((name, between, rest)) = name_between(rest) else {
        return Ok(None);
    };
    let Some((style, end)) = last_style(alloc, rest)? else {
        return Ok(None);
    };
    let name = name.duplicate(alloc)?;
    let between = between.duplicate(alloc)?;
    Ok(Some((
        Item::TargetCounters {
            url,
            name,
            between,
            style,
        },
        end,
    )))
}

/// `content | before | after`
fn part_word(word: &str) -> Option<Part>
    ensures { result ≡ part_word (chars word.now) }
{
    if is_word(word, "content") {
        Some(Part::Content)
    } else if is_word(word, "before") {
        Some(Part::Before)
    } else if is_word(word, "after") {
        Some(Part::After)
    } else {
        None
    }
}

/// `[, [ content | before | after ] ]?` and the end of the function
#[tactic(auto, unfolding(crate::specs::Contents::last_part_at))]
fn last_part(tokens: &[Token]) -> Option<(Part, &[Token])>
    ensures { Reads (λ x. (x.0, solid x.1.now)) result (last_part_at (solid tokens.now)) }
{
    let Some(rest) = past_comma(tokens) else {
        return Some((Part::Content, past_close(tokens)?));
    };
    let (word, rest) = word(rest)?;
    let part = part_word(word.as_str())?;
    let end = past_close(rest)?;
    Some((part, end))
}

/// `target-text( <url> [, [ content | before | after ] ]? )`
#[tactic(auto, unfolding(crate::specs::Contents::target_text_at))]
pub(crate) fn target_text(
    alloc: Global,
    tokens: &[Token],
) -> Result<Option<(Item, &[Token])>, Memory>
    ensures { IfOk result (λ r. Reads (λ x. (x.0, solid x.1.now)) r (target_text_at (solid tokens.now))) }
{
    let Some((url, rest)) = target(alloc, "target-text", tokens)? else {
        return Ok(None);
    };
    match last_part(rest) {
        Some((part, end)) => Ok(Some((Item::TargetText { url, part }, end))),
        None => Ok(None),
    }
}
