//! The value of `content`.

ghost use Rattle.std.specs.Prelude.{◌≡◌, IfOk};
ghost use Rattle.std.specs.Str.{chars};
ghost use Rattle.reading.specs.Reading.{Reads, run_at};
ghost use Rattle.css_values.specs.Parts.{solid, one_at};
ghost use Rattle.css_values.specs.Contents.{quote_word, quote_of, counter_at, counters_at, item_at, content_value};

use crate::combining::all;
use crate::parts::{is_alone, name, past_function, string, word};
use crate::styles::last_style;
use crate::targets::{attr, name_between, target_counter, target_counters, target_text};
use css_tokens::token::Token;
use css_tokens::words::is_word;
use plain_types::content::{Content, Item, QuoteKind};
use plain_types::duplicate::Duplicate;
use plain_types::list::List;
use plain_types::memory::Memory;
use std::alloc::Global;

/// `open-quote | close-quote | no-open-quote | no-close-quote`
fn quote_word(word: &str) -> Option<QuoteKind>
    ensures { result ≡ quote_word (chars word.now) }
{
    if is_word(word, "open-quote") {
        Some(QuoteKind::Open)
    } else if is_word(word, "close-quote") {
        Some(QuoteKind::Close)
    } else if is_word(word, "no-open-quote") {
        Some(QuoteKind::NoOpen)
    } else if is_word(word, "no-close-quote") {
        Some(QuoteKind::NoClose)
    } else {
        None
    }
}

fn quote(tokens: &[Token]) -> Option<(QuoteKind, &[Token])>
    ensures { Reads (λ x. (x.0, solid x.1.now)) result (one_at quote_of (solid tokens.now)) }
{
    let (word, rest) = word(tokens)?;
    let kind = quote_word(word.as_str())?;
    Some((kind, rest))
}

/// `counter( <counter-name> [, <counter-style> ]? )`
#[tactic(auto, unfolding(crate::specs::Contents::counter_at))]
fn counter(alloc: Global, tokens: &[Token]) -> Result<Option<(Item, &[Token])>, Memory>
    ensures { IfOk result (λ r. Reads (λ x. (x.0, solid x.1.now)) r (counter_at (solid tokens.now))) }
{
    let Some(rest) = past_function("counter", tokens) else {
        return Ok(None);
    };
    let Some((name, rest)) = name(rest) else {
        return Ok(None);
    };
    let Some((style, end)) = last_style(alloc, rest)? else {
        return Ok(None);
    };
    let name = name.duplicate(alloc)?;
    Ok(Some((Item::Counter { name, style }, end)))
}

/// `counters( <counter-name> , <string> [, <counter-style> ]? )`
#[tactic(auto, unfolding(crate::specs::Contents::counters_at))]
fn counters(alloc: Global, tokens: &[Token]) -> Result<Option<(Item, &[Token])>, Memory>
    ensures { IfOk result (λ r. Reads (λ x. (x.0, solid x.1.now)) r (counters_at (solid tokens.now))) }
{
    let Some(rest) = past_function("counters", tokens) else {
        return Ok(None);
    };
    let Some((name, between, rest)) = name_between(rest) else {
        return Ok(None);
    };
    let Some((style, end)) = last_style(alloc, rest)? else {
        return Ok(None);
    };
    let name = name.duplicate(alloc)?;
    let between = between.duplicate(alloc)?;
    Ok(Some((
        Item::Counters {
            name,
            between,
            style,
        },
        end,
    )))
}

/// `<string> | <quote> | attr() | <counter> | <target>`
#[tactic(auto, unfolding(crate::specs::Contents::item_at))]
fn item(alloc: Global, tokens: &[Token]) -> Result<Option<(Item, &[Token])>, Memory>
    ensures { IfOk result (λ r. Reads (λ x. (x.0, solid x.1.now)) r (item_at (solid tokens.now))) }
{
    if let Some((value, rest)) = string(tokens) {
        return Ok(Some((Item::Chars(value.duplicate(alloc)?), rest)));
    }
    if let Some((kind, rest)) = quote(tokens) {
        return Ok(Some((Item::Quote(kind), rest)));
    }
    if let Some((name, rest)) = attr(tokens) {
        return Ok(Some((Item::Attr(name.duplicate(alloc)?), rest)));
    }
    if let Some(found) = counter(alloc, tokens)? {
        return Ok(Some(found));
    }
    if let Some(found) = counters(alloc, tokens)? {
        return Ok(Some(found));
    }
    if let Some(found) = target_counter(alloc, tokens)? {
        return Ok(Some(found));
    }
    if let Some(found) = target_counters(alloc, tokens)? {
        return Ok(Some(found));
    }
    target_text(alloc, tokens)
}

fn items(alloc: Global, tokens: &[Token]) -> Result<(List<Item>, &[Token]), Memory>
    ensures { IfOk result (λ x. run_at item_at (solid tokens.now) ≡ (x.0, solid x.1.now)) }
{
    let mut items = List::new(alloc);
    let mut rest = tokens;
    'pieces: while let Some((entry, after)) = item(alloc, rest)? {
        items.push(entry)?;
        rest = after;
    }
    Ok((items, rest))
}

/// `normal | none | <item>+`
#[tactic(auto, unfolding(crate::specs::Contents::content_value))]
pub(crate) fn content(alloc: Global, tokens: &[Token]) -> Result<Option<Content>, Memory>
    ensures { IfOk result (λ r. r ≡ content_value (solid tokens.now)) }
{
    if is_alone("normal", tokens) {
        return Ok(Some(Content::Normal));
    }
    if is_alone("none", tokens) {
        return Ok(Some(Content::Nothing));
    }
    let (items, rest) = items(alloc, tokens)?;
    match all(items, rest) {
        Some(items) => Ok(Some(Content::Items(items))),
        None => Ok(None),
    }
}
