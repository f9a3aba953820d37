//! Counter styles where a value names or writes one.

ghost use Rattle.std.specs.Prelude.{◌≡◌, IfOk, codes};
ghost use Rattle.std.specs.Str.{chars};
ghost use Rattle.plain_types.specs.declared.style_ref.StyleRef.TheVariants as style_ref;
ghost use Rattle.reading.specs.Reading.{Reads, run_at};
ghost use Rattle.css_values.specs.Parts.{solid, string_at, style_name_at};
ghost use Rattle.css_values.specs.Styles.{symbols_type, symbols_system_at, least_symbols, anonymous, symbols_at, style_at, last_style_at, list_type_at, decimal};

use crate::parts::{name, past_close, past_comma, past_function, past_keyword, string, word};
use css_tokens::token::Token;
use css_tokens::words::is_word;
use plain_types::duplicate::Duplicate;
use plain_types::list::List;
use plain_types::memory::Memory;
use plain_types::style::ListType;
use plain_types::style_name::style_name;
use plain_types::style_ref::{Anonymous, StyleRef, System};
use plain_types::text::Text;
use std::alloc::Global;

/// `<counter-style-name>`
pub(crate) fn named_style(
    alloc: Global,
    tokens: &[Token],
) -> Result<Option<(Text, &[Token])>, Memory>
    ensures { IfOk result (λ r. Reads (λ x. (x.0, solid x.1.now)) r (style_name_at (solid tokens.now))) }
{
    let Some((name, rest)) = name(tokens) else {
        return Ok(None);
    };
    let name = Text::from_str(alloc, style_name(name.as_str()))?;
    Ok(Some((name, rest)))
}

/// `cyclic | numeric | alphabetic | symbolic | fixed`
fn symbols_type(word: &str) -> Option<System>
    ensures { result ≡ symbols_type (chars word.now) }
{
    if is_word(word, "cyclic") {
        Some(System::Cyclic)
    } else if is_word(word, "numeric") {
        Some(System::Numeric)
    } else if is_word(word, "alphabetic") {
        Some(System::Alphabetic)
    } else if is_word(word, "symbolic") {
        Some(System::Symbolic)
    } else if is_word(word, "fixed") {
        Some(System::Fixed(1))
    } else {
        None
    }
}

/// The system that is given, and else `symbolic`.
fn symbols_system(tokens: &[Token]) -> (System, &[Token])
    ensures { symbols_system_at (solid tokens.now) ≡ (result.0, solid result.1.now) }
{
    let Some((word, rest)) = word(tokens) else {
        return (System::Symbolic, tokens);
    };
    match symbols_type(word.as_str()) {
        Some(system) => (system, rest),
        None => (System::Symbolic, tokens),
    }
}

/// The strings at the front, as long as there is one.
fn strings(alloc: Global, tokens: &[Token]) -> Result<(List<Text>, &[Token]), Memory>
    ensures { IfOk result (λ x. run_at string_at (solid tokens.now) ≡ (x.0, solid x.1.now)) }
{
    let mut strings = List::new(alloc);
    let mut rest = tokens;
    'pieces: while let Some((value, after)) = string(rest) {
        strings.push(value.duplicate(alloc)?)?;
        rest = after;
    }
    Ok((strings, rest))
}

/// How many strings the system needs.
fn least_symbols(system: &System) -> usize
    ensures { result ≡ least_symbols system.now }
{
    match system {
        System::Numeric | System::Alphabetic => 2,
        _ => 1,
    }
}

fn anonymous(system: System, symbols: List<Text>) -> Option<Anonymous>
    ensures { result ≡ anonymous system symbols }
{
    if symbols.len() < least_symbols(&system) {
        return None;
    }
    Some(Anonymous { system, symbols })
}

/// `symbols( <symbols-type>? <string>+ )`
#[tactic(auto, unfolding(crate::specs::Styles::symbols_at))]
fn symbols(alloc: Global, tokens: &[Token]) -> Result<Option<(Anonymous, &[Token])>, Memory>
    ensures { IfOk result (λ r. Reads (λ x. (x.0, solid x.1.now)) r (symbols_at (solid tokens.now))) }
{
    let Some(rest) = past_function("symbols", tokens) else {
        return Ok(None);
    };
    let (system, rest) = symbols_system(rest);
    let (strings, rest) = strings(alloc, rest)?;
    let Some(style) = anonymous(system, strings) else {
        return Ok(None);
    };
    let Some(end) = past_close(rest) else {
        return Ok(None);
    };
    Ok(Some((style, end)))
}

/// `<counter-style> | none`
#[tactic(auto, unfolding(crate::specs::Styles::style_at))]
fn style(alloc: Global, tokens: &[Token]) -> Result<Option<(StyleRef, &[Token])>, Memory>
    ensures { IfOk result (λ r. Reads (λ x. (x.0, solid x.1.now)) r (style_at (solid tokens.now))) }
{
    if let Some(rest) = past_keyword("none", tokens) {
        return Ok(Some((StyleRef::Nothing, rest)));
    }
    if let Some((name, rest)) = named_style(alloc, tokens)? {
        return Ok(Some((StyleRef::Name(name), rest)));
    }
    match symbols(alloc, tokens)? {
        Some((style, rest)) => Ok(Some((StyleRef::Symbols(style), rest))),
        None => Ok(None),
    }
}

/// The style of a counter of which none is given.
fn decimal(alloc: Global) -> Result<StyleRef, Memory>
    ensures { IfOk result (λ style. style ≡ decimal) }
{
    Ok(StyleRef::Name(Text::from_str(alloc, "decimal")?))
}

/// `[, [ <counter-style> | none ] ]?` and the end of the function
pub(crate) fn last_style(
    alloc: Global,
    tokens: &[Token],
) -> Result<Option<(StyleRef, &[Token])>, Memory>
    ensures { IfOk result (λ r. Reads (λ x. (x.0, solid x.1.now)) r (last_style_at (solid tokens.now))) }
{
    let Some(rest) = past_comma(tokens) else {
        let Some(end) = past_close(tokens) else {
            return Ok(None);
        };
        return Ok(Some((decimal(alloc)?, end)));
    };
    let Some((style, rest)) = style(alloc, rest)? else {
        return Ok(None);
    };
    let Some(end) = past_close(rest) else {
        return Ok(None);
    };
    Ok(Some((style, end)))
}

/// `<counter-style> | <string> | none`
#[tactic(auto, unfolding(crate::specs::Styles::list_type_at))]
pub(crate) fn list_type(
    alloc: Global,
    tokens: &[Token],
) -> Result<Option<(ListType, &[Token])>, Memory>
    ensures { IfOk result (λ r. Reads (λ x. (x.0, solid x.1.now)) r (list_type_at (solid tokens.now))) }
{
    if let Some((value, rest)) = string(tokens) {
        return Ok(Some((ListType::Chars(value.duplicate(alloc)?), rest)));
    }
    match style(alloc, tokens)? {
        Some((style, rest)) => Ok(Some((ListType::Style(style), rest))),
        None => Ok(None),
    }
}
