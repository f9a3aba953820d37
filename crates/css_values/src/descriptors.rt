//! Descriptors of `@counter-style`.

ghost use Rattle.std.specs.Prelude.{◌≡◌, ◌∷◌, IfOk};
ghost use Rattle.std.specs.Str.{chars};
ghost use Rattle.reading.specs.Reading.{Reads, run_at};
ghost use Rattle.css_values.specs.Parts.{solid, symbol_at, after_comma_at};
ghost use Rattle.css_values.specs.Descriptors.{system_word, plain_system_at, system_at, optional_symbol_at, negative_value, bound_at, are_in_order, bounds_at, range_value, weight_at, pad_value, is_below, are_falling, additive_value, symbol_value, system_value, fallback_value, symbols_value, described};

use crate::combining::{all, only};
use crate::parts::{
    integer, is_alone, natural, optional_integer, past_comma, past_keyword, symbol, word,
};
use crate::styles::named_style;
use css_tokens::token::Token;
use css_tokens::words::is_word;
use plain_types::count::Count;
use plain_types::counter_style::{Bounds, Descriptor, Weight};
use plain_types::duplicate::Duplicate;
use plain_types::list::List;
use plain_types::memory::Memory;
use plain_types::style_ref::System;
use plain_types::text::Text;
use std::alloc::Global;

/// `cyclic | numeric | alphabetic | symbolic | additive`
fn system_word(word: &str) -> Option<System>
    ensures { result ≡ system_word (chars word.now) }
{
    if is_word(word, "cyclic") {
        Some(System::Cyclic)
    } else if is_word(word, "numeric") {
        Some(System::Numeric)
    } else if is_word(word, "alphabetic") {
        Some(System::Alphabetic)
    } else if is_word(word, "symbolic") {
        Some(System::Symbolic)
    } else if is_word(word, "additive") {
        Some(System::Additive)
    } else {
        None
    }
}

/// A system of one word.
fn plain_system(tokens: &[Token]) -> Option<(System, &[Token])>
    ensures { Reads (λ x. (x.0, solid x.1.now)) result (plain_system_at (solid tokens.now)) }
{
    let (word, rest) = word(tokens)?;
    Some((system_word(word.as_str())?, rest))
}

/// `cyclic | numeric | .. | [ fixed <integer>? ] | [ extends <counter-style-name> ]`
#[tactic(auto, unfolding(crate::specs::Descriptors::system_at))]
fn system(alloc: Global, tokens: &[Token]) -> Result<Option<(System, &[Token])>, Memory>
    ensures { IfOk result (λ r. Reads (λ x. (x.0, solid x.1.now)) r (system_at (solid tokens.now))) }
{
    if let Some(found) = plain_system(tokens) {
        return Ok(Some(found));
    }
    if let Some(rest) = past_keyword("fixed", tokens) {
        let (first, rest) = optional_integer(rest);
        return Ok(Some((System::Fixed(first.unwrap_or(1)), rest)));
    }
    let Some(rest) = past_keyword("extends", tokens) else {
        return Ok(None);
    };
    match named_style(alloc, rest)? {
        Some((name, rest)) => Ok(Some((System::Extends(name), rest))),
        None => Ok(None),
    }
}

/// `<symbol>?`, and an empty text where none stands there
fn optional_symbol(alloc: Global, tokens: &[Token]) -> Result<(Text, &[Token]), Memory>
    ensures { IfOk result (λ x. optional_symbol_at (solid tokens.now) ≡ (x.0, solid x.1.now)) }
{
    match symbol(tokens) {
        Some((symbol, rest)) => Ok((symbol.duplicate(alloc)?, rest)),
        None => Ok((Text::new(alloc), tokens)),
    }
}

/// `<symbol> <symbol>?`
#[tactic(auto, unfolding(crate::specs::Descriptors::negative_value))]
fn negative(alloc: Global, tokens: &[Token]) -> Result<Option<Descriptor>, Memory>
    ensures { IfOk result (λ r. r ≡ negative_value (solid tokens.now)) }
{
    let Some((before, rest)) = symbol(tokens) else {
        return Ok(None);
    };
    let before = before.duplicate(alloc)?;
    let (after, rest) = optional_symbol(alloc, rest)?;
    Ok(only(Descriptor::Negative { before, after }, rest))
}

/// `<symbol>`, alone
fn symbol_alone(alloc: Global, tokens: &[Token]) -> Result<Option<Text>, Memory>
    ensures { IfOk result (λ r. r ≡ symbol_value (solid tokens.now)) }
{
    match symbol(tokens) {
        Some((symbol, rest)) => Ok(only(symbol.duplicate(alloc)?, rest)),
        None => Ok(None),
    }
}

/// `<integer> | infinite`
fn bound(tokens: &[Token]) -> Option<(Option<Count>, &[Token])>
    ensures { Reads (λ x. (x.0, solid x.1.now)) result (bound_at (solid tokens.now)) }
{
    if let Some((value, rest)) = integer(tokens) {
        return Some((Some(value), rest));
    }
    let rest = past_keyword("infinite", tokens)?;
    Some((None, rest))
}

/// Whether the first bound is not above the second.
fn are_in_order(low: Option<Count>, high: Option<Count>) -> bool
    ensures { result ≡ are_in_order low high }
{
    match (low, high) {
        (Some(low), Some(high)) => low <= high,
        _ => true,
    }
}

/// `<bound> <bound>`
#[tactic(auto, unfolding(crate::specs::Descriptors::bounds_at))]
fn bounds(tokens: &[Token]) -> Option<(Bounds, &[Token])>
    ensures { Reads (λ x. (x.0, solid x.1.now)) result (bounds_at (solid tokens.now)) }
{
    let (low, rest) = bound(tokens)?;
    let (high, rest) = bound(rest)?;
    if are_in_order(low, high) {
        Some((Bounds { low, high }, rest))
    } else {
        None
    }
}

/// `, <bound> <bound>`
#[tactic(auto, unfolding(crate::specs::Parts::after_comma_at))]
fn more_bounds(tokens: &[Token]) -> Option<(Bounds, &[Token])>
    ensures { Reads (λ x. (x.0, solid x.1.now)) result (after_comma_at bounds_at (solid tokens.now)) }
{
    bounds(past_comma(tokens)?)
}

/// The first bounds, and those after commas.
fn all_bounds(
    alloc: Global,
    first: Bounds,
    tokens: &[Token],
) -> Result<(List<Bounds>, &[Token]), Memory>
    ensures all { IfOk result (λ x. x.0 ≡ first ∷ (run_at (after_comma_at bounds_at) (solid tokens.now)).0) }
    ensures rest { IfOk result (λ x. solid x.1.now ≡ (run_at (after_comma_at bounds_at) (solid tokens.now)).1) }
{
    let mut all = List::new(alloc);
    all.push(first)?;
    let mut rest = tokens;
    'pieces: while let Some((entry, after)) = more_bounds(rest) {
        all.push(entry)?;
        rest = after;
    }
    Ok((all, rest))
}

/// `[ [ <integer> | infinite ]{2} ]# | auto`
#[tactic(auto, unfolding(crate::specs::Descriptors::range_value))]
fn range(alloc: Global, tokens: &[Token]) -> Result<Option<Descriptor>, Memory>
    ensures { IfOk result (λ r. r ≡ range_value (solid tokens.now)) }
{
    if is_alone("auto", tokens) {
        return Ok(Some(Descriptor::RangeAuto));
    }
    let Some((first, rest)) = bounds(tokens) else {
        return Ok(None);
    };
    let (ranges, rest) = all_bounds(alloc, first, rest)?;
    Ok(only(Descriptor::Range(ranges), rest))
}

/// `<integer [0,∞]> && <symbol>`
#[tactic(auto, unfolding(crate::specs::Descriptors::weight_at))]
fn weight(alloc: Global, tokens: &[Token]) -> Result<Option<(Weight, &[Token])>, Memory>
    ensures { IfOk result (λ r. Reads (λ x. (x.0, solid x.1.now)) r (weight_at (solid tokens.now))) }
{
    if let Some((weight, rest)) = natural(tokens) {
        let Some((symbol, rest)) = symbol(rest) else {
            return Ok(None);
        };
        let symbol = symbol.duplicate(alloc)?;
        return Ok(Some((Weight { weight, symbol }, rest)));
    }
    let Some((symbol, rest)) = symbol(tokens) else {
        return Ok(None);
    };
    let Some((weight, rest)) = natural(rest) else {
        return Ok(None);
    };
    let symbol = symbol.duplicate(alloc)?;
    Ok(Some((Weight { weight, symbol }, rest)))
}

/// `<integer [0,∞]> && <symbol>`, alone
fn pad(alloc: Global, tokens: &[Token]) -> Result<Option<Descriptor>, Memory>
    ensures { IfOk result (λ r. r ≡ pad_value (solid tokens.now)) }
{
    match weight(alloc, tokens)? {
        Some((pad, rest)) => Ok(only(
            Descriptor::Pad {
                width: pad.weight,
                symbol: pad.symbol,
            },
            rest,
        )),
        None => Ok(None),
    }
}

/// `, <integer [0,∞]> && <symbol>`
#[tactic(auto, unfolding(crate::specs::Parts::after_comma_at))]
fn more_weights(alloc: Global, tokens: &[Token]) -> Result<Option<(Weight, &[Token])>, Memory>
    ensures { IfOk result (λ r. Reads (λ x. (x.0, solid x.1.now)) r (after_comma_at weight_at (solid tokens.now))) }
{
    match past_comma(tokens) {
        Some(rest) => weight(alloc, rest),
        None => Ok(None),
    }
}

/// The first tuple, and those after commas.
fn all_weights(
    alloc: Global,
    first: Weight,
    tokens: &[Token],
) -> Result<(List<Weight>, &[Token]), Memory>
    ensures all { IfOk result (λ x. x.0 ≡ first ∷ (run_at (after_comma_at weight_at) (solid tokens.now)).0) }
    ensures rest { IfOk result (λ x. solid x.1.now ≡ (run_at (after_comma_at weight_at) (solid tokens.now)).1) }
{
    let mut all = List::new(alloc);
    all.push(first)?;
    let mut rest = tokens;
    'pieces: while let Some((entry, after)) = more_weights(alloc, rest)? {
        all.push(entry)?;
        rest = after;
    }
    Ok((all, rest))
}

/// Whether the weight after this one, if there is one, is below it.
fn is_below(first: &Weight, rest: &[Weight]) -> bool
    ensures { result ≡ is_below first.now rest.now }
{
    match rest.first() {
        Some(second) => second.weight < first.weight,
        None => true,
    }
}

/// Whether each weight is below the one before it.
fn are_falling(weights: &[Weight]) -> bool
    ensures { result ≡ are_falling weights.now }
{
    let mut rest = weights;
    'weights: while let Some((first, after)) = rest.split_first() {
        if !is_below(first, after) {
            return false;
        }
        rest = after;
    }
    true
}

/// `[ <integer [0,∞]> && <symbol> ]#`
#[tactic(auto, unfolding(crate::specs::Descriptors::additive_value))]
fn additive(alloc: Global, tokens: &[Token]) -> Result<Option<Descriptor>, Memory>
    ensures { IfOk result (λ r. r ≡ additive_value (solid tokens.now)) }
{
    let Some((first, rest)) = weight(alloc, tokens)? else {
        return Ok(None);
    };
    let (weights, rest) = all_weights(alloc, first, rest)?;
    if are_falling(weights.as_slice()) {
        Ok(only(Descriptor::Additive(weights), rest))
    } else {
        Ok(None)
    }
}

fn symbol_run(alloc: Global, tokens: &[Token]) -> Result<(List<Text>, &[Token]), Memory>
    ensures { IfOk result (λ x. run_at symbol_at (solid tokens.now) ≡ (x.0, solid x.1.now)) }
{
    let mut symbols = List::new(alloc);
    let mut rest = tokens;
    'pieces: while let Some((value, after)) = symbol(rest) {
        symbols.push(value.duplicate(alloc)?)?;
        rest = after;
    }
    Ok((symbols, rest))
}

fn system_alone(alloc: Global, tokens: &[Token]) -> Result<Option<Descriptor>, Memory>
    ensures { IfOk result (λ r. r ≡ system_value (solid tokens.now)) }
{
    match system(alloc, tokens)? {
        Some((system, rest)) => Ok(only(Descriptor::System(system), rest)),
        None => Ok(None),
    }
}

/// `<counter-style-name>`
fn fallback(alloc: Global, tokens: &[Token]) -> Result<Option<Descriptor>, Memory>
    ensures { IfOk result (λ r. r ≡ fallback_value (solid tokens.now)) }
{
    match named_style(alloc, tokens)? {
        Some((name, rest)) => Ok(only(Descriptor::Fallback(name), rest)),
        None => Ok(None),
    }
}

/// `<symbol>+`
fn symbols(alloc: Global, tokens: &[Token]) -> Result<Option<Descriptor>, Memory>
    ensures { IfOk result (λ r. r ≡ symbols_value (solid tokens.now)) }
{
    let (symbols, rest) = symbol_run(alloc, tokens)?;
    Ok(all(symbols, rest).map(Descriptor::Symbols))
}

/// What a descriptor of this name and value says: `None` exactly where it is none of a counter style's,
/// or where the value is none of its. Names and keywords count in any ASCII case; predefined names of
/// styles become lower-case. Time and memory are linear in the tokens.
#[tactic(auto, unfolding(crate::specs::Descriptors::described))]
pub fn read_descriptor(
    alloc: Global,
    name: &str,
    tokens: &[Token],
) -> Result<Option<Descriptor>, Memory>
    ensures described { IfOk result (λ found. found ≡ described (chars name.now) (solid tokens.now)) }
{
    if is_word(name, "system") {
        return system_alone(alloc, tokens);
    }
    if is_word(name, "negative") {
        return negative(alloc, tokens);
    }
    if is_word(name, "prefix") {
        return Ok(symbol_alone(alloc, tokens)?.map(Descriptor::Prefix));
    }
    if is_word(name, "suffix") {
        return Ok(symbol_alone(alloc, tokens)?.map(Descriptor::Suffix));
    }
    if is_word(name, "range") {
        return range(alloc, tokens);
    }
    if is_word(name, "pad") {
        return pad(alloc, tokens);
    }
    if is_word(name, "fallback") {
        return fallback(alloc, tokens);
    }
    if is_word(name, "symbols") {
        return symbols(alloc, tokens);
    }
    if is_word(name, "additive-symbols") {
        return additive(alloc, tokens);
    }
    Ok(None)
}
