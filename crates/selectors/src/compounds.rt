//! Compound selectors, and the lists of them in `:is()`, `:where()` and `:not()`.

ghost use Rattle.std.specs.Prelude.{◌≡◌, ◌++◌, ◌∷◌, IfOk};
ghost use Rattle.std.specs.Str.{chars};
ghost use Rattle.reading.specs.Reading.{Reads, run_at};
ghost use Rattle.selectors.specs.Parts.{spaced_at, after_comma_at, comma_list_at};
ghost use Rattle.selectors.specs.Simples.{type_at};
ghost use Rattle.selectors.specs.Compounds.{type_part, plain_class_at, class_function_at, pseudo_class_at, subclass_at, compound_at, choices_at};

use crate::an_plus_b::an_plus_b;
use crate::pseudo_classes::{nested, nesting_class, nth, nth_class, plain_class};
use crate::simples::{attribute, class, id, type_selector};
use css_tokens::token::Token;
use css_tokens::token_reading::{close, delimiter, function, ident, skip_whitespace};
use plain_types::list::List;
use plain_types::memory::Memory;
use plain_types::selector::{Compound, Simple};
use std::alloc::Global;

/// `<type-selector>?`
fn type_part(alloc: Global, tokens: &[Token]) -> Result<(List<Simple>, &[Token]), Memory>
    ensures { IfOk result (λ x. type_part (type_at tokens.now) tokens.now ≡ (x.0, x.1.now)) }
{
    let mut simples = List::new(alloc);
    match type_selector(alloc, tokens)? {
        Some((simple, rest)) => {
            simples.push(simple)?;
            Ok((simples, rest))
        }
        None => Ok((simples, tokens)),
    }
}

/// A pseudo-class without arguments.
fn plain_class_at(tokens: &[Token]) -> Option<(Simple, &[Token])>
    ensures { Reads (λ x. (x.0, x.1.now)) result (plain_class_at tokens.now) }
{
    let (name, rest) = ident(tokens)?;
    let class = plain_class(name.as_str())?;
    Some((class, rest))
}

/// A pseudo-class with this name, after its bracket.
#[cycle(nesting)]
#[tactic(auto, unfolding(crate::specs::Compounds::class_function_at))]
fn class_function<'a>(
    alloc: Global,
    text: &str,
    levels: usize,
    name: &str,
    tokens: &'a [Token],
) -> Result<Option<(Simple, &'a [Token])>, Memory>
    ensures { IfOk result (λ r. Reads (λ x. (x.0, x.1.now)) r (class_function_at text.now (choices_at text.now levels) (chars name.now) tokens.now)) }
{
    if let Some(siblings) = nth_class(name) {
        if let Some((value, rest)) = an_plus_b(alloc, text, tokens)? {
            return Ok(Some((nth(siblings, value), rest)));
        }
    }
    let Some(nesting) = nesting_class(name) else {
        return Ok(None);
    };
    let Some((choices, rest)) = choices(alloc, text, levels, tokens)? else {
        return Ok(None);
    };
    Ok(Some((nested(nesting, choices), rest)))
}

/// `<pseudo-class-selector>`: `':' [ <ident-token> | <function-token> <any-value> ')' ]`
#[cycle(nesting)]
#[tactic(auto, unfolding(crate::specs::Compounds::pseudo_class_at))]
fn pseudo_class<'a>(
    alloc: Global,
    text: &str,
    levels: usize,
    tokens: &'a [Token],
) -> Result<Option<(Simple, &'a [Token])>, Memory>
    ensures { IfOk result (λ r. Reads (λ x. (x.0, x.1.now)) r (pseudo_class_at text.now (choices_at text.now levels) tokens.now)) }
{
    let Some(rest) = delimiter(':', tokens) else {
        return Ok(None);
    };
    if let Some(found) = plain_class_at(rest) {
        return Ok(Some(found));
    }
    match function(rest) {
        Some((name, inside)) => class_function(alloc, text, levels, name.as_str(), inside),
        None => Ok(None),
    }
}

/// `<id-selector> | <class-selector> | <attribute-selector> | <pseudo-class-selector>`
#[cycle(nesting)]
#[tactic(auto, unfolding(crate::specs::Compounds::subclass_at))]
fn subclass<'a>(
    alloc: Global,
    text: &str,
    levels: usize,
    tokens: &'a [Token],
) -> Result<Option<(Simple, &'a [Token])>, Memory>
    ensures { IfOk result (λ r. Reads (λ x. (x.0, x.1.now)) r (subclass_at text.now (choices_at text.now levels) tokens.now)) }
{
    if let Some(found) = id(alloc, tokens)? {
        return Ok(Some(found));
    }
    if let Some(found) = class(alloc, tokens)? {
        return Ok(Some(found));
    }
    if let Some(found) = attribute(alloc, tokens)? {
        return Ok(Some(found));
    }
    pseudo_class(alloc, text, levels, tokens)
}

/// The simple selectors that stand there, and those after them.
#[cycle(nesting)]
fn with_subclasses<'a>(
    alloc: Global,
    text: &str,
    levels: usize,
    mut simples: List<Simple>,
    tokens: &'a [Token],
) -> Result<(List<Simple>, &'a [Token]), Memory>
    ensures all { IfOk result (λ x. x.0 ≡ simples ++ (run_at (subclass_at text.now (choices_at text.now levels)) tokens.now).0) }
    ensures rest { IfOk result (λ x. x.1.now ≡ (run_at (subclass_at text.now (choices_at text.now levels)) tokens.now).1) }
{
    let mut rest = tokens;
    'pieces: while let Some((simple, after)) = subclass(alloc, text, levels, rest)? {
        simples.push(simple)?;
        rest = after;
    }
    Ok((simples, rest))
}

/// `<compound-selector>`: `[ <type-selector>? <subclass-selector>* ]!`
#[cycle(nesting)]
#[tactic(auto, unfolding(crate::specs::Compounds::compound_at))]
pub(crate) fn compound<'a>(
    alloc: Global,
    text: &str,
    levels: usize,
    tokens: &'a [Token],
) -> Result<Option<(Compound, &'a [Token])>, Memory>
    ensures { IfOk result (λ r. Reads (λ x. (x.0, x.1.now)) r (compound_at text.now (choices_at text.now levels) tokens.now)) }
{
    let (simples, rest) = type_part(alloc, tokens)?;
    let (simples, rest) = with_subclasses(alloc, text, levels, simples, rest)?;
    if simples.is_empty() {
        Ok(None)
    } else {
        Ok(Some((Compound { simples }, rest)))
    }
}

/// A compound selector with whitespace around it.
#[cycle(nesting)]
fn spaced<'a>(
    alloc: Global,
    text: &str,
    levels: usize,
    tokens: &'a [Token],
) -> Result<Option<(Compound, &'a [Token])>, Memory>
    ensures { IfOk result (λ r. Reads (λ x. (x.0, x.1.now)) r (spaced_at (compound_at text.now (choices_at text.now levels)) tokens.now)) }
{
    match compound(alloc, text, levels, skip_whitespace(tokens))? {
        Some((compound, rest)) => Ok(Some((compound, skip_whitespace(rest)))),
        None => Ok(None),
    }
}

/// A comma, and a compound selector with whitespace around it.
#[cycle(nesting)]
#[tactic(auto, unfolding(crate::specs::Parts::after_comma_at))]
fn after_comma<'a>(
    alloc: Global,
    text: &str,
    levels: usize,
    tokens: &'a [Token],
) -> Result<Option<(Compound, &'a [Token])>, Memory>
    ensures { IfOk result (λ r. Reads (λ x. (x.0, x.1.now)) r (after_comma_at (compound_at text.now (choices_at text.now levels)) tokens.now)) }
{
    match delimiter(',', tokens) {
        Some(rest) => spaced(alloc, text, levels, rest),
        None => Ok(None),
    }
}

/// The first compound selector, and those after commas.
#[cycle(nesting)]
fn with_others<'a>(
    alloc: Global,
    text: &str,
    levels: usize,
    first: Compound,
    tokens: &'a [Token],
) -> Result<(List<Compound>, &'a [Token]), Memory>
    ensures all { IfOk result (λ x. x.0 ≡ first ∷ (run_at (after_comma_at (compound_at text.now (choices_at text.now levels))) tokens.now).0) }
    ensures rest { IfOk result (λ x. x.1.now ≡ (run_at (after_comma_at (compound_at text.now (choices_at text.now levels))) tokens.now).1) }
{
    let mut compounds = List::new(alloc);
    compounds.push(first)?;
    let mut rest = tokens;
    'pieces: while let Some((compound, after)) = after_comma(alloc, text, levels, rest)? {
        compounds.push(compound)?;
        rest = after;
    }
    Ok((compounds, rest))
}

/// `<compound-selector># ')'`, where so many levels may be nested
#[cycle(nesting)]
#[tactic(auto, unfolding(crate::specs::Compounds::choices_at))]
fn choices<'a>(
    alloc: Global,
    text: &str,
    levels: usize,
    tokens: &'a [Token],
) -> Result<Option<(List<Compound>, &'a [Token])>, Memory>
    ensures { IfOk result (λ r. Reads (λ x. (x.0, x.1.now)) r (choices_at text.now levels tokens.now)) }
{
    if levels == 0 {
        return Ok(None);
    }
    let Some((first, rest)) = spaced(alloc, text, levels - 1, tokens)? else {
        return Ok(None);
    };
    let (compounds, rest) = with_others(alloc, text, levels - 1, first, rest)?;
    match close(')', rest) {
        Some(end) => Ok(Some((compounds, end))),
        None => Ok(None),
    }
}
