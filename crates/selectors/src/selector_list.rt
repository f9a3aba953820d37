//! Complex selectors and lists of them.

ghost use Rattle.std.specs.Prelude.{◌≡◌, ◌∷◌, [], List, IfOk, IfSome, IfNone};
ghost use Rattle.plain_types.specs.declared.selector.Selector.{Selector};
ghost use Rattle.std.specs.Str.{chars};
ghost use Rattle.reading.specs.Reading.{Reads, run_at};
ghost use Rattle.css_tokens.specs.TokenReading.{held_at};
ghost use Rattle.selectors.specs.Parts.{spaced_at, after_comma_at, comma_list_at};
ghost use Rattle.selectors.specs.Grammar.{AreSelectors};
ghost use Rattle.selectors.specs.Selectors.{combinator_of, descendant_at, combinator_at, legacy_pseudo_element, pseudo_element, pseudo_element_at, Step, outer_compound_at, step_at, modern_pseudo_element_at, step_to, sequence, no_compound, and_no_compound, with_pseudo, lone_at, complex_end, selector_at, selector_list};

use crate::compounds::compound;
use css_tokens::token::{Token, TokenKind};
use css_tokens::token_reading::{delimiter, ident, skip_whitespace};
use css_tokens::words::is_word;
use plain_types::list::List;
use plain_types::memory::Memory;
use plain_types::selector::{Compound, Selector};
use plain_types::selector_parts::{Join, PseudoElement};
use std::alloc::Global;

/// How deep `:is()`, `:where()` and `:not()` may be nested, counted together.
pub const MOST_NESTED: usize = 16;

/// `'>' | '+' | '~'`
fn sign_combinator(tokens: &[Token]) -> Option<(Join, &[Token])>
    ensures { Reads (λ x. (x.0, x.1.now)) result (held_at combinator_of tokens.now) }
{
    let (token, rest) = tokens.split_first()?;
    match &token.kind {
        TokenKind::Sign('>') => Some((Join::Child, rest)),
        TokenKind::Sign('+') => Some((Join::Next, rest)),
        TokenKind::Sign('~') => Some((Join::Later, rest)),
        _ => None,
    }
}

/// Whitespace, the descendant combinator.
fn descendant(tokens: &[Token]) -> Option<(Join, &[Token])>
    ensures { Reads (λ x. (x.0, x.1.now)) result (descendant_at tokens.now) }
{
    let (token, rest) = tokens.split_first()?;
    match &token.kind {
        TokenKind::Blank => Some((Join::Descendant, skip_whitespace(rest))),
        _ => None,
    }
}

/// `<combinator>`, whitespace around it
fn combinator(tokens: &[Token]) -> Option<(Join, &[Token])>
    ensures { Reads (λ x. (x.0, x.1.now)) result (combinator_at tokens.now) }
{
    match sign_combinator(skip_whitespace(tokens)) {
        Some((join, rest)) => Some((join, skip_whitespace(rest))),
        None => descendant(tokens),
    }
}

/// A pseudo-element that needs no second colon.
fn legacy_pseudo_element(name: &str) -> Option<PseudoElement>
    ensures { result ≡ legacy_pseudo_element (chars name.now) }
{
    if is_word(name, "before") {
        Some(PseudoElement::Before)
    } else if is_word(name, "after") {
        Some(PseudoElement::After)
    } else if is_word(name, "first-line") || is_word(name, "first-letter") {
        Some(PseudoElement::Never)
    } else {
        None
    }
}

fn pseudo_element_name(name: &str) -> Option<PseudoElement>
    ensures { result ≡ pseudo_element (chars name.now) }
{
    if is_word(name, "marker") {
        Some(PseudoElement::Marker)
    } else {
        legacy_pseudo_element(name)
    }
}

/// After two colons.
fn modern_pseudo_element(tokens: &[Token]) -> Option<(PseudoElement, &[Token])>
    ensures { Reads (λ x. (x.0, x.1.now)) result (modern_pseudo_element_at tokens.now) }
{
    let (name, rest) = ident(tokens)?;
    Some((pseudo_element_name(name.as_str())?, rest))
}

/// `<pseudo-element-selector>`
#[tactic(auto, unfolding(crate::specs::Selectors::pseudo_element_at))]
fn pseudo_element(tokens: &[Token]) -> Option<(PseudoElement, &[Token])>
    ensures { Reads (λ x. (x.0, x.1.now)) result (pseudo_element_at tokens.now) }
{
    let rest = delimiter(':', tokens)?;
    if let Some(rest) = delimiter(':', rest) {
        return modern_pseudo_element(rest);
    }
    let (name, rest) = ident(rest)?;
    Some((legacy_pseudo_element(name.as_str())?, rest))
}

fn outer_compound<'a>(
    alloc: Global,
    text: &str,
    tokens: &'a [Token],
) -> Result<Option<(Compound, &'a [Token])>, Memory>
    ensures { IfOk result (λ r. Reads (λ x. (x.0, x.1.now)) r (outer_compound_at text.now tokens.now)) }
{
    compound(alloc, text, MOST_NESTED, tokens)
}

/// `<combinator>? <compound-selector>`
#[tactic(auto, unfolding(crate::specs::Selectors::step_at))]
fn step<'a>(
    alloc: Global,
    text: &str,
    tokens: &'a [Token],
) -> Result<Option<(Join, Compound, &'a [Token])>, Memory>
    ensures { IfOk result (λ r. Reads (λ x. (step_to x.0 x.1, x.2.now)) r (step_at text.now tokens.now)) }
{
    let Some((join, rest)) = combinator(tokens) else {
        return Ok(None);
    };
    match outer_compound(alloc, text, rest)? {
        Some((compound, rest)) => Ok(Some((join, compound, rest))),
        None => Ok(None),
    }
}

/// Compound selectors with the combinators between them.
#[derive(Drop)]
pub(crate) struct Sequence {
    pub compounds: List<Compound>,
    pub joins: List<Join>,
}

/// The first compound selector and the steps from it.
fn steps<'a>(
    alloc: Global,
    text: &str,
    first: Compound,
    tokens: &'a [Token],
) -> Result<(Sequence, &'a [Token]), Memory>
    ensures all { IfOk result (λ x. x.0 ≡ sequence first (run_at (step_at text.now) tokens.now).0) }
    ensures rest { IfOk result (λ x. x.1.now ≡ (run_at (step_at text.now) tokens.now).1) }
{
    let mut compounds = List::new(alloc);
    compounds.push(first)?;
    let mut joins = List::new(alloc);
    let mut rest = tokens;
    'pieces: while let Some((join, compound, after)) = step(alloc, text, rest)? {
        joins.push(join)?;
        compounds.push(compound)?;
        rest = after;
    }
    Ok((Sequence { compounds, joins }, rest))
}

/// A combinator, and a pseudo-element that stands alone after it.
fn lone_pseudo_element(tokens: &[Token]) -> Option<(Join, PseudoElement, &[Token])>
    ensures { Reads (λ x. ((x.0, x.1), x.2.now)) result (lone_at tokens.now) }
{
    let (join, rest) = combinator(tokens)?;
    let (pseudo, rest) = pseudo_element(rest)?;
    Some((join, pseudo, rest))
}

/// A compound selector that says nothing of its element.
fn no_compound(alloc: Global) -> Compound
    ensures { result ≡ no_compound }
{
    Compound {
        simples: List::new(alloc),
    }
}

fn with_pseudo(sequence: Sequence, pseudo: PseudoElement) -> Selector
    ensures { result ≡ with_pseudo sequence pseudo }
{
    let Sequence { compounds, joins } = sequence;
    Selector {
        compounds,
        joins,
        pseudo,
    }
}

fn and_no_compound(alloc: Global, sequence: Sequence, join: Join) -> Result<Sequence, Memory>
    ensures { IfOk result (λ r. r ≡ and_no_compound sequence join) }
{
    let Sequence {
        mut compounds,
        mut joins,
    } = sequence;
    compounds.push(no_compound(alloc))?;
    joins.push(join)?;
    Ok(Sequence { compounds, joins })
}

/// After the last compound selector: its pseudo-element, or one that stands alone, or none.
#[tactic(auto, unfolding(crate::specs::Selectors::complex_end))]
fn complex_end(
    alloc: Global,
    sequence: Sequence,
    tokens: &[Token],
) -> Result<(Selector, &[Token]), Memory>
    ensures { IfOk result (λ x. complex_end sequence tokens.now ≡ Some (x.0, x.1.now)) }
{
    if let Some((pseudo, rest)) = pseudo_element(tokens) {
        return Ok((with_pseudo(sequence, pseudo), rest));
    }
    match lone_pseudo_element(tokens) {
        Some((join, pseudo, rest)) => {
            let sequence = and_no_compound(alloc, sequence, join)?;
            Ok((with_pseudo(sequence, pseudo), rest))
        }
        None => Ok((with_pseudo(sequence, PseudoElement::Own), tokens)),
    }
}

/// The selector of a pseudo-element alone.
fn alone(alloc: Global, pseudo: PseudoElement) -> Result<Selector, Memory>
    ensures { IfOk result (λ r. r ≡ with_pseudo (sequence no_compound []) pseudo) }
{
    let mut compounds = List::new(alloc);
    compounds.push(no_compound(alloc))?;
    Ok(Selector {
        compounds,
        joins: List::new(alloc),
        pseudo,
    })
}

/// `<complex-selector>`
#[tactic(auto, unfolding(crate::specs::Selectors::selector_at))]
fn selector<'a>(
    alloc: Global,
    text: &str,
    tokens: &'a [Token],
) -> Result<Option<(Selector, &'a [Token])>, Memory>
    ensures { IfOk result (λ r. Reads (λ x. (x.0, x.1.now)) r (selector_at text.now tokens.now)) }
{
    if let Some((pseudo, rest)) = pseudo_element(tokens) {
        return Ok(Some((alone(alloc, pseudo)?, rest)));
    }
    let Some((first, rest)) = outer_compound(alloc, text, tokens)? else {
        return Ok(None);
    };
    let (sequence, rest) = steps(alloc, text, first, rest)?;
    let (selector, rest) = complex_end(alloc, sequence, rest)?;
    Ok(Some((selector, rest)))
}

/// A selector with whitespace around it.
fn spaced<'a>(
    alloc: Global,
    text: &str,
    tokens: &'a [Token],
) -> Result<Option<(Selector, &'a [Token])>, Memory>
    ensures { IfOk result (λ r. Reads (λ x. (x.0, x.1.now)) r (spaced_at (selector_at text.now) tokens.now)) }
{
    match selector(alloc, text, skip_whitespace(tokens))? {
        Some((selector, rest)) => Ok(Some((selector, skip_whitespace(rest)))),
        None => Ok(None),
    }
}

/// A comma, and a selector with whitespace around it.
#[tactic(auto, unfolding(crate::specs::Parts::after_comma_at))]
fn after_comma<'a>(
    alloc: Global,
    text: &str,
    tokens: &'a [Token],
) -> Result<Option<(Selector, &'a [Token])>, Memory>
    ensures { IfOk result (λ r. Reads (λ x. (x.0, x.1.now)) r (after_comma_at (selector_at text.now) tokens.now)) }
{
    match delimiter(',', tokens) {
        Some(rest) => spaced(alloc, text, rest),
        None => Ok(None),
    }
}

/// The first selector, and those after commas.
fn with_others<'a>(
    alloc: Global,
    text: &str,
    first: Selector,
    tokens: &'a [Token],
) -> Result<(List<Selector>, &'a [Token]), Memory>
    ensures all { IfOk result (λ x. x.0 ≡ first ∷ (run_at (after_comma_at (selector_at text.now)) tokens.now).0) }
    ensures rest { IfOk result (λ x. x.1.now ≡ (run_at (after_comma_at (selector_at text.now)) tokens.now).1) }
{
    let mut selectors = List::new(alloc);
    selectors.push(first)?;
    let mut rest = tokens;
    'pieces: while let Some((selector, after)) = after_comma(alloc, text, rest)? {
        selectors.push(selector)?;
        rest = after;
    }
    Ok((selectors, rest))
}

/// `<selector-list>`
#[tactic(auto, unfolding(crate::specs::Selectors::selector_list))]
fn whole_list(alloc: Global, text: &str, tokens: &[Token]) -> Result<Option<List<Selector>>, Memory>
    ensures { IfOk result (λ r. r ≡ selector_list text.now tokens.now) }
{
    let Some((first, rest)) = spaced(alloc, text, tokens)? else {
        return Ok(None);
    };
    let (selectors, rest) = with_others(alloc, text, first, rest)?;
    if rest.is_empty() {
        Ok(Some(selectors))
    } else {
        Ok(None)
    }
}

/// The selectors that these tokens of the text are as a whole (Selectors 4, Grammar), or `None` where they
/// are no list of selectors. The end of the tokens closes what is open, as CSS Syntax has it. The text is
/// needed for the An+B notation, which is read from the source; a token that does not lie within the text
/// has no source there.
///
/// Time and memory are linear in the tokens and in their source. It calls itself for `:is()`, `:where()`
/// and `:not()`, at most [`MOST_NESTED`] deep.
pub fn read_selectors(
    alloc: Global,
    text: &str,
    tokens: &[Token],
) -> Result<Option<List<Selector>>, Memory>
    ensures read { IfOk result (λ r. r ≡ selector_list text.now tokens.now) }
    // The grammar says so.
    ensures found { IfOk result (λ r. IfSome r (λ selectors. AreSelectors text.now tokens.now selectors)) }
    // The grammar has no reading.
    ensures none { IfOk result (λ r. IfNone r ((selectors : List Selector) → AreSelectors text.now tokens.now selectors → ⊥)) }
{
    whole_list(alloc, text, tokens)
}
