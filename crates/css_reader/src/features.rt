//! What the selectors of a sheet look at.

ghost use Rattle.std.specs.Prelude.{◌≡◌, map};
ghost use Rattle.std.specs.List.{list_any};
ghost use Rattle.css_reader.specs.Features.{is_sibling_join, is_position, is_emptiness, any_true, simple_depends, compound_depends, depends, joins_siblings, some_selector, features};

use plain_types::selector::{Compound, Selector, Simple};
use plain_types::selector_parts::Join;
use plain_types::sheet::{Features, Sheet, StyleRule};

/// What of an element, beside its name and its attributes, a simple selector may look at.
#[derive(Clone, Copy)]
pub(crate) enum Aspect {
    /// Its position among its siblings.
    Position,
    /// Whether it is empty.
    Emptiness,
}

fn is_position(aspect: Aspect) -> bool
    ensures { result ≡ is_position aspect }
{
    match aspect {
        Aspect::Position => true,
        Aspect::Emptiness => false,
    }
}

fn is_emptiness(aspect: Aspect) -> bool
    ensures { result ≡ is_emptiness aspect }
{
    match aspect {
        Aspect::Position => false,
        Aspect::Emptiness => true,
    }
}

#[cycle(depending)]
fn simple_depends(aspect: Aspect, simple: &Simple) -> bool
    ensures { result ≡ simple_depends aspect simple.now }
{
    match simple {
        Simple::Nth { .. } => is_position(aspect),
        Simple::Only { .. } => is_position(aspect),
        Simple::Empty => is_emptiness(aspect),
        Simple::Is(choices) => some_compound_depends(aspect, choices.as_slice()),
        Simple::Weightless(choices) => some_compound_depends(aspect, choices.as_slice()),
        Simple::Not(choices) => some_compound_depends(aspect, choices.as_slice()),
        _ => false,
    }
}

#[cycle(depending)]
fn compound_depends(aspect: Aspect, compound: &Compound) -> bool
    ensures { result ≡ compound_depends aspect compound.now }
{
    some_simple_depends(aspect, compound.simples.as_slice())
}

#[cycle(depending)]
fn some_simple_depends(aspect: Aspect, simples: &[Simple]) -> bool
    ensures { result ≡ any_true (map (simple_depends aspect) simples.now) }
{
    for simple in simples {
        if simple_depends(aspect, simple) {
            return true;
        }
    }
    false
}

#[cycle(depending)]
fn some_compound_depends(aspect: Aspect, compounds: &[Compound]) -> bool
    ensures { result ≡ any_true (map (compound_depends aspect) compounds.now) }
{
    for compound in compounds {
        if compound_depends(aspect, compound) {
            return true;
        }
    }
    false
}

fn depends(aspect: Aspect, selector: &Selector) -> bool
    ensures { result ≡ depends aspect selector.now }
{
    some_compound_depends(aspect, selector.compounds.as_slice())
}

fn is_sibling_join(join: Join) -> bool
    ensures { result ≡ is_sibling_join join }
{
    match join {
        Join::Next => true,
        Join::Later => true,
        _ => false,
    }
}

fn joins_siblings(selector: &Selector) -> bool
    ensures { result ≡ joins_siblings selector.now }
{
    let joins = selector.joins.as_slice();
    joins.iter().any(|join| is_sibling_join(*join))
}

fn some_selector_depends(aspect: Aspect, rule: &StyleRule) -> bool
    ensures { result ≡ list_any (depends aspect) rule.now.selectors }
{
    let selectors = rule.selectors.as_slice();
    selectors.iter().any(|selector| depends(aspect, selector))
}

fn some_rule_depends(aspect: Aspect, rules: &[StyleRule]) -> bool
    ensures { result ≡ some_selector (depends aspect) rules.now }
{
    rules.iter().any(|rule| some_selector_depends(aspect, rule))
}

fn some_selector_joins_siblings(rule: &StyleRule) -> bool
    ensures { result ≡ list_any joins_siblings rule.now.selectors }
{
    let selectors = rule.selectors.as_slice();
    selectors.iter().any(|selector| joins_siblings(selector))
}

fn some_rule_joins_siblings(rules: &[StyleRule]) -> bool
    ensures { result ≡ some_selector joins_siblings rules.now }
{
    rules.iter().any(|rule| some_selector_joins_siblings(rule))
}

/// What the selectors of a sheet look at: earlier siblings, positions, emptiness, at any depth of `:is()`,
/// `:where()` and `:not()`. It takes no memory, and time linear in the selectors; it calls itself as deep
/// as they are nested.
pub fn features(sheet: &Sheet) -> Features
    ensures features { result ≡ features sheet.now }
{
    let rules = sheet.rules.as_slice();
    Features {
        siblings: some_rule_joins_siblings(rules),
        positions: some_rule_depends(Aspect::Position, rules),
        empties: some_rule_depends(Aspect::Emptiness, rules),
    }
}
