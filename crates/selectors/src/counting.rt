//! The specificity of selectors (Selectors 4, "Calculating a selector's specificity").

ghost use Rattle.std.specs.Prelude.{◌≡◌, map};
ghost use Rattle.selectors.specs.Specificity.{nothing, sum_with, greatest_with, simple_specificity, compound_specificity, pseudo_specificity, specificity};

use crate::specificity::Specificity;
use plain_types::selector::{Compound, Selector, Simple};
use plain_types::selector_parts::PseudoElement;

#[cycle(counting)]
fn of_simple(simple: &Simple) -> Specificity
    ensures { result ≡ simple_specificity simple.now }
{
    match simple {
        Simple::Any | Simple::Weightless(_) => Specificity::of(0, 0, 0),
        Simple::Element(_) => Specificity::of(0, 0, 1),
        Simple::Id(_) => Specificity::of(1, 0, 0),
        Simple::Is(choices) => greatest(choices.as_slice()),
        Simple::Not(choices) => greatest(choices.as_slice()),
        _ => Specificity::of(0, 1, 0),
    }
}

#[cycle(counting)]
fn of_compound(compound: &Compound) -> Specificity
    ensures { result ≡ compound_specificity compound.now }
{
    sum(compound.simples.as_slice())
}

/// The greatest among the choices.
#[cycle(counting)]
fn greatest(choices: &[Compound]) -> Specificity
    ensures { result ≡ greatest_with nothing (map compound_specificity choices.now) }
{
    let mut greatest = Specificity::of(0, 0, 0);
    for compound in choices {
        greatest = greatest.greater(of_compound(compound));
    }
    greatest
}

#[cycle(counting)]
fn sum(simples: &[Simple]) -> Specificity
    ensures { result ≡ sum_with nothing (map simple_specificity simples.now) }
{
    let mut sum = Specificity::of(0, 0, 0);
    for simple in simples {
        sum = sum.plus(of_simple(simple));
    }
    sum
}

fn of_pseudo(pseudo: PseudoElement) -> Specificity
    ensures { result ≡ pseudo_specificity pseudo }
{
    match pseudo {
        PseudoElement::Own => Specificity::of(0, 0, 0),
        _ => Specificity::of(0, 0, 1),
    }
}

/// The specificity of the selector. `:is()` and `:not()` count as their most specific argument, `:where()` and `*`
/// count for nothing.
///
/// It takes no memory, and time linear in the simple selectors. It calls itself as deep as `:is()`,
/// `:where()` and `:not()` are nested.
pub fn specificity(selector: &Selector) -> Specificity
    ensures counts { result ≡ specificity selector.now }
{
    let mut sum = of_pseudo(selector.pseudo);
    for compound in selector.compounds.as_slice() {
        sum = sum.plus(of_compound(compound));
    }
    sum
}
