//! The declarations that apply to an element, with where they stand.

ghost use Rattle.std.specs.Prelude.{◌≡◌, ◌+◌, ◌++◌, ◌∷◌, [], false, IfOk, OnOk, Some, filter, map};
ghost use Rattle.forest.specs.Spots.{IsLive};
ghost use Rattle.plain_types.specs.declared.selector_parts.PseudoElement.TheVariants as pseudo;
ghost use Rattle.selectors.specs.Specificity.{is_less};
ghost use Rattle.mini_cascade.specs.Declarations.{selects, specificity_in};
ghost use Rattle.mini_cascade.specs.Greatest.{greater};
ghost use Rattle.mini_cascade.specs.Hints.{hints_of};
ghost use Rattle.mini_cascade.specs.StyleAttributes.{inline_of};
ghost use Rattle.style_sources.specs.Sources.{attached, declared_from, declared_in, declared_with, hinted, placed, placed_declarations, value_source_of};

use crate::greatest::winner;
use crate::place::{DeclarationPlace, SheetOrigin};
use crate::placed::PlacedDeclaration;
use crate::property::Property;
use crate::value_source::ValueSource;
use plain_types::declaration::{Declaration, Declared};
use plain_types::memory::Memory;
use plain_types::selector::Selector;
use plain_types::selector_parts::PseudoElement;
use plain_types::sheet::{Sheet, StyleRule};
use selector_match::matching::matches;
use selector_match::siblings::Siblings;
use selectors::counting::specificity;
use selectors::specificity::Specificity;
use std::alloc::Global;
use std::marker::Model;

/// What has no specificity, as one that counts nothing.
const NOTHING: Specificity = Specificity {
    ids: 0,
    classes: 0,
    types: 0,
};

/// The declarations that apply to an element, with where they stand, in the order in which they appear.
#[derive(Drop)]
pub struct Declarations<'a> {
    items: Vec<PlacedDeclaration<'a>>,
}

impl<'a> Model for Declarations<'a> {
    ghost use Rattle.std.specs.Prelude.{List, map};
    ghost use Rattle.style_sources.specs.Sources.{Placed, placed};
    ghost use Rattle.style_sources.specs.declared.placed.PlacedDeclaration.{PlacedDeclaration};

    ghost Value = { List Placed };

    ghost view = { λ declarations. map (λ (d : PlacedDeclaration). placed d.place d.important d.specificity d.what.now) declarations.items.items };
}

/// Whether a selector selects the element itself.
fn selects(siblings: &Siblings<'_>, key: usize, selector: &Selector) -> bool
    requires { IsLive siblings.now key }
    ensures { result ≡ selects siblings.now key pseudo.Own selector.now }
{
    matches!(selector.pseudo, PseudoElement::Own) && matches(siblings, key, selector)
}

/// The greater of a specificity that may be missing and of another.
fn more_specific(held: Option<Specificity>, other: Specificity) -> Specificity
    ensures { Some result ≡ greater is_less held (Some other) }
{
    match held {
        Some(held) if other.is_less(held) => held,
        _ => other,
    }
}

/// The greatest specificity of a rule's selectors that select the element.
fn specificity_in(siblings: &Siblings<'_>, key: usize, rule: &StyleRule) -> Option<Specificity>
    requires { IsLive siblings.now key }
    ensures { result ≡ specificity_in siblings.now key pseudo.Own rule.now }
{
    let mut best: Option<Specificity> = None;
    for selector in rule.selectors.as_slice() {
        if selects(siblings, key, selector) {
            best = Some(more_specific(best, specificity(selector)));
        }
    }
    best
}

impl<'a> Declarations<'a> {
    fn new(alloc: Global) -> Declarations<'a>
        ensures empty { result ≡ [] }
    {
        Declarations {
            items: Vec::new(alloc),
        }
    }

    fn push(
        &mut self,
        place: DeclarationPlace,
        important: bool,
        specificity: Specificity,
        what: &'a Declaration,
    ) -> Result<(), Memory>
        ensures ok { OnOk result (self.new ≡ self.old ++ placed place important specificity what.now ∷ []) }
    {
        self.items.push(PlacedDeclaration {
            place,
            important,
            specificity,
            what,
        })?;
        Ok(())
    }

    /// Appends declarations that stand in one place.
    fn add_block(
        &mut self,
        place: DeclarationPlace,
        specificity: Specificity,
        block: &'a [Declared],
    ) -> Result<(), Memory>
        ensures ok { OnOk result (self.new ≡ self.old ++ declared_with place block.now specificity) }
    {
        for declared in block {
            self.push(place, declared.important, specificity, &declared.what)?;
        }
        Ok(())
    }

    fn add_hints(&mut self, hints: &'a [Declaration]) -> Result<(), Memory>
        ensures ok { OnOk result (self.new ≡ self.old ++ hinted hints.now) }
    {
        for hint in hints {
            self.push(DeclarationPlace::Hint, false, NOTHING, hint)?;
        }
        Ok(())
    }

    /// Appends what a rule declares for the element.
    fn add_rule(
        &mut self,
        siblings: &Siblings<'_>,
        key: usize,
        place: DeclarationPlace,
        rule: &'a StyleRule,
    ) -> Result<(), Memory>
        requires { IsLive siblings.now key }
        ensures ok { OnOk result (self.new ≡ self.old ++ declared_in siblings.now key place rule.now) }
    {
        match specificity_in(siblings, key, rule) {
            Some(specificity) => self.add_block(place, specificity, rule.declared.as_slice()),
            None => Ok(()),
        }
    }

    /// Appends what the rules of a sheet declare for the element, each of whose selectors is matched once.
    fn add_rules(
        &mut self,
        siblings: &Siblings<'_>,
        key: usize,
        origin: SheetOrigin,
        rules: &'a [StyleRule],
    ) -> Result<(), Memory>
        requires { IsLive siblings.now key }
        ensures ok { OnOk result (self.new ≡ self.old ++ declared_from siblings.now key origin 0 rules.now) }
    {
        for (number, rule) in rules.iter().enumerate() {
            self.add_rule(siblings, key, DeclarationPlace::Rule(origin, number), rule)?;
        }
        Ok(())
    }

    /// The declarations that apply to an element, where these are its hints and those of its `style` attribute.
    ///
    /// Each selector is matched once; declarations of rules that do not match are not looked at. Time is linear in the
    /// selectors of both sheets, beside what it costs to match them, and in the declarations that apply, and so is memory
    /// in these.
    pub fn of(
        alloc: Global,
        siblings: &Siblings<'_>,
        key: usize,
        agent: &'a Sheet,
        hints: &'a [Declaration],
        author: &'a Sheet,
        inline: &'a [Declared],
    ) -> Result<Declarations<'a>, Memory>
        requires live { IsLive siblings.now key }
        requires hints { hints.now ≡ hints_of siblings.now key }
        requires inline { inline.now ≡ inline_of siblings.now key }
        ensures declarations { IfOk result (λ declarations. declarations ≡ placed_declarations siblings.now key agent.now author.now) }
    {
        let mut declarations = Declarations::new(alloc);
        declarations.add_rules(
            siblings,
            key,
            SheetOrigin::UserAgent,
            agent.rules.as_slice(),
        )?;
        declarations.add_hints(hints)?;
        declarations.add_rules(siblings, key, SheetOrigin::Author, author.rules.as_slice())?;
        declarations.add_block(DeclarationPlace::StyleAttribute, NOTHING, inline)?;
        Ok(declarations)
    }

    /// Where the value of a property of the element comes from. Linear time.
    pub fn source(&self, property: Property, is_root: bool) -> ValueSource
        ensures source { result ≡ value_source_of is_root property self.now }
    {
        match winner(property, self.items.as_slice()) {
            Some(winner) => ValueSource::Declared {
                place: winner.place,
                important: winner.important,
            },
            None => property.undeclared(is_root),
        }
    }
}
