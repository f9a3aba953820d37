//! Which declarations apply to an element and to its pseudo-elements.

ghost use Rattle.std.specs.Prelude.{◌≡◌, ◌++◌, IfOk, OnOk, Some, flat_map, map};
ghost use Rattle.std.specs.Map.Iter.{deref};
ghost use Rattle.forest.specs.Spots.{IsLive};
ghost use Rattle.plain_types.specs.declared.selector_parts.PseudoElement.TheVariants as pseudo;
ghost use Rattle.mini_cascade.specs.Declarations.{is_same, counts_for, declared_with, hinted, attached, selects, specificity_in, declared_in, applied};
ghost use Rattle.mini_cascade.specs.Greatest.{greater};
ghost use Rattle.mini_cascade.specs.Hints.{hints_of};
ghost use Rattle.mini_cascade.specs.StyleAttributes.{inline_of};
ghost use Rattle.selectors.specs.Specificity.{is_less};

use crate::candidate::Candidates;
use crate::rank::{Attachment, Level, Origin, Rank, cascade_level};
use crate::rule_table::{RuleTable, table_misses_no_rule};
use node_arena::laws::arena_holds_document;
use plain_types::declaration::{Declaration, Declared};
use plain_types::memory::Memory;
use plain_types::selector::Selector;
use plain_types::selector_parts::PseudoElement;
use plain_types::sheet::StyleRule;
use selector_match::matching::matches;
use selector_match::siblings::Siblings;
use selectors::counting::specificity;
use selectors::specificity::Specificity;
use std::alloc::Global;

/// The declarations that apply to an element and to its pseudo-elements, in the order in which they appear.
#[derive(Drop)]
pub(crate) struct Applicable<'a> {
    pub(crate) own: Candidates<'a>,
    pub(crate) marker: Candidates<'a>,
    pub(crate) before: Candidates<'a>,
    pub(crate) after: Candidates<'a>,
}

fn is_same(first: PseudoElement, second: PseudoElement) -> bool
    ensures { result ≡ is_same first second }
{
    first == second
}

/// Whether a declaration counts where a rule has this pseudo-element.
fn counts_for(pseudo: PseudoElement, what: &Declaration) -> bool
    ensures { result ≡ counts_for pseudo what.now }
{
    match pseudo {
        PseudoElement::Marker => matches!(what, Declaration::Content(_)),
        _ => true,
    }
}

/// Whether a selector selects the element, or this pseudo-element of it.
fn selects(siblings: &Siblings<'_>, key: usize, pseudo: PseudoElement, selector: &Selector) -> bool
    requires { IsLive siblings.now key }
    ensures { result ≡ selects siblings.now key pseudo selector.now }
{
    is_same(selector.pseudo, pseudo) && matches(siblings, key, selector)
}

/// The greater of a specificity that may be missing and of another.
fn more_specific(held: Option<Specificity>, other: Specificity) -> Specificity
    ensures { Some result ≡ greater is_less held (Some other) }
{
    match held {
        Some(held) if other.is_less(held) => held,
        _ => other,
    }
}

/// The greatest specificity of a rule's selectors that select the element or this pseudo-element of it.
fn specificity_in(
    siblings: &Siblings<'_>,
    key: usize,
    pseudo: PseudoElement,
    rule: &StyleRule,
) -> Option<Specificity>
    requires { IsLive siblings.now key }
    ensures { result ≡ specificity_in siblings.now key pseudo rule.now }
{
    let mut best: Option<Specificity> = None;
    for selector in rule.selectors.as_slice() {
        if selects(siblings, key, pseudo, selector) {
            best = Some(more_specific(best, specificity(selector)));
        }
    }
    best
}

/// Appends the declarations of a rule that matches with this specificity.
fn add_declared<'a>(
    list: &mut Candidates<'a>,
    pseudo: PseudoElement,
    origin: Origin,
    block: &'a [Declared],
    specificity: Specificity,
) -> Result<(), Memory>
    ensures ok { OnOk result (list.new ≡ list.old ++ declared_with pseudo origin block.now specificity) }
{
    for declared in block {
        if counts_for(pseudo, &declared.what) {
            let level = cascade_level(origin, declared.important);
            let attachment = Attachment::Rule(specificity);
            list.push(Rank { level, attachment }, &declared.what)?;
        }
    }
    Ok(())
}

/// Appends what a rule declares for the element or for this pseudo-element of it.
fn add_rule<'a>(
    list: &mut Candidates<'a>,
    siblings: &Siblings<'_>,
    key: usize,
    pseudo: PseudoElement,
    origin: Origin,
    rule: &'a StyleRule,
) -> Result<(), Memory>
    requires { IsLive siblings.now key }
    ensures ok { OnOk result (list.new ≡ list.old ++ declared_in siblings.now key pseudo origin rule.now) }
{
    match specificity_in(siblings, key, pseudo, rule) {
        Some(specificity) => add_declared(
            list,
            pseudo,
            origin,
            rule.declared.as_slice(),
            specificity,
        ),
        None => Ok(()),
    }
}

/// Appends hints.
fn add_hints<'a>(list: &mut Candidates<'a>, hints: &'a [Declaration]) -> Result<(), Memory>
    ensures ok { OnOk result (list.new ≡ list.old ++ hinted pseudo.Own hints.now) }
{
    let rank = Rank {
        level: Level::Author,
        attachment: Attachment::Rule(Specificity {
            ids: 0,
            classes: 0,
            types: 0,
        }),
    };
    for hint in hints {
        list.push(rank, hint)?;
    }
    Ok(())
}

/// Appends the declarations of a `style` attribute.
fn add_attached<'a>(list: &mut Candidates<'a>, inline: &'a [Declared]) -> Result<(), Memory>
    ensures ok { OnOk result (list.new ≡ list.old ++ attached pseudo.Own inline.now) }
{
    let attachment = Attachment::Direct;
    for declared in inline {
        let level = cascade_level(Origin::Author, declared.important);
        list.push(Rank { level, attachment }, &declared.what)?;
    }
    Ok(())
}

/// Appends what rules declare, each of whose selectors is matched once.
fn add_rules<'a>(
    lists: &mut Applicable<'a>,
    siblings: &Siblings<'_>,
    key: usize,
    origin: Origin,
    rules: &[&'a StyleRule],
) -> Result<(), Memory>
    requires { IsLive siblings.now key }
    ensures own { OnOk result (lists.new.own ≡ lists.old.own ++ flat_map (declared_in siblings.now key pseudo.Own origin) (map deref rules.now)) }
    ensures marker { OnOk result (lists.new.marker ≡ lists.old.marker ++ flat_map (declared_in siblings.now key pseudo.Marker origin) (map deref rules.now)) }
    ensures before { OnOk result (lists.new.before ≡ lists.old.before ++ flat_map (declared_in siblings.now key pseudo.Before origin) (map deref rules.now)) }
    ensures after { OnOk result (lists.new.after ≡ lists.old.after ++ flat_map (declared_in siblings.now key pseudo.After origin) (map deref rules.now)) }
{
    for rule in rules {
        add_rule(
            &mut lists.own,
            siblings,
            key,
            PseudoElement::Own,
            origin,
            *rule,
        )?;
        add_rule(
            &mut lists.marker,
            siblings,
            key,
            PseudoElement::Marker,
            origin,
            *rule,
        )?;
        add_rule(
            &mut lists.before,
            siblings,
            key,
            PseudoElement::Before,
            origin,
            *rule,
        )?;
        add_rule(
            &mut lists.after,
            siblings,
            key,
            PseudoElement::After,
            origin,
            *rule,
        )?;
    }
    Ok(())
}

/// Appends what the rules of a sheet declare. Those alone are looked at that the table has for the element.
fn add_sheet<'a>(
    alloc: Global,
    lists: &mut Applicable<'a>,
    siblings: &Siblings<'_>,
    key: usize,
    origin: Origin,
    table: &'a RuleTable,
) -> Result<(), Memory>
    requires { IsLive siblings.now key }
    ensures own { OnOk result (lists.new.own ≡ lists.old.own ++ flat_map (declared_in siblings.now key pseudo.Own origin) table.now.rules) }
    ensures marker { OnOk result (lists.new.marker ≡ lists.old.marker ++ flat_map (declared_in siblings.now key pseudo.Marker origin) table.now.rules) }
    ensures before { OnOk result (lists.new.before ≡ lists.old.before ++ flat_map (declared_in siblings.now key pseudo.Before origin) table.now.rules) }
    ensures after { OnOk result (lists.new.after ≡ lists.old.after ++ flat_map (declared_in siblings.now key pseudo.After origin) table.now.rules) }
{
    let arena = siblings.arena();
    table_misses_no_rule();
    arena_holds_document(arena);
    let rules = table.candidates(alloc, arena, key)?;
    add_rules(lists, siblings, key, origin, rules.as_slice())
}

/// The declarations that apply, where these are the element's hints and those of its `style` attribute.
pub(crate) fn collect<'a>(
    alloc: Global,
    siblings: &Siblings<'_>,
    key: usize,
    agent: &'a RuleTable,
    hints: &'a [Declaration],
    author: &'a RuleTable,
    inline: &'a [Declared],
) -> Result<Applicable<'a>, Memory>
    requires live { IsLive siblings.now key }
    requires hints { hints.now ≡ hints_of siblings.now key }
    requires inline { inline.now ≡ inline_of siblings.now key }
    ensures own { IfOk result (λ lists. lists.own ≡ applied siblings.now key pseudo.Own agent.now author.now) }
    ensures marker { IfOk result (λ lists. lists.marker ≡ applied siblings.now key pseudo.Marker agent.now author.now) }
    ensures before { IfOk result (λ lists. lists.before ≡ applied siblings.now key pseudo.Before agent.now author.now) }
    ensures after { IfOk result (λ lists. lists.after ≡ applied siblings.now key pseudo.After agent.now author.now) }
{
    let mut lists = Applicable {
        own: Candidates::new(alloc),
        marker: Candidates::new(alloc),
        before: Candidates::new(alloc),
        after: Candidates::new(alloc),
    };
    add_sheet(alloc, &mut lists, siblings, key, Origin::UserAgent, agent)?;
    add_hints(&mut lists.own, hints)?;
    add_sheet(alloc, &mut lists, siblings, key, Origin::Author, author)?;
    add_attached(&mut lists.own, inline)?;
    Ok(lists)
}
