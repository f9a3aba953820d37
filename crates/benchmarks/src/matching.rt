//! Work with the matching of selectors.

ghost use Rattle.forest.specs.Spots.{IsLive};

use crate::arena::{last_node, tree_of};
use node_arena::arena::{Arena, has_element_root};
use plain_types::list::List;
use plain_types::memory::Memory;
use plain_types::selector::{Compound, Selector, Simple};
use plain_types::selector_parts::{Join, PseudoElement};
use plain_types::text::Text;
use selector_match::matching::matches;
use selector_match::siblings::Siblings;
use std::alloc::Global;

/// The shape of the tree, the combinator between the compounds, and the one before the last compound.
fn plan(work: &str) -> Option<(&'static str, Join, Join)> {
    match work {
        "descendant" => Some(("deep", Join::Descendant, Join::Descendant)),
        "child" => Some(("deep", Join::Child, Join::Descendant)),
        "later" => Some(("wide", Join::Later, Join::Later)),
        _ => None,
    }
}

fn push_compound(
    alloc: Global,
    simple: Simple,
    compounds: &mut List<Compound>,
) -> Result<(), Memory> {
    let mut simples = List::new(alloc);
    simples.push(simple)?;
    compounds.push(Compound { simples })
}

/// `b`, and behind it so many `*` and one more, with these combinators. No element here is a `b`, so it
/// matches nothing, and that shows only where all ancestors, or earlier siblings, have been looked at.
fn selector_of(alloc: Global, between: Join, last: Join, count: usize) -> Result<Selector, Memory> {
    let mut compounds = List::new(alloc);
    let mut joins = List::new(alloc);
    push_compound(
        alloc,
        Simple::Element(Text::from_str(alloc, "b")?),
        &mut compounds,
    )?;
    for _ in 0..count {
        joins.push(between)?;
        push_compound(alloc, Simple::Any, &mut compounds)?;
    }
    joins.push(last)?;
    push_compound(alloc, Simple::Any, &mut compounds)?;
    Ok(Selector {
        compounds,
        joins,
        pseudo: PseudoElement::Own,
    })
}

/// How often, of a thousand times, the selector matches that node.
fn count_matching(siblings: &Siblings<'_>, node: usize, selector: &Selector) -> usize
    requires live { IsLive siblings.now node }
{
    (0..1000)
        .filter(|_| matches(siblings, node, selector))
        .count()
}

/// How many elements of a document the selector matches, where what is asked for is kept; at most so many nodes are gone
/// over.
fn count_elements(alloc: Global, arena: &Arena, selector: &Selector, most: usize) -> usize {
    let mut siblings = Siblings::new(alloc, arena);
    let mut count: usize = 0;
    let mut at = arena.root();
    'walk: for _ in 0..most {
        if matches(&siblings, at, selector) {
            count = count.saturating_add(1);
        }
        siblings.keep(alloc, at);
        match arena.next_in_order(at) {
            Some(next) => at = next,
            None => break,
        }
    }
    count
}

/// Matches each of so many elements once with a selector of so many compounds, two at least, and answers how many it
/// matched.
pub(crate) fn perform_all(
    alloc: Global,
    work: &str,
    size: usize,
    compounds: usize,
) -> Option<usize> {
    let (shape, between, last) = plan(work)?;
    let tree = tree_of(alloc, shape, size)?;
    if !has_element_root(&tree) {
        return None;
    }
    let arena = Arena::from_tree(alloc, &tree).ok()?;
    let selector = selector_of(alloc, between, last, compounds.checked_sub(2)?).ok()?;
    Some(count_elements(alloc, &arena, &selector, tree.len()))
}

/// Matches the last of so many elements with a selector of so many compounds, two at least, a thousand times,
/// and answers how often it matched.
pub(crate) fn perform(alloc: Global, work: &str, size: usize, compounds: usize) -> Option<usize> {
    let (shape, between, last) = plan(work)?;
    let tree = tree_of(alloc, shape, size)?;
    if !has_element_root(&tree) {
        return None;
    }
    let arena = Arena::from_tree(alloc, &tree).ok()?;
    let selector = selector_of(alloc, between, last, compounds.checked_sub(2)?).ok()?;
    let node = last_node(&arena, tree.len());
    let siblings = Siblings::new(alloc, &arena);
    Some(count_matching(&siblings, node, &selector))
}
