//! The elements that an edit changes.

ghost use Rattle.std.specs.Prelude.{◌≡◌, ◌||◌, ◌++◌, ℕ, [], All, Some, IfOk, OnOk};
ghost use Rattle.std.specs.Option.{option_map_or, option_to_list};
ghost use Rattle.forest.specs.Spots.{IsLink, IsLive, keyed, label_of, on_link};
ghost use Rattle.node_arena.specs.Changes.{alone};
ghost use Rattle.edit_work.specs.KeyedSources.{element_key, elements_in, is_among};
ghost use Rattle.merged_walk.specs.declared.stop.Stop.{Stop};
ghost use Rattle.reference_reach.specs.MergedNodes.{elements_at_stops, elements_by};

use crate::elements::Elements;
use merged_walk::stop::{Stop, Way};
use node_arena::arena::Arena;
use node_arena::laws::arena_holds_document;
use plain_types::list::List;
use plain_types::memory::Memory;
use std::alloc::Global;

/// Appends a node, where it is an element.
fn put_node(arena: &Arena, key: usize, keys: &mut List<usize>) -> Result<(), Memory>
    requires live { IsLive arena.now.tree key }
    ensures ok { OnOk result (keys.new ≡ keys.old ++ option_map_or (λ label. element_key (keyed key label)) (label_of arena.now.tree key) []) }
{
    if arena.name(key).is_some() {
        keys.push(key)?;
    }
    Ok(())
}

/// The elements among a node and all under it, in tree order.
fn elements_from(alloc: Global, arena: &Arena, key: usize) -> Result<List<usize>, Memory>
    requires live { IsLive arena.now.tree key }
    ensures keys { IfOk result (λ keys. keys ≡ elements_in (alone (on_link arena.now.tree (Some key)))) }
{
    arena_holds_document(arena);
    let mut keys = List::new(alloc);
    put_node(arena, key, &mut keys)?;
    let mut inside = Vec::new(alloc);
    let mut link = arena.first_child(key);
    'walk: loop {
        match link {
            Some(node) => {
                put_node(arena, node, &mut keys)?;
                inside.push(node)?;
                link = arena.first_child(node);
            }
            None => match inside.pop() {
                None => return Ok(keys),
                Some(node) => link = arena.next_sibling(node),
            },
        }
    }
}

/// Adds the elements of a tree, where there is one.
fn add_tree(
    alloc: Global,
    arena: &Arena,
    link: Option<usize>,
    found: &mut Elements,
) -> Result<(), Memory>
    requires live { IsLink arena.now.tree link }
    ensures ok { OnOk result ((key : ℕ) → is_among found.new key ≡ (is_among found.old key || is_among (elements_in (alone (on_link arena.now.tree link))) key)) }
{
    if let Some(top) = link {
        let keys = elements_from(alloc, arena, top)?;
        found.add_all(keys.as_slice())?;
    }
    Ok(())
}

/// Adds an element, where there is one.
fn add_link(link: Option<usize>, found: &mut Elements) -> Result<(), Memory>
    ensures ok { OnOk result ((key : ℕ) → is_among found.new key ≡ (is_among found.old key || is_among (option_to_list link) key)) }
{
    if let Some(element) = link {
        found.add(element)?;
    }
    Ok(())
}

/// Adds the elements that a stop enters.
fn add_stop(alloc: Global, arena: &Arena, stop: &Stop, found: &mut Elements) -> Result<(), Memory>
    requires live { IsLink arena.now.tree stop.now.link }
    ensures ok { OnOk result ((key : ℕ) → is_among found.new key ≡ (is_among found.old key || is_among (elements_by arena.now.tree stop.now.way stop.now.link) key)) }
{
    match stop.way {
        Way::Past => Ok(()),
        Way::Inside => add_link(stop.link, found),
        Way::Anew => add_tree(alloc, arena, stop.link, found),
    }
}

/// Adds the elements that stops enter.
fn add_stops(
    alloc: Global,
    arena: &Arena,
    stops: &[Stop],
    found: &mut Elements,
) -> Result<(), Memory>
    requires live { All (λ (stop : Stop). IsLink arena.now.tree stop.link) stops.now }
    ensures ok { OnOk result ((key : ℕ) → is_among found.new key ≡ (is_among found.old key || is_among (elements_at_stops arena.now.tree stops.now) key)) }
{
    for stop in stops {
        add_stop(alloc, arena, stop, found)?;
    }
    Ok(())
}

/// The elements that an edit changes, where a walk from these stops in the edited document has visited these: those and the ones
/// that its merge enters, each once, in the order in which they were found.
///
/// It takes memory of these elements, and time linear in them, in the stops, and in the nodes of the trees that are new.
pub fn changed_elements(
    alloc: Global,
    arena: &Arena,
    stops: &[Stop],
    visited: &[usize],
) -> Result<Elements, Memory>
    requires live { All (λ (stop : Stop). IsLink arena.now.tree stop.link) stops.now }
    ensures found { IfOk result (λ found. (key : ℕ) → is_among found key ≡ is_among (visited.now ++ elements_at_stops arena.now.tree stops.now) key) }
{
    let mut found = Elements::new(alloc);
    found.add_all(visited)?;
    add_stops(alloc, arena, stops, &mut found)?;
    Ok(found)
}
