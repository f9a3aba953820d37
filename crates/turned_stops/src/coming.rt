//! The elements that come with an edit.

ghost use Rattle.std.specs.Prelude.{◌≡◌, ◌++◌, [], All, Some, IfOk, OnOk, is_some};
ghost use Rattle.std.specs.List.{list_any};
ghost use Rattle.std.specs.Option.{option_map_or};
ghost use Rattle.forest.specs.Spots.{IsLink, IsLive, keyed, label_of, on_link};
ghost use Rattle.node_arena.specs.Changes.{alone};
ghost use Rattle.node_arena.specs.Nodes.{name_of};
ghost use Rattle.merged_walk.specs.declared.stop.Stop.{Stop};
ghost use Rattle.edit_work.specs.KeyedSources.{element_key, elements_in, is_among};
ghost use Rattle.start_reach.specs.TurnedElements.{way_to};
ghost use Rattle.turned_stops.specs.Coming.{coming_at_stops, coming_by};
ghost use Rattle.turned_stops.specs.Machinery.ComingAt.{comes_at};

use merged_walk::stop::{Stop, Way};
use node_arena::arena::Arena;
use node_arena::laws::arena_holds_document;
use plain_types::list::List;
use plain_types::memory::Memory;
use std::alloc::Global;

/// Whether the tree of a node comes at a stop.
fn comes_at(key: usize, stop: &Stop) -> bool
    ensures comes { result ≡ comes_at key stop.now }
{
    match stop.way {
        Way::Anew => stop.link == Some(key),
        Way::Past | Way::Inside => false,
    }
}

/// Whether the tree of a node comes at one of the stops.
fn is_root_coming(stops: &[Stop], key: usize) -> bool
    ensures comes { result ≡ list_any (comes_at key) stops.now }
{
    for stop in stops {
        if comes_at(key, stop) {
            return true;
        }
    }
    false
}

/// Whether a node is in a tree that comes at one of the stops.
fn is_in_coming(arena: &Arena, stops: &[Stop], key: usize) -> bool
    requires live { IsLive arena.now.tree key }
    ensures comes { result ≡ list_any (λ node. list_any (comes_at node) stops.now) (way_to arena.now.tree key) }
{
    arena_holds_document(arena);
    let mut at = key;
    'climb: loop {
        if is_root_coming(stops, at) {
            return true;
        }
        match arena.parent(at) {
            Some(parent) => at = parent,
            None => return false,
        }
    }
}

/// Whether a node is an element.
fn is_element(arena: &Arena, key: usize) -> bool
    requires live { IsLive arena.now.tree key }
    ensures element { result ≡ is_some (name_of arena.now.tree key) }
{
    arena.name(key).is_some()
}

/// Whether an element of the document is in a tree that comes at one of the stops. A text is none.
///
/// It takes no memory, and time linear in the number of stops for each node from the element up to the root, or up to the root of
/// the tree that comes.
pub fn is_coming(arena: &Arena, stops: &[Stop], key: usize) -> bool
    requires live { IsLive arena.now.tree key }
    ensures test { result ≡ is_among (coming_at_stops arena.now.tree stops.now) key }
{
    arena_holds_document(arena);
    is_element(arena, key) && is_in_coming(arena, stops, key)
}

/// Appends a node, where it is an element.
fn put_node(arena: &Arena, key: usize, keys: &mut List<usize>) -> Result<(), Memory>
    requires live { IsLive arena.now.tree key }
    ensures ok { OnOk result (keys.new ≡ keys.old ++ option_map_or (λ label. element_key (keyed key label)) (label_of arena.now.tree key) []) }
{
    if arena.name(key).is_some() {
        keys.push(key)?;
    }
    Ok(())
}

/// Appends the elements among a node and all under it, in tree order.
fn put_tree(alloc: Global, arena: &Arena, key: usize, keys: &mut List<usize>) -> Result<(), Memory>
    requires live { IsLive arena.now.tree key }
    ensures ok { OnOk result (keys.new ≡ keys.old ++ elements_in (alone (on_link arena.now.tree (Some key)))) }
{
    arena_holds_document(arena);
    put_node(arena, key, keys)?;
    let mut inside = Vec::new(alloc);
    let mut link = arena.first_child(key);
    'walk: loop {
        match link {
            Some(node) => {
                put_node(arena, node, keys)?;
                inside.push(node)?;
                link = arena.first_child(node);
            }
            None => match inside.pop() {
                None => return Ok(()),
                Some(node) => link = arena.next_sibling(node),
            },
        }
    }
}

/// Appends the elements that come at a stop.
fn put_coming(
    alloc: Global,
    arena: &Arena,
    stop: &Stop,
    keys: &mut List<usize>,
) -> Result<(), Memory>
    requires link { IsLink arena.now.tree stop.now.link }
    ensures ok { OnOk result (keys.new ≡ keys.old ++ coming_by arena.now.tree stop.now.way stop.now.link) }
{
    match (stop.way, stop.link) {
        (Way::Anew, Some(top)) => put_tree(alloc, arena, top, keys),
        _ => Ok(()),
    }
}

/// The elements that come at stops: those of each tree that comes, in tree order.
///
/// It takes memory of these elements, and time linear in the stops and in the nodes of the trees that come; `Memory` where that is
/// wanting.
pub fn coming_keys(alloc: Global, arena: &Arena, stops: &[Stop]) -> Result<List<usize>, Memory>
    requires links { All (λ (stop : Stop). IsLink arena.now.tree stop.link) stops.now }
    ensures keys { IfOk result (λ keys. keys ≡ coming_at_stops arena.now.tree stops.now) }
{
    let mut keys = List::new(alloc);
    for stop in stops {
        put_coming(alloc, arena, stop, &mut keys)?;
    }
    Ok(keys)
}
