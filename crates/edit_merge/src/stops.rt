//! The stops of an edit, from the document before it.

ghost use Rattle.std.specs.Prelude.{◌≡◌, ◌<◌, ◌++◌, ◌∷◌, [], List, Some, None, IfOk};
ghost use Rattle.forest.specs.Forest.{Forest};
ghost use Rattle.forest.specs.Keys.{Keyed, without_keys};
ghost use Rattle.forest.specs.Paths.{key_at};
ghost use Rattle.forest.specs.Spots.{IsLink, IsLive, on_link};
ghost use Rattle.plain_types.specs.declared.node.Node.{Node};
ghost use Rattle.node_arena.specs.Edits.{place_fault};
ghost use Rattle.merged_walk.specs.EditStops.{changed_stops, come_stop, gone_stop, insertion_stops, moving_stops, on_way, relabelling_stops, removal_stops, stops_into};
ghost use Rattle.merged_walk.specs.Stops.{first_element};
ghost use Rattle.merged_walk.specs.declared.stop.Stop.{Stop};
ghost use Rattle.edit_merge.specs.EditMerges.{edit_stops, inserted_key, is_element, moved_key};

use crate::joining::joined;
use crate::places::{child_path, is_before, old_index};
use merged_walk::stop::{Stop, Way};
use node_arena::arena::Arena;
use node_arena::laws::arena_holds_document;
use plain_types::edit::Edit;
use plain_types::memory::Memory;
use plain_types::path::Path;
use std::alloc::Global;

/// The way to a place.
struct Approach {
    /// The stops into the nodes above it.
    stops: Vec<Stop>,
    /// The node that stands there, if there is one.
    link: Option<usize>,
}

/// The way that a path leads in the document. One that leads past the last child ends there.
fn way_to(alloc: Global, arena: &Arena, path: &[usize]) -> Result<Approach, Memory>
    ensures stops { IfOk result (λ way. way.stops.items ≡ stops_into 0 (on_way path.now arena.now.tree)) }
    ensures link { IfOk result (λ way. way.link ≡ key_at arena.now.tree path.now) }
    ensures live { IfOk result (λ way. IsLink arena.now.tree way.link) }
{
    arena_holds_document(arena);
    let mut stops = Vec::new(alloc);
    let mut link = Some(arena.root());
    for position in path {
        if let Some(key) = link {
            let depth = stops.len();
            stops.push(Stop {
                depth,
                link: Some(key),
                way: Way::Inside,
                from: Some(key),
            })?;
            link = arena.child(key, *position);
        }
    }
    Ok(Approach { stops, link })
}

/// The first element from a node on among its later siblings.
fn first_element(arena: &Arena, link: Option<usize>) -> Option<usize>
    requires live { IsLink arena.now.tree link }
    ensures element { result ≡ first_element is_element (on_link arena.now.tree link) }
{
    arena_holds_document(arena);
    let mut at = link;
    'siblings: while let Some(key) = at {
        if arena.name(key).is_some() {
            return Some(key);
        }
        at = arena.next_sibling(key);
    }
    None
}

/// The stop before a node that goes.
fn gone_stop(arena: &Arena, depth: usize, key: usize) -> Stop
    requires live { IsLive arena.now.tree key }
    ensures stop { result ∷ [] ≡ gone_stop is_element depth (on_link arena.now.tree (Some key)) }
{
    arena_holds_document(arena);
    Stop {
        depth,
        link: arena.next_sibling(key),
        way: Way::Past,
        from: first_element(arena, Some(key)),
    }
}

/// The stop of a node that comes before another, or at the end of a level.
fn come_stop(arena: &Arena, depth: usize, key: usize, link: Option<usize>) -> Stop
    requires live { IsLink arena.now.tree link }
    ensures stop { result ≡ come_stop is_element depth key (on_link arena.now.tree link) }
{
    Stop {
        depth,
        link: Some(key),
        way: Way::Anew,
        from: first_element(arena, link),
    }
}

/// The stops of a node that goes and comes again.
fn changed_stops(arena: &Arena, depth: usize, key: usize) -> (Stop, Stop)
    requires live { IsLive arena.now.tree key }
    ensures stops { result.0 ∷ (result.1 ∷ []) ≡ changed_stops is_element depth (on_link arena.now.tree (Some key)) }
{
    arena_holds_document(arena);
    let from = first_element(arena, Some(key));
    let gone = Stop {
        depth,
        link: Some(key),
        way: Way::Past,
        from,
    };
    let come = come_stop(arena, depth, key, arena.next_sibling(key));
    (gone, come)
}

/// The stops where the node at a path goes.
fn removal_stops(alloc: Global, arena: &Arena, path: &[usize]) -> Result<Vec<Stop>, Memory>
    ensures stops { IfOk result (λ stops. stops.items ≡ removal_stops is_element path.now arena.now.tree) }
{
    arena_holds_document(arena);
    let Approach { mut stops, link } = way_to(alloc, arena, path)?;
    if let Some(key) = link {
        let stop = gone_stop(arena, stops.len(), key);
        stops.push(stop)?;
    }
    Ok(stops)
}

/// The stops where the node at a path goes and comes again.
pub(crate) fn relabelling_stops(
    alloc: Global,
    arena: &Arena,
    path: &[usize],
) -> Result<Vec<Stop>, Memory>
    ensures stops { IfOk result (λ stops. stops.items ≡ relabelling_stops is_element path.now arena.now.tree) }
{
    arena_holds_document(arena);
    let Approach { mut stops, link } = way_to(alloc, arena, path)?;
    if let Some(key) = link {
        let (gone, come) = changed_stops(arena, stops.len(), key);
        stops.push(gone)?;
        stops.push(come)?;
    }
    Ok(stops)
}

/// The stops where a node of this key comes at a path.
fn insertion_stops(
    alloc: Global,
    arena: &Arena,
    path: &[usize],
    key: usize,
) -> Result<Vec<Stop>, Memory>
    ensures stops { IfOk result (λ stops. stops.items ≡ insertion_stops is_element path.now key arena.now.tree) }
{
    arena_holds_document(arena);
    let Approach { mut stops, link } = way_to(alloc, arena, path)?;
    let stop = come_stop(arena, stops.len(), key, link);
    stops.push(stop)?;
    Ok(stops)
}

/// The stops where the node at a path becomes the child of this index of another.
fn moving_stops(
    alloc: Global,
    arena: &Arena,
    from: &Path,
    parent: &Path,
    index: usize,
) -> Result<Vec<Stop>, Memory>
    requires fits { index < usize.MAX }
    ensures stops { IfOk result (λ stops. stops.items ≡ moving_stops is_element from.now parent.now index (moved_key from.now arena.now.tree) arena.now.tree) }
{
    let from_steps = from.as_slice();
    let steps = parent.as_slice();
    let place = child_path(alloc, steps, old_index(from_steps, steps, index))?;
    let key = arena.at(from).unwrap_or(0);
    let gone = removal_stops(alloc, arena, from_steps)?;
    let come = insertion_stops(alloc, arena, place.as_slice(), key)?;
    let is_first = is_before(from_steps, place.as_slice());
    joined(alloc, is_first, gone.as_slice(), come.as_slice())
}

/// The stops of an edit that the document allows and that is not done yet, in tree order. Where it inserts a tree the
/// key of that tree's root is not known yet: 0 stands for it until [`name_inserted`].
///
/// Another sheet has no stops: no node of the document changes, and all is evaluated again.
///
/// It takes memory and time linear in the lengths of the edit's paths, and time linear in the siblings behind its
/// places up to the first element; `Memory` where that is wanting.
pub fn stops_of_edit(alloc: Global, arena: &Arena, edit: &Edit) -> Result<Vec<Stop>, Memory>
    requires allowed { place_fault edit.now (without_keys arena.now.tree) ≡ None }
    ensures stops { IfOk result (λ stops. stops.items ≡ edit_stops edit.now 0 arena.now.tree) }
{
    arena_holds_document(arena);
    match edit {
        Edit::Insert { parent, index, .. } => {
            let place = child_path(alloc, parent.as_slice(), *index)?;
            insertion_stops(alloc, arena, place.as_slice(), 0)
        }
        Edit::Remove { path } => removal_stops(alloc, arena, path.as_slice()),
        Edit::Move {
            from,
            parent,
            index,
        } => moving_stops(alloc, arena, from, parent, *index),
        Edit::SetAttr { path, .. } | Edit::UnsetAttr { path, .. } => {
            relabelling_stops(alloc, arena, path.as_slice())
        }
        Edit::ReplaceSheet { .. } => Ok(Vec::new(alloc)),
    }
}

/// The child of this index of the node at a path.
fn child_at(arena: &Arena, parent: &Path, index: usize) -> Option<usize>
    ensures link { result ≡ key_at arena.now.tree (parent.now ++ index ∷ []) }
{
    arena_holds_document(arena);
    arena.child(arena.at(parent)?, index)
}

/// Puts the key of an inserted root into the stops of the edit, which is done now. Time linear in the edit's path.
pub fn name_inserted(arena: &Arena, edit: &Edit, stops: &mut Vec<Stop>)
    ensures stops { (old : Forest (Keyed Node)) → stops.old.items ≡ edit_stops edit.now 0 old → stops.new.items ≡ edit_stops edit.now (inserted_key edit.now arena.now.tree) old }
{
    if let Edit::Insert { parent, index, .. } = edit {
        if let Some(key) = child_at(arena, parent, *index) {
            put_link(stops, key);
        }
    }
}

/// Lets the last stop go on at this node.
fn put_link(stops: &mut Vec<Stop>, key: usize)
    ensures last { (before : List Stop) (stop : Stop) → stops.old.items ≡ before ++ stop ∷ [] → stops.new.items ≡ before ++ record stop { link = Some key } ∷ [] }
{
    if let Some(last) = stops.len().checked_sub(1) {
        let stop = stops[last];
        stops[last] = Stop {
            link: Some(key),
            ..stop
        };
    }
}
