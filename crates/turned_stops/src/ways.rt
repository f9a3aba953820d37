//! The stops on the ways to turned elements.

ghost use Rattle.std.specs.Prelude.{◌≡◌, ◌≤◌, ◌++◌, ◌∷◌, [], ℕ, Bool, All, IfOk, OnOk, drop, length, take};
ghost use Rattle.forest.specs.Spots.{IsLink, IsLive};
ghost use Rattle.merged_walk.specs.declared.stop.Stop.{Stop};
ghost use Rattle.merged_walk.specs.EditStops.{stop_inside};
ghost use Rattle.merged_walk.specs.Stops.{is_inside};
ghost use Rattle.merged_walk.specs.TurnedNodes.{is_link_before, is_stop_before, is_stop_into, stops_after, stops_before, with_way};
ghost use Rattle.start_reach.specs.TurnedElements.{is_earlier, way_to, with_ways_to};

use merged_walk::stop::{Stop, Way};
use node_arena::arena::Arena;
use node_arena::laws::arena_holds_document;
use plain_types::memory::Memory;
use std::alloc::Global;

/// The keys of the nodes above a node, from the root, and its own.
fn way_to(alloc: Global, arena: &Arena, key: usize) -> Result<Vec<usize>, Memory>
    requires live { IsLive arena.now.tree key }
    ensures way { IfOk result (λ way. way.items ≡ way_to arena.now.tree key) }
    ensures live { IfOk result (λ way. All (IsLive arena.now.tree) way.items) }
{
    arena_holds_document(arena);
    let mut way = Vec::new(alloc);
    let mut link = Some(key);
    'climb: while let Some(node) = link {
        way.push(node)?;
        link = arena.parent(node);
    }
    way.reverse();
    Ok(way)
}

/// The stop into a node.
fn stop_inside(depth: usize, key: usize) -> Stop
    ensures stop { result ≡ stop_inside depth key }
{
    Stop {
        depth,
        link: Some(key),
        way: Way::Inside,
        from: Some(key),
    }
}

/// Whether a stop with this link, on the level of a node, comes before the stop into the node.
fn is_link_before(arena: &Arena, key: usize, way: Way, link: usize) -> bool
    requires live { IsLive arena.now.tree key }
    requires link { IsLive arena.now.tree link }
    ensures before { result ≡ is_link_before (is_earlier arena.now.tree) key (is_inside way) link }
{
    if link == key {
        return !matches!(way, Way::Inside);
    }
    arena.index_of(link) < arena.index_of(key)
}

/// Whether a stop comes before the stop into a node at this depth.
fn is_stop_before(arena: &Arena, depth: usize, key: usize, stop: &Stop) -> bool
    requires live { IsLive arena.now.tree key }
    requires link { IsLink arena.now.tree stop.now.link }
    ensures before { result ≡ is_stop_before (is_earlier arena.now.tree) depth key stop.now }
{
    if stop.depth != depth {
        return stop.depth > depth;
    }
    match stop.link {
        Some(link) => is_link_before(arena, key, stop.way, link),
        None => false,
    }
}

/// Whether a stop is the one into a node at this depth.
fn is_stop_into(depth: usize, key: usize, stop: &Stop) -> bool
    ensures into { (earlier : ℕ → ℕ → Bool) → result ≡ is_stop_into earlier depth key stop.now }
{
    match (stop.way, stop.link) {
        (Way::Inside, Some(link)) => stop.depth == depth && link == key,
        _ => false,
    }
}

/// Where the stops before the one into a node end, and where those behind it begin.
fn places_around(arena: &Arena, depth: usize, key: usize, stops: &[Stop]) -> (usize, usize)
    requires live { IsLive arena.now.tree key }
    requires links { All (λ (stop : Stop). IsLink arena.now.tree stop.link) stops.now }
    ensures end { result.0 ≤ length stops.now }
    ensures begin { result.1 ≤ length stops.now }
    ensures before { take result.0 stops.now ≡ stops_before (is_earlier arena.now.tree) depth key stops.now }
    ensures after { drop result.1 stops.now ≡ stops_after (is_earlier arena.now.tree) depth key stops.now }
{
    for (place, stop) in stops.iter().enumerate() {
        if !is_stop_before(arena, depth, key, stop) {
            if is_stop_into(depth, key, stop) {
                return (place, place + 1);
            }
            return (place, place);
        }
    }
    (stops.len(), stops.len())
}

/// Puts the stops before the one into a node, and that one, and tells where those behind it begin.
fn put_node(
    arena: &Arena,
    depth: usize,
    key: usize,
    stops: &[Stop],
    all: &mut Vec<Stop>,
) -> Result<usize, Memory>
    requires live { IsLive arena.now.tree key }
    requires links { All (λ (stop : Stop). IsLink arena.now.tree stop.link) stops.now }
    ensures begin { IfOk result (λ begin. begin ≤ length stops.now) }
    ensures after { IfOk result (λ begin. drop begin stops.now ≡ stops_after (is_earlier arena.now.tree) depth key stops.now) }
    ensures put { OnOk result (all.new.items ≡ all.old.items ++ (stops_before (is_earlier arena.now.tree) depth key stops.now ++ stop_inside depth key ∷ [])) }
{
    let (end, begin) = places_around(arena, depth, key, stops);
    all.extend_from_slice(&stops[..end])?;
    all.push(stop_inside(depth, key))?;
    Ok(begin)
}

/// Stops, with those on a way from the root. Time linear in both.
fn with_way(
    alloc: Global,
    arena: &Arena,
    way: &[usize],
    stops: &[Stop],
) -> Result<Vec<Stop>, Memory>
    requires live { All (IsLive arena.now.tree) way.now }
    requires links { All (λ (stop : Stop). IsLink arena.now.tree stop.link) stops.now }
    ensures stops { IfOk result (λ all. all.items ≡ with_way (is_earlier arena.now.tree) 0 way.now stops.now) }
    ensures links { IfOk result (λ all. All (λ (stop : Stop). IsLink arena.now.tree stop.link) all.items) }
{
    let mut all = Vec::new(alloc);
    let mut from = 0;
    for (depth, key) in way.iter().enumerate() {
        from += put_node(arena, depth, *key, &stops[from..], &mut all)?;
    }
    all.extend_from_slice(&stops[from..])?;
    Ok(all)
}

/// Puts those on the way to a node among stops. Time linear in both.
fn add_way(alloc: Global, arena: &Arena, key: usize, stops: &mut Vec<Stop>) -> Result<(), Memory>
    requires live { IsLive arena.now.tree key }
    requires links { All (λ (stop : Stop). IsLink arena.now.tree stop.link) stops.old.items }
    ensures stops { OnOk result (stops.new.items ≡ with_way (is_earlier arena.now.tree) 0 (way_to arena.now.tree key) stops.old.items) }
    ensures links { OnOk result (All (λ (stop : Stop). IsLink arena.now.tree stop.link) stops.new.items) }
{
    let way = way_to(alloc, arena, key)?;
    *stops = with_way(alloc, arena, way.as_slice(), stops.as_slice())?;
    Ok(())
}

/// The stops of an edit, with those on the ways to these elements, in tree order: what stands there already is not put in again.
///
/// It takes memory linear in the stops and the depth of the elements; for each element, time linear in its depth and in the stops,
/// those that came with the elements before it among them. `Memory` where that is wanting.
pub fn with_ways(
    alloc: Global,
    arena: &Arena,
    keys: &[usize],
    stops: &[Stop],
) -> Result<Vec<Stop>, Memory>
    requires live { All (IsLive arena.now.tree) keys.now }
    requires links { All (λ (stop : Stop). IsLink arena.now.tree stop.link) stops.now }
    ensures stops { IfOk result (λ all. all.items ≡ with_ways_to arena.now.tree keys.now stops.now) }
{
    let mut all = Vec::from_slice(alloc, stops)?;
    for key in keys {
        add_way(alloc, arena, *key, &mut all)?;
    }
    Ok(all)
}
