//! The stops of nodes that go and come again, from the document before.

ghost use Rattle.std.specs.Prelude.{◌≡◌, IfOk};
ghost use Rattle.forest.specs.Spots.{IsLive};
ghost use Rattle.edit_merge.specs.NodeStops.{stops_at_node, stops_at_nodes};

use crate::joining::joined;
use crate::places::is_before;
use crate::stops::relabelling_stops;
use merged_walk::stop::Stop;
use node_arena::arena::Arena;
use plain_types::memory::Memory;
use std::alloc::Global;

/// The stops where a node goes and comes again with all that is in it, in tree order.
///
/// It takes memory and time linear in the node's depth, and time linear in the siblings behind it up to the first
/// element; `Memory` where that is wanting.
pub fn stops_at_node(alloc: Global, arena: &Arena, key: usize) -> Result<Vec<Stop>, Memory>
    requires live { IsLive arena.now.tree key }
    ensures stops { IfOk result (λ stops. stops.items ≡ stops_at_node arena.now.tree key) }
{
    let path = arena.path_of(alloc, key)?;
    relabelling_stops(alloc, arena, path.as_slice())
}

/// The stops where two nodes go and come again, each with all that is in it, in tree order. One that stands in the other
/// has none of its own; the two may be the same.
///
/// It takes memory and time linear in the depths of both, and time linear in the siblings behind each up to the first
/// element; `Memory` where that is wanting.
pub fn stops_at_nodes(
    alloc: Global,
    arena: &Arena,
    one: usize,
    other: usize,
) -> Result<Vec<Stop>, Memory>
    requires one { IsLive arena.now.tree one }
    requires other { IsLive arena.now.tree other }
    ensures stops { IfOk result (λ stops. stops.items ≡ stops_at_nodes arena.now.tree one other) }
{
    let path = arena.path_of(alloc, one)?;
    let place = arena.path_of(alloc, other)?;
    if place.as_slice().starts_with(path.as_slice()) {
        return relabelling_stops(alloc, arena, path.as_slice());
    }
    if path.as_slice().starts_with(place.as_slice()) {
        return relabelling_stops(alloc, arena, place.as_slice());
    }
    let stops = relabelling_stops(alloc, arena, path.as_slice())?;
    let others = relabelling_stops(alloc, arena, place.as_slice())?;
    let is_first = is_before(path.as_slice(), place.as_slice());
    joined(alloc, is_first, stops.as_slice(), others.as_slice())
}
