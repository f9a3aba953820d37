//! The turns of a walk from the places of an edit.

ghost use Rattle.std.specs.Prelude.{◌≡◌, OnOk, Some, is_some, length, true, false};
ghost use Rattle.forest.specs.Spots.{IsLive};
ghost use Rattle.node_arena.specs.Nodes.{name_of};
ghost use Rattle.merged_walk.specs.Stops.{is_at};
ghost use Rattle.document_walk.specs.Catching.{frames_of, reading, stops_left};
ghost use Rattle.document_walk.specs.Machinery.Standing.{GoesOn, IsSomewhere, IsWithinMost};

use crate::catching::Catching;
use crate::snapshot::Snapshots;
use crate::sources::Sources;
use box_eval::starts::Starts;
use merged_walk::stop::Way;
use node_arena::arena::Arena;
use plain_types::memory::Memory;
use selector_match::siblings::Siblings;
use std::alloc::Global;
use std::sync::ledger::Ledger;
use steps::Steps;

/// A turn at a stop.
pub(crate) fn turn_at_stop<L: Ledger, T: Starts, B: Snapshots>(
    walk: &mut Catching,
    alloc: Global,
    sources: &Sources<T>,
    siblings: &mut Siblings<'_>,
    board: &B,
    steps: &mut Steps<L>,
) -> Result<(), Memory>
    requires same { siblings.old ≡ sources.now.arena.now.tree }
    requires somewhere { IsSomewhere (reading T.starts sources.now) (B.kept board.now) walk.old steps.old }
    requires at { is_at (stops_left walk.old) (length (frames_of walk.old)) walk.old.link ≡ true }
    ensures same { siblings.new ≡ siblings.old }
    ensures next { OnOk result (GoesOn (reading T.starts sources.now) (B.kept board.now) walk.old steps.old walk.new steps.new) }
    ensures found { OnOk result (GoesOn (reading T.starts sources.now) (B.kept board.now) walk.old 0 walk.new 0) }
    ensures most { IsWithinMost (reading T.starts sources.now) (B.kept board.now) walk.old steps.old steps.new }
{
    let _root = sources.arena.root();
    let _board = board;
    if let Some(stop) = walk.stops.pop() {
        if let Some(key) = walk.link {
            match stop.way {
                Way::Past => {}
                Way::Inside => walk.enter(alloc, sources, siblings, key, false, steps)?,
                Way::Anew => {
                    if is_element(sources.arena, key) {
                        walk.enter(alloc, sources, siblings, key, true, steps)?;
                    } else {
                        walk.link = sources.arena.next_sibling(key);
                    }
                }
            }
        }
    }
    Ok(())
}

/// A turn at a node, where the walk is at no stop.
pub(crate) fn turn_at<L: Ledger, T: Starts, B: Snapshots>(
    walk: &mut Catching,
    alloc: Global,
    sources: &Sources<T>,
    siblings: &mut Siblings<'_>,
    board: &B,
    key: usize,
    steps: &mut Steps<L>,
) -> Result<(), Memory>
    requires same { siblings.old ≡ sources.now.arena.now.tree }
    requires somewhere { IsSomewhere (reading T.starts sources.now) (B.kept board.now) walk.old steps.old }
    requires off { is_at (stops_left walk.old) (length (frames_of walk.old)) walk.old.link ≡ false }
    requires link { walk.old.link ≡ Some key }
    ensures same { siblings.new ≡ siblings.old }
    ensures next { OnOk result (GoesOn (reading T.starts sources.now) (B.kept board.now) walk.old steps.old walk.new steps.new) }
    ensures found { OnOk result (GoesOn (reading T.starts sources.now) (B.kept board.now) walk.old 0 walk.new 0) }
    ensures most { IsWithinMost (reading T.starts sources.now) (B.kept board.now) walk.old steps.old steps.new }
{
    let _root = sources.arena.root();
    if !is_element(sources.arena, key) {
        walk.link = sources.arena.next_sibling(key);
        return Ok(());
    }
    if walk.is_fresh() {
        return walk.enter(alloc, sources, siblings, key, true, steps);
    }
    if walk.is_same(board, key, steps) {
        return walk.skip(alloc, board, steps);
    }
    walk.enter(alloc, sources, siblings, key, false, steps)
}

/// Whether the node is an element.
pub(crate) fn is_element(arena: &Arena, key: usize) -> bool
    requires live { IsLive arena.now.tree key }
    ensures test { result ≡ is_some (name_of arena.now.tree key) }
{
    arena.name(key).is_some()
}
