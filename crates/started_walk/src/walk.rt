//! The walk of an edit, where elements are turned.

ghost use Rattle.std.specs.Prelude.{◌≡◌, ◌≤◌, ◌+◌, ◌*◌, IfOk, length};
ghost use Rattle.forest.specs.Keys.{without_keys};
ghost use Rattle.document_walk.specs.Catching.{reading};
ghost use Rattle.document_walk.specs.Elements.{element_count};
ghost use Rattle.reference_reach.specs.ToldLaws.{told_with};
ghost use Rattle.started_walk.specs.Walks.{Finds, IsWithinTurned, StandsTurned};

use box_eval::starts::Starts;
use document_walk::catch_up::{CaughtUp, catch_up};
use document_walk::snapshot::Snapshots;
use document_walk::sources::Sources;
use merged_walk::stop::Stop;
use plain_types::list::List;
use plain_types::memory::Memory;
use std::alloc::Global;
use std::sync::ledger::Ledger;
use steps::Steps;
use surroundings::told::Told;

/// What a walk from these stops tells of the document after an edit, where what is kept is of the document before it, and the
/// elements are turned that have other starts than before.
pub fn turned_walk<L: Ledger, T: Starts, B: Snapshots>(
    alloc: Global,
    sources: &Sources<T>,
    board: &B,
    stops: &[Stop],
    steps: &mut Steps<L>,
) -> Result<List<(usize, Told)>, Memory>
    requires stands { StandsTurned (reading T.starts sources.now) (B.kept board.now) stops.now }
    ensures finds { IfOk result (λ told. (walk : StandsTurned (reading T.starts sources.now) (B.kept board.now) stops.now) → Finds (told_with walk.before walk.was_start) (told_with walk.after walk.start) told) }
    ensures count { IfOk result (λ told. length told ≤ element_count (without_keys sources.now.arena.now.tree)) }
    ensures few { IfOk result (λ told. IsWithinTurned (reading T.starts sources.now) (B.kept board.now) stops.now steps.old (steps.new + length told)) }
    ensures found { IfOk result (λ told. IsWithinTurned (reading T.starts sources.now) (B.kept board.now) stops.now 0 (length told)) }
    ensures most { IsWithinTurned (reading T.starts sources.now) (B.kept board.now) stops.now steps.old steps.new }
    ensures whole { steps.new ≤ steps.old + 4 * element_count (without_keys sources.now.arena.now.tree) }
{
    let from = Vec::from_slice(alloc, stops)?;
    let CaughtUp { changes } = catch_up(alloc, sources, board, from, steps)?;
    Ok(changes)
}
