//! The walk from the places of an edit.

ghost use Rattle.std.specs.Prelude.{◌≡◌, ◌+◌, ℕ, Option, IfOk, length};
ghost use Rattle.box_eval.specs.Evaluation.{StyledNode};
ghost use Rattle.merged_walk.specs.Merges.{Merge};
ghost use Rattle.surroundings.specs.declared.told.Told.{Told};
ghost use Rattle.document_walk.specs.Catching.{reading};
ghost use Rattle.document_walk.specs.CatchingUp.{AreAllAmong, AreOfElements, CanCatchUp, CoversAll, IsWithinBudget, IsWithinElements};

use crate::snapshot::Snapshots;
use crate::sources::Sources;
use crate::walk::{begin, go};
use box_eval::starts::Starts;
use merged_walk::stop::Stop;
use plain_types::list::List;
use plain_types::memory::Memory;
use std::alloc::Global;
use std::sync::ledger::Ledger;
use steps::Steps;
use surroundings::told::Told;

/// What a walk from the places of an edit has found.
#[derive(Drop)]
pub struct CaughtUp {
    /// What is told of each element that was evaluated, under its key. Each is left after those in it.
    pub changes: List<(usize, Told)>,
}

/// Evaluates what an edit touches: the trees that come, the elements that lead to a place of the edit, and the
/// elements that are handed something else than they were.
///
/// The board tells what was kept of the elements before the edit, and the stops are those of the edit, in tree order.
/// What the evaluation tells of an element is among the changes, or as it was. The steps and the changes together are within
/// the budget of the edit's merge, and so are the changes alone; so are the steps alone where it answers `Memory`. There are no more changes than
/// elements in the document, and at most four steps for each of these.
pub fn catch_up<L: Ledger, T: Starts, B: Snapshots>(
    alloc: Global,
    sources: &Sources<T>,
    board: &B,
    stops: Vec<Stop>,
    steps: &mut Steps<L>,
) -> Result<CaughtUp, Memory>
    requires stands { (merge : Merge StyledNode) × ((held : ℕ → Option Told) × CanCatchUp (reading T.starts sources.now) (B.kept board.now) stops.items merge held) }
    ensures covers { IfOk result (λ caught. CoversAll (reading T.starts sources.now) (B.kept board.now) stops.items caught.changes) }
    ensures among { IfOk result (λ caught. AreAllAmong (reading T.starts sources.now) (B.kept board.now) stops.items caught.changes) }
    ensures few { IfOk result (λ caught. IsWithinBudget (reading T.starts sources.now) (B.kept board.now) stops.items steps.old (steps.new + length caught.changes)) }
    ensures found { IfOk result (λ caught. IsWithinBudget (reading T.starts sources.now) (B.kept board.now) stops.items 0 (length caught.changes)) }
    ensures most { IsWithinBudget (reading T.starts sources.now) (B.kept board.now) stops.items steps.old steps.new }
    ensures count { IfOk result (λ caught. AreOfElements (reading T.starts sources.now) (B.kept board.now) stops.items caught.changes) }
    ensures whole { IsWithinElements (reading T.starts sources.now) (B.kept board.now) stops.items steps.old steps.new }
{
    let mut walk = begin(alloc, sources, stops, None)?;
    go(&mut walk, alloc, sources, board, steps)?;
    Ok(CaughtUp { changes: walk.told })
}
