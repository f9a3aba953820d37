//! The walk: where it begins, and its turns up to its end.

ghost use Rattle.std.specs.Prelude.{◌≡◌, ◌+◌, ℕ, [], Option, IfOk, OnOk, length};
ghost use Rattle.forest.specs.Spots.{first_key};
ghost use Rattle.box_eval.specs.Evaluation.{StyledNode};
ghost use Rattle.merged_walk.specs.Merges.{Merge};
ghost use Rattle.surroundings.specs.declared.told.Told.{Told};
ghost use Rattle.surroundings.specs.StyledEvaluators.{root_surroundings};
ghost use Rattle.document_walk.specs.Catching.{frames_of, reading, stops_left};
ghost use Rattle.document_walk.specs.CatchingUp.{AreAllAmong, AreAllCollected, AreAllTold, AreOfElements, CanCatchUp, CoversAll, IsWithinBudget, IsWithinElements, IsWithinWhole};

use crate::catching::Catching;
use crate::snapshot::Snapshots;
use crate::sources::Sources;
use crate::turning::{turn_at, turn_at_stop};
use box_eval::change::Change;
use box_eval::starts::Starts;
use merged_walk::stop::Stop;
use plain_types::list::List;
use plain_types::memory::Memory;
use selector_match::siblings::Siblings;
use std::alloc::Global;
use std::sync::ledger::Ledger;
use steps::Steps;
use surroundings::surroundings::Surroundings;

/// A walk before the root, with these stops, which collects changes behind these, where there are such.
pub(crate) fn begin<T: Starts>(
    alloc: Global,
    sources: &Sources<T>,
    mut stops: Vec<Stop>,
    changes: Option<List<Change>>,
) -> Result<Catching, Memory>
    ensures frames { IfOk result (λ walk. frames_of walk ≡ []) }
    ensures stops { IfOk result (λ walk. stops_left walk ≡ stops.items) }
    ensures link { IfOk result (λ walk. walk.link ≡ first_key sources.now.arena.now.tree) }
    ensures around { IfOk result (λ walk. walk.around ≡ root_surroundings) }
    ensures told { IfOk result (λ walk. walk.told ≡ []) }
    ensures changes { IfOk result (λ walk. walk.changes ≡ changes) }
{
    stops.reverse();
    Ok(Catching {
        stack: Vec::new(alloc),
        stops,
        link: Some(sources.arena.root()),
        around: Some(Surroundings::of_root(alloc)?),
        told: List::new(alloc),
        changes,
    })
}

/// Goes on from before the root to the end.
pub(crate) fn go<L: Ledger, T: Starts, B: Snapshots>(
    walk: &mut Catching,
    alloc: Global,
    sources: &Sources<T>,
    board: &B,
    steps: &mut Steps<L>,
) -> Result<(), Memory>
    requires stands { (merge : Merge StyledNode) × ((held : ℕ → Option Told) × CanCatchUp (reading T.starts sources.now) (B.kept board.now) (stops_left walk.old) merge held) }
    requires frames { frames_of walk.old ≡ [] }
    requires link { walk.old.link ≡ first_key sources.now.arena.now.tree }
    requires around { walk.old.around ≡ root_surroundings }
    requires told { walk.old.told ≡ [] }
    ensures covers { OnOk result (CoversAll (reading T.starts sources.now) (B.kept board.now) (stops_left walk.old) walk.new.told) }
    ensures among { OnOk result (AreAllAmong (reading T.starts sources.now) (B.kept board.now) (stops_left walk.old) walk.new.told) }
    ensures few { OnOk result (IsWithinBudget (reading T.starts sources.now) (B.kept board.now) (stops_left walk.old) steps.old (steps.new + length walk.new.told)) }
    ensures found { OnOk result (IsWithinBudget (reading T.starts sources.now) (B.kept board.now) (stops_left walk.old) 0 (length walk.new.told)) }
    ensures most { IsWithinBudget (reading T.starts sources.now) (B.kept board.now) (stops_left walk.old) steps.old steps.new }
    ensures count { OnOk result (AreOfElements (reading T.starts sources.now) (B.kept board.now) (stops_left walk.old) walk.new.told) }
    ensures whole { IsWithinElements (reading T.starts sources.now) (B.kept board.now) (stops_left walk.old) steps.old steps.new }
    ensures all { OnOk result (AreAllTold (reading T.starts sources.now) (B.kept board.now) (stops_left walk.old) walk.new.told) }
    ensures changes { OnOk result (AreAllCollected (reading T.starts sources.now) (B.kept board.now) (stops_left walk.old) walk.old.changes walk.new.changes) }
    ensures three { IsWithinWhole (reading T.starts sources.now) (B.kept board.now) (stops_left walk.old) steps.old steps.new }
{
    let _root = sources.arena.root();
    let mut siblings = Siblings::new(alloc, sources.arena);
    'turns: loop {
        if walk.is_at_stop() {
            turn_at_stop(walk, alloc, sources, &mut siblings, board, steps)?;
            continue;
        }
        match walk.link {
            Some(key) => turn_at(walk, alloc, sources, &mut siblings, board, key, steps)?,
            None => match walk.stack.pop() {
                Some(frame) => walk.leave(alloc, sources, frame, steps)?,
                None => return Ok(()),
            },
        }
    }
}
