//! The second walk of an edit.

ghost use Rattle.std.specs.Prelude.{◌≡◌, ◌≤◌, ◌+◌, ◌*◌, IfOk, length};
ghost use Rattle.forest.specs.Keys.{without_keys};
ghost use Rattle.document_walk.specs.Catching.{reading};
ghost use Rattle.document_walk.specs.Elements.{element_count};
ghost use Rattle.reference_reach.specs.ToldLaws.{told_of};
ghost use Rattle.start_reach.specs.TurnedElements.{with_ways_to};
ghost use Rattle.started_walk.specs.Walks.{CanWalkAgain, Finds, IsWithinAgain};

use crate::walk::turned_walk;
use box_eval::starts::Starts;
use document_walk::snapshot::Snapshots;
use document_walk::sources::Sources;
use merged_walk::stop::Stop;
use plain_types::list::List;
use plain_types::memory::Memory;
use std::alloc::Global;
use std::sync::ledger::Ledger;
use steps::Steps;
use surroundings::told::Told;
use turned_stops::ways::with_ways;

/// What the second walk of an edit told, and its stops.
#[derive(Drop)]
pub struct Again {
    pub told: List<(usize, Told)>,
    pub stops: Vec<Stop>,
}

/// The walk with the starts of the edited document, where these elements are turned. These are the stops of the edit; it goes with
/// those on the ways to the turned elements as well.
pub fn second_walk<L: Ledger, T: Starts, B: Snapshots>(
    alloc: Global,
    sources: &Sources<T>,
    board: &B,
    turned: &[usize],
    stops: &[Stop],
    steps: &mut Steps<L>,
) -> Result<Again, Memory>
    requires stands { CanWalkAgain (reading T.starts sources.now) (B.kept board.now) turned.now stops.now }
    ensures stops { IfOk result (λ again. again.stops.items ≡ with_ways_to sources.now.arena.now.tree turned.now stops.now) }
    ensures finds { IfOk result (λ again. (walk : CanWalkAgain (reading T.starts sources.now) (B.kept board.now) turned.now stops.now) → Finds (told_of walk.before) (told_of walk.after) again.told) }
    ensures count { IfOk result (λ again. length again.told ≤ element_count (without_keys sources.now.arena.now.tree)) }
    ensures few { IfOk result (λ again. IsWithinAgain (reading T.starts sources.now) (B.kept board.now) turned.now stops.now steps.old (steps.new + length again.told)) }
    ensures most { IsWithinAgain (reading T.starts sources.now) (B.kept board.now) turned.now stops.now steps.old steps.new }
    ensures whole { steps.new ≤ steps.old + 4 * element_count (without_keys sources.now.arena.now.tree) }
{
    let ways = with_ways(alloc, sources.arena, turned, stops)?;
    let told = turned_walk(alloc, sources, board, ways.as_slice(), steps)?;
    Ok(Again { told, stops: ways })
}
