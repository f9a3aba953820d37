//! Both walks of an edit.

ghost use Rattle.std.specs.Prelude.{◌≡◌, ◌≤◌, ◌+◌, ◌*◌, IfOk, OnErr, length};
ghost use Rattle.forest.specs.Keys.{without_keys};
ghost use Rattle.box_eval.specs.Starts.{no_starts};
ghost use Rattle.counter_index.specs.Indexes.{AsksForStarts, value_at};
ghost use Rattle.document_walk.specs.Catching.{reading};
ghost use Rattle.document_walk.specs.Elements.{element_count};
ghost use Rattle.kept_elements.specs.Changes.{AreBelow};
ghost use Rattle.reference_reach.specs.ToldLaws.{told_of};
ghost use Rattle.start_reach.specs.TurnedElements.{with_ways_to};
ghost use Rattle.touched_starts.specs.Laws.{IsIndexOf};
ghost use Rattle.zero_walks.specs.Told.{walked_of};
ghost use Rattle.started_walk.specs.Countings.{KeepsTheSame};
ghost use Rattle.started_walk.specs.Exchanges.{TakesBack};
ghost use Rattle.started_walk.specs.Settled.{TellsZeros};
ghost use Rattle.started_walk.specs.Twice.{CanWalkTwice, IsWalkedTwice, IsWithinTwice};
ghost use Rattle.started_walk.specs.Walks.{CanWalkAgain, Finds, IsWithinAgain};

use crate::bring::{WayBack, take_back};
use crate::counted::{Counted, first_walk};
use crate::counting::Counting;
use crate::room::room_for;
use crate::second::{Again, second_walk};
use crate::zeros::zeros_of;
use box_eval::starts::NoStarts;
use counter_index::index::CounterIndex;
use document_walk::snapshot::Snapshots;
use document_walk::sources::Sources;
use merged_walk::stop::Stop;
use plain_types::list::List;
use plain_types::memory::Memory;
use std::alloc::Global;
use std::sync::ledger::Ledger;
use steps::Steps;
use surroundings::told::Told;
use surroundings::walked::Walked;

/// What both walks of an edit make of what is kept for them, and what is told with the starts of the edited document.
#[derive(Drop)]
pub struct Twice {
    /// What is told of each element that was evaluated, under its key.
    pub told: List<(usize, Told)>,
    /// The stops of the walk that told it.
    pub stops: Vec<Stop>,
    /// What comes to what the first walk compares with.
    pub zeros: Vec<(usize, Walked)>,
    pub back: WayBack,
}

/// What the second walk of an edit told, its stops, and what comes to what the first walk compares with.
#[derive(Drop)]
struct WalkedAgain {
    told: List<(usize, Told)>,
    stops: Vec<Stop>,
    zeros: Vec<(usize, Walked)>,
}

/// The second walk of an edit of this document, whose starts an index has.
fn started_walk<L: Ledger, B: Snapshots>(
    alloc: Global,
    document: &Sources<NoStarts>,
    index: &CounterIndex,
    board: &B,
    turned: &[usize],
    stops: &[Stop],
    steps: &mut Steps<L>,
) -> Result<Again, Memory>
    requires stands { CanWalkAgain (reading (λ _. value_at index.now) document.now) (B.kept board.now) turned.now stops.now }
    ensures stops { IfOk result (λ again. again.stops.items ≡ with_ways_to document.now.arena.now.tree turned.now stops.now) }
    ensures finds { IfOk result (λ again. (walk : CanWalkAgain (reading (λ _. value_at index.now) document.now) (B.kept board.now) turned.now stops.now) → Finds (told_of walk.before) (told_of walk.after) again.told) }
    ensures count { IfOk result (λ again. length again.told ≤ element_count (without_keys document.now.arena.now.tree)) }
    ensures few { IfOk result (λ again. IsWithinAgain (reading (λ _. value_at index.now) document.now) (B.kept board.now) turned.now stops.now steps.old (steps.new + length again.told)) }
    ensures most { IsWithinAgain (reading (λ _. value_at index.now) document.now) (B.kept board.now) turned.now stops.now steps.old steps.new }
    ensures whole { steps.new ≤ steps.old + 4 * element_count (without_keys document.now.arena.now.tree) }
{
    let sources = Sources {
        arena: document.arena,
        agent: document.agent,
        author: document.author,
        table: document.table,
        starts: index,
    };
    second_walk(alloc, &sources, board, turned, stops, steps)
}

/// The second walk of an edit of this document, whose first walk has told this. What the first walk compares with stays as it is, and
/// has room for what both have told.
fn walk_again<L: Ledger, B: Snapshots>(
    alloc: Global,
    document: &Sources<NoStarts>,
    counting: &mut Counting,
    board: &B,
    first: List<(usize, Told)>,
    turned: &[usize],
    stops: &[Stop],
    steps: &mut Steps<L>,
) -> Result<WalkedAgain, Memory>
    requires stands { CanWalkAgain (reading (λ _. value_at counting.old.index) document.now) (B.kept board.now) turned.now stops.now }
    ensures stops { IfOk result (λ again. again.stops.items ≡ with_ways_to document.now.arena.now.tree turned.now stops.now) }
    ensures finds { IfOk result (λ again. (walk : CanWalkAgain (reading (λ _. value_at counting.old.index) document.now) (B.kept board.now) turned.now stops.now) → Finds (told_of walk.before) (told_of walk.after) again.told) }
    ensures count { IfOk result (λ again. length again.told ≤ element_count (without_keys document.now.arena.now.tree)) }
    ensures walked { IfOk result (λ again. again.zeros.items ≡ walked_of first) }
    ensures room { IfOk result (λ again. AreBelow counting.new.zeros.room again.zeros.items) }
    ensures told_room { IfOk result (λ again. AreBelow counting.new.zeros.room again.told) }
    ensures zeros { counting.new.zeros.held ≡ counting.old.zeros.held }
    ensures index { counting.new.index ≡ counting.old.index }
    ensures few { IfOk result (λ again. IsWithinAgain (reading (λ _. value_at counting.old.index) document.now) (B.kept board.now) turned.now stops.now steps.old (steps.new + length again.told)) }
    ensures most { IsWithinAgain (reading (λ _. value_at counting.old.index) document.now) (B.kept board.now) turned.now stops.now steps.old steps.new }
    ensures whole { steps.new ≤ steps.old + 4 * element_count (without_keys document.now.arena.now.tree) }
{
    let zeros = zeros_of(alloc, &mut counting.zeros, first.as_slice())?;
    // What the first walk told is let go before the second one tells it anew.
    drop(first);
    let Again { told, stops } = started_walk(
        alloc,
        document,
        &counting.index,
        board,
        turned,
        stops,
        steps,
    )?;
    let room = room_for(told.as_slice())?;
    counting.zeros.reserve(room)?;
    Ok(WalkedAgain { told, stops, zeros })
}

/// Walks an edit twice: with all starts 0, and with the starts of the edited document. Where no box asks for a start, before the edit
/// or after it, both would tell the same, and the second walk is left out. These elements are taken out by the edit, and these are its
/// stops. The index is then that of the edited document. What the first walk compares with stays as it is. After `Memory` the index
/// keeps what it kept.
///
/// Its steps are within the budgets of the two merges, and at most eight for each element of the document.
pub fn walk_twice<L: Ledger, B: Snapshots>(
    alloc: Global,
    document: &Sources<NoStarts>,
    counting: &mut Counting,
    board: &B,
    takes: &[usize],
    stops: &[Stop],
    steps: &mut Steps<L>,
) -> Result<Twice, Memory>
    requires stands { CanWalkTwice (reading (λ _. no_starts) document.now) counting.old (B.kept board.now) takes.now stops.now }
    ensures index { IfOk result (λ twice. (stands : CanWalkTwice (reading (λ _. no_starts) document.now) counting.old (B.kept board.now) takes.now stops.now) → IsIndexOf stands.place.after counting.new.index) }
    ensures walked { IfOk result (λ twice. (stands : CanWalkTwice (reading (λ _. no_starts) document.now) counting.old (B.kept board.now) takes.now stops.now) → IsWalkedTwice stands.place.edit stands.place.before stands.place.after stops.now twice.stops.items twice.told steps.old steps.new) }
    ensures count { IfOk result (λ twice. length twice.told ≤ element_count (without_keys document.now.arena.now.tree)) }
    ensures tells { IfOk result (λ twice. (stands : CanWalkTwice (reading (λ _. no_starts) document.now) counting.old (B.kept board.now) takes.now stops.now) → TellsZeros stands.place.before stands.place.after counting.new.index twice.zeros.items) }
    ensures room { IfOk result (λ twice. AreBelow counting.new.zeros.room twice.zeros.items) }
    ensures told_room { IfOk result (λ twice. AsksForStarts counting.new.index → AreBelow counting.new.zeros.room twice.told) }
    ensures zeros { counting.new.zeros.held ≡ counting.old.zeros.held }
    ensures back { IfOk result (λ twice. TakesBack twice.back counting.new.index counting.old.index) }
    ensures err { OnErr result (KeepsTheSame counting.new.index counting.old.index) }
    ensures most { IsWithinTwice (reading (λ _. no_starts) document.now) counting.old (B.kept board.now) takes.now stops.now steps.old steps.new }
    ensures whole { steps.new ≤ steps.old + 8 * element_count (without_keys document.now.arena.now.tree) }
{
    let from = Vec::from_slice(alloc, stops)?;
    let asked = counting.index.asks();
    let Counted { told, back, turned } = first_walk(
        alloc, document, counting, board, takes, stops, steps,
    )?;
    if !asked && !counting.index.asks() {
        return Ok(Twice {
            told,
            stops: from,
            zeros: Vec::new(alloc),
            back,
        });
    }
    match walk_again(
        alloc,
        document,
        counting,
        board,
        told,
        turned.as_slice(),
        stops,
        steps,
    ) {
        Ok(WalkedAgain { told, stops, zeros }) => Ok(Twice {
            told,
            stops,
            zeros,
            back,
        }),
        Err(memory) => {
            take_back(&mut counting.index, back);
            Err(memory)
        }
    }
}
