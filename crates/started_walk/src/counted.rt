//! What the first walk of an edit makes of what is kept for it.

ghost use Rattle.std.specs.Prelude.{◌≡◌, ◌≤◌, ◌+◌, ◌*◌, true, All, IfOk, OnErr, length};
ghost use Rattle.forest.specs.Keys.{without_keys};
ghost use Rattle.box_eval.specs.Starts.{has_starts, no_starts};
ghost use Rattle.counter_index.specs.Indexes.{asked_at};
ghost use Rattle.document_walk.specs.Catching.{reading};
ghost use Rattle.document_walk.specs.Elements.{element_count};
ghost use Rattle.reference_reach.specs.ToldLaws.{told_with};
ghost use Rattle.start_reach.specs.Laws.{AreTurned};
ghost use Rattle.touched_starts.specs.Laws.{IsIndexOf};
ghost use Rattle.started_walk.specs.Countings.{KeepsTheSame};
ghost use Rattle.started_walk.specs.Exchanges.{TakesBack};
ghost use Rattle.started_walk.specs.Twice.{CanWalkTwice, IsWithinFirst};
ghost use Rattle.started_walk.specs.Walks.{Finds};

use crate::bring::WayBack;
use crate::counting::Counting;
use crate::moved::moved_keys;
use crate::turned::{Turned, turn};
use crate::walk::turned_walk;
use box_eval::starts::NoStarts;
use counter_index::deeds::told_exchange;
use document_walk::snapshot::Snapshots;
use document_walk::sources::Sources;
use merged_walk::stop::Stop;
use plain_types::list::List;
use plain_types::memory::Memory;
use std::alloc::Global;
use std::sync::ledger::Ledger;
use steps::Steps;
use surroundings::told::Told;
use zero_walks::zeros_over::ZerosOver;

/// What the first walk of an edit makes of what is kept for it.
#[derive(Drop)]
pub struct Counted {
    /// What is told of each element that was evaluated, under its key.
    pub told: List<(usize, Told)>,
    pub back: WayBack,
    /// The elements that are turned.
    pub turned: List<usize>,
}

/// Walks an edit with all starts 0, and brings the index to the edited document. What the walk compares with stays as it is. After
/// `Memory` the index keeps what it kept.
pub fn first_walk<L: Ledger, B: Snapshots>(
    alloc: Global,
    document: &Sources<NoStarts>,
    counting: &mut Counting,
    board: &B,
    takes: &[usize],
    stops: &[Stop],
    steps: &mut Steps<L>,
) -> Result<Counted, Memory>
    requires stands { CanWalkTwice (reading (λ _. no_starts) document.now) counting.old (B.kept board.now) takes.now stops.now }
    ensures finds { IfOk result (λ counted. (stands : CanWalkTwice (reading (λ _. no_starts) document.now) counting.old (B.kept board.now) takes.now stops.now) → Finds (told_with stands.place.before no_starts) (told_with stands.place.after no_starts) counted.told) }
    ensures index { IfOk result (λ counted. (stands : CanWalkTwice (reading (λ _. no_starts) document.now) counting.old (B.kept board.now) takes.now stops.now) → IsIndexOf stands.place.after counting.new.index) }
    ensures turned { IfOk result (λ counted. (stands : CanWalkTwice (reading (λ _. no_starts) document.now) counting.old (B.kept board.now) takes.now stops.now) → AreTurned stands.place.edit stands.place.before stands.place.after counted.turned) }
    ensures asking { IfOk result (λ counted. All (λ key. has_starts (asked_at counting.new.index key) ≡ true) counted.turned) }
    ensures count { IfOk result (λ counted. length counted.told ≤ element_count (without_keys document.now.arena.now.tree)) }
    ensures zeros { counting.new.zeros ≡ counting.old.zeros }
    ensures back { IfOk result (λ counted. TakesBack counted.back counting.new.index counting.old.index) }
    ensures err { OnErr result (KeepsTheSame counting.new.index counting.old.index) }
    ensures few { IfOk result (λ counted. IsWithinFirst (reading (λ _. no_starts) document.now) counting.old (B.kept board.now) takes.now stops.now steps.old (steps.new + length counted.told)) }
    ensures most { IsWithinFirst (reading (λ _. no_starts) document.now) counting.old (B.kept board.now) takes.now stops.now steps.old steps.new }
    ensures whole { steps.new ≤ steps.old + 4 * element_count (without_keys document.now.arena.now.tree) }
{
    let over = ZerosOver {
        zeros: &counting.zeros,
        board,
    };
    let told = turned_walk(alloc, document, &over, stops, steps)?;
    let deeds = told_exchange(alloc, takes, told.as_slice())?;
    let keys = moved_keys(alloc, document.arena, takes, stops)?;
    let moved = keys.as_slice();
    let Turned { back, keys: turned } = turn(
        alloc,
        document.arena,
        &mut counting.index,
        deeds,
        moved,
        stops,
    )?;
    Ok(Counted { told, back, turned })
}
