//! One step back or forth.

ghost use Rattle.std.specs.Prelude.{◌≡◌, ◌↔◌, ◌+◌, ◌≤◌, Err, None, IfSome, IsSomeAnd, OnOk, OnErr, [], slice_get};
ghost use Rattle.dirty_walk.specs.Books.{keyed_source};
ghost use Rattle.dirty_walk.specs.WorkBounds.{IsWithinWork, StopsWithinWork};
ghost use Rattle.edit_inverses.specs.Versions.{HavePlaces, version_after};
ghost use Rattle.node_arena.specs.Edits.{IsEdited, place_fault};
ghost use Rattle.undo_ring.specs.declared.undo_fault.UndoFault.TheVariants as faults;
ghost use Rattle.undo_ring.specs.Histories.{version_of};
ghost use Rattle.undo_ring.specs.StepsTaken.{TakesStep, most_steps};

use crate::undo_fault::UndoFault;
use circular_buffer::HeapCircularBuffer;
use edit_inverses::inverse::inverse_of;
use marker_engine::engine::Engine;
use plain_types::edit::Edit;
use plain_types::memory::Memory;
use std::alloc::Global;
use std::sync::ledger::Ledger;
use steps::Steps;

/// Does an edit that has its place, so that only memory can be wanting.
fn do_edit<L: Ledger>(
    alloc: Global,
    engine: &mut Engine,
    edit: &Edit,
    steps: &mut Steps<L>,
) -> Result<(), Memory>
    requires { place_fault edit.now (version_of engine.old).document ≡ None }
    ensures done { OnOk result (version_of engine.new ≡ version_after edit.now (version_of engine.old)) }
    ensures keys { OnOk result (IsEdited edit.now engine.old.tree engine.new.tree) }
    ensures failed { OnErr result (engine.new ≡ engine.old) }
    ensures within_work { OnOk result (IsWithinWork edit.now (keyed_source engine.old) (keyed_source engine.new) steps.old steps.new) }
    ensures stops_within_work { OnErr result (StopsWithinWork edit.now (keyed_source engine.old) steps.old steps.new) }
    ensures steps { steps.new ≤ steps.old + most_steps edit.now (version_of engine.old) }
{
    match engine.apply(alloc, edit, steps) {
        Ok(()) => Ok(()),
        Err(_fault) => Err(Memory),
    }
}

/// Does the first edit of one ring, and puts the edit that undoes it first into the other.
pub(crate) fn take_step<L: Ledger>(
    alloc: Global,
    engine: &mut Engine,
    from: &mut HeapCircularBuffer<Edit>,
    to: &mut HeapCircularBuffer<Edit>,
    steps: &mut Steps<L>,
) -> Result<(), UndoFault>
    requires { HavePlaces from.old.items (version_of engine.old) }
    ensures ok { OnOk result (IsSomeAnd (slice_get from.old.items 0) (λ edit. TakesStep edit engine.old engine.new from.old from.new to.old to.new)) }
    ensures keys { OnOk result (IfSome (slice_get from.old.items 0) (λ edit. IsEdited edit engine.old.tree engine.new.tree)) }
    ensures nothing { (result ≡ Err faults.Nothing) ↔ (from.old.items ≡ []) }
    ensures failed { OnErr result ((engine.new ≡ engine.old) × (from.new ≡ from.old) × (to.new ≡ to.old)) }
    ensures within_work { OnOk result (IfSome (slice_get from.old.items 0) (λ edit. IsWithinWork edit (keyed_source engine.old) (keyed_source engine.new) steps.old steps.new)) }
    ensures stops_within_work { OnErr result (IfSome (slice_get from.old.items 0) (λ edit. StopsWithinWork edit (keyed_source engine.old) steps.old steps.new)) }
    ensures steps { IfSome (slice_get from.old.items 0) (λ edit. steps.new ≤ steps.old + most_steps edit (version_of engine.old)) }
    ensures no_steps { from.old.items ≡ [] → steps.new ≡ steps.old }
{
    let Some(edit) = from.front() else {
        return Err(UndoFault::Nothing);
    };
    let inverse = inverse_of(alloc, engine.book().arena(), engine.sheet(), edit)?;
    do_edit(alloc, engine, edit, steps)?;
    let _done = from.pop_front();
    let _last = to.push_front(inverse);
    Ok(())
}
