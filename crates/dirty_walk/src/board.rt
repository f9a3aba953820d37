//! What is kept of elements, put on a board and taken off it.

ghost use Rattle.std.specs.Prelude.{◌≡◌, ◌+◌, length, IfOk};
ghost use Rattle.snapshot_board.specs.Records.{put_all, take_all};
ghost use Rattle.kept_elements.specs.Changes.{AreBelow, puts_of};

use kept_elements::kept::Kept;
use kept_elements::kept_change::KeptChange;
use plain_types::memory::Memory;
use snapshot_board::board::Board;
use std::sync::ledger::Ledger;
use steps::Steps;

/// The room of a board that has room for what is kept under these keys; `Memory` where one is the greatest number,
/// since no room is above it. Linear time.
pub(crate) fn room_for<V>(kept: &[(usize, V)]) -> Result<usize, Memory>
    ensures room { IfOk result (λ room. AreBelow room kept.now) }
{
    let mut room = 0usize;
    for (key, _value) in kept {
        room = room.max(key.checked_add(1).ok_or(Memory)?);
    }
    Ok(room)
}

/// Takes what is kept under these keys off the board. It is a step for each.
pub(crate) fn take_entries<L: Ledger>(board: &mut Board<Kept>, keys: &[usize], steps: &mut Steps<L>)
    ensures held { board.new.held ≡ take_all keys.now board.old.held }
    ensures room { board.new.room ≡ board.old.room }
    ensures steps { steps.new ≡ steps.old + length keys.now }
{
    for key in keys {
        board.take(*key, steps);
    }
}

/// Puts what comes on the board, which has room for it. It is a step for each.
pub(crate) fn put_changes<L: Ledger>(
    board: &mut Board<Kept>,
    changes: Vec<(usize, KeptChange)>,
    steps: &mut Steps<L>,
)
    requires room { AreBelow board.old.room changes.items }
    ensures held { board.new.held ≡ put_all (puts_of changes.items) board.old.held }
    ensures room { board.new.room ≡ board.old.room }
    ensures steps { steps.new ≡ steps.old + length changes.items }
{
    for (key, change) in changes {
        board.put(key, change.kept, steps);
    }
}
