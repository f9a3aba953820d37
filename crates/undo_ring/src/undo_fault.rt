//! Why nothing was undone or redone.

ghost use Rattle.std.specs.Prelude.{◌≡◌};
ghost use Rattle.undo_ring.specs.declared.undo_fault.UndoFault.TheVariants as fault;

use plain_types::memory::Memory;
use thiserror::Error;

/// The history is as before. `Nothing` is told without memory.
#[derive(Clone, Copy, Debug, PartialEq, Eq, Error)]
pub enum UndoFault {
    /// No edit is there to be undone, or to be redone.
    #[error("there is no edit to undo or to redo")]
    Nothing,
    /// Memory was wanting.
    #[error("out of memory")]
    Memory,
}

impl From<Memory> for UndoFault {
    ghost from_gives = { λ _ e. e ≡ fault.Memory };

    fn from(_error: Memory) -> UndoFault {
        UndoFault::Memory
    }
}
