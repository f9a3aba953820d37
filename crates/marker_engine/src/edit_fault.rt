//! Why an edit was not done.

ghost use Rattle.std.specs.Prelude.{◌≡◌};
ghost use Rattle.marker_engine.specs.declared.edit_fault.EditFault.TheVariants as fault;
ghost use Rattle.marker_engine.specs.Edited.{edit_fault};

use node_arena::place_fault::PlaceFault;
use plain_types::memory::Memory;
use thiserror::Error;

/// The document and its sheet are as before the edit. The first that holds is told.
#[derive(Clone, Copy, Debug, PartialEq, Eq, Error)]
pub enum EditFault {
    /// A path leads to no node, or to none that may be edited so, or an index is past the children.
    #[error("the edit has no place in the document")]
    NoPlace,
    /// A node is moved into itself: the new parent is the node, or under it.
    #[error("a node can't be moved into itself")]
    IntoItself,
    /// Memory was wanting.
    #[error("out of memory")]
    Memory,
}

impl From<PlaceFault> for EditFault {
    ghost from_gives = { λ place e. e ≡ edit_fault place };

    fn from(fault: PlaceFault) -> EditFault {
        match fault {
            PlaceFault::NoPlace => EditFault::NoPlace,
            PlaceFault::IntoItself => EditFault::IntoItself,
        }
    }
}

impl From<Memory> for EditFault {
    ghost from_gives = { λ _ e. e ≡ fault.Memory };

    fn from(_error: Memory) -> EditFault {
        EditFault::Memory
    }
}
