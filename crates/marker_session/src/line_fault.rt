//! Why the line of a script was not done.

ghost use Rattle.std.specs.Prelude.{◌≡◌};
ghost use Rattle.marker_session.specs.declared.line_fault.LineFault.TheVariants as faults;
ghost use Rattle.marker_session.specs.Machinery.{fault_of_edit, fault_of_script};

use edit_script::fault::ScriptFault;
use marker_engine::edit_fault::EditFault;
use thiserror::Error;

/// Why a line was not done. The session is as before.
#[derive(Clone, Copy, Debug, PartialEq, Eq, Error)]
pub enum LineFault {
    /// It is no script of one command, or its command names a file: `sheet FILE`.
    #[error("the line is no edit")]
    BadLine,
    /// It is the command `show`.
    #[error("the line shows and edits nothing")]
    NotAnEdit,
    /// A path leads to no node, or to none that may be edited so, or an index is past the children.
    #[error("the edit has no place in the document")]
    NoPlace,
    /// A node is moved into itself: the new parent is the node, or under it.
    #[error("a node can't be moved into itself")]
    IntoItself,
    /// Memory was wanting.
    #[error("out of memory")]
    Memory,
}

impl From<ScriptFault> for LineFault {
    ghost from_gives = { λ fault line_fault. line_fault ≡ fault_of_script fault };

    fn from(fault: ScriptFault) -> LineFault {
        match fault {
            ScriptFault::BadLine { .. } => LineFault::BadLine,
            ScriptFault::Memory => LineFault::Memory,
        }
    }
}

impl From<EditFault> for LineFault {
    ghost from_gives = { λ fault line_fault. line_fault ≡ fault_of_edit fault };

    fn from(fault: EditFault) -> LineFault {
        match fault {
            EditFault::NoPlace => LineFault::NoPlace,
            EditFault::IntoItself => LineFault::IntoItself,
            EditFault::Memory => LineFault::Memory,
        }
    }
}
