//! Why a script was not read.

ghost use Rattle.std.specs.Prelude.{◌≡◌};
ghost use Rattle.edit_script.specs.declared.fault.ScriptFault.TheVariants.{Memory};

use plain_types::memory::Memory;
use thiserror::Error;

/// Why a script was not read.
#[derive(Clone, Copy, Debug, PartialEq, Eq, Error)]
pub enum ScriptFault {
    /// The line of this number, from 1, is in no form; each line before it is in one, or skipped.
    #[error("line {number} is no command")]
    BadLine { number: usize },
    /// Memory was wanting.
    #[error("out of memory")]
    Memory,
}

impl From<Memory> for ScriptFault {
    ghost from_gives = { λ _ fault. fault ≡ Memory };

    fn from(_memory: Memory) -> ScriptFault {
        ScriptFault::Memory
    }
}
