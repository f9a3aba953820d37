//! Why a text was not read.

ghost use Rattle.std.specs.Prelude.{◌≡◌};
ghost use Rattle.xhtml_reader.specs.declared.fault.DocFault.TheVariants.{Memory};

use plain_types::memory::Memory;
use thiserror::Error;

/// Why a text was not read.
#[derive(Clone, Copy, Debug, PartialEq, Eq, Error)]
pub enum DocFault {
    /// The text is no document, or no fragment. The first item that does not fit stands on this line
    /// and in this column, both from 1; where all items fit, it is the end of the text. The column
    /// counts characters.
    #[error("the text is not well-formed at line {line}, column {column}")]
    Malformed { line: usize, column: usize },
    /// Memory was wanting.
    #[error("out of memory")]
    Memory,
}

impl From<Memory> for DocFault {
    ghost from_gives = { λ _ fault. fault ≡ Memory };

    fn from(_memory: Memory) -> DocFault {
        DocFault::Memory
    }
}
