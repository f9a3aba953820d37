//! Why what was to be put was not put to its end.

ghost use Rattle.std.specs.Prelude.{◌≡◌};
ghost use Rattle.ports.specs.declared.put_fault.PutFault.TheVariants as fault;

use crate::failed::Failed;
use plain_types::memory::Memory;
use std::alloc::AllocFailed;
use thiserror::Error;

/// A front of the bytes went out, maybe none.
#[derive(Clone, Copy, Debug, PartialEq, Eq, Error)]
pub enum PutFault {
    /// A call on the sink failed.
    #[error("a write failed")]
    WriteFault,
    /// Memory was wanting.
    #[error("out of memory")]
    Memory,
}

impl From<Memory> for PutFault {
    ghost from_gives = { λ _ e. e ≡ fault.Memory };

    fn from(_error: Memory) -> PutFault {
        PutFault::Memory
    }
}

impl From<Failed> for PutFault {
    ghost from_gives = { λ _ e. e ≡ fault.WriteFault };

    fn from(_error: Failed) -> PutFault {
        PutFault::WriteFault
    }
}

impl<T: Drop> From<AllocFailed<T>> for PutFault {
    ghost from_gives = { λ _ e. e ≡ fault.Memory };

    fn from(_error: AllocFailed<T>) -> PutFault {
        PutFault::Memory
    }
}
