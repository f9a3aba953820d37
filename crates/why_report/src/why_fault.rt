//! Why an account was not given to its end.

ghost use Rattle.std.specs.Prelude.{◌≡◌};
ghost use Rattle.why_report.specs.Causes.{why_fault};

use ports::put_fault::PutFault;
use thiserror::Error;

/// After `WriteFault` and `Memory` a front of the account went out, maybe nothing; after `NoElement` nothing did.
#[derive(Clone, Copy, Debug, PartialEq, Eq, Error)]
pub enum WhyFault {
    /// The path leads to a text, or to nothing.
    #[error("the path names no element")]
    NoElement,
    /// A call on the sink failed.
    #[error("a write failed")]
    WriteFault,
    /// Memory was wanting.
    #[error("out of memory")]
    Memory,
}

impl From<PutFault> for WhyFault {
    ghost from_gives = { λ put e. e ≡ why_fault put };

    fn from(fault: PutFault) -> WhyFault {
        match fault {
            PutFault::WriteFault => WhyFault::WriteFault,
            PutFault::Memory => WhyFault::Memory,
        }
    }
}
