//! A whole file.

ghost use Rattle.std.specs.Prelude.{◌≡◌, ◌≤◌, length, IfOk, IfSome, IsErrOf};
ghost use Rattle.std.specs.Str.{chars};
ghost use Rattle.ports.specs.Causes.{Raises, Rose, RoseAbove};
ghost use Rattle.ports.specs.Fetches.{Fetches};
ghost use Rattle.ports.specs.declared.fetch.FetchFault.TheVariants as fault;

use crate::failed::Failed;
use crate::shelf::Shelf;
use plain_types::list::List;
use plain_types::memory::Memory;
use std::alloc::Global;
use thiserror::Error;

/// The most bytes that a fetched file has.
pub const LONGEST: usize = 16777216;

/// Why a file wasn't fetched.
#[derive(Clone, Copy, Debug, PartialEq, Eq, Error)]
pub enum FetchFault {
    /// A read failed.
    #[error("a read of the file failed")]
    Failed,
    /// More bytes came than `LONGEST`.
    #[error("the file is larger than {LONGEST} bytes")]
    TooLarge,
    /// Memory was wanting.
    #[error("out of memory")]
    Memory,
}

impl From<Memory> for FetchFault {
    ghost from_gives = { λ _ e. e ≡ fault.Memory };

    fn from(_error: Memory) -> FetchFault {
        FetchFault::Memory
    }
}

impl From<Failed> for FetchFault {
    ghost from_gives = { λ _ e. e ≡ fault.Failed };

    fn from(_error: Failed) -> FetchFault {
        FetchFault::Failed
    }
}

/// The bytes of the named file. It reads until the file ends or more than `LONGEST` bytes came, in time
/// and memory linear in them. After a fault the shelf is as the reads so far left it.
pub fn fetch<S: Shelf>(alloc: Global, shelf: &mut S, name: &str) -> Result<List<u8>, FetchFault>
    ensures told { IfSome (S.held shelf.old) (λ files. Fetches (S.honest shelf.old) (files (chars name.now)) result) }
    ensures came { IfOk result (λ bytes. Raises (S.taken shelf.old) (S.taken shelf.new) (length bytes)) }
    ensures failed { IsErrOf result fault.Failed → Rose (S.faults shelf.old) (S.faults shelf.new) }
    ensures large { IsErrOf result fault.TooLarge → RoseAbove 16777216 (S.taken shelf.old) (S.taken shelf.new) }
    ensures faults { S.faults shelf.old ≤ S.faults shelf.new }
    ensures taken { S.taken shelf.old ≤ S.taken shelf.new }
    ensures held { S.held shelf.new ≡ S.held shelf.old }
    ensures honest { S.honest shelf.new ≡ S.honest shelf.old }
{
    let mut bytes = List::new(alloc);
    let mut buf = [0u8; 65536];
    loop {
        let count = shelf.read_at(name, bytes.len() as u64, &mut buf)?;
        if count == 0 {
            return Ok(bytes);
        }
        if count > LONGEST - bytes.len() {
            return Err(FetchFault::TooLarge);
        }
        bytes.extend(&buf[..count])?;
    }
}
