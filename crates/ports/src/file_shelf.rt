//! The files of the system.

ghost use Rattle.std.specs.Prelude.{◌≡◌, ◌≤◌, length, IfOk, OnOk, OnErr};
ghost use Rattle.ports.specs.Causes.{HasCause, Raises, one_more};
ghost use Rattle.ports.specs.Files.{answered};

use crate::failed::Failed;
use crate::shelf::Shelf;
use std::fs;
use std::io::{self, Read, Seek, SeekFrom};
use std::marker::Model;
use std::rt::Files;

/// The files of the system, by their paths. It tells nothing of them: what they hold, and whether they
/// stay, is the system's.
#[derive(Drop)]
pub struct FileShelf<'a, R> {
    rt: &'a R,
    faults: u64,
    taken: u64,
}

impl<'a, R> Model for FileShelf<'a, R> {
    ghost use Rattle.ports.specs.Devices.{ReadCounts};

    ghost Value = { ReadCounts };

    ghost view = { λ s. record { faults = s.faults; taken = s.taken } };
}

impl<'a, R: Files> FileShelf<'a, R> {
    /// A shelf that reads with this runtime.
    pub fn new(rt: &'a R) -> FileShelf<'a, R>
        ensures faults { result.faults ≡ 0 }
        ensures taken { result.taken ≡ 0 }
    {
        FileShelf {
            rt,
            faults: 0,
            taken: 0,
        }
    }
}

/// Opens the file and reads from its byte `at` on.
fn read_file<R: Files>(rt: &R, name: &str, at: u64, buf: &mut [u8]) -> io::Result<usize>
    ensures bound { IfOk result (λ count. count ≤ length buf.new) }
{
    let mut file = fs::open(rt, name)?;
    file.seek(SeekFrom::Start(at))?;
    file.read(buf)
}

impl<R: Files> Shelf for FileShelf<'_, R> {
    ghost use Rattle.std.specs.Prelude.{false, None};
    ghost use Rattle.std.proofs.Common.{rules};

    ghost held = { λ shelf. None };

    ghost honest = { λ shelf. false };

    ghost faults = { λ shelf. shelf.faults };

    ghost taken = { λ shelf. shelf.taken };

    ghost tells = { Prim.search rules };

    fn read_at(&mut self, name: &str, at: u64, buf: &mut [u8]) -> Result<usize, Failed>
        ensures bound { IfOk result (λ count. count ≤ length buf.new) }
        ensures taken { Raises self.old.taken self.new.taken (answered result) }
        ensures cause { HasCause self.old.faults self.new.faults result }

        // Beyond the trait: the count rises at each failed call, and at no other.
        ensures no_fault { OnOk result (self.new.faults ≡ self.old.faults) }
        ensures fault { OnErr result (self.new.faults ≡ one_more self.old.faults) }
    {
        match read_file(self.rt, name, at, buf) {
            Ok(count) => {
                self.taken = self.taken.saturating_add(count as u64);
                Ok(count)
            }
            Err(_) => {
                self.faults = self.faults.saturating_add(1);
                Err(Failed)
            }
        }
    }
}
