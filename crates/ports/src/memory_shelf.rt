//! Files in memory, where some calls fail.

ghost use Rattle.std.specs.Prelude.{◌≡◌, ◌⊎◌, ◌↔◌, ◌≤◌, length, IfOk, OnOk, IsErr, OnErr, None, Contains};
ghost use Rattle.std.specs.Str.{chars};
ghost use Rattle.ports.specs.Causes.{HasCause, Raises, one_more};
ghost use Rattle.ports.specs.Files.{Reads, answered, look_up};

use crate::failed::Failed;
use crate::named_file::{NamedFile, find, read_from};
use crate::shelf::Shelf;
use plain_types::list::List;
use std::marker::Model;

/// Files in memory, where the calls of given numbers fail. The first call has the number 0.
#[derive(Drop)]
pub struct MemoryShelf {
    files: List<NamedFile>,
    failing: List<u64>,
    calls: u64,
    faults: u64,
    taken: u64,
}

impl Model for MemoryShelf {
    ghost use Rattle.ports.specs.Devices.{MemoryFiles};

    ghost Value = { MemoryFiles };

    ghost view = { λ s. record { files = s.files; failing = s.failing; calls = s.calls; faults = s.faults; taken = s.taken } };
}

impl MemoryShelf {
    /// A shelf with these files; of two files of one name it holds the first. The call whose number is in `failing` fails, counted from 0.
    pub fn new(files: List<NamedFile>, failing: List<u64>) -> MemoryShelf
        ensures files { result.files ≡ files }
        ensures failing { result.failing ≡ failing }
        ensures calls { result.calls ≡ 0 }
        ensures faults { result.faults ≡ 0 }
        ensures taken { result.taken ≡ 0 }
    {
        MemoryShelf {
            files,
            failing,
            calls: 0,
            faults: 0,
            taken: 0,
        }
    }
}

impl Shelf for MemoryShelf {
    ghost use Rattle.std.specs.Prelude.{Some, ◌==◌, length};
    ghost use Rattle.std.proofs.Common.{rules};
    ghost use Rattle.ports.specs.Files.{look_up};

    ghost held = { λ shelf. Some (look_up shelf.files) };

    ghost honest = { λ shelf. length shelf.failing == 0 };

    ghost faults = { λ shelf. shelf.faults };

    ghost taken = { λ shelf. shelf.taken };

    ghost tells = { Prim.search rules };

    fn read_at(&mut self, name: &str, at: u64, buf: &mut [u8]) -> Result<usize, Failed>
        ensures bound { IfOk result (λ count. count ≤ length buf.new) }
        ensures bytes { IfOk result (λ count. Reads (look_up self.old.files (chars name.now)) at buf.new count) }
        ensures taken { Raises self.old.taken self.new.taken (answered result) }
        ensures cause { HasCause self.old.faults self.new.faults result }

        // Beyond the trait: when a call fails, and what of the shelf changes.
        ensures fails { IsErr result ↔ (Contains self.old.failing self.old.calls ⊎ (look_up self.old.files (chars name.now) ≡ None)) }
        ensures calls { self.new.calls ≡ one_more self.old.calls }
        ensures no_fault { OnOk result (self.new.faults ≡ self.old.faults) }
        ensures fault { OnErr result (self.new.faults ≡ one_more self.old.faults) }
        ensures files { self.new.files ≡ self.old.files }
        ensures failing { self.new.failing ≡ self.old.failing }
    {
        let fails = self.failing.as_slice().contains(&self.calls);
        self.calls = self.calls.saturating_add(1);
        if !fails && let Some(bytes) = find(self.files.as_slice(), name) {
            let count = read_from(bytes, at, buf);
            self.taken = self.taken.saturating_add(count as u64);
            return Ok(count);
        }
        self.faults = self.faults.saturating_add(1);
        Err(Failed)
    }
}
