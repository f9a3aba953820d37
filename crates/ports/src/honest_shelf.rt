//! Files in memory.

ghost use Rattle.std.specs.Prelude.{◌≡◌, ◌↔◌, ◌≤◌, length, IfOk, OnOk, IsErr, OnErr, None};
ghost use Rattle.std.specs.Str.{chars};
ghost use Rattle.ports.specs.Causes.{HasCause, Raises, one_more};
ghost use Rattle.ports.specs.Files.{Reads, answered, look_up};

use crate::failed::Failed;
use crate::named_file::{NamedFile, find, read_from};
use crate::shelf::Shelf;
use plain_types::list::List;
use std::marker::Model;

/// Files in memory. A call fails where the name isn't held, and only there.
#[derive(Drop)]
pub struct HonestShelf {
    files: List<NamedFile>,
    faults: u64,
    taken: u64,
}

impl Model for HonestShelf {
    ghost use Rattle.ports.specs.Devices.{HonestFiles};

    ghost Value = { HonestFiles };

    ghost view = { λ s. record { files = s.files; faults = s.faults; taken = s.taken } };
}

impl HonestShelf {
    /// A shelf with these files. Of two files of one name it holds the first.
    pub fn new(files: List<NamedFile>) -> HonestShelf
        ensures files { result.files ≡ files }
        ensures faults { result.faults ≡ 0 }
        ensures taken { result.taken ≡ 0 }
    {
        HonestShelf {
            files,
            faults: 0,
            taken: 0,
        }
    }
}

impl Shelf for HonestShelf {
    ghost use Rattle.std.specs.Prelude.{true, Some};
    ghost use Rattle.std.proofs.Common.{rules};
    ghost use Rattle.ports.specs.Files.{look_up};

    ghost held = { λ shelf. Some (look_up shelf.files) };

    ghost honest = { λ shelf. true };

    ghost faults = { λ shelf. shelf.faults };

    ghost taken = { λ shelf. shelf.taken };

    ghost tells = { Prim.search rules };

    fn read_at(&mut self, name: &str, at: u64, buf: &mut [u8]) -> Result<usize, Failed>
        ensures bound { IfOk result (λ count. count ≤ length buf.new) }
        ensures bytes { IfOk result (λ count. Reads (look_up self.old.files (chars name.now)) at buf.new count) }
        ensures taken { Raises self.old.taken self.new.taken (answered result) }
        ensures cause { HasCause self.old.faults self.new.faults result }

        // Beyond the trait: when a call fails, and what of the shelf changes.
        ensures fails { IsErr result ↔ (look_up self.old.files (chars name.now) ≡ None) }
        ensures no_fault { OnOk result (self.new.faults ≡ self.old.faults) }
        ensures fault { OnErr result (self.new.faults ≡ one_more self.old.faults) }
        ensures files { self.new.files ≡ self.old.files }
    {
        match find(self.files.as_slice(), name) {
            Some(bytes) => {
                let count = read_from(bytes, at, buf);
                self.taken = self.taken.saturating_add(count as u64);
                Ok(count)
            }
            None => {
                self.faults = self.faults.saturating_add(1);
                Err(Failed)
            }
        }
    }
}
