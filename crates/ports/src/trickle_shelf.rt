//! Files in memory that come in small pieces.

ghost use Rattle.std.specs.Prelude.{◌≡◌, ◌⊎◌, ◌↔◌, ◌≤◌, ◌<◌, length, IfOk, OnOk, IsErr, OnErr, None, Contains};
ghost use Rattle.std.specs.Str.{chars};
ghost use Rattle.ports.specs.Causes.{HasCause, Raises, one_more};
ghost use Rattle.ports.specs.Files.{Reads, answered, look_up};

use crate::failed::Failed;
use crate::memory_shelf::MemoryShelf;
use crate::named_file::NamedFile;
use crate::shelf::Shelf;
use plain_types::list::List;
use std::marker::Model;

/// A `MemoryShelf` whose calls answer at most so many bytes, as a slow line does.
#[derive(Drop)]
pub struct TrickleShelf {
    inner: MemoryShelf,
    step: usize,
}

impl Model for TrickleShelf {
    ghost use Rattle.std.specs.Prelude.{◌<◌};
    ghost use Rattle.ports.specs.Devices.{TrickleFiles};

    ghost Value = { TrickleFiles };

    ghost view = { λ s. record {
      files = s.inner.files;
      step = s.step;
      failing = s.inner.failing;
      calls = s.inner.calls;
      faults = s.inner.faults;
      taken = s.inner.taken;
    } };

    ghost invariant = { λ s. 0 < s.step };
}

impl TrickleShelf {
    /// A shelf with these files; of two files of one name it holds the first. A call answers at most
    /// `step` bytes, and the one whose number is in `failing` fails, counted from 0.
    pub fn new(files: List<NamedFile>, step: usize, failing: List<u64>) -> TrickleShelf
        requires step { 0 < step }
        ensures files { result.files ≡ files }
        ensures step { result.step ≡ step }
        ensures failing { result.failing ≡ failing }
        ensures calls { result.calls ≡ 0 }
        ensures faults { result.faults ≡ 0 }
        ensures taken { result.taken ≡ 0 }
    {
        TrickleShelf {
            inner: MemoryShelf::new(files, failing),
            step,
        }
    }
}

impl Shelf for TrickleShelf {
    ghost use Rattle.std.specs.Prelude.{Some, ◌==◌, length};
    ghost use Rattle.std.proofs.Common.{rules};
    ghost use Rattle.ports.specs.Files.{look_up};

    ghost held = { λ shelf. Some (look_up shelf.files) };

    ghost honest = { λ shelf. length shelf.failing == 0 };

    ghost faults = { λ shelf. shelf.faults };

    ghost taken = { λ shelf. shelf.taken };

    ghost tells = { Prim.search rules };

    fn read_at(&mut self, name: &str, at: u64, buf: &mut [u8]) -> Result<usize, Failed>
        ensures bound { IfOk result (λ count. count ≤ length buf.new) }
        ensures bytes { IfOk result (λ count. Reads (look_up self.old.files (chars name.now)) at buf.new count) }
        ensures taken { Raises self.old.taken self.new.taken (answered result) }
        ensures cause { HasCause self.old.faults self.new.faults result }

        // Beyond the trait: how much a call answers at most, when it fails, and what of the shelf changes.
        ensures few { IfOk result (λ count. count ≤ self.old.step) }
        ensures fails { IsErr result ↔ (Contains self.old.failing self.old.calls ⊎ (look_up self.old.files (chars name.now) ≡ None)) }
        ensures calls { self.new.calls ≡ one_more self.old.calls }
        ensures no_fault { OnOk result (self.new.faults ≡ self.old.faults) }
        ensures fault { OnErr result (self.new.faults ≡ one_more self.old.faults) }
        ensures files { self.new.files ≡ self.old.files }
        ensures step { self.new.step ≡ self.old.step }
        ensures failing { self.new.failing ≡ self.old.failing }
    {
        let most = buf.len().min(self.step);
        self.inner.read_at(name, at, &mut buf[..most])
    }
}
