//! Where files are read.

ghost use Rattle.std.specs.Prelude.{◌≡◌, ℕ, Option, ◌≤◌, length, Bool, IsTrue, IsSome, IfSome, IfOk, OnErr, None};
ghost use Rattle.std.specs.Str.{chars};
ghost use Rattle.ports.specs.Causes.{HasCause, Raises};
ghost use Rattle.ports.specs.Files.{Files, Reads, answered};

use crate::failed::Failed;

/// A place with files, which no read changes. It may tell which files it holds.
pub trait Shelf {
    /// The files that it holds, where it tells them.
    ghost held: { Self → Option Files };

    /// Whether it tells its files and fails on none of them.
    ghost honest: { Self → Bool };

    /// How many calls failed, kept in 64 bits.
    ghost faults: { Self → ℕ };

    /// How many bytes were answered, kept in 64 bits.
    ghost taken: { Self → ℕ };

    /// Reads bytes of the named file, from its byte `at` on (counted from 0), into a front of the
    /// buffer, and answers how many. An answer 0 for a buffer that isn't empty is the end of the file;
    /// a smaller answer than the buffer's length isn't. A name that isn't held fails.
    fn read_at(&mut self, name: &str, at: u64, buf: &mut [u8]) -> Result<usize, Failed>
        ensures bound { IfOk result (λ count. count ≤ length buf.new) }
        ensures bytes { IfOk result (λ count. IfSome (held self.old) (λ files. Reads (files (chars name.now)) at buf.new count)) }
        ensures failed { OnErr result (IsTrue (honest self.old) → IfSome (held self.old) (λ files. files (chars name.now) ≡ None)) }
        ensures held { held self.new ≡ held self.old }
        ensures honest { honest self.new ≡ honest self.old }
        ensures taken { Raises (taken self.old) (taken self.new) (answered result) }
        ensures cause { HasCause (faults self.old) (faults self.new) result };

    /// An honest shelf tells its files.
    ghost tells: { (shelf : Self) → IsTrue (honest shelf) → IsSome (held shelf) };
}
