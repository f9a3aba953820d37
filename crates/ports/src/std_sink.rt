//! A writer of the system.

ghost use Rattle.std.specs.Prelude.{◌≡◌, ◌⊎◌, ◌≤◌, ◌<◌, true, false, length, IfOk, OnOk, OnErr};
ghost use Rattle.ports.specs.Causes.{HasCause, one_more};

use crate::failed::Failed;
use crate::sink::Sink;
use std::io::Write;
use std::marker::Model;

/// A writer, as standard output or standard error. It tells nothing of what was written: contracts see
/// how many calls failed, and whether the writer was flushed since it last took bytes.
#[derive(Drop)]
pub struct StdSink<W> {
    inner: W,
    faults: u64,
    kept: bool,
}

impl<W> Model for StdSink<W> {
    ghost use Rattle.ports.specs.Devices.{WriteCounts};

    ghost Value = { WriteCounts };

    ghost view = { λ s. record { faults = s.faults; kept = s.kept } };
}

impl<W: Write> StdSink<W> {
    /// A sink that writes to this writer.
    pub fn new(inner: W) -> StdSink<W>
        ensures faults { result.faults ≡ 0 }
        ensures kept { result.kept ≡ false }
    {
        StdSink {
            inner,
            faults: 0,
            kept: false,
        }
    }
}

impl<W: Write> Sink for StdSink<W> {
    ghost use Rattle.std.specs.Prelude.{None};

    ghost out = { λ sink. None };

    ghost faults = { λ sink. sink.faults };

    ghost kept = { λ sink. sink.kept };

    fn put(&mut self, bytes: &[u8]) -> Result<usize, Failed>
        ensures bound { IfOk result (λ count. count ≤ length bytes.now) }
        ensures cause { HasCause self.old.faults self.new.faults result }

        // Beyond the trait: the count rises at each failed call, at an answer 0 for a piece that isn't
        // empty, and at no other call. Whatever the writer took may be kept back.
        ensures fault { OnErr result (self.new.faults ≡ one_more self.old.faults) }
        ensures stuck { IfOk result (λ count. count ≡ 0 → 0 < length bytes.now → self.new.faults ≡ one_more self.old.faults) }
        ensures no_fault { IfOk result (λ count. 0 < count ⊎ (length bytes.now ≡ 0) → self.new.faults ≡ self.old.faults) }
        ensures keeps { self.new.kept ≡ true }
    {
        self.kept = true;
        match self.inner.write(bytes) {
            Ok(count) => {
                if count == 0 && !bytes.is_empty() {
                    self.faults = self.faults.saturating_add(1);
                }
                Ok(count)
            }
            Err(_) => {
                self.faults = self.faults.saturating_add(1);
                Err(Failed)
            }
        }
    }

    fn flush(&mut self) -> Result<(), Failed>
        ensures cause { HasCause self.old.faults self.new.faults result }
        ensures sent { OnOk result (self.new.kept ≡ false) }

        // Beyond the trait: the count rises at a failed call, and at no other.
        ensures fault { OnErr result (self.new.faults ≡ one_more self.old.faults) }
        ensures no_fault { OnOk result (self.new.faults ≡ self.old.faults) }
        ensures keeps { OnErr result (self.new.kept ≡ self.old.kept) }
    {
        match self.inner.flush() {
            Ok(()) => {
                self.kept = false;
                Ok(())
            }
            Err(_) => {
                self.faults = self.faults.saturating_add(1);
                Err(Failed)
            }
        }
    }
}
