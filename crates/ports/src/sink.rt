//! Where bytes go.

ghost use Rattle.std.specs.Prelude.{◌≡◌, ℕ, Bool, false, List, Option, ◌≤◌, ◌<◌, length, take, IfOk, OnOk, OnErr};
ghost use Rattle.ports.specs.Causes.{HasCause, Rose};
ghost use Rattle.ports.specs.Grown.{grown, GrowsByFront};

use crate::failed::Failed;

/// A place that takes bytes. It may tell which bytes it holds. It may keep some of them back, as a writer with a
/// buffer does, until it is flushed.
pub trait Sink {
    /// The bytes that it holds, where it tells them.
    ghost out: { Self → Option (List ℕ) };

    /// How many calls failed, kept in 64 bits.
    ghost faults: { Self → ℕ };

    /// Whether bytes may be kept back: they were taken, and no flush since then has handed them on.
    ghost kept: { Self → Bool };

    /// Takes a front of the bytes, and answers how many. An answer 0 for a piece that isn't empty means
    /// that no more fits, and counts as a fault too.
    fn put(&mut self, bytes: &[u8]) -> Result<usize, Failed>
        ensures bound { IfOk result (λ count. count ≤ length bytes.now) }
        ensures ok { IfOk result (λ count. out self.new ≡ grown (out self.old) (take count bytes.now)) }
        ensures failed { OnErr result (out self.new ≡ out self.old) }
        ensures cause { HasCause (faults self.old) (faults self.new) result }
        ensures stuck { IfOk result (λ count. count ≡ 0 → 0 < length bytes.now → Rose (faults self.old) (faults self.new)) };

    /// Hands on what it keeps back. A sink that keeps nothing back has nothing to do.
    fn flush(&mut self) -> Result<(), Failed>
        ensures out { out self.new ≡ out self.old }
        ensures sent { OnOk result (kept self.new ≡ false) }
        ensures cause { HasCause (faults self.old) (faults self.new) result };
}

/// Puts all of the bytes, in as many calls as the sink wants. After `Failed` a front of them went out,
/// maybe none. It takes no memory.
pub fn put_all<O: Sink>(out: &mut O, bytes: &[u8]) -> Result<(), Failed>
    ensures ok { OnOk result (O.out out.new ≡ grown (O.out out.old) bytes.now) }
    ensures failed { OnErr result (GrowsByFront (O.out out.old) (O.out out.new) bytes.now) }
    ensures cause { HasCause (O.faults out.old) (O.faults out.new) result }
{
    let mut start = 0;
    while start < bytes.len() {
        let count = out.put(&bytes[start..])?;
        if count == 0 {
            return Err(Failed);
        }
        start += count;
    }
    Ok(())
}
