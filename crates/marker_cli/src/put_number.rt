//! Numbers among other bytes.

ghost use Rattle.std.specs.Prelude.{◌≡◌, ◌++◌, OnOk, OnErr};
ghost use Rattle.std.specs.Fmt.{decimal};
ghost use Rattle.ports.specs.Causes.{HasCause};
ghost use Rattle.ports.specs.Grown.{grown, GrowsByFront};

use itoa::Buffer;
use ports::failed::Failed;
use ports::sink::{Sink, put_all};

/// Puts a number in decimal, and what follows it. It takes no memory.
pub fn put_number<O: Sink>(number: usize, after: &[u8], out: &mut O) -> Result<(), Failed>
    ensures ok { OnOk result (O.out out.new ≡ grown (O.out out.old) (decimal number ++ after.now)) }
    ensures failed { OnErr result (GrowsByFront (O.out out.old) (O.out out.new) (decimal number ++ after.now)) }
    ensures cause { HasCause (O.faults out.old) (O.faults out.new) result }
{
    let mut buffer = Buffer::new();
    put_all(out, buffer.format(number).as_bytes())?;
    put_all(out, after)
}

/// Puts what stands before a number, the number, and what follows it. It takes no memory.
pub fn put_numbered<O: Sink>(
    before: &[u8],
    number: usize,
    after: &[u8],
    out: &mut O,
) -> Result<(), Failed>
    ensures ok { OnOk result (O.out out.new ≡ grown (O.out out.old) (before.now ++ (decimal number ++ after.now))) }
    ensures failed { OnErr result (GrowsByFront (O.out out.old) (O.out out.new) (before.now ++ (decimal number ++ after.now))) }
    ensures cause { HasCause (O.faults out.old) (O.faults out.new) result }
{
    put_all(out, before)?;
    put_number(number, after, out)
}
