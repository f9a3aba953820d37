//! The lines of counters.

ghost use Rattle.std.specs.Prelude.{◌≡◌, ◌++◌, ◌∷◌, [], OnOk, OnErr, encode_utf8_all, flat_map};
ghost use Rattle.std.specs.Fmt.{signed_decimal};
ghost use Rattle.std.specs.List.{AllByRecursion};
ghost use Rattle.forest.specs.Spots.{IsLive};
ghost use Rattle.plain_types.specs.declared.counter.Counter.{Counter};
ghost use Rattle.ports.specs.Causes.{HasCause};
ghost use Rattle.ports.specs.Grown.{grown, GrowsByFront};
ghost use Rattle.ports.specs.Puts.{HasPutCause};
ghost use Rattle.why_report.specs.Accounts.{counter_line};

use dump_text::put_line::{put_kind, put_path};
use dump_text::put_quoted::put_quoted;
use itoa::Buffer;
use node_arena::arena::Arena;
use plain_types::count::Count;
use plain_types::counter::Counter;
use ports::failed::Failed;
use ports::put_fault::PutFault;
use ports::sink::{Sink, put_all};
use std::alloc::Global;

/// Puts the value at the end of a line.
fn put_value<O: Sink>(value: Count, out: &mut O) -> Result<(), Failed>
    ensures ok { OnOk result (O.out out.new ≡ grown (O.out out.old) (encode_utf8_all (signed_decimal value ++ 10 ∷ []))) }
    ensures failed { OnErr result (GrowsByFront (O.out out.old) (O.out out.new) (encode_utf8_all (signed_decimal value ++ 10 ∷ []))) }
    ensures cause { HasCause (O.faults out.old) (O.faults out.new) result }
{
    let mut buffer = Buffer::new();
    let digits = buffer.format(value);
    put_all(out, digits.as_bytes())?;
    put_all(out, b"\n")
}

/// Puts the line of a counter whose creator is in the document.
fn put_counter<O: Sink>(
    alloc: Global,
    arena: &Arena,
    counter: &Counter,
    out: &mut O,
) -> Result<(), PutFault>
    requires live { IsLive arena.now.tree counter.now.creator.key }
    ensures ok { OnOk result (O.out out.new ≡ grown (O.out out.old) (encode_utf8_all (counter_line arena.now.tree counter.now))) }
    ensures failed { OnErr result (GrowsByFront (O.out out.old) (O.out out.new) (encode_utf8_all (counter_line arena.now.tree counter.now))) }
    ensures cause { HasPutCause (O.faults out.old) (O.faults out.new) result }
{
    let path = arena.path_of(alloc, counter.creator.key)?;
    put_all(out, b"counter ")?;
    put_quoted(counter.name.as_str(), out)?;
    put_all(out, b" ")?;
    put_path(path.as_slice(), out)?;
    put_kind(counter.creator.kind, out)?;
    put_value(counter.value, out)?;
    Ok(())
}

/// Puts the lines of counters whose creators are in the document.
pub(crate) fn put_counters<O: Sink>(
    alloc: Global,
    arena: &Arena,
    counters: &[Counter],
    out: &mut O,
) -> Result<(), PutFault>
    requires live { AllByRecursion (λ (counter : Counter). IsLive arena.now.tree counter.creator.key) counters.now }
    ensures ok { OnOk result (O.out out.new ≡ grown (O.out out.old) (encode_utf8_all (flat_map (counter_line arena.now.tree) counters.now))) }
    ensures failed { OnErr result (GrowsByFront (O.out out.old) (O.out out.new) (encode_utf8_all (flat_map (counter_line arena.now.tree) counters.now))) }
    ensures cause { HasPutCause (O.faults out.old) (O.faults out.new) result }
{
    for counter in counters {
        put_counter(alloc, arena, counter, out)?;
    }
    Ok(())
}
