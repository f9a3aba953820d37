//! Rows of values in a counter style.

ghost use Rattle.std.specs.Prelude.{◌≡◌, OnOk, OnErr, encode_utf8_all};
ghost use Rattle.ports.specs.Grown.{grown, GrowsByFront};
ghost use Rattle.ports.specs.Puts.{HasPutCause};
ghost use Rattle.table_text.specs.Rows.{row_text, rows, values_between};

use dump_text::put_quoted::put_quoted;
use itoa::Buffer;
use plain_types::count::Count;
use plain_types::style_ref::StyleRef;
use plain_types::table::Table;
use plain_types::text::Text;
use ports::put_fault::PutFault;
use ports::sink::{Sink, put_all};
use representation::represent::represent;
use std::alloc::Global;

/// Puts the row of a value.
fn put_row<O: Sink>(
    alloc: Global,
    table: &Table,
    style: &StyleRef,
    value: Count,
    out: &mut O,
) -> Result<(), PutFault>
    ensures ok { OnOk result (O.out out.new ≡ grown (O.out out.old) (encode_utf8_all (row_text table.now style.now value))) }
    ensures err { OnErr result (GrowsByFront (O.out out.old) (O.out out.new) (encode_utf8_all (row_text table.now style.now value))) }
    ensures cause { HasPutCause (O.faults out.old) (O.faults out.new) result }
{
    let mut text = Text::new(alloc);
    represent(alloc, table, style, value, &mut text)?;
    let mut buffer = Buffer::new();
    put_all(out, buffer.format(value).as_bytes())?;
    put_all(out, b" ")?;
    put_quoted(text.as_str(), out)?;
    put_all(out, b"\n")?;
    Ok(())
}

/// Puts a row for each value from the one to the other, in order; none where the first is above the last.
///
/// It takes time linear in the number of values, each of which costs what its representation costs, and
/// memory for one text. After a fault a front of the bytes went out.
pub fn put_rows<O: Sink>(
    alloc: Global,
    table: &Table,
    style: &StyleRef,
    from: Count,
    to: Count,
    out: &mut O,
) -> Result<(), PutFault>
    ensures ok { OnOk result (O.out out.new ≡ grown (O.out out.old) (rows table.now style.now (values_between from to))) }
    ensures err { OnErr result (GrowsByFront (O.out out.old) (O.out out.new) (rows table.now style.now (values_between from to))) }
    ensures cause { HasPutCause (O.faults out.old) (O.faults out.new) result }
{
    for value in from..=to {
        put_row(alloc, table, style, value, out)?;
    }
    Ok(())
}
