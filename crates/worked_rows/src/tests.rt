//! The table, one test for each command or kind of end.

use crate::rows::{Row, code_of, dumped, ended, refused};
use plain_types::list::List;
use plain_types::memory::Memory;
use ports::fixed_sink::FixedSink;
use ports::memory_sink::MemorySink;
use std::marker::Brand;
use std::sync::ledger::Blank;
use std::test::Fail;

pub const USAGE: &str =
    "marker: usage: dump DOC SHEET | edit DOC SHEET SCRIPT | table SHEET STYLE FROM TO | gen SEED COUNT | history DOC SHEET SCRIPT DEPTH | text DOC SHEET | why DOC SHEET PATH | bake DOC SHEET | book SHEET SCRIPT DOC...\n";

/// Whether the row comes out as it is to.
pub fn comes_out(rt: &HostRuntime, row: &Row<'_>) -> Result<bool, Memory> {
    let mut out = FixedSink::new(rt.alloc(), 1000)?;
    let mut err = FixedSink::new(rt.alloc(), 1000)?;
    let code = code_of::<_, Brand>(rt, Blank::new(1), row, &mut out, &mut err)?;
    Ok(out.bytes() == row.out.as_bytes() && err.bytes() == row.err.as_bytes() && code == row.code)
}

#[test]
fn bad_words(rt: HostRuntime) -> Result<(), Fail> {
    for (place, row) in [
        ended(&[], USAGE, 2),
        ended(&["dump", "d.xhtml"], USAGE, 2),
        ended(&["dump", "d.xhtml", "s.css", "t.txt"], USAGE, 2),
        ended(&["table", "s.css", "decimal", "0", "10000"], USAGE, 2),
        ended(&["table", "s.css", "decimal", "1", "0"], USAGE, 2),
        ended(&["table", "s.css", "decimal", "00", "1"], USAGE, 2),
        ended(&["table", "s.css", "decimal", "-0", "1"], USAGE, 2),
        ended(
            &[
                "table",
                "s.css",
                "decimal",
                "9223372036854775808",
                "9223372036854775808",
            ],
            USAGE,
            2,
        ),
        // the difference of the two does not fit 64 bits
        ended(
            &[
                "table",
                "s.css",
                "decimal",
                "-9223372036854775808",
                "9223372036854775807",
            ],
            USAGE,
            2,
        ),
        ended(&["gen", "1", "0"], USAGE, 2),
        ended(&["gen", "1", "100001"], USAGE, 2),
        ended(&["gen", "2147483648", "1"], USAGE, 2),
        ended(&["gen", "+1", "1"], USAGE, 2),
        // as many edits as 1 to 1000 can be undone
        ended(&["history", "d.xhtml", "s.css", "t.txt"], USAGE, 2),
        ended(&["history", "d.xhtml", "s.css", "t.txt", "0"], USAGE, 2),
        ended(&["history", "d.xhtml", "s.css", "t.txt", "1001"], USAGE, 2),
        ended(&["history", "d.xhtml", "s.css", "t.txt", "01"], USAGE, 2),
        ended(&["history", "d.xhtml", "s.css", "t.txt", "+1"], USAGE, 2),
        ended(&["history", "d.xhtml", "s.css", "t.txt", ""], USAGE, 2),
        ended(
            &[
                "history",
                "d.xhtml",
                "s.css",
                "t.txt",
                "18446744073709551617",
            ],
            USAGE,
            2,
        ),
        ended(&["edit", "d.xhtml", "s.css", "t.txt", "1"], USAGE, 2),
    ]
    .iter()
    .enumerate()
    {
        assert!(rt; comes_out(&rt, row)?, "row {place}");
    }
    Ok(())
}

#[test]
fn bad_files(rt: HostRuntime) -> Result<(), Fail> {
    for (place, row) in [
        refused(
            b"<ol><li>",
            b"",
            "marker: d.xhtml:1:9: not well-formed\n",
            6,
        ),
        refused(b"<a></b>", b"", "marker: d.xhtml:1:4: not well-formed\n", 6),
        // the sheet's bytes are looked at before the document's grammar
        refused(
            b"<a>\r\n<b>\r</a>",
            b"x",
            "marker: d.xhtml:3:1: not well-formed\n",
            6,
        ),
        refused(b"<a", b"x\xff", "marker: s.css: not UTF-8 at 1\n", 5),
        refused(b"\xff", b"\xff", "marker: d.xhtml: not UTF-8 at 0\n", 5),
        ended(
            &["dump", "x.xhtml", "y.css"],
            "marker: x.xhtml: read failed\n",
            3,
        ),
        ended(
            &["dump", "d.xhtml", "y.css"],
            "marker: y.css: read failed\n",
            3,
        ),
        ended(
            &["table", "y.css", "decimal", "1", "1"],
            "marker: y.css: read failed\n",
            3,
        ),
    ]
    .iter()
    .enumerate()
    {
        assert!(rt; comes_out(&rt, row)?, "row {place}");
    }
    Ok(())
}

/// A sink without room takes a front.
#[test]
fn a_full_sink(rt: HostRuntime) -> Result<(), Fail> {
    let row = dumped("<ol><li>a</li></ol>", "", "");
    let mut out = FixedSink::new(rt.alloc(), 3)?;
    let mut err = FixedSink::new(rt.alloc(), 1000)?;
    let code = code_of::<_, Brand>(&rt, Blank::new(1), &row, &mut out, &mut err)?;
    assert_eq!(rt; code, 8);
    assert_eq!(rt; out.bytes(), b"/0 ".as_slice());
    assert_eq!(rt; err.bytes(), b"marker: write failed\n".as_slice());
    Ok(())
}

/// A sink whose first call fails takes nothing.
#[test]
fn a_sink_that_fails(rt: HostRuntime) -> Result<(), Fail> {
    let row = dumped("<ol><li>a</li></ol>", "", "");
    let mut failing = List::new(rt.alloc());
    failing.push(0u64)?;
    let mut out = MemorySink::new(rt.alloc(), 1000, failing)?;
    let mut err = FixedSink::new(rt.alloc(), 1000)?;
    let code = code_of::<_, Brand>(&rt, Blank::new(1), &row, &mut out, &mut err)?;
    assert_eq!(rt; code, 8);
    assert_eq!(rt; out.bytes(), b"".as_slice());
    assert_eq!(rt; err.bytes(), b"marker: write failed\n".as_slice());
    Ok(())
}
