//! Lines as their texts and breaks come.

use crate::line_writer::LineWriter;
use ports::failed::Failed;
use ports::fixed_sink::FixedSink;
use std::test::Fail;

/// Puts texts with a break between each two, and one at the end.
fn put_each(texts: &[&str], out: &mut FixedSink) -> Result<(), Failed> {
    let mut writer = LineWriter::new();
    for text in texts {
        writer.put_text(text, out)?;
        writer.put_break(out)?;
    }
    Ok(())
}

#[test]
fn collapses_blanks(rt: HostRuntime) -> Result<(), Fail> {
    for (texts, want) in [
        (&["a"] as &[&str], "a\n"),
        (&["", " \n\t"], ""),
        (&[" a \r\n b ", "c"], "a b\nc\n"),
        (&["a\u{a0} b\u{c}c\u{b}d"], "a\u{a0} b c\u{b}d\n"),
        (&["“é  ü”\u{3000}"], "“é ü”\u{3000}\n"),
    ] {
        let mut out = FixedSink::new(rt.alloc(), 100)?;
        assert!(rt; put_each(texts, &mut out).is_ok());
        assert_eq!(rt; out.bytes(), want.as_bytes(), "{want}");
    }
    Ok(())
}

// Blanks at the end of one text and at the beginning of the next are one space.
#[test]
fn joins_texts(rt: HostRuntime) -> Result<(), Fail> {
    let mut out = FixedSink::new(rt.alloc(), 100)?;
    let mut writer = LineWriter::new();
    for text in ["x ", "“", " y", "”", "\n z"] {
        assert!(rt; writer.put_text(text, &mut out).is_ok());
    }
    assert!(rt; writer.put_break(&mut out).is_ok());
    assert_eq!(rt; out.bytes(), "x “ y” z\n".as_bytes());
    Ok(())
}
