//! Lines as the dump's format has them.

use crate::put_line::put_line;
use crate::put_quoted::put_quoted;
use plain_types::box_kind::BoxKind;
use plain_types::text::Text;
use ports::fixed_sink::FixedSink;
use std::test::Fail;

#[test]
fn puts_lines(rt: HostRuntime) -> Result<(), Fail> {
    let alloc = rt.alloc();
    let mut out = FixedSink::new(alloc, 100)?;
    let text = Text::from_str(alloc, "a\"\n\t\\")?;
    assert!(rt; put_line(&[], BoxKind::Before, &text, &mut out).is_ok());
    let text = Text::from_str(alloc, "1. ")?;
    assert!(rt; put_line(&[0, 12], BoxKind::Marker, &text, &mut out).is_ok());
    let text = Text::new(alloc);
    assert!(rt; put_line(&[3], BoxKind::After, &text, &mut out).is_ok());
    let want = "/ before \"a\\\"\\n\\u{9}\\\\\"\n/0/12 marker \"1. \"\n/3 after \"\"\n";
    assert_eq!(rt; out.bytes(), want.as_bytes());
    Ok(())
}

#[test]
fn puts_texts_in_quotes(rt: HostRuntime) -> Result<(), Fail> {
    for (text, want) in [
        ("", "\"\""),
        ("“é”", "\"“é”\""),
        (
            "\u{0}\r\u{1f} ~\u{7f}\u{80}",
            "\"\\u{0}\\u{d}\\u{1f} ~\\u{7f}\u{80}\"",
        ),
    ] {
        let mut out = FixedSink::new(rt.alloc(), 100)?;
        assert!(rt; put_quoted(text, &mut out).is_ok());
        assert_eq!(rt; out.bytes(), want.as_bytes(), "{text}");
    }
    Ok(())
}

// A line that doesn't fit goes out up to where the room ends.
#[test]
fn puts_a_front_where_the_sink_is_full(rt: HostRuntime) -> Result<(), Fail> {
    let alloc = rt.alloc();
    let mut out = FixedSink::new(alloc, 3)?;
    let text = Text::from_str(alloc, "1. ")?;
    assert!(rt; put_line(&[0], BoxKind::Marker, &text, &mut out).is_err());
    assert_eq!(rt; out.bytes(), "/0 ".as_bytes());
    Ok(())
}
