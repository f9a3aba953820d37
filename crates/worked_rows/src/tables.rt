//! Tables of values in counter styles, worked out by hand.

use crate::rows::tabled;
use crate::tests::comes_out;
use evaluation_rows::lines::{Lines, text_of};
use itoa::Buffer;
use plain_types::memory::Memory;
use std::alloc::Global;
use std::test::Fail;

/// A sheet, a style, the first and the last number, and the rows of the table.
type Tabled = (
    &'static str,
    &'static str,
    &'static str,
    &'static str,
    Lines,
);

static STYLES_OF_AUTHORS: [Tabled; 12] = [
    // the negative sign counts for the pad
    (
        r#"@counter-style z{system:extends decimal;pad:4 "0"}"#,
        "z",
        "5",
        "5",
        &[r#"5 "0005""#],
    ),
    (
        r#"@counter-style z{system:extends decimal;pad:4 "0"}"#,
        "z",
        "-5",
        "-5",
        &[r#"-5 "-005""#],
    ),
    // 4 = 3 + 1 leaves a rest; that 2 + 2 does not isn't tried
    (
        r#"@counter-style w{system:additive;additive-symbols:3 "a",2 "b"}"#,
        "w",
        "4",
        "5",
        &[r#"4 "4""#, r#"5 "ab""#],
    ),
    // styles that extend each other in a circle
    (
        "@counter-style a{system:extends b}@counter-style b{system:extends a}",
        "a",
        "7",
        "7",
        &[r#"7 "7""#],
    ),
    // and fall back on each other
    (
        r#"@counter-style x{system:fixed;symbols:"X";fallback:y}@counter-style y{system:fixed;symbols:"Y";fallback:x}"#,
        "x",
        "1",
        "2",
        &[r#"1 "X""#, r#"2 "2""#],
    ),
    // cyclic counts on below 1
    (
        "@counter-style c{system:cyclic;symbols:a b c}",
        "c",
        "-1",
        "1",
        &[r#"-1 "b""#, r#"0 "c""#, r#"1 "a""#],
    ),
    // a base with its accent is one cluster
    (
        r#"@counter-style g{system:cyclic;symbols:"e\301 ";pad:3 "x"}"#,
        "g",
        "1",
        "1",
        &["1 \"xxe\u{301}\""],
    ),
    // the last rule of a name holds
    (
        r#"@counter-style f{system:fixed;symbols:"A"}@counter-style f{system:fixed;symbols:"B"}"#,
        "f",
        "1",
        "1",
        &[r#"1 "B""#],
    ),
    // prefix and suffix are a marker's
    (
        r#"@counter-style p{system:extends upper-alpha;prefix:"Chapter ";suffix:": "}"#,
        "p",
        "2",
        "2",
        &[r#"2 "B""#],
    ),
    // the same escapes as in a dump
    (
        r#"@counter-style q{system:cyclic;symbols:"\"\\"}"#,
        "q",
        "1",
        "1",
        &[r#"1 "\"\\""#],
    ),
    ("", "none", "3", "3", &[r#"3 "3""#]),
    ("", "no such", "3", "3", &[r#"3 "3""#]),
];

/// What is too long, or repeats nothing, is decided without writing it.
static LONG_TEXTS: [Tabled; 6] = [
    (
        r#"@counter-style st{symbols:"*"}"#,
        "st",
        "120",
        "121",
        &[
            r#"120 "************************************************************************************************************************""#,
            r#"121 "121""#,
        ],
    ),
    (
        r#"@counter-style st{symbols:"*"}"#,
        "st",
        "2147483647",
        "2147483647",
        &[r#"2147483647 "2147483647""#],
    ),
    (
        r#"@counter-style st{symbols:"*"}"#,
        "st",
        "9223372036854775807",
        "9223372036854775807",
        &[r#"9223372036854775807 "9223372036854775807""#],
    ),
    (
        r#"@counter-style e{symbols:""}"#,
        "e",
        "2147483647",
        "2147483647",
        &[r#"2147483647 """#],
    ),
    (
        r#"@counter-style e{symbols:""}"#,
        "e",
        "9223372036854775807",
        "9223372036854775807",
        &[r#"9223372036854775807 """#],
    ),
    (
        r#"@counter-style p{system:numeric;symbols:"0" "1";pad:2147483647 "x"}"#,
        "p",
        "5",
        "5",
        &[r#"5 "5""#],
    ),
];

/// The place of the first row with another table; none where each is as it says.
fn first_wrong(rt: &HostRuntime, table: &[Tabled]) -> Result<Option<usize>, Memory> {
    for (place, (sheet, style, from, to, lines)) in table.iter().enumerate() {
        let words = ["table", "s.css", *style, *from, *to];
        let out = text_of(rt.alloc(), lines)?;
        if !comes_out(rt, &tabled(sheet, &words, out.as_str()))? {
            return Ok(Some(place));
        }
    }
    Ok(None)
}

#[test]
fn styles_of_authors(rt: HostRuntime) -> Result<(), Fail> {
    assert_eq!(rt; first_wrong(&rt, &STYLES_OF_AUTHORS)?, None);
    Ok(())
}

#[test]
fn long_texts(rt: HostRuntime) -> Result<(), Fail> {
    assert_eq!(rt; first_wrong(&rt, &LONG_TEXTS)?, None);
    Ok(())
}

/// A thousand styles, each with this body, where the next one has the place of NEXT.
fn chain(alloc: Global, front: &str, back: &str) -> Result<String, Memory> {
    let mut sheet = String::new(alloc);
    let mut number = Buffer::new();
    for style in 0..1000 {
        sheet.push_str("@counter-style n")?;
        sheet.push_str(number.format(style))?;
        sheet.push_str(front)?;
        sheet.push_str(number.format((style + 1) % 1000))?;
        sheet.push_str(back)?;
    }
    Ok(sheet)
}

/// Circles of a thousand styles.
#[test]
fn long_circles(rt: HostRuntime) -> Result<(), Fail> {
    for (front, back, from, to, out) in [
        ("{system:extends n", "}", "7", "7", "7 \"7\"\n"),
        (
            r#"{system:fixed;symbols:"x";fallback:n"#,
            "}",
            "1",
            "2",
            "1 \"x\"\n2 \"2\"\n",
        ),
    ] {
        let sheet = chain(rt.alloc(), front, back)?;
        let words = ["table", "s.css", "n0", from, to];
        let row = tabled(sheet.as_str(), &words, out);
        assert!(rt; comes_out(&rt, &row)?, "{front}");
    }
    Ok(())
}
