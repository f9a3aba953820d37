//! Runs of scripts, and runs that are made up.

use crate::rows::{Row, edited, ended};
use crate::tests::comes_out;
use evaluation_rows::lines::{Dump, Lines, text_of};
use plain_types::memory::Memory;
use std::alloc::Global;
use std::test::Fail;

/// A document, its sheet and its dump; and edits of it, each a line of a script with the dump after it.
pub struct Script {
    pub start: Dump,
    pub edits: &'static [(&'static str, Lines)],
}

const LIST: &str = "<ol><li>a</li><li>b</li></ol>";

const SHOWN: &str = r#"show 1
/0 marker "1. "
/1 marker "2. "
end
"#;

/// A script over the list of two items.
fn listed<'a>(script: &'a str, out: &'a str) -> Row<'a> {
    edited(LIST, "", script, out)
}

static REFERENCES: [Script; 2] = [
    // the number of an element further on, before and after an element comes between
    Script {
        start: (
            r##"<body><p><a href="#t"/></p><h1/><h1 id="t"/></body>"##,
            "h1{counter-increment:s}a::after{content:target-counter(attr(href),s)}",
            &[r#"/0/0 after "2""#],
        ),
        edits: &[("insert / 1 <h1/>", &[r#"/0/0 after "3""#])],
    },
    // the first of two elements with one id goes, then the other, and another comes
    Script {
        start: (
            r##"<body><a href="#x"/><h1 id="x">one</h1><h1 id="x">two</h1></body>"##,
            "a::after{content:target-text(attr(href))}",
            &[r#"/0 after "one""#],
        ),
        edits: &[
            ("remove /1", &[r#"/0 after "two""#]),
            ("remove /1", &[r#"/0 after """#]),
            (r#"insert / 1 <h1 id="x">six</h1>"#, &[r#"/0 after "six""#]),
        ],
    },
];

/// Documents, sheets, scripts, and what comes out. Refused edits are told and end nothing.
static REFUSED: [(&str, &str, &str, &str); 2] = [
    (
        "<ol><li><b/><i/></li></ol>",
        "",
        "move /0 /0/1 0\nremove /9\nremove /\nshow\n",
        r#"refused 1 into-itself
refused 2 no-place
refused 3 no-place
show 4
/0 marker "1. "
end
"#,
    ),
    (
        r#"<ol><li id="a"/><li id="b"/><li id="c"/></ol>"#,
        "li{list-style:none}li::before{content:counter(list-item)attr(id)}",
        "move /0 / 3\nmove /0 / 2\nunset /1 title\nshow\n",
        r#"refused 1 no-place
show 4
/0 before "1b"
/1 before "2c"
/2 before "3a"
end
"#,
    ),
];

/// Appends what a `show` in this line writes.
fn push_shown(alloc: Global, out: &mut String, line: usize, dump: &[&str]) -> Result<(), Memory> {
    out.push_str(format!(in alloc; "show {line}\n")?.as_str())?;
    out.push_str(text_of(alloc, dump)?.as_str())?;
    out.push_str("end\n")?;
    Ok(())
}

/// The text that shows the document before its edits and after each, and what comes out.
fn texts_of(alloc: Global, script: &Script) -> Result<(String, String), Memory> {
    let mut text = String::from_str(alloc, "show\n")?;
    let mut out = String::new(alloc);
    let mut line: usize = 1;
    push_shown(alloc, &mut out, line, script.start.2)?;
    for (edit, dump) in script.edits {
        text.push_str(edit)?;
        text.push_str("\nshow\n")?;
        line = line.saturating_add(2);
        push_shown(alloc, &mut out, line, dump)?;
    }
    Ok((text, out))
}

/// The place of the first script that shows something else; none where each shows what it says.
pub fn first_wrong(rt: &HostRuntime, table: &[Script]) -> Result<Option<usize>, Memory> {
    for (place, script) in table.iter().enumerate() {
        let (document, sheet, _dump) = script.start;
        let (text, out) = texts_of(rt.alloc(), script)?;
        if !comes_out(rt, &edited(document, sheet, text.as_str(), out.as_str()))? {
            return Ok(Some(place));
        }
    }
    Ok(None)
}

#[test]
fn edits_are_shown(rt: HostRuntime) -> Result<(), Fail> {
    assert_eq!(rt; first_wrong(&rt, &REFERENCES)?, None);
    for (document, sheet, script, out) in REFUSED {
        assert!(rt;
            comes_out(&rt, &edited(document, sheet, script, out))?,
            "{script}"
        );
    }
    Ok(())
}

#[test]
fn lines_are_told_apart(rt: HostRuntime) -> Result<(), Fail> {
    for (script, out) in [
        ("", ""),
        ("\u{feff}show", SHOWN),
        ("show\r\n# a comment\n \t\n", SHOWN),
        (
            "\n\nshow\n",
            r#"show 3
/0 marker "1. "
/1 marker "2. "
end
"#,
        ),
    ] {
        assert!(rt; comes_out(&rt, &listed(script, out))?, "{script}");
    }
    Ok(())
}

/// A sheet is read when its line is done. Where it can't be used the run ends there, and what was written stays.
#[test]
fn sheets_are_read_in_turn(rt: HostRuntime) -> Result<(), Fail> {
    for (place, row) in [
        Row {
            other_sheet: b"li{list-style:none}",
            out: r#"show 1
/0 marker "1. "
/1 marker "2. "
end
show 3
end
"#,
            ..listed("show\nsheet n.css\nshow\n", "")
        },
        // a style element stays, and comes after each sheet
        Row {
            document: b"<body><style>li{list-style:lower-alpha}</style><ol><li/></ol></body>",
            other_sheet: b"li{list-style:square}",
            out: r#"show 1
/1/0 marker "a. "
end
show 3
/1/0 marker "a. "
end
show 5
/0/0 marker "▪ "
end
"#,
            ..listed("show\nsheet n.css\nshow\nremove /0\nshow\n", "")
        },
        Row {
            err: "marker: m.css: read failed\n",
            code: 3,
            ..listed("show\nsheet m.css\nshow\n", SHOWN)
        },
        Row {
            other_sheet: b"p{}\xff",
            err: "marker: n.css: not UTF-8 at 3\n",
            code: 5,
            ..listed("show\nsheet n.css\nshow\n", SHOWN)
        },
    ]
    .iter()
    .enumerate()
    {
        assert!(rt; comes_out(&rt, row)?, "row {place}");
    }
    Ok(())
}

/// A script is read after the document, and before its first command is done.
#[test]
fn bad_scripts(rt: HostRuntime) -> Result<(), Fail> {
    for (place, row) in [
        Row {
            err: "marker: t.txt:1: bad line\n",
            code: 7,
            ..listed("insert /0", "")
        },
        Row {
            err: "marker: t.txt:3: bad line\n",
            code: 7,
            ..listed("show\nshow\nremove\nnothing", "")
        },
        Row {
            document: b"<ol><li>",
            err: "marker: d.xhtml:1:9: not well-formed\n",
            code: 6,
            ..listed("remove", "")
        },
        Row {
            script: b"show\n\xff",
            err: "marker: t.txt: not UTF-8 at 5\n",
            code: 5,
            ..listed("", "")
        },
        ended(
            &["edit", "d.xhtml", "s.css", "m.txt"],
            "marker: m.txt: read failed\n",
            3,
        ),
    ]
    .iter()
    .enumerate()
    {
        assert!(rt; comes_out(&rt, row)?, "row {place}");
    }
    Ok(())
}

#[test]
fn runs_are_made_up(rt: HostRuntime) -> Result<(), Fail> {
    for (count, out) in [
        (
            "1",
            "elements 10\nboxes 20\naccepted 1\nrefused 0\nlines 10\n",
        ),
        (
            "2",
            "elements 10\nboxes 20\naccepted 2\nrefused 0\nlines 10\n",
        ),
    ] {
        let words = ["gen", "1", count];
        let row = Row {
            out,
            ..ended(&words, "", 0)
        };
        assert!(rt; comes_out(&rt, &row)?, "{count} edits");
    }
    Ok(())
}
