//! Runs of scripts that undo and redo edits.

use crate::rows::{Row, edited, ended};
use crate::tests::comes_out;
use std::test::Fail;

/// How many edits can be undone, a document and its sheet, a script, and what comes out.
type Versioned = (
    &'static str,
    &'static str,
    &'static str,
    &'static str,
    &'static str,
);

const LIST: &str = "<ol><li/><li/></ol>";

/// A script with a history over this document and this sheet.
fn versioned<'a>(
    words: &'a [&'a str],
    document: &'a str,
    sheet: &'a str,
    script: &'a str,
    out: &'a str,
) -> Row<'a> {
    Row {
        words,
        ..edited(document, sheet, script, out)
    }
}

/// Which edits can be undone and redone.
static STEPS: [Versioned; 8] = [
    // an edit is undone and redone, and then nothing is left to be redone
    (
        "2",
        LIST,
        "",
        "remove /0\nundo\nshow\nredo\nshow\nredo\n",
        r#"show 3
/0 marker "1. "
/1 marker "2. "
end
show 5
/0 marker "1. "
end
refused 6 nothing
"#,
    ),
    // no more edits than the depth says can be undone
    (
        "1",
        LIST,
        "",
        "set /0 value 5\nset /0 value 6\nundo\nundo\nshow\n",
        r#"refused 4 nothing
show 5
/0 marker "5. "
/1 marker "6. "
end
"#,
    ),
    (
        "2",
        LIST,
        "",
        "set /0 value 5\nset /0 value 6\nset /0 value 7\nundo\nundo\nundo\nshow\n",
        r#"refused 6 nothing
show 7
/0 marker "5. "
/1 marker "6. "
end
"#,
    ),
    // of none there is nothing to undo, and nothing to redo
    (
        "1000",
        LIST,
        "",
        "undo\nredo\nshow\n",
        r#"refused 1 nothing
refused 2 nothing
show 3
/0 marker "1. "
/1 marker "2. "
end
"#,
    ),
    // a refused edit isn't undone: the one before it is
    (
        "9",
        LIST,
        "",
        "remove /0\nremove /9\nundo\nshow\nundo\n",
        r#"refused 2 no-place
show 4
/0 marker "1. "
/1 marker "2. "
end
refused 5 nothing
"#,
    ),
    // nor does it take away what can be redone
    (
        "9",
        LIST,
        "",
        "remove /0\nundo\nmove /0 /0 0\nredo\nshow\n",
        r#"refused 3 into-itself
show 5
/0 marker "1. "
end
"#,
    ),
    // an edit does
    (
        "9",
        LIST,
        "",
        "set /0 value 5\nundo\nset /1 value 7\nredo\nshow\nundo\nshow\n",
        r#"refused 4 nothing
show 5
/0 marker "1. "
/1 marker "7. "
end
show 7
/0 marker "1. "
/1 marker "2. "
end
"#,
    ),
    // the last that was undone is redone first, and can be undone again
    (
        "9",
        LIST,
        "",
        "set /0 value 5\nset /0 value 6\nundo\nundo\nredo\nshow\nredo\nshow\nredo\nundo\nshow\n",
        r#"show 6
/0 marker "5. "
/1 marker "6. "
end
show 8
/0 marker "6. "
/1 marker "7. "
end
refused 9 nothing
show 11
/0 marker "5. "
/1 marker "6. "
end
"#,
    ),
];

/// What is undone of each kind of edit.
static EDITS: [Versioned; 7] = [
    // an attribute has the value that it had, or isn't there
    (
        "9",
        r#"<ol><li value="3"/></ol>"#,
        "",
        "set /0 value 9\nundo\nshow\nunset /0 value\nshow\nundo\nshow\n",
        r#"show 3
/0 marker "3. "
end
show 5
/0 marker "1. "
end
show 7
/0 marker "3. "
end
"#,
    ),
    (
        "9",
        "<ol><li/></ol>",
        "",
        "set /0 value 9\nundo\nshow\nunset /0 value\nundo\nshow\n",
        r#"show 3
/0 marker "1. "
end
show 6
/0 marker "1. "
end
"#,
    ),
    // one that was unset comes back last, which changes no text
    (
        "9",
        r#"<ol start="4" class="a"><li/></ol>"#,
        ".a li{counter-increment:list-item 2}",
        "unset / start\nshow\nundo\nshow\n",
        r#"show 2
/0 marker "2. "
end
show 4
/0 marker "5. "
end
"#,
    ),
    // a text that goes or comes
    (
        "9",
        r##"<p id="x">t<a href="#x"/></p>"##,
        "a::after{content:target-text(attr(href))}",
        "remove /0\nshow\nundo\nshow\ninsert / 0 u\nshow\nundo\nshow\nredo\nshow\n",
        r#"show 2
/0 after ""
end
show 4
/1 after "t"
end
show 6
/2 after "ut"
end
show 8
/1 after "t"
end
show 10
/2 after "ut"
end
"#,
    ),
    // a move among siblings
    (
        "9",
        r#"<ol><li id="a"/><li id="b"/><li id="c"/></ol>"#,
        "li{list-style:none}li::before{content:counter(list-item)attr(id)}",
        "move /0 / 2\nundo\nshow\nredo\nshow\n",
        r#"show 3
/0 before "1a"
/1 before "2b"
/2 before "3c"
end
show 5
/0 before "1b"
/1 before "2c"
/2 before "3a"
end
"#,
    ),
    // a move into another element, which the node's going moves up
    (
        "9",
        r#"<ol><li/><li>a<ol><li/></ol></li></ol>"#,
        "",
        "move /0 /1/1 0\nshow\nundo\nshow\n",
        r#"show 2
/0 marker "1. "
/0/1/0 marker "1. "
/0/1/1 marker "2. "
end
show 4
/0 marker "1. "
/1 marker "2. "
/1/1/0 marker "1. "
end
"#,
    ),
    // a removed element comes back with all that was in it
    (
        "9",
        "<ol><li>a<ol><li>b</li></ol></li><li>c</li></ol>",
        "",
        "remove /0\nshow\nundo\nshow\nredo\nshow\n",
        r#"show 2
/0 marker "1. "
end
show 4
/0 marker "1. "
/0/1/0 marker "1. "
/1 marker "2. "
end
show 6
/0 marker "1. "
end
"#,
    ),
];

#[test]
fn steps_back_and_forth(rt: HostRuntime) -> Result<(), Fail> {
    for (depth, document, sheet, script, out) in STEPS.iter().chain(EDITS.iter()) {
        let words = ["history", "d.xhtml", "s.css", "t.txt", *depth];
        let row = versioned(&words, document, sheet, script, out);
        assert!(rt; comes_out(&rt, &row)?, "{script}");
    }
    Ok(())
}

/// A `sheet` line is an edit: it is undone and redone, and its file isn't read again.
#[test]
fn sheets_are_undone(rt: HostRuntime) -> Result<(), Fail> {
    let words = ["history", "d.xhtml", "s.css", "t.txt", "2"];
    let script = "sheet n.css\nshow\nundo\nshow\nredo\nshow\nsheet s.css\nundo\nshow\n";
    let row = Row {
        other_sheet: b"li{list-style:lower-alpha}",
        out: r#"show 2
/0 marker "a. "
/1 marker "b. "
end
show 4
/0 marker "1. "
/1 marker "2. "
end
show 6
/0 marker "a. "
/1 marker "b. "
end
show 9
/0 marker "a. "
/1 marker "b. "
end
"#,
        ..versioned(&words, LIST, "", script, "")
    };
    assert!(rt; comes_out(&rt, &row)?);
    Ok(())
}

/// Statuses are those of a script of edits.
#[test]
fn histories_end(rt: HostRuntime) -> Result<(), Fail> {
    let words = ["history", "d.xhtml", "s.css", "t.txt", "1"];
    for (place, row) in [
        Row {
            err: "marker: m.css: read failed\n",
            code: 3,
            ..versioned(
                &words,
                LIST,
                "",
                "undo\nsheet m.css\nundo\n",
                "refused 1 nothing\n",
            )
        },
        Row {
            err: "marker: t.txt:2: bad line\n",
            code: 7,
            ..versioned(&words, LIST, "", "undo\nundo 1\n", "")
        },
        // a script of edits has no such lines
        Row {
            err: "marker: t.txt:2: bad line\n",
            code: 7,
            ..edited(LIST, "", "show\nundo\n", "")
        },
        Row {
            document: b"<ol><li>",
            err: "marker: d.xhtml:1:9: not well-formed\n",
            code: 6,
            ..versioned(&words, "", "", "undo 1\n", "")
        },
        ended(
            &["history", "d.xhtml", "s.css", "m.txt", "1"],
            "marker: m.txt: read failed\n",
            3,
        ),
    ]
    .iter()
    .enumerate()
    {
        assert!(rt; comes_out(&rt, row)?, "row {place}");
    }
    Ok(())
}
