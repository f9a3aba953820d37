//! Runs of scripts over books of several documents, worked out by hand.

use crate::rows::{Chapter, Row, edited, ended};
use crate::tests::{USAGE, comes_out};
use std::test::Fail;

/// A sheet, a script, documents with their names, and what comes out.
type Volume = (
    &'static str,
    &'static str,
    &'static [Chapter<'static>],
    &'static str,
);

const ONE: [&str; 4] = ["book", "s.css", "t.txt", "a"];

const TWO: [&str; 5] = ["book", "s.css", "t.txt", "a", "b"];

/// The words of a book with these documents, of which there are one or two.
fn words_of(chapters: &[Chapter<'_>]) -> &'static [&'static str] {
    if chapters.len() == 1 { &ONE } else { &TWO }
}

/// A script over a book of these documents, of which there are one or two, named `a` and `b`.
fn bound<'a>(
    sheet: &'a str,
    script: &'a str,
    chapters: &'a [Chapter<'a>],
    out: &'a str,
) -> Row<'a> {
    Row {
        words: words_of(chapters),
        chapters,
        ..edited("", sheet, script, out)
    }
}

/// At what urls aim.
static AIMS: [Volume; 8] = [
    // a number of another document, before and after an edit of that; and a document that is not there
    (
        "h1{counter-increment:s}a::after{content:target-counter(attr(href),s)}",
        "show\nin b\ninsert / 0 <h1/>\nin a\nshow\nin c\n",
        &[
            ("a", r#"<p><a href="b#t"/></p>"#),
            ("b", r#"<body><h1 id="t"/></body>"#),
        ],
        r#"show 1
/0 after "1"
end
show 5
/0 after "2"
end
refused 6 no-document
"#,
    ),
    // a document may name itself
    (
        "a::after{content:target-text(attr(href))}",
        "show",
        &[("a", r#"<p id="x">t<a href="a#x"/><a href="z#x"/></p>"#)],
        r#"show 1
/1 after "t"
/2 after ""
end
"#,
    ),
    // nothing before the `#` is the document itself, wherever it stands
    (
        "a::after{content:target-text(attr(href))}",
        "in b\nshow\n",
        &[
            ("a", r#"<p id="x">one</p>"#),
            (
                "b",
                r##"<p id="x">two<a href="#x"/><a href="a#x"/><a href="b#x"/></p>"##,
            ),
        ],
        r#"show 2
/1 after "two"
/2 after "one"
/3 after "two"
end
"#,
    ),
    // the name ends at the first `#`
    (
        "a::after{content:target-text(attr(href))}",
        "show\n",
        &[
            ("a", r#"<p><a href="b#t#u"/></p>"#),
            ("b", r#"<p><i id="t#u">first</i><i id="u">second</i></p>"#),
        ],
        r#"show 1
/0 after "first"
end
"#,
    ),
    // names are compared as written; without a `#` a url names nothing
    (
        "a::after{content:target-text(attr(href))}",
        "show\n",
        &[
            (
                "a",
                r#"<p><a href="B#t"/><a href="./b#t"/><a href=" b#t"/><a href="b"/><a href="t"/><a href="b#T"/></p>"#,
            ),
            ("b", r#"<p id="t">text</p>"#),
        ],
        r#"show 1
/0 after ""
/1 after ""
/2 after ""
/3 after ""
/4 after ""
/5 after ""
end
"#,
    ),
    // of several elements the first of that document
    (
        "a::after{content:target-text(attr(href))}",
        "show\nin b\nremove /0\nin a\nshow\nin b\nremove /0\nin a\nshow\n",
        &[
            ("a", r#"<p id="t">own<a href="b#t"/></p>"#),
            ("b", r#"<p><i id="t">first</i><i id="t">second</i></p>"#),
        ],
        r#"show 1
/1 after "first"
end
show 5
/1 after "second"
end
show 9
/1 after ""
end
"#,
    ),
    // a target without a box, and a counter that it does not have
    (
        "i{display:none}a::after{content:target-counter(attr(href),n)target-text(attr(href))}",
        "show\n",
        &[
            ("a", r#"<p><a href="b#t"/><a href="b#u"/></p>"#),
            ("b", r#"<p><i id="t">x</i><b id="u">y</b></p>"#),
        ],
        r#"show 1
/0 after "x"
/1 after "0y"
end
"#,
    ),
    // urls of the sheet, and several counters with a string between
    (
        r#"li{list-style:none;counter-increment:n}ol{counter-reset:n}p::before{content:target-counters("b#t",n,".",lower-alpha)target-text(url(b#t),content)}"#,
        "show\n",
        &[
            ("a", "<p/>"),
            ("b", r#"<ol><li/><li><ol><li id="t">c</li></ol></li></ol>"#),
        ],
        r#"show 1
/ before "b.ac"
end
"#,
    ),
];

/// What stays in its document, and what crosses.
static CROSSINGS: [Volume; 5] = [
    // counters and quotes begin anew in each
    (
        r#"h1{counter-increment:s}h1::before{content:counter(s)open-quote}"#,
        "show\nin b\nshow\n",
        &[
            ("a", "<body><h1/><h1/></body>"),
            ("b", "<body><h1/></body>"),
        ],
        r#"show 1
/0 before "1“"
/1 before "2‘"
end
show 3
/0 before "1“"
end
"#,
    ),
    // a number is written in the styles of the document that asks for it, and a text in those of its own
    (
        "h1{counter-increment:s}h1::before{content:counter(s,n)}a::after{content:target-counter(attr(href),s,n)target-text(attr(href),before)}",
        "show\nin b\nshow\n",
        &[
            (
                "a",
                r#"<body><style>@counter-style n{system:cyclic;symbols:A}</style><a href="b#t"/></body>"#,
            ),
            (
                "b",
                r#"<body><style>@counter-style n{system:cyclic;symbols:B}</style><h1 id="t"/></body>"#,
            ),
        ],
        r#"show 1
/1 after "AB"
end
show 3
/1 before "B"
end
"#,
    ),
    // a text of a box is taken over flat
    (
        "h1{counter-increment:s}h1::before{content:counter(s)target-text(attr(class),before)}",
        "show\nin b\ninsert / 0 <h1/>\nshow\nin a\nshow\n",
        &[
            ("a", r#"<h1 id="t" class="b#t"/>"#),
            ("b", r#"<body><h1 id="t" class="a#t"/></body>"#),
        ],
        r#"show 1
/ before "11"
end
show 4
/0 before "1"
/1 before "21"
end
show 6
/ before "12"
end
"#,
    ),
    // an edit and a sheet are of the present document; a refused edit changes nothing
    (
        "p::before{content:counter(n)}",
        "in b\nsheet n.css\nremove /7\nmove / / 0\nset / class x\nshow\nin a\nshow\nin b\nshow\n",
        &[("a", r#"<p class="y"/>"#), ("b", r#"<p class="y"/>"#)],
        r#"refused 3 no-place
refused 4 no-place
show 6
/ after "x"
end
show 8
/ before "0"
end
show 10
/ after "x"
end
"#,
    ),
    // a document that isn't there leaves the present one, and a name is all that is left of the line
    (
        "p::before{content:attr(class)}",
        "in b\nin c\nshow\nin a \nshow\nin a\nshow\nin a\nin  a\nshow\n",
        &[("a", r#"<p class="x"/>"#), ("b", r#"<p class="y"/>"#)],
        r#"refused 2 no-document
show 3
/ before "y"
end
refused 4 no-document
show 5
/ before "y"
end
show 7
/ before "x"
end
refused 9 no-document
show 10
/ before "x"
end
"#,
    ),
];

#[test]
fn documents_of_books(rt: HostRuntime) -> Result<(), Fail> {
    for (sheet, script, chapters, out) in AIMS.iter().chain(CROSSINGS.iter()) {
        let row = Row {
            other_sheet: b"p::after{content:attr(class)}",
            ..bound(sheet, script, chapters, out)
        };
        assert!(rt; comes_out(&rt, &row)?, "{script}");
    }
    Ok(())
}

/// How a book ends one of whose documents, or whose script, is none.
#[test]
fn bad_books(rt: HostRuntime) -> Result<(), Fail> {
    for (place, row) in [
        Row {
            err: "marker: a:1:4: not well-formed\n",
            code: 10,
            ..bound(
                "a::after{content:target-text(attr(href))}",
                "show",
                &[("a", "<p>")],
                "",
            )
        },
        // the documents in the order of the words, and then the script
        Row {
            err: "marker: b:2:1: not well-formed\n",
            code: 10,
            ..bound("", "no line", &[("a", "<p/>"), ("b", "<p>\n</q>")], "")
        },
        Row {
            err: "marker: a:1:5: not well-formed\n",
            code: 10,
            ..bound("", "show", &[("a", "<p/>x"), ("b", "<p")], "")
        },
        Row {
            err: "marker: t.txt:1: bad line\n",
            code: 7,
            ..bound("", "no line", &[("a", "<p/>")], "")
        },
    ]
    .iter()
    .enumerate()
    {
        assert!(rt; comes_out(&rt, row)?, "row {place}");
    }
    Ok(())
}

/// How one ends whose files are missing or no texts: all are read, in the order of the words, before a document is.
#[test]
fn bad_files_of_books(rt: HostRuntime) -> Result<(), Fail> {
    for (place, row) in [
        Row {
            words: &["book", "s.css", "t.txt", "a", "d.xhtml"],
            document: b"\xff",
            err: "marker: d.xhtml: not UTF-8 at 0\n",
            code: 5,
            ..bound("", "no line", &[("a", "<p")], "")
        },
        Row {
            words: &["book", "s.css", "t.txt", "a", "c"],
            err: "marker: c: read failed\n",
            code: 3,
            ..bound("", "no line", &[("a", "<p")], "")
        },
        ended(
            &["book", "s.css", "m.txt", "c"],
            "marker: m.txt: read failed\n",
            3,
        ),
        ended(
            &["book", "m.css", "m.txt", "c"],
            "marker: m.css: read failed\n",
            3,
        ),
        // a file of a line ends the run there
        Row {
            err: "marker: m.css: read failed\n",
            code: 3,
            ..bound(
                "p::before{content:counter(n)}",
                "in c\nin b\nshow\nsheet m.css\nshow\n",
                &[("a", "<p/>"), ("b", "<p/>")],
                "refused 1 no-document\nshow 3\n/ before \"0\"\nend\n",
            )
        },
    ]
    .iter()
    .enumerate()
    {
        assert!(rt; comes_out(&rt, row)?, "row {place}");
    }
    Ok(())
}

/// Lines that the script of a book has not: those of a history, and an `in` without a name.
#[test]
fn bad_lines_of_books(rt: HostRuntime) -> Result<(), Fail> {
    for script in [
        "in b\nundo\n",
        "in b\nredo\n",
        "show\nin\n",
        "show\nin \n",
        "in b\nIn a\n",
        "in b\n in a\n",
    ] {
        let row = Row {
            err: "marker: t.txt:2: bad line\n",
            code: 7,
            ..bound("", script, &[("a", "<p/>"), ("b", "<p/>")], "")
        };
        assert!(rt; comes_out(&rt, &row)?, "{script}");
    }
    Ok(())
}

/// Only the script of a book has an `in`.
#[test]
fn in_is_of_books(rt: HostRuntime) -> Result<(), Fail> {
    let script = "show\nin d.xhtml\n";
    let edit = Row {
        err: "marker: t.txt:2: bad line\n",
        code: 7,
        ..edited("<p/>", "", script, "")
    };
    let history = Row {
        words: &["history", "d.xhtml", "s.css", "t.txt", "9"],
        ..edit
    };
    assert!(rt; comes_out(&rt, &edit)?);
    assert!(rt; comes_out(&rt, &history)?);
    Ok(())
}

/// The words of a book of 65 documents.
static MANY: [&str; 68] = [
    "book", "s.css", "t.txt", "0", "1", "2", "3", "4", "5", "6", "7", "8", "9", "10", "11", "12",
    "13", "14", "15", "16", "17", "18", "19", "20", "21", "22", "23", "24", "25", "26", "27", "28",
    "29", "30", "31", "32", "33", "34", "35", "36", "37", "38", "39", "40", "41", "42", "43", "44",
    "45", "46", "47", "48", "49", "50", "51", "52", "53", "54", "55", "56", "57", "58", "59", "60",
    "61", "62", "63", "64",
];

#[test]
fn words_of_books(rt: HostRuntime) -> Result<(), Fail> {
    for (place, row) in [
        ended(&["book"], USAGE, 2),
        ended(&["book", "s.css", "t.txt"], USAGE, 2),
        ended(&["book", "s.css", "t.txt", ""], USAGE, 2),
        ended(&["book", "s.css", "t.txt", "a", ""], USAGE, 2),
        ended(&["book", "s.css", "t.txt", "a", "a"], USAGE, 2),
        ended(&["book", "s.css", "t.txt", "a", "b", "a"], USAGE, 2),
        ended(&["book", "s.css", "t.txt", "#"], USAGE, 2),
        ended(&["book", "s.css", "t.txt", "b", "a#x"], USAGE, 2),
        ended(&MANY, USAGE, 2),
        // 64 are a book, and so are names that differ in a letter's case; the first isn't held
        ended(&MANY[..67], "marker: 0: read failed\n", 3),
        ended(
            &["book", "s.css", "t.txt", "a", "A"],
            "marker: a: read failed\n",
            3,
        ),
        // an empty name of a sheet names a file as any other
        ended(&["book", "", "t.txt", "a"], "marker: : read failed\n", 3),
    ]
    .iter()
    .enumerate()
    {
        assert!(rt; comes_out(&rt, row)?, "row {place}");
    }
    Ok(())
}
