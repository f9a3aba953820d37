//! Documents as lines of text, worked out by hand.

use crate::rows::{Row, ended, refused, viewed};
use crate::tests::{USAGE, comes_out};
use std::test::Fail;

/// A document and its sheet, and the lines.
type View = (&'static str, &'static str, &'static str);

/// What begins a line and ends it.
static BREAKS: [View; 10] = [
    ("<ol><li>a</li><li>b</li></ol>", "", "1. a\n2. b\n"),
    // what is empty is no line
    ("<p/>", "", ""),
    ("<ol><li> </li><li/></ol>", "", "1.\n2.\n"),
    // blocks in blocks, and texts beside them
    (
        "<body>a<div><p>b</p> c <section><h1>d</h1>e</section></div></body>",
        "",
        "a\nb\nc\nd\ne\n",
    ),
    // a break in a line, and a text whose line feeds are blanks as all others
    ("<p>a<br/>b</p>", "", "a\nb\n"),
    ("<div>a<pre> b\n   c </pre>d</div>", "", "a\nb c\nd\n"),
    // cells stand in the line of their row
    (
        "<table><tr><td>a</td><td>b</td></tr><tr><td>c</td></tr></table>",
        "",
        "ab\nc\n",
    ),
    // names are compared as written
    ("<div>a<P>b</P>c</div>", "", "abc\n"),
    // an element without a box breaks no line, and is not there
    ("<div>a<p>b</p>c<br/>d</div>", "p,br{display:none}", "acd\n"),
    ("<p>a</p>", "p{display:none}", ""),
];

/// What stands in a line.
static LINES: [View; 10] = [
    // blanks are one space, and none stand at the ends
    ("<p>x <q> y</q>\n z</p>", "", "x “ y” z\n"),
    ("<p> a \t\n b<b> </b><i> c </i>\n</p>", "", "a b c\n"),
    ("<p>a&#13;&#10;b</p>", "", "a b\n"),
    // the form feed is a blank; the vertical tab is none
    (
        "<p/>",
        r#"p::before{content:" a\c \c b\b c\20 "}"#,
        "a b\u{b}c\n",
    ),
    // the no-break space is none
    (
        "<p>&nbsp;a&nbsp; &nbsp;b </p>",
        "",
        "\u{a0}a\u{a0} \u{a0}b\n",
    ),
    // a marker stands in the line of its item, where no block breaks it
    (
        "<ol><li>a</li><li><p>b</p>c</li></ol>",
        "",
        "1. a\n2.\nb\nc\n",
    ),
    // texts before and after stand where their boxes do
    (
        "<p>x<em>y</em>z</p>",
        r#"p::before{content:"<"}p::after{content:">"}em::before{content:" ["}em::after{content:"] "}"#,
        "<x [y] z>\n",
    ),
    // a sign in a sign
    ("<p><q>a <q>b</q></q></p>", "", "“a ‘b’”\n"),
    // the text that an element refers to is the full one
    (
        r##"<body><a href="#t"/><h1 id="t">c</h1></body>"##,
        r#"h1::before{content:"I. "}a::after{content:"see "target-text(attr(href),before)target-text(attr(href))}"#,
        "see I. c\nI. c\n",
    ),
    // a style element of the document counts
    (
        "<body><style>p::after{content:counter(n)}p{counter-increment:n}</style><p>a</p><p/></body>",
        "style{display:none}",
        "a1\n2\n",
    ),
];

#[test]
fn documents_as_lines(rt: HostRuntime) -> Result<(), Fail> {
    for (document, sheet, lines) in BREAKS.iter().chain(LINES.iter()) {
        assert!(rt;
            comes_out(&rt, &viewed(document, sheet, lines))?,
            "{document}"
        );
    }
    Ok(())
}

/// Statuses are those of a dump.
#[test]
fn views_end(rt: HostRuntime) -> Result<(), Fail> {
    for (place, row) in [
        Row {
            words: &["text", "d.xhtml", "s.css"],
            ..refused(
                b"<ol><li>",
                b"",
                "marker: d.xhtml:1:9: not well-formed\n",
                6,
            )
        },
        Row {
            words: &["text", "d.xhtml", "s.css"],
            ..refused(b"<p/>", b"\xff", "marker: s.css: not UTF-8 at 0\n", 5)
        },
        ended(
            &["text", "d.xhtml", "y.css"],
            "marker: y.css: read failed\n",
            3,
        ),
        ended(&["text", "d.xhtml"], USAGE, 2),
        ended(&["text", "d.xhtml", "s.css", "/"], USAGE, 2),
    ]
    .iter()
    .enumerate()
    {
        assert!(rt; comes_out(&rt, row)?, "row {place}");
    }
    Ok(())
}
