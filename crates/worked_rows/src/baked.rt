//! Documents with their generated texts put in, worked out by hand.

use crate::rows::{Row, dumped, ended, refused};
use crate::tests::{USAGE, comes_out};
use std::test::Fail;

/// A document and its sheet, and what the document bakes to.
type Baked = (&'static str, &'static str, &'static str);

/// All texts have a place.
static BAKED: [Baked; 9] = [
    (
        "<ol><li>a</li><li/></ol>",
        "",
        "<ol><li><span class=\"baked-marker\">1. </span>a</li><li><span class=\"baked-marker\">2. </span></li></ol>",
    ),
    // a byte order mark, line ends and blanks stay
    (
        "\u{feff}<p\r\n a='1' />\r\n",
        "p::after{content:\"x\"}",
        "\u{feff}<p\r\n a='1' ><span class=\"baked-after\">x</span></p>\r\n",
    ),
    // and where nothing is put in, the tag stays too
    (
        "\u{feff}<p\r\n a='1' />\r\n",
        "",
        "\u{feff}<p\r\n a='1' />\r\n",
    ),
    // what XML has no way to write, and what it writes by reference
    (
        "<p/>",
        r#"p::before{content:"\1\d <&>]]>"}"#,
        "<p><span class=\"baked-before\">\u{fffd}&#13;&lt;&amp;&gt;]]&gt;</span></p>",
    ),
    // the prefix of the element
    (
        "<h:p xmlns:h=\"u\"/>",
        "*::before{content:\"x\"}",
        "<h:p xmlns:h=\"u\"><h:span class=\"baked-before\">x</h:span></h:p>",
    ),
    // marker, before and after stand round all of the content; an empty text is put in nowhere
    (
        "<ol><li><!-- c -->a <b>x</b>\n</li></ol>",
        "li::before{content:\"[\"}li::after{content:\"]\"}b::before{content:\"\"}",
        "<ol><li><span class=\"baked-marker\">1. </span><span class=\"baked-before\">[</span><!-- c -->a <b>x</b>\n<span class=\"baked-after\">]</span></li></ol>",
    ),
    // an element without a box has no text
    (
        "<ol><li>a</li><li>b</li></ol>",
        "li:first-child{display:none}",
        "<ol><li>a</li><li><span class=\"baked-marker\">1. </span>b</li></ol>",
    ),
    // the text of another element
    (
        "<body><a href=\"#t\"/><h1 id=\"t\">c</h1></body>",
        "h1::before{content:\"I. \"}a::after{content:\"see \"target-text(attr(href),before)}",
        "<body><a href=\"#t\"><span class=\"baked-after\">see I. </span></a><h1 id=\"t\"><span class=\"baked-before\">I. </span>c</h1></body>",
    ),
    // a style element of the document counts
    (
        "<body><style>p::before{content:\"x\"}</style><p/></body>",
        "style{display:none}",
        "<body><style>p::before{content:\"x\"}</style><p><span class=\"baked-before\">x</span></p></body>",
    ),
];

/// A document that is baked under this sheet.
fn baked<'a>(document: &'a str, sheet: &'a str, out: &'a str) -> Row<'a> {
    Row {
        words: &["bake", "d.xhtml", "s.css"],
        ..dumped(document, sheet, out)
    }
}

#[test]
fn documents_baked(rt: HostRuntime) -> Result<(), Fail> {
    for (document, sheet, out) in BAKED.iter() {
        assert!(rt; comes_out(&rt, &baked(document, sheet, out))?, "{document}");
    }
    Ok(())
}

/// Texts of elements that take no `span` are left out, and how many there are is told once all is written.
#[test]
fn texts_without_a_place(rt: HostRuntime) -> Result<(), Fail> {
    for (place, row) in [
        Row {
            err: "marker: d.xhtml: texts without a place: 1\n",
            code: 11,
            ..baked(
                "<table><tr><td/></tr></table>",
                "tr::before,td::before{content:\"x\"}",
                "<table><tr><td><span class=\"baked-before\">x</span></td></tr></table>",
            )
        },
        Row {
            err: "marker: d.xhtml: texts without a place: 3\n",
            code: 11,
            ..baked(
                "<ul><li/></ul>",
                "ul::before,ul::after{content:\"x\"}li{list-style-type:none}ul{display:list-item;list-style-type:decimal}",
                "<ul><li/></ul>",
            )
        },
        // an empty text lacks no place
        baked("<ul/>", "ul::before{content:\"\"}", "<ul/>"),
    ]
    .iter()
    .enumerate()
    {
        assert!(rt; comes_out(&rt, row)?, "row {place}");
    }
    Ok(())
}

/// All other statuses are those of a dump.
#[test]
fn bakings_end(rt: HostRuntime) -> Result<(), Fail> {
    for (place, row) in [
        Row {
            words: &["bake", "d.xhtml", "s.css"],
            ..refused(
                b"<ol><li>",
                b"",
                "marker: d.xhtml:1:9: not well-formed\n",
                6,
            )
        },
        Row {
            words: &["bake", "d.xhtml", "s.css"],
            ..refused(b"<p", b"\xff", "marker: s.css: not UTF-8 at 0\n", 5)
        },
        ended(
            &["bake", "d.xhtml", "y.css"],
            "marker: y.css: read failed\n",
            3,
        ),
        ended(&["bake", "d.xhtml"], USAGE, 2),
        ended(&["bake", "d.xhtml", "s.css", "t.txt"], USAGE, 2),
    ]
    .iter()
    .enumerate()
    {
        assert!(rt; comes_out(&rt, row)?, "row {place}");
    }
    Ok(())
}
