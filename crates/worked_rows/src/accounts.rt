//! Accounts of elements, worked out by hand.

use crate::rows::{Row, dumped, ended};
use crate::tests::{USAGE, comes_out};
use std::test::Fail;

/// A document and its sheet, a path, and the account of the element there.
type Account = (&'static str, &'static str, &'static str, &'static str);

static ACCOUNTS: [Account; 10] = [
    // the second of two items, each of which counts two
    (
        "<ol><li>a</li><li>b</li></ol>",
        "li{counter-increment:list-item 2}",
        "/1",
        r#"display agent 1
content initial
counter-reset initial
counter-increment author 0
counter-set initial
list-style-type inherited
quotes inherited
counter "list-item" / element 4
"#,
    ),
    // a `style` attribute, and the attribute of a list
    (
        r#"<ol start="3"><li style="display:block!important"/></ol>"#,
        "",
        "/0",
        r#"display inline important
content initial
counter-reset initial
counter-increment initial
counter-set initial
list-style-type inherited
quotes inherited
counter "list-item" / element 2
"#,
    ),
    (
        r#"<ol start="3"><li/></ol>"#,
        "",
        "/",
        r#"display initial
content initial
counter-reset hint
counter-increment initial
counter-set initial
list-style-type agent 3
quotes initial
counter "list-item" / element 2
"#,
    ),
    // no element: past the children, and a text
    ("<ol><li>a</li></ol>", "", "/7", "refused no-element\n"),
    ("<ol><li>a</li></ol>", "", "/0/0", "refused no-element\n"),
    // importance, then the more specific selector, then the later rule
    (
        r#"<p id="a"/>"#,
        "p{content:none!important}#a{content:normal;quotes:none}p{quotes:auto;counter-set:none}p{counter-set:none}",
        "/",
        r#"display initial
content author 0 important
counter-reset initial
counter-increment initial
counter-set author 3
list-style-type initial
quotes author 1
"#,
    ),
    // a value that is declared to be inherited is declared
    (
        "<p><b/></p>",
        "b{list-style:inherit;display:none}",
        "/0",
        r#"display author 0
content initial
counter-reset initial
counter-increment initial
counter-set initial
list-style-type author 0
quotes inherited
"#,
    ),
    // rules of style elements are counted on from those of the sheet
    (
        "<body><style>b{quotes:none}i{quotes:auto}</style><i/></body>",
        "p{quotes:none}",
        "/1",
        r#"display initial
content initial
counter-reset initial
counter-increment initial
counter-set initial
list-style-type inherited
quotes author 2
"#,
    ),
    // a counter that the box before has created, one of the parent, and a name that is written with a quote
    (
        "<p><b/></p>",
        r#"p{counter-reset:a\"b -3}p::before{content:"";counter-reset:c 5}"#,
        "/0",
        r#"display initial
content initial
counter-reset initial
counter-increment initial
counter-set initial
list-style-type inherited
quotes inherited
counter "a\"b" / element -3
counter "c" / before 5
"#,
    ),
    // a counter of the element before, and one of a marker
    (
        "<ul><li/><li><i/></li></ul>",
        "li{counter-reset:c 1}li+li{counter-reset:none}li::marker{content:counter(d)}",
        "/1/0",
        r#"display initial
content initial
counter-reset initial
counter-increment initial
counter-set initial
list-style-type inherited
quotes inherited
counter "list-item" / element 2
counter "c" /0 element 1
counter "d" /1 marker 0
"#,
    ),
];

#[test]
fn elements_are_explained(rt: HostRuntime) -> Result<(), Fail> {
    for (document, sheet, path, lines) in ACCOUNTS.iter() {
        let words = ["why", "d.xhtml", "s.css", *path];
        let row = Row {
            words: &words,
            ..dumped(document, sheet, lines)
        };
        assert!(rt; comes_out(&rt, &row)?, "{document} {path}");
    }
    Ok(())
}

/// Statuses are those of a dump.
#[test]
fn accounts_end(rt: HostRuntime) -> Result<(), Fail> {
    for (place, row) in [
        ended(
            &["why", "x.xhtml", "s.css", "/"],
            "marker: x.xhtml: read failed\n",
            3,
        ),
        ended(
            &["why", "d.xhtml", "y.css", "/9"],
            "marker: y.css: read failed\n",
            3,
        ),
        // words whose last is no path
        ended(&["why", "d.xhtml", "s.css"], USAGE, 2),
        ended(&["why", "d.xhtml", "s.css", "7"], USAGE, 2),
        ended(&["why", "d.xhtml", "s.css", ""], USAGE, 2),
        ended(&["why", "d.xhtml", "s.css", "//"], USAGE, 2),
        ended(&["why", "d.xhtml", "s.css", "/0/"], USAGE, 2),
        ended(&["why", "d.xhtml", "s.css", "/01"], USAGE, 2),
        ended(&["why", "d.xhtml", "s.css", "/4294967296"], USAGE, 2),
    ]
    .iter()
    .enumerate()
    {
        assert!(rt; comes_out(&rt, row)?, "row {place}");
    }
    Ok(())
}
