//! Dumps of documents under their sheets, worked out by hand.

use crate::rows::{code_of, dumped};
use crate::tests::comes_out;
use evaluation_rows::lines::{Dump, Lines, text_of};
use plain_types::memory::Memory;
use ports::fixed_sink::FixedSink;
use std::alloc::Global;
use std::marker::Brand;
use std::sync::ledger::Blank;
use std::test::Fail;

static LIST_ITEMS: [Dump; 14] = [
    (
        "<ol><li>a</li><li>b</li></ol>",
        "",
        &[r#"/0 marker "1. ""#, r#"/1 marker "2. ""#],
    ),
    // a sheet that says nothing
    (
        "<ol><li>a</li><li>b</li></ol>",
        " ",
        &[r#"/0 marker "1. ""#, r#"/1 marker "2. ""#],
    ),
    ("<p/>", "", &[]),
    ("<ul/>", "", &[]),
    // a list in a list counts from 1 again
    (
        "<ol><li>a<ol><li>b</li></ol></li><li>c</li></ol>",
        "",
        &[
            r#"/0 marker "1. ""#,
            r#"/0/1/0 marker "1. ""#,
            r#"/1 marker "2. ""#,
        ],
    ),
    // texts count in paths, and not as positions
    (
        "<div>x<ol>y<li/></ol><b/><ol><li/></ol></div>",
        "",
        &[r#"/1/1 marker "1. ""#, r#"/3/0 marker "1. ""#],
    ),
    // what leaves nothing in the tree
    (
        "<?xml version=\"1.0\"?>\r\n<!DOCTYPE ol><!-- a --><ol><!-- b --><li >&#x61;</li ></ol >\n",
        "",
        &[r#"/0 marker "1. ""#],
    ),
    // all counters of a name, from the outermost in
    (
        "<ol><li>a<ol><li>b</li><li>c</li></ol></li><li>d</li></ol>",
        r#"ol{list-style:none}li::before{content:counters(list-item,".")}"#,
        &[
            r#"/0 before "1""#,
            r#"/0/1/0 before "1.1""#,
            r#"/0/1/1 before "1.2""#,
            r#"/1 before "2""#,
        ],
    ),
    // an item without a box is not counted
    (
        r#"<ol><li/><li class="x"/><li/></ol>"#,
        ".x{display:none}",
        &[r#"/0 marker "1. ""#, r#"/2 marker "2. ""#],
    ),
    // items without a list
    (
        "<div><li/><li/></div>",
        "li{list-style:decimal}",
        &[r#"/0 marker "1. ""#, r#"/1 marker "2. ""#],
    ),
    // lists that count down: from as many as they have items, or so that the item of value 10 is the third
    (
        r#"<ol reversed="reversed"><li/><li/><li/></ol>"#,
        "",
        &[
            r#"/0 marker "3. ""#,
            r#"/1 marker "2. ""#,
            r#"/2 marker "1. ""#,
        ],
    ),
    (
        r#"<ol reversed="reversed"><li/><li/><li value="10"/></ol>"#,
        "",
        &[
            r#"/0 marker "12. ""#,
            r#"/1 marker "11. ""#,
            r#"/2 marker "10. ""#,
        ],
    ),
    (
        r#"<ol reversed="reversed" start="2"><li/><li/></ol>"#,
        "",
        &[r#"/0 marker "2. ""#, r#"/1 marker "1. ""#],
    ),
    (r#"<ol start="2"><li/></ol>"#, "", &[r#"/0 marker "2. ""#]),
];

static COUNTERS_AND_QUOTES: [Dump; 7] = [
    // a counter that an earlier sibling created goes on
    (
        "<body><h1/><h2/><h2/><h1/><h2/></body>",
        r#"h1{counter-reset:s}h2{counter-increment:s}h2::before{content:counters(s,".")}"#,
        &[r#"/1 before "1""#, r#"/2 before "2""#, r#"/4 before "1""#],
    ),
    // a counter that is used is created, and ends with its box
    (
        "<div><p/><p/></div>",
        "p::before{content:counter(c)}",
        &[r#"/0 before "0""#, r#"/1 before "0""#],
    ),
    // counters go past 32 bits, and end at the ends of 64
    (
        "<p/>",
        "p{counter-reset:c 2147483647;counter-increment:c}p::before{content:counter(c)}",
        &[r#"/ before "2147483648""#],
    ),
    (
        "<p/>",
        "p{counter-reset:c 9223372036854775807;counter-increment:c}p::before{content:counter(c)}",
        &[r#"/ before "9223372036854775807""#],
    ),
    (
        "<p/>",
        "p{counter-reset:c -9223372036854775809;counter-increment:c -1}p::before{content:counter(c)}",
        &[r#"/ before "-9223372036854775808""#],
    ),
    // quotes in quotes; a closing at depth 0 writes nothing, and the rest is still written
    (
        "<p><q><q><q/></q></q><b/></p>",
        r#"b::before{content:close-quote "!"}"#,
        &[
            r#"/0 before "“""#,
            r#"/0/0 before "‘""#,
            r#"/0/0/0 before "‘""#,
            r#"/0/0/0 after "’""#,
            r#"/0/0 after "’""#,
            r#"/0 after "”""#,
            r#"/1 before "!""#,
        ],
    ),
    // what is escaped in a dump
    (
        r#"<p title="a&quot;&#10;&#9;\"/>"#,
        "p::before{content:attr(title)}",
        &[r#"/ before "a\"\n\u{9}\\""#],
    ),
];

static REFERENCES: [Dump; 8] = [
    // two boxes that refer to each other: each has the other's text without references
    (
        r#"<p id="a"><b id="b"/></p>"#,
        r##"p::before{content:"P" target-text("#b",before)}b::before{content:"B" target-text("#a",before)}"##,
        &[r#"/ before "PB""#, r#"/0 before "BP""#],
    ),
    // a target without a box has no counters, and its characters
    (
        r##"<body><a href="#x"/><i id="x">t</i></body>"##,
        "i{display:none}a::after{content:target-counter(attr(href),s) target-text(attr(href))}",
        &[r#"/0 after "t""#],
    ),
    // a reference to what comes later, and once more comes before it
    (
        r##"<body><p><a href="#t"/></p><h1/><h1 id="t"/></body>"##,
        "h1{counter-increment:s}a::after{content:target-counter(attr(href),s)}",
        &[r#"/0/0 after "2""#],
    ),
    (
        r##"<body><p><a href="#t"/></p><h1/><h1/><h1 id="t"/></body>"##,
        "h1{counter-increment:s}a::after{content:target-counter(attr(href),s)}",
        &[r#"/0/0 after "3""#],
    ),
    // of the elements with one id, the first in tree order; of none there is no text
    (
        r##"<body><a href="#x"/><h1 id="x">one</h1><h1 id="x">two</h1></body>"##,
        "a::after{content:target-text(attr(href))}",
        &[r#"/0 after "one""#],
    ),
    (
        r##"<body><a href="#x"/><h1 id="x">two</h1></body>"##,
        "a::after{content:target-text(attr(href))}",
        &[r#"/0 after "two""#],
    ),
    (
        r##"<body><a href="#x"/></body>"##,
        "a::after{content:target-text(attr(href))}",
        &[r#"/0 after """#],
    ),
    (
        r##"<body><a href="#x"/><h1 id="x">six</h1></body>"##,
        "a::after{content:target-text(attr(href))}",
        &[r#"/0 after "six""#],
    ),
];

/// An article as a publisher has it.
static ARTICLE: &str = r##"<?xml version="1.0" encoding="UTF-8"?>
<!DOCTYPE html>
<html xmlns="http://www.w3.org/1999/xhtml"><head><title>Bees</title></head><body>
<section id="a"><h2>Hive</h2><p>See <a class="ref" href="#f2">the plan</a> and <q>the <q>old</q> way</q>.<a class="fn" href="#n1"/></p><figure id="f1"><figcaption>Frame</figcaption></figure></section>
<section id="b"><h2>Work</h2><ol><li>Smoke</li><li>Open<ol type="a"><li>lid</li><li>frames</li></ol></li></ol><ul><li>veil</li></ul><figure id="f2"><figcaption>Plan</figcaption></figure></section>
<aside><ol class="notes"><li id="n1">Langstroth</li></ol></aside>
</body></html>
"##;

/// The sheet of its house.
static HOUSE: &str = r#"@charset "utf-8";
/* house style */
@import url("base.css");
@counter-style note { system: cyclic; symbols: "*" "†" "‡"; suffix: " " }
body { counter-reset: sec fig; font-family: serif; margin: 0 auto }
section { counter-increment: sec }
h2 { color: #333; font-size: 1.4em }
h2::before { content: counter(sec, upper-roman) ". " }
figure { counter-increment: fig; margin: 1em }
figcaption::before { content: "Fig. " counter(fig) ": " }
a:hover, a:focus { text-decoration: underline }
a.ref::after { content: " (Fig. " target-counter(attr(href), fig) ", " target-text(attr(href)) ")" }
a.fn::after { content: target-counter(attr(href), list-item, note) }
ol.notes { list-style: note outside }
ol ol { list-style-type: lower-alpha }
ul li::marker { content: "- " }
q { quotes: "«" "»" "“" "”" }
p { color: red; content counter(x); }
.x::wild { content: "no" }
@media print { a { color: black } }
"#;

static ARTICLE_DUMPED: &str = r#"/1/1/0 before "I. "
/1/1/1/1 after " (Fig. 2, Plan)"
/1/1/1/3 before "«"
/1/1/1/3/1 before "“"
/1/1/1/3/1 after "”"
/1/1/1/3 after "»"
/1/1/1/5 after "*"
/1/1/2/0 before "Fig. 1: "
/1/3/0 before "II. "
/1/3/1/0 marker "1. "
/1/3/1/1 marker "2. "
/1/3/1/1/1/0 marker "a. "
/1/3/1/1/1/1 marker "b. "
/1/3/2/0 marker "- "
/1/3/3/0 before "Fig. 2: "
/1/5/0/0 marker "* "
"#;

/// The place of the first row with another dump; none where each is as it says.
pub fn first_wrong(rt: &HostRuntime, table: &[Dump]) -> Result<Option<usize>, Memory> {
    for (place, (document, sheet, lines)) in table.iter().enumerate() {
        let out = text_of(rt.alloc(), lines)?;
        if !comes_out(rt, &dumped(document, sheet, out.as_str()))? {
            return Ok(Some(place));
        }
    }
    Ok(None)
}

#[test]
fn list_items(rt: HostRuntime) -> Result<(), Fail> {
    assert_eq!(rt; first_wrong(&rt, &LIST_ITEMS)?, None);
    Ok(())
}

#[test]
fn counters_and_quotes(rt: HostRuntime) -> Result<(), Fail> {
    assert_eq!(rt; first_wrong(&rt, &COUNTERS_AND_QUOTES)?, None);
    Ok(())
}

#[test]
fn references(rt: HostRuntime) -> Result<(), Fail> {
    assert_eq!(rt; first_wrong(&rt, &REFERENCES)?, None);
    Ok(())
}

#[test]
fn an_article(rt: HostRuntime) -> Result<(), Fail> {
    assert!(rt; comes_out(&rt, &dumped(ARTICLE, HOUSE, ARTICLE_DUMPED))?);
    Ok(())
}

/// Puts the text so many times.
fn repeat(all: &mut String, text: &str, count: usize) -> Result<(), Memory> {
    for _ in 0..count {
        all.push_str(text)?;
    }
    Ok(())
}

/// Whether a dump of the article under this sheet ends as it is to.
fn is_dumped(rt: &HostRuntime, sheet: &str) -> Result<bool, Memory> {
    let row = dumped(ARTICLE, sheet, "");
    let mut out = FixedSink::new(rt.alloc(), 4000)?;
    let mut err = FixedSink::new(rt.alloc(), 1000)?;
    let code = code_of::<_, Brand>(rt, Blank::new(1), &row, &mut out, &mut err)?;
    Ok(code == 0)
}

/// How a sheet begins.
const FRONT: &str = r#"@charset "utf-8"; /* house */ @import url("base.css"); p{quotes"#;

/// Every front of a sheet is a sheet.
#[test]
fn fronts_of_a_sheet(rt: HostRuntime) -> Result<(), Fail> {
    let mut front = String::new(rt.alloc());
    assert!(rt; is_dumped(&rt, "")?);
    for character in FRONT.chars() {
        front.push(character)?;
        assert!(rt; is_dumped(&rt, front.as_str())?);
    }
    Ok(())
}

/// Brackets that nothing closes, at any depth.
#[test]
fn nested_brackets(rt: HostRuntime) -> Result<(), Fail> {
    let mut sheet = String::from_str(rt.alloc(), "p{a:")?;
    repeat(&mut sheet, "(", 100_000)?;
    assert!(rt; comes_out(&rt, &dumped("<p/>", sheet.as_str(), ""))?);
    Ok(())
}

/// A quotation in so many elements, and its dump.
fn deep_quotation(alloc: Global, depth: usize) -> Result<(String, String), Memory> {
    let mut document = String::new(alloc);
    repeat(&mut document, "<b>", depth)?;
    document.push_str("<q/>")?;
    repeat(&mut document, "</b>", depth)?;
    let mut out = String::new(alloc);
    repeat(&mut out, "/0", depth)?;
    out.push_str(" before \"“\"\n")?;
    repeat(&mut out, "/0", depth)?;
    out.push_str(" after \"”\"\n")?;
    Ok((document, out))
}

/// Elements in elements, at any depth.
#[test]
fn nested_elements(rt: HostRuntime) -> Result<(), Fail> {
    let (document, lines) = deep_quotation(rt.alloc(), 1_000)?;
    let row = dumped(document.as_str(), "", "");
    let mut out = FixedSink::new(rt.alloc(), 500_000)?;
    let mut err = FixedSink::new(rt.alloc(), 1000)?;
    let code = code_of::<_, Brand>(&rt, Blank::new(1), &row, &mut out, &mut err)?;
    assert_eq!(rt; code, 0);
    assert!(rt; out.bytes() == lines.as_bytes());
    Ok(())
}
