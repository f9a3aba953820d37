//! `style` attributes, worked out by hand: how they are read, and what holds against them.

use crate::dumps::first_wrong as first_wrong_dump;
use crate::rows::dumped;
use crate::scripts::{Script, first_wrong as first_wrong_script};
use crate::tests::comes_out;
use evaluation_rows::lines::Dump;
use plain_types::memory::Memory;
use std::test::Fail;

/// The `style` attribute of the one item of a numbered list, whose id is `i`; a sheet; and the item's marker.
type Marked = (&'static str, &'static str, &'static str);

static READINGS: [Marked; 20] = [
    ("list-style:lower-alpha", "", "a. "),
    ("", "", "1. "),
    // pieces that are no declarations are left out, and no others
    (";;x:;list-style-type:upper-roman", "", "I. "),
    ("list-style lower-alpha;List-Style:Upper-Roman", "", "I. "),
    (
        "list-style:lower-alpha;list-style:upper-roman square",
        "",
        "a. ",
    ),
    // the later holds, unless the earlier is important
    ("list-style:lower-alpha;list-style:upper-roman", "", "I. "),
    (
        "list-style:lower-alpha!important;list-style:upper-roman",
        "",
        "a. ",
    ),
    // it has declarations, and no rules
    ("li{list-style:lower-alpha}", "", "1. "),
    (
        "{;list-style:lower-alpha};list-style:upper-roman",
        "",
        "I. ",
    ),
    (
        "@x{list-style:lower-alpha}list-style:upper-roman",
        "",
        "I. ",
    ),
    // a `}` that closes nothing is a token as any other
    ("}list-style:lower-alpha;list-style:upper-roman", "", "I. "),
    ("list-style:upper-roman;list-style:lower-alpha}", "", "I. "),
    ("}list-style:lower-alpha", "", "1. "),
    // the end closes what is open
    ("/*;*/list-style:lower-alpha/*;list-style:square", "", "a. "),
    ("list-style:symbols('*'", "", "* "),
    ("list-style:'x", "", "x"),
    // it is prepared as a sheet is: the byte order mark goes, and the carriage return becomes a line feed
    ("&#xFEFF;list-style:lower-alpha", "", "a. "),
    (r"list-style:'a\&#xD;b'", "", "ab"),
    // the initial value of `list-style-type` is `disc`; no style has the name `x`
    ("list-style-type:initial", "", "• "),
    ("list-style:x", "", "1. "),
];

static AGAINST_RULES: [Marked; 13] = [
    // above each rule of its level, however specific, and below the important ones
    (
        "list-style:lower-alpha",
        "#i#i{list-style:upper-roman}",
        "a. ",
    ),
    (
        "list-style:lower-alpha",
        "li{list-style:upper-roman!important}",
        "I. ",
    ),
    (
        "list-style:lower-alpha!important",
        "#i{list-style:upper-roman}",
        "a. ",
    ),
    (
        "list-style:lower-alpha!important",
        "li{list-style:upper-roman!important}",
        "a. ",
    ),
    (
        "list-style:lower-alpha!important",
        "#i#i{list-style:upper-roman!important}",
        "a. ",
    ),
    // for each property by itself
    (
        "list-style:lower-alpha",
        "li{counter-set:list-item 7!important}",
        "g. ",
    ),
    // from the list in place of the rule
    ("list-style:inherit", "li{list-style:upper-roman}", "1. "),
    ("list-style:unset", "li{list-style:upper-roman}", "1. "),
    // for selectors it is an attribute as any other
    ("", "[style]{list-style:upper-roman}", "I. "),
    // it says nothing of pseudo-elements, unless they inherit from the element
    ("content:'x'", "", "1. "),
    ("content:'x'!important", "li::marker{content:'y'}", "y"),
    ("content:'x'", "li::marker{content:inherit}", "x"),
    ("quotes:'[' ']'", "li::marker{content:open-quote}", "["),
];

static BOXES: [Dump; 9] = [
    (
        r#"<ol><li style="display:none"/><li/></ol>"#,
        "",
        &[r#"/1 marker "1. ""#],
    ),
    // an item that is none is not counted
    (
        r#"<ol><li style="display:block"/><li/></ol>"#,
        "",
        &[r#"/1 marker "1. ""#],
    ),
    (
        r#"<ol><li style="list-style:none"/><li/></ol>"#,
        "",
        &[r#"/1 marker "2. ""#],
    ),
    // what is none becomes one
    (
        r#"<p style="display:list-item"/>"#,
        "",
        &[r#"/ marker "• ""#],
    ),
    // against the user agent's sheet
    (
        r#"<p hidden="" style="display:block"><q/></p>"#,
        "",
        &[r#"/0 before "“""#, r#"/0 after "”""#],
    ),
    (
        r#"<body><style style="display:block">style::before{content:"x"}</style></body>"#,
        "",
        &[r#"/0 before "x""#],
    ),
    (
        r#"<q style="content:'x';quotes:'[' ']'"/>"#,
        "",
        &[r#"/ before "[""#, r#"/ after "]""#],
    ),
    (
        r#"<q style="content:'x'"/>"#,
        "q::after{content:inherit}",
        &[r#"/ before "“""#, r#"/ after "x""#],
    ),
    // names count as they are written
    (
        r#"<ol><li Style="list-style:lower-alpha"/></ol>"#,
        "",
        &[r#"/0 marker "1. ""#],
    ),
];

static COUNTERS: [Dump; 12] = [
    (
        r#"<body style="counter-reset:c 4"><p/></body>"#,
        "p{counter-increment:c}p::before{content:counter(c)}",
        &[r#"/0 before "5""#],
    ),
    (
        r#"<p style="counter-increment:c 3;counter-set:d 7"/>"#,
        "p::before{content:counter(c)counter(d)}",
        &[r#"/ before "37""#],
    ),
    (
        r#"<ol style="counter-reset:reversed(list-item)"><li/><li/></ol>"#,
        "",
        &[r#"/0 marker "2. ""#, r#"/1 marker "1. ""#],
    ),
    (
        r##"<body><a href="#t"/><h1 id="t" style="counter-set:s 7"/></body>"##,
        "a::after{content:target-counter(attr(href),s)}",
        &[r#"/0 after "7""#],
    ),
    // against what the attributes of lists say
    (
        r#"<ol start="5" style="counter-reset:list-item 9"><li/></ol>"#,
        "",
        &[r#"/0 marker "10. ""#],
    ),
    (
        r#"<ol reversed="" style="counter-reset:list-item 9"><li/></ol>"#,
        "",
        &[r#"/0 marker "10. ""#],
    ),
    (
        r#"<ol><li value="3" style="counter-set:list-item 8"/></ol>"#,
        "",
        &[r#"/0 marker "8. ""#],
    ),
    (
        r#"<ol type="I" style="list-style:lower-alpha"><li/></ol>"#,
        "",
        &[r#"/0 marker "a. ""#],
    ),
    (
        r#"<ol start="5" style="list-style:lower-alpha"><li/></ol>"#,
        "",
        &[r#"/0 marker "e. ""#],
    ),
    // items inherit from their list; a list in it has a value from the user agent's sheet
    (
        r#"<ol style="list-style:lower-alpha"><li><ol><li/></ol></li></ol>"#,
        "",
        &[r#"/0 marker "a. ""#, r#"/0/0/0 marker "1. ""#],
    ),
    // a value is inherited, and not that it is important
    (
        r#"<ol style="list-style:lower-alpha!important"><li/></ol>"#,
        "li{list-style:upper-roman}",
        &[r#"/0 marker "I. ""#],
    ),
    (
        r#"<ol style="list-style:lower-alpha"><li/></ol>"#,
        "#x{list-style:upper-roman}",
        &[r#"/0 marker "a. ""#],
    ),
];

static EDITED: [Script; 3] = [
    Script {
        start: (
            "<ol><li/><li/></ol>",
            "",
            &[r#"/0 marker "1. ""#, r#"/1 marker "2. ""#],
        ),
        edits: &[
            (
                "set /1 style list-style:upper-roman",
                &[r#"/0 marker "1. ""#, r#"/1 marker "II. ""#],
            ),
            (
                "set / style list-style:lower-alpha",
                &[r#"/0 marker "a. ""#, r#"/1 marker "II. ""#],
            ),
            (
                "unset /1 style",
                &[r#"/0 marker "a. ""#, r#"/1 marker "b. ""#],
            ),
            ("set /0 style display:none", &[r#"/1 marker "a. ""#]),
            (
                "set /0 style",
                &[r#"/0 marker "a. ""#, r#"/1 marker "b. ""#],
            ),
            (
                r#"insert / 0 <li style="list-style:lower-roman"/>"#,
                &[
                    r#"/0 marker "i. ""#,
                    r#"/1 marker "b. ""#,
                    r#"/2 marker "c. ""#,
                ],
            ),
            (
                "move /0 / 2",
                &[
                    r#"/0 marker "a. ""#,
                    r#"/1 marker "b. ""#,
                    r#"/2 marker "iii. ""#,
                ],
            ),
            (
                "unset / style",
                &[
                    r#"/0 marker "1. ""#,
                    r#"/1 marker "2. ""#,
                    r#"/2 marker "iii. ""#,
                ],
            ),
        ],
    },
    // the target of a reference
    Script {
        start: (
            r##"<body><a href="#t"/><h1 id="t"/></body>"##,
            "h1{counter-increment:s}a::after{content:target-counter(attr(href),s)}",
            &[r#"/0 after "1""#],
        ),
        edits: &[
            ("set /1 style counter-set:s 7", &[r#"/0 after "7""#]),
            ("set /1 style display:none", &[r#"/0 after """#]),
            ("unset /1 style", &[r#"/0 after "1""#]),
        ],
    },
    // characters that no document has
    Script {
        start: ("<ol><li/></ol>", "", &[r#"/0 marker "1. ""#]),
        edits: &[
            (
                "set /0 style list-style:'\u{0}'",
                &["/0 marker \"\u{fffd}\""],
            ),
            ("set /0 style list-style:'a\\\rb'", &[r#"/0 marker "ab""#]),
        ],
    },
];

/// The place of the first row with another marker; none where each is as it says.
fn first_wrong(rt: &HostRuntime, table: &[Marked]) -> Result<Option<usize>, Memory> {
    for (place, (style, sheet, marker)) in table.iter().enumerate() {
        let document = format!(in rt.alloc(); "<ol><li id=\"i\" style=\"{style}\"/></ol>")?;
        let out = format!(in rt.alloc(); "/0 marker \"{marker}\"\n")?;
        if !comes_out(rt, &dumped(document.as_str(), sheet, out.as_str()))? {
            return Ok(Some(place));
        }
    }
    Ok(None)
}

#[test]
fn readings_and_levels(rt: HostRuntime) -> Result<(), Fail> {
    assert_eq!(rt; first_wrong(&rt, &READINGS)?, None);
    assert_eq!(rt; first_wrong(&rt, &AGAINST_RULES)?, None);
    Ok(())
}

#[test]
fn boxes_and_counters(rt: HostRuntime) -> Result<(), Fail> {
    assert_eq!(rt; first_wrong_dump(&rt, &BOXES)?, None);
    assert_eq!(rt; first_wrong_dump(&rt, &COUNTERS)?, None);
    Ok(())
}

#[test]
fn attributes_are_edited(rt: HostRuntime) -> Result<(), Fail> {
    assert_eq!(rt; first_wrong_script(&rt, &EDITED)?, None);
    Ok(())
}
