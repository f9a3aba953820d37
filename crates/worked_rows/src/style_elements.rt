//! Style elements of documents, worked out by hand: which count, what their text is, and in which order they stand.

use crate::dumps::first_wrong as first_wrong_dump;
use crate::rows::{dumped, edited};
use crate::scripts::{Script, first_wrong as first_wrong_script};
use crate::tests::comes_out;
use evaluation_rows::lines::Dump;
use plain_types::memory::Memory;
use std::test::Fail;

/// What stands in the head of a document, its sheet, and the marker of its one list item.
type Marked = (&'static str, &'static str, &'static str);

static TYPES: [Marked; 13] = [
    ("<style>li{list-style:lower-alpha}</style>", "", "a. "),
    ("<style/>", "", "1. "),
    // a `type` that is empty, or that of CSS in any ASCII case
    (
        r#"<style type="">li{list-style:lower-alpha}</style>"#,
        "",
        "a. ",
    ),
    (
        r#"<style type="text/css">li{list-style:lower-alpha}</style>"#,
        "",
        "a. ",
    ),
    (
        r#"<style type="TEXT/Css">li{list-style:lower-alpha}</style>"#,
        "",
        "a. ",
    ),
    // any other
    (
        r#"<style type="text/plain">li{list-style:lower-alpha}</style>"#,
        "",
        "1. ",
    ),
    (
        r#"<style type="text/css ">li{list-style:lower-alpha}</style>"#,
        "",
        "1. ",
    ),
    (
        r#"<style type="text/css;charset=utf-8">li{list-style:lower-alpha}</style>"#,
        "",
        "1. ",
    ),
    (
        r#"<style type="text/cſs">li{list-style:lower-alpha}</style>"#,
        "",
        "1. ",
    ),
    // names count as they are written
    (
        r#"<style TYPE="text/plain">li{list-style:lower-alpha}</style>"#,
        "",
        "a. ",
    ),
    ("<Style>li{list-style:lower-alpha}</Style>", "", "1. "),
    // `media` is not looked at
    (
        r#"<style media="print">li{list-style:lower-alpha}</style>"#,
        "",
        "a. ",
    ),
    // it counts wherever it stands
    (
        r#"<p hidden=""><b><style>li{list-style:lower-alpha}</style></b></p>"#,
        "",
        "a. ",
    ),
];

static ORDER: [Marked; 12] = [
    // the sheet comes first
    (
        "<style>li{list-style:lower-alpha}</style>",
        "li{list-style:upper-roman}",
        "a. ",
    ),
    // importance and specificity count before the order
    (
        "<style>li{list-style:lower-alpha}</style>",
        "li{list-style:upper-roman!important}",
        "I. ",
    ),
    (
        "<style>li{list-style:lower-alpha!important}</style>",
        "li{list-style:upper-roman!important}",
        "a. ",
    ),
    (
        "<style>li{list-style:lower-alpha}</style>",
        "ol li{list-style:upper-roman}",
        "I. ",
    ),
    // of two style elements the later wins, in tree order
    (
        "<style>li{list-style:lower-alpha}</style><style>li{list-style:upper-alpha}</style>",
        "",
        "A. ",
    ),
    (
        "<p><style>li{list-style:lower-alpha}</style></p><style>li{list-style:upper-alpha}</style>",
        "",
        "A. ",
    ),
    (
        "<style>li{list-style:upper-alpha}</style><p><style>li{list-style:lower-alpha}</style></p>",
        "",
        "a. ",
    ),
    // one that does not count changes nothing
    (
        r#"<style>li{list-style:lower-alpha}</style><style type="x">li{list-style:upper-alpha}</style>"#,
        "",
        "a. ",
    ),
    // each text is a sheet by itself: what is open at its end is closed there
    (
        "<style>li{list-style:lower-alpha}</style>",
        "li{list-style:upper-roman",
        "a. ",
    ),
    ("<style>li{list-style:lower-alpha}</style>", "/*", "a. "),
    (
        "<style>li{</style><style>list-style:lower-alpha}</style>",
        "",
        "1. ",
    ),
    // a byte order mark at its front is dropped
    (
        "<style>&#xFEFF;li{list-style:lower-alpha}</style>",
        "",
        "a. ",
    ),
];

static TEXTS: [Marked; 13] = [
    // comments and instructions give no characters
    (
        "<style>li{list-<!-- x -->style:lower<?x y?>-alpha}</style>",
        "",
        "a. ",
    ),
    (
        "<style><!--li{list-style:lower-alpha}--></style>",
        "",
        "1. ",
    ),
    // CDATA sections and references give theirs
    (
        r#"<style><![CDATA[ol>li{list-style:"<&"}]]></style>"#,
        "",
        "<&",
    ),
    (
        "<style>ol&gt;li{list-style:lower-&#97;lpha}</style>",
        "",
        "a. ",
    ),
    // at the top of a sheet these signs mean nothing
    (
        "<style><![CDATA[<!--li{list-style:lower-alpha}-->]]></style>",
        "",
        "a. ",
    ),
    // an element gives the characters of its texts, in tree order
    (
        "<style>li<b>{list-style</b>:lower-alpha}</style>",
        "",
        "a. ",
    ),
    (
        "<style>li<b>{<i>list-</i>style:</b>lower-alpha<b/>}</style>",
        "",
        "a. ",
    ),
    (
        r#"<style>li<b title="x">{list-style:</b>lower-alpha}</style>"#,
        "",
        "a. ",
    ),
    // so does a style element, whose own text is a sheet beside that
    (
        "<style>li{list-style:<style>lower-alpha}</style></style>",
        "",
        "a. ",
    ),
    (
        r#"<style>li{list-style:lower-alpha}<style type="x">li{list-style:upper-alpha}</style></style>"#,
        "",
        "A. ",
    ),
    (
        r#"<style type="x">li{list-style:upper-alpha}<style>li{list-style:lower-alpha}</style></style>"#,
        "",
        "a. ",
    ),
    // and comes after the outer one: once more here, behind `upper-alpha`
    (
        "<style><style>li{list-style:lower-alpha}</style>li{list-style:upper-alpha}</style>",
        "",
        "a. ",
    ),
    (
        "<style>li{list-style:lower-alpha}<style>li{list-style:upper-alpha}</style></style>",
        "",
        "A. ",
    ),
];

static COUNTER_STYLES: [Marked; 6] = [
    // the later of two
    (
        r#"<style>@counter-style x{system:cyclic;symbols:"a"}</style><style>@counter-style x{system:cyclic;symbols:"b"}</style>"#,
        "li{list-style:x}",
        "b. ",
    ),
    // in place of the sheet's, unless it defines nothing
    (
        r#"<style>@counter-style x{system:cyclic;symbols:"a"}</style>"#,
        r#"@counter-style x{system:cyclic;symbols:"s"}li{list-style:x}"#,
        "a. ",
    ),
    (
        "<style>@counter-style x{system:cyclic}</style>",
        r#"@counter-style x{system:cyclic;symbols:"s"}li{list-style:x}"#,
        "s. ",
    ),
    // in place of a predefined one
    (
        r#"<style>@counter-style decimal-leading-zero{system:cyclic;symbols:"z"}</style>"#,
        "li{list-style:decimal-leading-zero}",
        "z. ",
    ),
    // a style of the sheet may extend one of a style element
    (
        r#"<style>@counter-style x{system:cyclic;symbols:"a"}</style>"#,
        r#"@counter-style y{system:extends x;suffix:") "}li{list-style:y}"#,
        "a) ",
    ),
    (
        r#"<style type="x">@counter-style x{system:cyclic;symbols:"a"}</style>"#,
        "li{list-style:x}",
        "1. ",
    ),
];

const LETTERS_AND_ROMAN: &str =
    r#"<html><head><style>li{list-style:lower-alpha}</style></head><body><ol><li/><li style="list-style:upper-roman"/></ol></body></html>"#;

static PLACES: [Dump; 7] = [
    (
        LETTERS_AND_ROMAN,
        "",
        &[r#"/1/0/0 marker "a. ""#, r#"/1/0/1 marker "II. ""#],
    ),
    // behind the list and in it
    (
        "<body><ol><li/></ol><style>li{list-style:lower-alpha}</style></body>",
        "",
        &[r#"/0/0 marker "a. ""#],
    ),
    (
        "<ol><li/><style>li{list-style:lower-alpha}</style><li/></ol>",
        "",
        &[r#"/0 marker "a. ""#, r#"/2 marker "b. ""#],
    ),
    // it has no box, unless a sheet gives it one
    (
        r#"<body><style>style::before{content:"x"}</style></body>"#,
        "",
        &[],
    ),
    (
        r#"<body><style>style{display:block}style::before{content:"x"}</style></body>"#,
        "",
        &[r#"/0 before "x""#],
    ),
    (
        "<ol><style>style{display:block}<li/></style><li/></ol>",
        "",
        &[r#"/0/1 marker "1. ""#, r#"/1 marker "2. ""#],
    ),
    // it may be the root
    (
        "<style>style{display:block}li{list-style:upper-roman}<li/></style>",
        "",
        &[r#"/1 marker "I. ""#],
    ),
];

static EDITED_TEXTS: [Script; 2] = [
    Script {
        start: (
            "<body><style>li{list-style:lower-alpha}</style><ol><li/></ol></body>",
            "",
            &[r#"/1/0 marker "a. ""#],
        ),
        edits: &[
            (
                "insert /0 1 li{list-style:upper-roman}",
                &[r#"/1/0 marker "I. ""#],
            ),
            ("remove /0/1", &[r#"/1/0 marker "a. ""#]),
            // `p li`, where texts side by side are one; then `p` behind the rule
            ("insert /0 0 p ", &[r#"/1/0 marker "1. ""#]),
            ("move /0/0 /0 1", &[r#"/1/0 marker "a. ""#]),
            ("remove /0/0", &[r#"/1/0 marker "1. ""#]),
        ],
    },
    // elements in it
    Script {
        start: (
            "<body><style>li{list-style:<b>lower-alpha</b>}</style><ol><li/></ol></body>",
            "",
            &[r#"/1/0 marker "a. ""#],
        ),
        edits: &[
            ("remove /0/1/0", &[r#"/1/0 marker "1. ""#]),
            ("insert /0/1 0 upper-alpha", &[r#"/1/0 marker "A. ""#]),
            ("remove /0/1", &[r#"/1/0 marker "1. ""#]),
            (
                "insert /0 1 <i>lower-<u>roman</u></i>",
                &[r#"/1/0 marker "i. ""#],
            ),
            // no style has the name `romanlower-`
            ("move /0/1/1 /0/1 0", &[r#"/1/0 marker "1. ""#]),
        ],
    },
];

static EDITED_TYPES: [Script; 1] = [Script {
    start: (
        "<body><style>li{list-style:lower-alpha}</style><ol><li/></ol></body>",
        "",
        &[r#"/1/0 marker "a. ""#],
    ),
    edits: &[
        ("set /0 type text/plain", &[r#"/1/0 marker "1. ""#]),
        ("set /0 type Text/CSS", &[r#"/1/0 marker "a. ""#]),
        // with a blank before it
        ("set /0 type  text/css", &[r#"/1/0 marker "1. ""#]),
        ("set /0 type", &[r#"/1/0 marker "a. ""#]),
        ("set /0 media print", &[r#"/1/0 marker "a. ""#]),
        ("set /0 type none", &[r#"/1/0 marker "1. ""#]),
        ("unset /0 type", &[r#"/1/0 marker "a. ""#]),
    ],
}];

static EDITED_ELEMENTS: [Script; 3] = [
    // they go with an element around them, and come with one
    Script {
        start: (
            "<body><div><style>li{list-style:lower-alpha}</style></div><ol><li/></ol></body>",
            "",
            &[r#"/1/0 marker "a. ""#],
        ),
        edits: &[
            ("remove /0", &[r#"/0/0 marker "1. ""#]),
            (
                "insert / 1 <div><style>li{list-style:upper-alpha}</style></div>",
                &[r#"/0/0 marker "A. ""#],
            ),
            (
                "insert /1 1 <style>li{list-style:upper-roman}</style>",
                &[r#"/0/0 marker "I. ""#],
            ),
            ("remove /1/1", &[r#"/0/0 marker "A. ""#]),
            ("remove /1/0", &[r#"/0/0 marker "1. ""#]),
        ],
    },
    // one is moved behind the other, and back; then its text, and itself, into the other; then the list
    Script {
        start: (
            "<body><style>li{list-style:lower-alpha}</style><style>li{list-style:upper-alpha}</style><ol><li/></ol></body>",
            "",
            &[r#"/2/0 marker "A. ""#],
        ),
        edits: &[
            ("move /0 / 1", &[r#"/2/0 marker "a. ""#]),
            ("move /1 / 0", &[r#"/2/0 marker "A. ""#]),
            ("move /0/0 /1 1", &[r#"/2/0 marker "a. ""#]),
            ("move /0 /1 0", &[r#"/1/0 marker "a. ""#]),
            ("move /1 /0 0", &[]),
            ("move /0/0 / 0", &[r#"/0/0 marker "a. ""#]),
        ],
    },
    // counter styles come, change their order, and go
    Script {
        start: (
            "<body><ol><li/></ol></body>",
            "li{list-style:x}",
            &[r#"/0/0 marker "1. ""#],
        ),
        edits: &[
            (
                r#"insert / 1 <style>@counter-style x{system:cyclic;symbols:"*";suffix:" "}</style>"#,
                &[r#"/0/0 marker "* ""#],
            ),
            (
                r#"insert / 2 <style>@counter-style x{system:cyclic;symbols:"+"}</style>"#,
                &[r#"/0/0 marker "+. ""#],
            ),
            ("move /2 / 1", &[r#"/0/0 marker "* ""#]),
            ("set /2 type none", &[r#"/0/0 marker "+. ""#]),
            ("remove /1", &[r#"/0/0 marker "1. ""#]),
        ],
    },
];

/// A style element goes, another comes with an important rule, and the `style` attribute becomes important too.
const ROMAN_SCRIPT: &str = r#"remove /0/0
show
insert /0 0 <style>li{list-style:"x"!important}</style>
show
set /1/0/1 style list-style:"y"!important
show
"#;

const ROMAN_SHOWN: &str = r#"show 2
/1/0/0 marker "1. "
/1/0/1 marker "II. "
end
show 4
/1/0/0 marker "x"
/1/0/1 marker "x"
end
show 6
/1/0/0 marker "x"
/1/0/1 marker "y"
end
"#;

/// The place of the first row with another marker; none where each is as it says.
fn first_wrong(rt: &HostRuntime, table: &[Marked]) -> Result<Option<usize>, Memory> {
    for (place, (head, sheet, marker)) in table.iter().enumerate() {
        let document = format!(in rt.alloc();
            "<html><head>{head}</head><body><ol><li/></ol></body></html>"
        )?;
        let out = format!(in rt.alloc(); "/1/0/0 marker \"{marker}\"\n")?;
        if !comes_out(rt, &dumped(document.as_str(), sheet, out.as_str()))? {
            return Ok(Some(place));
        }
    }
    Ok(None)
}

#[test]
fn types_and_order(rt: HostRuntime) -> Result<(), Fail> {
    assert_eq!(rt; first_wrong(&rt, &TYPES)?, None);
    assert_eq!(rt; first_wrong(&rt, &ORDER)?, None);
    Ok(())
}

#[test]
fn texts_and_counter_styles(rt: HostRuntime) -> Result<(), Fail> {
    assert_eq!(rt; first_wrong(&rt, &TEXTS)?, None);
    assert_eq!(rt; first_wrong(&rt, &COUNTER_STYLES)?, None);
    Ok(())
}

#[test]
fn places(rt: HostRuntime) -> Result<(), Fail> {
    assert_eq!(rt; first_wrong_dump(&rt, &PLACES)?, None);
    Ok(())
}

#[test]
fn texts_are_edited(rt: HostRuntime) -> Result<(), Fail> {
    assert_eq!(rt; first_wrong_script(&rt, &EDITED_TEXTS)?, None);
    assert_eq!(rt; first_wrong_script(&rt, &EDITED_TYPES)?, None);
    Ok(())
}

#[test]
fn elements_are_edited(rt: HostRuntime) -> Result<(), Fail> {
    assert_eq!(rt; first_wrong_script(&rt, &EDITED_ELEMENTS)?, None);
    let row = edited(LETTERS_AND_ROMAN, "", ROMAN_SCRIPT, ROMAN_SHOWN);
    assert!(rt; comes_out(&rt, &row)?);
    Ok(())
}
