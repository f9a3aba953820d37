//! The lines that edits change, worked out by hand.

ghost use Rattle.std.specs.Prelude.{◌≡◌, ◌<◌};

use crate::edits::edit_of;
use changed_lines::changed_line::ChangedLine;
use evaluation_rows::trees::tree_of;
use marker_engine::engine::Engine;
use plain_types::box_kind::BoxKind;
use plain_types::memory::Memory;
use plain_types::text::Text;
use std::alloc::Global;
use std::marker::Brand;
use std::sync::ledger::{Blank, Ledger};
use std::test::Fail;
use steps::Steps;

/// A document, its sheet, and an edit as a line of a script; and the lines that it changes, each with a `;` behind it.
type Row = (&'static str, &'static str, &'static str, &'static str);

static ROWS: [Row; 8] = [
    // an item comes, and those behind it have other numbers
    (
        "<ol><li/><li/><li/></ol>",
        "",
        "insert / 1 <li/>",
        r#"/1 marker "2. ";/2 marker "3. ";/3 marker "4. ";"#,
    ),
    // of what goes nothing is told
    (
        "<ol><li/><li/><li/></ol>",
        "",
        "remove /0",
        r#"/0 marker "1. ";/1 marker "2. ";"#,
    ),
    // a box goes and its element stays
    (
        r#"<p class="x"/>"#,
        r#".x::before{content:"b"}"#,
        "unset / class",
        "/ before gone;",
    ),
    // a text that stays is not told, though it has another path
    (
        "<p><i/><b/></p>",
        r#"b::before{content:"b"}"#,
        "move /0 / 1",
        "",
    ),
    // an element is told before those in it, and its after box too, which has the counter of the list in it besides its own
    (
        "<ol><li><ol><li/></ol></li><li/></ol>",
        r#"li::after{content:counters(list-item,".")}"#,
        "insert / 0 <li/>",
        r#"/0 marker "1. ";/0 after "1";/1 marker "2. ";/1 after "2.1";/1/0/0 after "2.1";/2 marker "3. ";/2 after "3";"#,
    ),
    // elements of which only counters are other have no lines, before one that has some and behind it
    (
        "<p><b/><i/><b/></p>",
        r#"b{counter-increment:n}i::before{content:counter(n)}"#,
        "insert / 0 <b/>",
        r#"/2 before "2";"#,
    ),
    // what refers to an element is told where that changes
    (
        r##"<p><a href="#x"/><b id="x"/></p>"##,
        r#"p{counter-reset:n}b{counter-increment:n}a::before{content:target-counter(attr(href),n)}"#,
        "insert / 0 <b/>",
        r#"/1 before "2";"#,
    ),
    // another sheet
    ("<p><b/></p>", "", "sheet plain.css", r#"/0 before "b";"#),
];

/// Adds a line as rows tell it.
fn show_line(alloc: Global, line: &ChangedLine, out: &mut Text) -> Result<(), Memory> {
    if line.path.as_slice().is_empty() {
        out.push_str("/")?;
    }
    for position in line.path.as_slice() {
        out.push_str(format!(in alloc; "/{position}")?.as_str())?;
    }
    out.push_str(match line.kind {
        BoxKind::Element => " element",
        BoxKind::Marker => " marker",
        BoxKind::Before => " before",
        BoxKind::After => " after",
    })?;
    match &line.text {
        Some(text) => out.push_str(format!(in alloc; " \"{}\";", text.as_str())?.as_str()),
        None => out.push_str(" gone;"),
    }
}

/// The lines that the edit of a row changes, as rows tell them.
fn told_by<L: Ledger>(rt: &HostRuntime, blank: Blank, row: &Row) -> Result<Text, Fail>
    requires name { blank.name ≡ L.name }
    requires parts { blank.parts ≡ L.parts }
    requires some { 0 < L.parts }
{
    let (document, sheet, line, _lines) = row;
    let alloc = rt.alloc();
    let mut steps = Steps::<L>::open(rt, blank);
    let Some(tree) = tree_of(alloc, document)? else {
        return Err(Fail::from("no document"));
    };
    let mut engine = Engine::start(alloc, tree, sheet, &mut steps)?;
    let edit = edit_of(alloc, line)?;
    let lines = engine.apply_and_tell(alloc, &edit, &mut steps)??;
    let mut out = Text::new(alloc);
    for line in lines.as_slice() {
        show_line(alloc, line, &mut out)?;
    }
    Ok(out)
}

/// The same, with steps that nobody reads.
fn told(rt: &HostRuntime, row: &Row) -> Result<Text, Fail> {
    told_by::<Brand>(rt, Blank::new(1), row)
}

#[test]
fn changed_lines_are_told(rt: HostRuntime) -> Result<(), Fail> {
    for row in &ROWS {
        assert_eq!(rt; told(&rt, row)?.as_str(), row.3);
    }
    Ok(())
}
