//! Documents that are opened, edited by lines, listed and shown; and the messages of lines that are not done.

ghost use Rattle.std.specs.Prelude.{◌≡◌, ◌<◌};

use crate::line_fault::LineFault;
use crate::session::Session;
use changed_lines::changed_line::ChangedLine;
use marker_engine::census::Census;
use plain_types::box_kind::BoxKind;
use plain_types::memory::Memory;
use plain_types::text::Text;
use std::alloc::Global;
use std::marker::Brand;
use std::sync::ledger::{Blank, Ledger};
use std::test::Fail;
use steps::Steps;
use xhtml_reader::fault::DocFault;

/// Lines of which none is done, and why.
static REFUSED: [(&str, LineFault); 12] = [
    ("", LineFault::BadLine),
    ("# remove /0", LineFault::BadLine),
    ("delete /0", LineFault::BadLine),
    ("remove 0", LineFault::BadLine),
    ("insert / 0 <li>", LineFault::BadLine),
    ("remove /0\nremove /0", LineFault::BadLine),
    // a session has no files, and no history
    ("sheet plain.css", LineFault::BadLine),
    ("undo", LineFault::BadLine),
    ("show", LineFault::NotAnEdit),
    ("remove /3", LineFault::NoPlace),
    ("insert / 4 <li/>", LineFault::NoPlace),
    ("move /0 /0 0", LineFault::IntoItself),
];

/// Adds a line as rows tell it.
fn show_line(alloc: Global, line: &ChangedLine, out: &mut Text) -> Result<(), Memory> {
    if line.path.as_slice().is_empty() {
        out.push_str("/")?;
    }
    for position in line.path.as_slice() {
        out.push_str(format!(in alloc; "/{position}")?.as_str())?;
    }
    out.push_str(match line.kind {
        BoxKind::Element => " element",
        BoxKind::Marker => " marker",
        BoxKind::Before => " before",
        BoxKind::After => " after",
    })?;
    match &line.text {
        Some(text) => out.push_str(format!(in alloc; " \"{}\";", text.as_str())?.as_str()),
        None => out.push_str(" gone;"),
    }
}

/// Adds the list of a session, as rows tell it.
fn put_list(alloc: Global, session: &Session, out: &mut Text) -> Result<(), Memory> {
    for line in session.listed() {
        show_line(alloc, line, out)?;
    }
    out.push('\n')
}

/// Adds the lines that a session does not refuse as the table says.
fn put_wrong_answers<L: Ledger>(
    alloc: Global,
    session: &mut Session,
    out: &mut Text,
    steps: &mut Steps<L>,
) -> Result<(), Memory> {
    for (line, fault) in &REFUSED {
        if session.apply(alloc, line, steps) != Err(*fault) {
            out.push_str(line)?;
        }
    }
    Ok(())
}

/// What is listed of a document that is opened and edited, then its dump, and then what is listed once lines were refused.
fn edited<L: Ledger>(rt: &HostRuntime, blank: Blank) -> Result<Text, Fail>
    requires name { blank.name ≡ L.name }
    requires parts { blank.parts ≡ L.parts }
    requires some { 0 < L.parts }
{
    let alloc = rt.alloc();
    let mut steps = Steps::<L>::open(rt, blank);
    let mut seen = Text::new(alloc);
    let mut session = Session::open(alloc, "<ol><li>a</li><li>b</li></ol>", "", &mut steps)?;
    put_list(alloc, &session, &mut seen)?;
    session.apply(alloc, "insert / 1 <li/>", &mut steps)?;
    put_list(alloc, &session, &mut seen)?;
    session.show(alloc, &mut steps)?;
    seen.push_str(str::from_utf8(session.shown())?)?;
    put_wrong_answers(alloc, &mut session, &mut seen, &mut steps)?;
    put_list(alloc, &session, &mut seen)?;
    Ok(seen)
}

#[test]
fn sessions_follow_their_lines(rt: HostRuntime) -> Result<(), Fail> {
    let seen = edited::<Brand>(&rt, Blank::new(1))?;
    let lines = [
        r#"/0 marker "1. ";/1 marker "2. ";"#,
        r#"/1 marker "2. ";/2 marker "3. ";"#,
        r#"/0 marker "1. ""#,
        r#"/1 marker "2. ""#,
        r#"/2 marker "3. ""#,
        r#"/1 marker "2. ";/2 marker "3. ";"#,
    ];
    for (line, wanted) in seen.as_str().lines().zip(lines) {
        assert_eq!(rt; line, wanted);
    }
    assert_eq!(rt; seen.as_str().lines().count(), lines.len());
    Ok(())
}

/// What is listed once the sheet is replaced, all lines then, and what is counted.
fn restyled<L: Ledger>(rt: &HostRuntime, blank: Blank) -> Result<(Text, Census), Fail>
    requires name { blank.name ≡ L.name }
    requires parts { blank.parts ≡ L.parts }
    requires some { 0 < L.parts }
{
    let alloc = rt.alloc();
    let mut steps = Steps::<L>::open(rt, blank);
    let mut seen = Text::new(alloc);
    let mut session = Session::open(alloc, "<ol><li/><li/></ol>", "", &mut steps)?;
    let sheet = r#"li{list-style-type:none}ol::after{content:"c"}"#;
    session.replace_sheet(alloc, sheet, &mut steps)?;
    put_list(alloc, &session, &mut seen)?;
    session.list_all(alloc, &mut steps)?;
    put_list(alloc, &session, &mut seen)?;
    let census = session.census(&mut steps);
    Ok((seen, census))
}

#[test]
fn sessions_follow_their_sheet(rt: HostRuntime) -> Result<(), Fail> {
    let (seen, census) = restyled::<Brand>(&rt, Blank::new(1))?;
    assert_eq!(rt;
        seen.as_str(),
        "/ after \"c\";/0 marker gone;/1 marker gone;\n/ after \"c\";\n"
    );
    assert_eq!(rt; (census.elements, census.boxes, census.lines), (3, 4, 1));
    Ok(())
}

/// The faults of three texts that are no documents.
fn faults<L: Ledger>(rt: &HostRuntime, blank: Blank) -> Result<[Option<DocFault>; 3], Fail>
    requires name { blank.name ≡ L.name }
    requires parts { blank.parts ≡ L.parts }
    requires some { 0 < L.parts }
{
    let alloc = rt.alloc();
    let mut steps = Steps::<L>::open(rt, blank);
    Ok([
        Session::open(alloc, "<a></b>", "", &mut steps).err(),
        Session::open(alloc, "<a>\n<b>", "", &mut steps).err(),
        Session::open(alloc, "", "", &mut steps).err(),
    ])
}

#[test]
fn faults_have_their_place(rt: HostRuntime) -> Result<(), Fail> {
    let wanted = [(1, 4), (2, 4), (1, 1)];
    for (fault, (line, column)) in faults::<Brand>(&rt, Blank::new(1))?.iter().zip(wanted) {
        assert_eq!(rt; *fault, Some(DocFault::Malformed { line, column }));
    }
    Ok(())
}

#[test]
fn messages(rt: HostRuntime) -> Result<(), Fail> {
    for (fault, message) in [
        (LineFault::BadLine, "the line is no edit"),
        (LineFault::NotAnEdit, "the line shows and edits nothing"),
        (LineFault::NoPlace, "the edit has no place in the document"),
        (LineFault::IntoItself, "a node can't be moved into itself"),
        (LineFault::Memory, "out of memory"),
    ] {
        let told = format!(in rt.alloc(); "{fault}")?;
        assert_eq!(rt; told.as_str(), message);
    }
    Ok(())
}
