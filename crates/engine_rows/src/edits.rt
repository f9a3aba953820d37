//! Edits of documents and their sheets, worked out by hand.

ghost use Rattle.std.specs.Prelude.{◌≡◌, ◌<◌};

use edit_script::action::Action;
use edit_script::command::Command;
use edit_script::read_script;
use evaluation_rows::lines::{Dump, text_of};
use evaluation_rows::trees::{same_tree, tree_of};
use marker_engine::edit_fault::EditFault;
use marker_engine::engine::Engine;
use plain_types::duplicate::Duplicate;
use plain_types::edit::Edit;
use plain_types::list::List;
use plain_types::memory::Memory;
use plain_types::node::NodeView;
use plain_types::path::Path;
use plain_types::text::Text;
use plain_types::tree::Tree;
use plain_types::tree_builder::TreeBuilder;
use ports::memory_sink::MemorySink;
use std::alloc::Global;
use std::marker::Brand;
use std::sync::ledger::{Blank, Ledger};
use std::test::Fail;
use steps::Steps;

/// An edit as a line of a script, and what comes of it, or why it is refused.
type Row = (&'static str, Result<Dump, EditFault>);

/// Edits, one after the other.
struct Course {
    start: Dump,
    rows: &'static [Row],
}

const PLAIN: &str = r#"b::before{content:"b"}"#;

/// The children of a paragraph: a text, and then an element.
static CHILDREN: Course = Course {
    start: ("<p/>", PLAIN, &[]),
    rows: &[
        ("insert / 0 t", Ok(("<p>t</p>", PLAIN, &[]))),
        ("insert / 2 u", Err(EditFault::NoPlace)),
        // a text is no parent
        ("move /0 /0 0", Err(EditFault::NoPlace)),
        ("unset / title", Ok(("<p>t</p>", PLAIN, &[]))),
        ("remove /0", Ok(("<p/>", PLAIN, &[]))),
        (
            "insert / 0 <b/>",
            Ok(("<p><b/></p>", PLAIN, &[r#"/0 before "b""#])),
        ),
        ("move /0 /0 0", Err(EditFault::IntoItself)),
        // the position is not looked at
        ("move /0 /0 5", Err(EditFault::IntoItself)),
    ],
};

static REFUSALS: Course = Course {
    start: ("<ol><li><b/><i/></li></ol>", "", &[r#"/0 marker "1. ""#]),
    rows: &[
        ("move /0 /0/1 0", Err(EditFault::IntoItself)),
        ("remove /9", Err(EditFault::NoPlace)),
        ("remove /", Err(EditFault::NoPlace)),
    ],
};

const IDS: &str = "li{list-style:none}li::before{content:counter(list-item)attr(id)}";

const MOVED: Dump = (
    r#"<ol><li id="b"/><li id="c"/><li id="a"/></ol>"#,
    IDS,
    &[
        r#"/0 before "1b""#,
        r#"/1 before "2c""#,
        r#"/2 before "3a""#,
    ],
);

/// The first item becomes the last: two are left once it is out, so that is the place 2.
static FIRST_TO_LAST: Course = Course {
    start: (
        r#"<ol><li id="a"/><li id="b"/><li id="c"/></ol>"#,
        IDS,
        &[
            r#"/0 before "1a""#,
            r#"/1 before "2b""#,
            r#"/2 before "3c""#,
        ],
    ),
    rows: &[
        ("move /0 / 3", Err(EditFault::NoPlace)),
        ("move /0 / 2", Ok(MOVED)),
        ("unset /1 title", Ok(MOVED)),
    ],
};

/// Numbers the `b`s, each with its attribute `a` behind it.
pub const NUMBERED: &str =
    "p{counter-reset:n}b{counter-increment:n}b::before{content:counter(n)attr(a)}";

static INSERTIONS: Course = Course {
    start: ("<p/>", NUMBERED, &[]),
    rows: &[
        (
            "insert / 0 <b/>",
            Ok(("<p><b/></p>", NUMBERED, &[r#"/0 before "1""#])),
        ),
        // first, last, and between
        (
            "insert / 0 <i>t</i>",
            Ok(("<p><i>t</i><b/></p>", NUMBERED, &[r#"/1 before "1""#])),
        ),
        (
            r#"insert / 2 <b a="x"/>"#,
            Ok((
                r#"<p><i>t</i><b/><b a="x"/></p>"#,
                NUMBERED,
                &[r#"/1 before "1""#, r#"/2 before "2x""#],
            )),
        ),
        ("insert / 4 u", Err(EditFault::NoPlace)),
        (
            "insert / 2 u",
            Ok((
                r#"<p><i>t</i><b/>u<b a="x"/></p>"#,
                NUMBERED,
                &[r#"/1 before "1""#, r#"/3 before "2x""#],
            )),
        ),
        // in a text, below one, and where nothing is
        ("insert /2 0 v", Err(EditFault::NoPlace)),
        ("insert /2/0 0 v", Err(EditFault::NoPlace)),
        ("insert /4 0 v", Err(EditFault::NoPlace)),
        // in the first child, and in the last
        (
            "insert /0 0 <b/>",
            Ok((
                r#"<p><i><b/>t</i><b/>u<b a="x"/></p>"#,
                NUMBERED,
                &[
                    r#"/0/0 before "1""#,
                    r#"/1 before "2""#,
                    r#"/3 before "3x""#,
                ],
            )),
        ),
        (
            "insert /3 0 v",
            Ok((
                r#"<p><i><b/>t</i><b/>u<b a="x">v</b></p>"#,
                NUMBERED,
                &[
                    r#"/0/0 before "1""#,
                    r#"/1 before "2""#,
                    r#"/3 before "3x""#,
                ],
            )),
        ),
    ],
};

static MOVES: Course = Course {
    start: (
        r#"<p><b a="x"/>t<b a="y"><i/></b></p>"#,
        NUMBERED,
        &[r#"/0 before "1x""#, r#"/2 before "2y""#],
    ),
    rows: &[
        // the root stays, and so does what is not there
        ("move / /2 0", Err(EditFault::NoPlace)),
        ("move /3 / 0", Err(EditFault::NoPlace)),
        // to a text, to nothing, past the children, and into itself
        ("move /0 /1 0", Err(EditFault::NoPlace)),
        ("move /0 /3 0", Err(EditFault::NoPlace)),
        ("move /0 / 3", Err(EditFault::NoPlace)),
        ("move /2 /2/0 0", Err(EditFault::IntoItself)),
        // to where it is, and to the last place
        (
            "move /0 / 0",
            Ok((
                r#"<p><b a="x"/>t<b a="y"><i/></b></p>"#,
                NUMBERED,
                &[r#"/0 before "1x""#, r#"/2 before "2y""#],
            )),
        ),
        (
            "move /0 / 2",
            Ok((
                r#"<p>t<b a="y"><i/></b><b a="x"/></p>"#,
                NUMBERED,
                &[r#"/1 before "1y""#, r#"/2 before "2x""#],
            )),
        ),
        // a text down, and an element up; both paths name nodes as they are before
        (
            "move /0 /1 1",
            Ok((
                r#"<p><b a="y"><i/>t</b><b a="x"/></p>"#,
                NUMBERED,
                &[r#"/0 before "1y""#, r#"/1 before "2x""#],
            )),
        ),
        (
            "move /0/0 / 0",
            Ok((
                r#"<p><i/><b a="y">t</b><b a="x"/></p>"#,
                NUMBERED,
                &[r#"/1 before "1y""#, r#"/2 before "2x""#],
            )),
        ),
        (
            "move /2 /0 0",
            Ok((
                r#"<p><i><b a="x"/></i><b a="y">t</b></p>"#,
                NUMBERED,
                &[r#"/0/0 before "1x""#, r#"/1 before "2y""#],
            )),
        ),
    ],
};

static REMOVALS: Course = Course {
    start: (
        r#"<p><i><b a="x"/></i><b a="y">t</b></p>"#,
        NUMBERED,
        &[r#"/0/0 before "1x""#, r#"/1 before "2y""#],
    ),
    rows: &[
        // the root stays, and so does what is not there
        ("remove /", Err(EditFault::NoPlace)),
        ("remove /1/0/0", Err(EditFault::NoPlace)),
        // a text, the last child, and the first with what is in it
        (
            "remove /1/0",
            Ok((
                r#"<p><i><b a="x"/></i><b a="y"/></p>"#,
                NUMBERED,
                &[r#"/0/0 before "1x""#, r#"/1 before "2y""#],
            )),
        ),
        (
            "remove /1",
            Ok((
                r#"<p><i><b a="x"/></i></p>"#,
                NUMBERED,
                &[r#"/0/0 before "1x""#],
            )),
        ),
        ("remove /0", Ok(("<p/>", NUMBERED, &[]))),
        ("remove /0", Err(EditFault::NoPlace)),
    ],
};

static ATTRIBUTES: Course = Course {
    start: (
        "<p><b/>t<b/></p>",
        NUMBERED,
        &[r#"/0 before "1""#, r#"/2 before "2""#],
    ),
    rows: &[
        (
            "set / a x",
            Ok((
                r#"<p a="x"><b/>t<b/></p>"#,
                NUMBERED,
                &[r#"/0 before "1""#, r#"/2 before "2""#],
            )),
        ),
        (
            "set /0 a x",
            Ok((
                r#"<p a="x"><b a="x"/>t<b/></p>"#,
                NUMBERED,
                &[r#"/0 before "1x""#, r#"/2 before "2""#],
            )),
        ),
        // an empty value; a new attribute goes last, and one that is there keeps its place
        (
            "set /2 a",
            Ok((
                r#"<p a="x"><b a="x"/>t<b a=""/></p>"#,
                NUMBERED,
                &[r#"/0 before "1x""#, r#"/2 before "2""#],
            )),
        ),
        (
            "set /0 b y",
            Ok((
                r#"<p a="x"><b a="x" b="y"/>t<b a=""/></p>"#,
                NUMBERED,
                &[r#"/0 before "1x""#, r#"/2 before "2""#],
            )),
        ),
        (
            "set /0 a ",
            Ok((
                r#"<p a="x"><b a="" b="y"/>t<b a=""/></p>"#,
                NUMBERED,
                &[r#"/0 before "1""#, r#"/2 before "2""#],
            )),
        ),
        // of a text, of nothing, and below a text
        ("set /1 a x", Err(EditFault::NoPlace)),
        ("set /3 a x", Err(EditFault::NoPlace)),
        ("unset /1 a", Err(EditFault::NoPlace)),
        ("unset /1/0 a", Err(EditFault::NoPlace)),
        (
            "unset / a",
            Ok((
                r#"<p><b a="" b="y"/>t<b a=""/></p>"#,
                NUMBERED,
                &[r#"/0 before "1""#, r#"/2 before "2""#],
            )),
        ),
        (
            "unset /0 a",
            Ok((
                r#"<p><b b="y"/>t<b a=""/></p>"#,
                NUMBERED,
                &[r#"/0 before "1""#, r#"/2 before "2""#],
            )),
        ),
        (
            "unset /2 a",
            Ok((
                r#"<p><b b="y"/>t<b/></p>"#,
                NUMBERED,
                &[r#"/0 before "1""#, r#"/2 before "2""#],
            )),
        ),
    ],
};

/// The sheet replaced; the file of a sheet is looked up by `sheet_in`.
static SHEETS: Course = Course {
    start: (
        "<p><b/>t<b/></p>",
        NUMBERED,
        &[r#"/0 before "1""#, r#"/2 before "2""#],
    ),
    rows: &[
        (
            "sheet plain.css",
            Ok((
                "<p><b/>t<b/></p>",
                PLAIN,
                &[r#"/0 before "b""#, r#"/2 before "b""#],
            )),
        ),
        ("remove /3", Err(EditFault::NoPlace)),
        ("sheet empty.css", Ok(("<p><b/>t<b/></p>", "", &[]))),
        ("remove /3", Err(EditFault::NoPlace)),
    ],
};

/// The sheet replaced beside a style element, which stays and comes after each of them.
static STYLE_ELEMENTS: Course = Course {
    start: (
        r#"<p><style>b::before{content:"s"}</style><b/></p>"#,
        NUMBERED,
        &[r#"/1 before "s""#],
    ),
    rows: &[
        (
            "sheet plain.css",
            Ok((
                r#"<p><style>b::before{content:"s"}</style><b/></p>"#,
                PLAIN,
                &[r#"/1 before "s""#],
            )),
        ),
        (
            "remove /0",
            Ok(("<p><b/></p>", PLAIN, &[r#"/0 before "b""#])),
        ),
        ("remove /1", Err(EditFault::NoPlace)),
        (
            r#"insert / 1 <style>b::after{content:"s"}</style>"#,
            Ok((
                r#"<p><b/><style>b::after{content:"s"}</style></p>"#,
                PLAIN,
                &[r#"/0 before "b""#, r#"/0 after "s""#],
            )),
        ),
        (
            "sheet empty.css",
            Ok((
                r#"<p><b/><style>b::after{content:"s"}</style></p>"#,
                "",
                &[r#"/0 after "s""#],
            )),
        ),
    ],
};

/// The sheet in a file of this name.
fn sheet_in(file: &str) -> &'static str {
    if file == "plain.css" { PLAIN } else { "" }
}

/// The edit of a script of one line.
pub fn edit_of(alloc: Global, line: &str) -> Result<Edit, Fail> {
    let commands = read_script(alloc, line)?;
    match commands.as_slice() {
        [
            Command {
                line: _,
                action: Action::Change(edit),
            },
        ] => Ok(edit.duplicate(alloc)?),
        [
            Command {
                line: _,
                action: Action::SheetFile(file),
            },
        ] => Ok(Edit::ReplaceSheet {
            text: Text::from_str(alloc, sheet_in(file.as_str()))?,
        }),
        _ => Err(Fail::from("no edit")),
    }
}

/// Whether an engine is in this state.
fn is_in<L: Ledger>(
    alloc: Global,
    engine: &Engine,
    state: &Dump,
    steps: &mut Steps<L>,
) -> Result<bool, Fail> {
    let (document, sheet, lines) = state;
    let Some(tree) = tree_of(alloc, document)? else {
        return Err(Fail::from("no document"));
    };
    let dump = text_of(alloc, lines)?;
    let mut out = MemorySink::new(alloc, 1000, List::new(alloc))?;
    engine.show(alloc, &mut out, steps)?;
    Ok(
        same_tree(&engine.document(alloc)?, &tree)
            && engine.sheet() == *sheet
            && out.bytes() == dump.as_bytes(),
    )
}

/// What an engine answers to an edit. Where memory is wanting, the engine is to be in the state before it, and the
/// edit is done again.
fn answer<L: Ledger>(
    alloc: Global,
    engine: &mut Engine,
    edit: &Edit,
    before: &Dump,
    steps: &mut Steps<L>,
) -> Result<Option<EditFault>, Fail> {
    let answer = engine.apply(alloc, edit, steps).err();
    if answer != Some(EditFault::Memory) {
        return Ok(answer);
    }
    if !is_in(alloc, engine, before, steps)? {
        return Err(Fail::from("an edit is done in part"));
    }
    Ok(engine.apply(alloc, edit, steps).err())
}

/// The first line of a course that an engine answers otherwise, or that leads it to another state; none where each
/// comes out. Where an edit is refused, the state is the one before it.
fn first_wrong_line<L: Ledger>(
    alloc: Global,
    engine: &mut Engine,
    course: &Course,
    steps: &mut Steps<L>,
) -> Result<Option<&'static str>, Fail> {
    let mut state = &course.start;
    if !is_in(alloc, engine, state, steps)? {
        return Ok(Some("start"));
    }
    for (line, outcome) in course.rows {
        let edit = edit_of(alloc, line)?;
        let foreseen = engine.can_apply(&edit);
        let told = answer(alloc, engine, &edit, state, steps)?;
        let mut fault = None;
        match outcome {
            Ok(next) => state = next,
            Err(refusal) => fault = Some(*refusal),
        }
        if foreseen != fault || told != fault || !is_in(alloc, engine, state, steps)? {
            return Ok(Some(line));
        }
    }
    Ok(None)
}

/// The same from the start of the course on.
fn first_wrong<L: Ledger>(
    rt: &HostRuntime,
    blank: Blank,
    course: &Course,
) -> Result<Option<&'static str>, Fail>
    requires name { blank.name ≡ L.name }
    requires parts { blank.parts ≡ L.parts }
    requires some { 0 < L.parts }
{
    let alloc = rt.alloc();
    let mut steps = Steps::<L>::open(rt, blank);
    let Some(tree) = tree_of(alloc, course.start.0)? else {
        return Err(Fail::from("no document"));
    };
    let mut engine = Engine::start(alloc, tree, course.start.1, &mut steps)?;
    first_wrong_line(alloc, &mut engine, course, &mut steps)
}

/// The same, with steps that nobody reads.
fn wrong_line(rt: &HostRuntime, course: &Course) -> Result<Option<&'static str>, Fail> {
    first_wrong::<Brand>(rt, Blank::new(1), course)
}

/// The document of an engine after an edit.
fn document_after<L: Ledger>(
    alloc: Global,
    engine: &mut Engine,
    edit: &Edit,
    steps: &mut Steps<L>,
) -> Result<Tree, Fail> {
    engine.apply(alloc, edit, steps)?;
    Ok(engine.document(alloc)?)
}

/// The document `<p/>` once a text without characters is put in, which no script can say.
fn with_empty_text<L: Ledger>(rt: &HostRuntime, blank: Blank) -> Result<Tree, Fail>
    requires name { blank.name ≡ L.name }
    requires parts { blank.parts ≡ L.parts }
    requires some { 0 < L.parts }
{
    let alloc = rt.alloc();
    let mut steps = Steps::<L>::open(rt, blank);
    let Some(tree) = tree_of(alloc, "<p/>")? else {
        return Err(Fail::from("no document"));
    };
    let mut builder = TreeBuilder::new(alloc);
    builder.text(Text::new(alloc))?;
    let edit = Edit::Insert {
        parent: Path::of(alloc, &[])?,
        index: 0,
        fragment: builder.finish(),
    };
    let mut engine = Engine::start(alloc, tree, "", &mut steps)?;
    document_after(alloc, &mut engine, &edit, &mut steps)
}

#[test]
fn edits_of_children(rt: HostRuntime) -> Result<(), Fail> {
    assert_eq!(rt; wrong_line(&rt, &CHILDREN)?, None);
    Ok(())
}

#[test]
fn refused_edits(rt: HostRuntime) -> Result<(), Fail> {
    assert_eq!(rt; wrong_line(&rt, &REFUSALS)?, None);
    Ok(())
}

#[test]
fn the_first_goes_last(rt: HostRuntime) -> Result<(), Fail> {
    assert_eq!(rt; wrong_line(&rt, &FIRST_TO_LAST)?, None);
    Ok(())
}

#[test]
fn insertions(rt: HostRuntime) -> Result<(), Fail> {
    assert_eq!(rt; wrong_line(&rt, &INSERTIONS)?, None);
    Ok(())
}

#[test]
fn moves(rt: HostRuntime) -> Result<(), Fail> {
    assert_eq!(rt; wrong_line(&rt, &MOVES)?, None);
    Ok(())
}

#[test]
fn removals(rt: HostRuntime) -> Result<(), Fail> {
    assert_eq!(rt; wrong_line(&rt, &REMOVALS)?, None);
    Ok(())
}

#[test]
fn attributes(rt: HostRuntime) -> Result<(), Fail> {
    assert_eq!(rt; wrong_line(&rt, &ATTRIBUTES)?, None);
    Ok(())
}

#[test]
fn sheets(rt: HostRuntime) -> Result<(), Fail> {
    assert_eq!(rt; wrong_line(&rt, &SHEETS)?, None);
    assert_eq!(rt; wrong_line(&rt, &STYLE_ELEMENTS)?, None);
    Ok(())
}

#[test]
fn an_empty_text(rt: HostRuntime) -> Result<(), Fail> {
    let tree = with_empty_text::<Brand>(&rt, Blank::new(1))?;
    assert_eq!(rt; tree.len(), 2);
    assert_eq!(rt; tree.depth(1), 1);
    assert!(rt; matches!(tree.node(1), NodeView::Text { characters: "" }));
    Ok(())
}
