//! What books keep of elements under edits, worked out by hand.

ghost use Rattle.std.specs.Prelude.{◌≡◌, ◌<◌, true, IfOk};
ghost use Rattle.forest.specs.Spots.{IsLive};

use crate::edits::{NUMBERED, edit_of};
use dirty_walk::book::Book;
use evaluation_rows::shown::show_set;
use evaluation_rows::trees::{same_tree, tree_of};
use generated_texts::entry::{BoxText, NodeEntry};
use plain_types::edit::Edit;
use plain_types::list::List;
use plain_types::memory::Memory;
use plain_types::path::Path;
use plain_types::text::Text;
use std::alloc::Global;
use std::marker::Brand;
use std::sync::ledger::{Blank, Ledger};
use std::test::Fail;
use steps::Steps;

/// The path of a node.
type Place = &'static [usize];

/// An element once a document is edited: its path before, if it was there then, its path, and what is kept of it. That
/// is its own counters, those that it is left with, the quote depths before and behind it, and the texts of its marker,
/// before and after boxes, each flat and then full.
type Kept = (Option<Place>, Place, &'static str);

/// A document, its sheet, edits of it, and elements then.
struct Row {
    document: &'static str,
    sheet: &'static str,
    /// Lines of a script. What the document does not allow is left out.
    edits: &'static [&'static str],
    kept: &'static [Kept],
}

const LIST: &str = "<ol><li/><li/><li/></ol>";

static LISTS: [Row; 7] = [
    // as a book begins, and as edits leave it that are refused
    Row {
        document: LIST,
        sheet: "",
        edits: &["remove /", "remove /3", "move /0 /0 0", "insert / 4 <li/>"],
        kept: &[
            (Some(&[]), &[], "(list-item 0) (list-item 3) 0 0"),
            (
                Some(&[0]),
                &[0],
                "(list-item 1) (list-item 1) 0 0 marker '1. ' '1. '",
            ),
            (
                Some(&[1]),
                &[1],
                "(list-item 2) (list-item 2) 0 0 marker '2. ' '2. '",
            ),
            (
                Some(&[2]),
                &[2],
                "(list-item 3) (list-item 3) 0 0 marker '3. ' '3. '",
            ),
        ],
    },
    // numbers behind an item that comes go on
    Row {
        document: LIST,
        sheet: "",
        edits: &["insert / 1 <li/>"],
        kept: &[
            (Some(&[]), &[], "(list-item 0) (list-item 4) 0 0"),
            (
                Some(&[0]),
                &[0],
                "(list-item 1) (list-item 1) 0 0 marker '1. ' '1. '",
            ),
            (
                None,
                &[1],
                "(list-item 2) (list-item 2) 0 0 marker '2. ' '2. '",
            ),
            (
                Some(&[1]),
                &[2],
                "(list-item 3) (list-item 3) 0 0 marker '3. ' '3. '",
            ),
            (
                Some(&[2]),
                &[3],
                "(list-item 4) (list-item 4) 0 0 marker '4. ' '4. '",
            ),
        ],
    },
    // one goes, and the last of the two that are left becomes the first
    Row {
        document: LIST,
        sheet: "",
        edits: &["remove /0", "move /1 / 0"],
        kept: &[
            (Some(&[]), &[], "(list-item 0) (list-item 2) 0 0"),
            (
                Some(&[2]),
                &[0],
                "(list-item 1) (list-item 1) 0 0 marker '1. ' '1. '",
            ),
            (
                Some(&[1]),
                &[1],
                "(list-item 2) (list-item 2) 0 0 marker '2. ' '2. '",
            ),
        ],
    },
    // one goes and another comes, whose key may be the one that was freed
    Row {
        document: LIST,
        sheet: "",
        edits: &["remove /0", r#"insert / 2 <li value="9"/>"#],
        kept: &[
            (
                Some(&[1]),
                &[0],
                "(list-item 1) (list-item 1) 0 0 marker '1. ' '1. '",
            ),
            (
                Some(&[2]),
                &[1],
                "(list-item 2) (list-item 2) 0 0 marker '2. ' '2. '",
            ),
            (
                None,
                &[2],
                "(list-item 9) (list-item 9) 0 0 marker '9. ' '9. '",
            ),
        ],
    },
    // from one list to the end of the other
    Row {
        document: "<body><ol><li/></ol><ol><li/><li/></ol></body>",
        sheet: "",
        edits: &["move /1/0 /0 1"],
        kept: &[
            (Some(&[]), &[], "() (list-item 1) 0 0"),
            (Some(&[0]), &[0], "(list-item 0) (list-item 2) 0 0"),
            (
                Some(&[0, 0]),
                &[0, 0],
                "(list-item 1) (list-item 1) 0 0 marker '1. ' '1. '",
            ),
            (
                Some(&[1, 0]),
                &[0, 1],
                "(list-item 2) (list-item 2) 0 0 marker '2. ' '2. '",
            ),
            (Some(&[1]), &[1], "(list-item 0) (list-item 1) 0 0"),
            (
                Some(&[1, 1]),
                &[1, 0],
                "(list-item 1) (list-item 1) 0 0 marker '1. ' '1. '",
            ),
        ],
    },
    // a start that follows from the items behind it
    Row {
        document: r#"<ol reversed=""><li/><li/></ol>"#,
        sheet: "",
        edits: &["insert / 2 <li/>"],
        kept: &[
            (
                Some(&[]),
                &[],
                "(reversed list-item 4) (reversed list-item 1) 0 0",
            ),
            (
                Some(&[0]),
                &[0],
                "(reversed list-item 3) (reversed list-item 3) 0 0 marker '3. ' '3. '",
            ),
            (
                Some(&[1]),
                &[1],
                "(reversed list-item 2) (reversed list-item 2) 0 0 marker '2. ' '2. '",
            ),
            (
                None,
                &[2],
                "(reversed list-item 1) (reversed list-item 1) 0 0 marker '1. ' '1. '",
            ),
        ],
    },
    // an element without a box is kept too
    Row {
        document: "<ol><li/><li/></ol>",
        sheet: "",
        edits: &["set /0 style display:none"],
        kept: &[
            (Some(&[]), &[], "(list-item 0) (list-item 1) 0 0"),
            (Some(&[0]), &[0], "no box () () 0 0"),
            (
                Some(&[1]),
                &[1],
                "(list-item 1) (list-item 1) 0 0 marker '1. ' '1. '",
            ),
        ],
    },
];

/// Documents in which a list counts down, or comes to do so.
static COUNTED_DOWN: [Row; 4] = [
    // a list comes to count down, and then another item comes
    Row {
        document: "<ol><li/></ol>",
        sheet: "",
        edits: &["set / reversed r", "insert / 1 <li/>"],
        kept: &[
            (
                Some(&[]),
                &[],
                "(reversed list-item 3) (reversed list-item 1) 0 0",
            ),
            (
                Some(&[0]),
                &[0],
                "(reversed list-item 2) (reversed list-item 2) 0 0 marker '2. ' '2. '",
            ),
            (
                None,
                &[1],
                "(reversed list-item 1) (reversed list-item 1) 0 0 marker '1. ' '1. '",
            ),
        ],
    },
    // and counts up again
    Row {
        document: r#"<ol reversed=""><li/></ol>"#,
        sheet: "",
        edits: &["insert / 1 <li/>", "unset / reversed", "move /1 / 0"],
        kept: &[
            (Some(&[]), &[], "(list-item 0) (list-item 2) 0 0"),
            (
                None,
                &[0],
                "(list-item 1) (list-item 1) 0 0 marker '1. ' '1. '",
            ),
            (
                Some(&[0]),
                &[1],
                "(list-item 2) (list-item 2) 0 0 marker '2. ' '2. '",
            ),
        ],
    },
    // out of a list in a list: both have another start
    Row {
        document: r#"<ol reversed=""><li><ol reversed=""><li/><li/></ol></li><li/></ol>"#,
        sheet: "",
        edits: &["move /0/0/1 / 2"],
        kept: &[
            (
                Some(&[]),
                &[],
                "(reversed list-item 4) (reversed list-item 1) 0 0",
            ),
            (
                Some(&[1]),
                &[1],
                "(reversed list-item 2) (reversed list-item 2) 0 0 marker '2. ' '2. '",
            ),
            (
                Some(&[0, 0, 1]),
                &[2],
                "(reversed list-item 1) (reversed list-item 1) 0 0 marker '1. ' '1. '",
            ),
        ],
    },
    // an item that has no box does not count
    Row {
        document: r#"<ol reversed=""><li/><li/><li/></ol>"#,
        sheet: "",
        edits: &["set /1 style display:none"],
        kept: &[
            (
                Some(&[0]),
                &[0],
                "(reversed list-item 2) (reversed list-item 2) 0 0 marker '2. ' '2. '",
            ),
            (Some(&[1]), &[1], "no box () () 0 0"),
            (
                Some(&[2]),
                &[2],
                "(reversed list-item 1) (reversed list-item 1) 0 0 marker '1. ' '1. '",
            ),
        ],
    },
];

const OPEN: &str = ".o::after{content:none}";

const BOTH: &str =
    r##"p::before{content:"P"target-text("#b",before)}b::before{content:"B"target-text("#a",before)}"##;

const REFERRED: &str = r##"<body><a href="#x"/><h1 id="x">one</h1><h1 id="x">two</h1></body>"##;

const REFERS: &str = "a::after{content:target-text(attr(href))}";

/// Edits that change what is kept of elements which they do not touch.
static ELSEWHERE: [Row; 9] = [
    // a quotation that is left open, and one that is closed again
    Row {
        document: "<p><q/><q/></p>",
        sheet: OPEN,
        edits: &["set /0 class o"],
        kept: &[
            (Some(&[]), &[], "() () 0 1"),
            (Some(&[0]), &[0], "() () 0 1 before '“' '“'"),
            (Some(&[1]), &[1], "() () 1 1 before '‘' '‘' after '’' '’'"),
        ],
    },
    Row {
        document: r#"<p><q class="o"/><q/></p>"#,
        sheet: OPEN,
        edits: &["unset /0 class"],
        kept: &[
            (Some(&[]), &[], "() () 0 0"),
            (Some(&[0]), &[0], "() () 0 0 before '“' '“' after '”' '”'"),
            (Some(&[1]), &[1], "() () 0 0 before '“' '“' after '”' '”'"),
        ],
    },
    // boxes that refer to each other: the full texts have the flat ones
    Row {
        document: r#"<p id="a"><b id="b"/></p>"#,
        sheet: BOTH,
        edits: &[],
        kept: &[
            (Some(&[]), &[], "() () 0 0 before 'P' 'PB'"),
            (Some(&[0]), &[0], "() () 0 0 before 'B' 'BP'"),
        ],
    },
    Row {
        document: r#"<p id="a"><b id="b"/></p>"#,
        sheet: BOTH,
        edits: &["set /0 id c"],
        kept: &[
            (Some(&[]), &[], "() () 0 0 before 'P' 'P'"),
            (Some(&[0]), &[0], "() () 0 0 before 'B' 'BP'"),
        ],
    },
    // the first of two elements with one id goes, or becomes the second
    Row {
        document: REFERRED,
        sheet: REFERS,
        edits: &["remove /1"],
        kept: &[
            (Some(&[0]), &[0], "() () 0 0 after 'two' 'two'"),
            (Some(&[2]), &[1], "() () 0 0"),
        ],
    },
    Row {
        document: REFERRED,
        sheet: REFERS,
        edits: &["move /1 / 2"],
        kept: &[
            (Some(&[0]), &[0], "() () 0 0 after 'two' 'two'"),
            (Some(&[1]), &[2], "() () 0 0"),
            (Some(&[2]), &[1], "() () 0 0"),
        ],
    },
    // the text of one that is referred to
    Row {
        document: REFERRED,
        sheet: REFERS,
        edits: &["insert /1 1 th", "remove /1/0"],
        kept: &[(Some(&[0]), &[0], "() () 0 0 after 'th' 'th'")],
    },
    // a style element that comes, and another sheet
    Row {
        document: "<p><b/></p>",
        sheet: NUMBERED,
        edits: &["insert / 0 <style>b{counter-increment:n 5}</style>"],
        kept: &[
            (Some(&[]), &[], "(n 0) (n 5) 0 0"),
            (None, &[0], "no box () () 0 0"),
            (Some(&[0]), &[1], "(n 5) (n 5) 0 0 before '5' '5'"),
        ],
    },
    Row {
        document: "<p><b/></p>",
        sheet: NUMBERED,
        edits: &["sheet plain.css"],
        kept: &[
            (Some(&[]), &[], "() () 0 0"),
            (Some(&[0]), &[0], "() () 0 0 before 'b' 'b'"),
        ],
    },
];

/// A box with its texts, if it is there, as ` before 'flat' 'full'`.
fn show_texts(kind: &str, text: Option<&BoxText>, out: &mut Text) -> Result<(), Memory> {
    let Some(text) = text else {
        return Ok(());
    };
    for part in [
        kind,
        " '",
        text.flat.as_str(),
        "' '",
        text.full.as_str(),
        "'",
    ] {
        out.push_str(part)?;
    }
    Ok(())
}

/// What is kept of an element, as rows tell it.
fn show_entry(alloc: Global, entry: &NodeEntry, out: &mut Text) -> Result<(), Memory> {
    out.push_str(if entry.has_box { "" } else { "no box " })?;
    show_set(alloc, &entry.own, out)?;
    show_set(alloc, &entry.exit, out)?;
    let depths = format!(in alloc; "{} {}", entry.depth_before, entry.depth_after)?;
    out.push_str(depths.as_str())?;
    show_texts(" marker", entry.marker.as_ref(), out)?;
    show_texts(" before", entry.before.as_ref(), out)?;
    show_texts(" after", entry.after.as_ref(), out)
}

/// What a book keeps of a node: of an element its entry, of a text nothing.
fn show_kept<L: Ledger>(
    alloc: Global,
    book: &Book,
    key: usize,
    steps: &mut Steps<L>,
    out: &mut Text,
) -> Result<(), Memory>
    requires settled { book.now.settled ≡ true }
    requires live { IsLive book.now.tree key }
{
    if book.arena().name(key).is_some() {
        show_entry(alloc, book.entry(key, steps), out)?;
    }
    Ok(())
}

/// The keys of a book's nodes in tree order, each with what is kept of the node.
fn state_of<L: Ledger>(alloc: Global, book: &Book, steps: &mut Steps<L>) -> Result<Text, Memory>
    requires { book.now.settled ≡ true }
{
    let mut out = Text::new(alloc);
    let mut at = book.arena().root();
    'walk: for _place in 0..100 {
        out.push_str(format!(in alloc; "{at} ")?.as_str())?;
        show_kept(alloc, book, at, steps, &mut out)?;
        match book.arena().next_in_order(at) {
            Some(next) => at = next,
            None => break,
        }
    }
    Ok(out)
}

/// Does an edit of a book, unless the document does not allow it.
fn edit_book<L: Ledger>(
    alloc: Global,
    book: &mut Book,
    edit: &Edit,
    steps: &mut Steps<L>,
) -> Result<(), Memory>
    requires { book.old.settled ≡ true }
    ensures { book.new.settled ≡ true }
{
    if book.arena().allows(edit).is_none() {
        let plan = book.plan(alloc, edit, steps)?;
        book.commit(plan, steps);
    }
    Ok(())
}

/// The same. Where memory is wanting the book is to be as before, its keys too, and the edit is done again.
fn edit_again<L: Ledger>(
    alloc: Global,
    book: &mut Book,
    edit: &Edit,
    steps: &mut Steps<L>,
) -> Result<(), Fail>
    requires { book.old.settled ≡ true }
    ensures { book.new.settled ≡ true }
{
    let before = state_of(alloc, book, steps)?;
    if edit_book(alloc, book, edit, steps).is_ok() {
        return Ok(());
    }
    if state_of(alloc, book, steps)?.as_str() != before.as_str() {
        return Err(Fail::from("an edit is done in part"));
    }
    Ok(edit_book(alloc, book, edit, steps)?)
}

/// Does edits of a book, each a line of a script, unless the document does not allow it.
fn edit_by_lines<L: Ledger>(
    alloc: Global,
    book: &mut Book,
    lines: &[&str],
    steps: &mut Steps<L>,
) -> Result<(), Fail>
    requires { book.old.settled ≡ true }
    ensures { book.new.settled ≡ true }
{
    'lines: for line in lines {
        let edit = edit_of(alloc, line)?;
        edit_again(alloc, book, &edit, steps)?;
    }
    Ok(())
}

/// The key of the node at a path, if there are both.
fn key_at(alloc: Global, book: &Book, path: Option<Place>) -> Result<Option<usize>, Memory>
    requires { book.now.settled ≡ true }
{
    match path {
        Some(path) => Ok(book.arena().at(&Path::of(alloc, path)?)),
        None => Ok(None),
    }
}

/// The keys that the elements of a row have before its edits.
fn keys_before(alloc: Global, book: &Book, row: &Row) -> Result<List<Option<usize>>, Memory>
    requires { book.now.settled ≡ true }
{
    let mut keys = List::new(alloc);
    for (before, _path, _entry) in row.kept {
        keys.push(key_at(alloc, book, *before)?)?;
    }
    Ok(keys)
}

/// Whether an element has the key from before, if it was there, and this is kept of it.
fn is_kept<L: Ledger>(
    alloc: Global,
    book: &Book,
    kept: &Kept,
    key_before: Option<usize>,
    steps: &mut Steps<L>,
) -> Result<bool, Memory>
    requires { book.now.settled ≡ true }
{
    let (before, path, entry) = kept;
    let Some(key) = book.arena().at(&Path::of(alloc, path)?) else {
        return Ok(false);
    };
    let mut out = Text::new(alloc);
    show_kept(alloc, book, key, steps, &mut out)?;
    let stays = before.is_none() || key_before == Some(key);
    Ok(stays && out.as_str() == *entry)
}

/// Does the edits of a row; what it says of the first element of which something else is kept then, or which has
/// another key than before; none where each is as the row says.
fn first_wrong_entry<L: Ledger>(
    alloc: Global,
    book: &mut Book,
    row: &Row,
    steps: &mut Steps<L>,
) -> Result<Option<&'static str>, Fail>
    requires { book.old.settled ≡ true }
{
    let keys = keys_before(alloc, book, row)?;
    edit_by_lines(alloc, book, row.edits, steps)?;
    for (kept, before) in row.kept.iter().zip(keys.as_slice()) {
        if !is_kept(alloc, book, kept, *before, steps)? {
            return Ok(Some(kept.2));
        }
    }
    Ok(None)
}

/// The same from the document and the sheet on.
fn first_wrong<L: Ledger>(
    rt: &HostRuntime,
    blank: Blank,
    row: &Row,
) -> Result<Option<&'static str>, Fail>
    requires name { blank.name ≡ L.name }
    requires parts { blank.parts ≡ L.parts }
    requires some { 0 < L.parts }
{
    let alloc = rt.alloc();
    let mut steps = Steps::<L>::open(rt, blank);
    let Some(tree) = tree_of(alloc, row.document)? else {
        return Err(Fail::from("no document"));
    };
    let mut book = Book::begin(alloc, tree, row.sheet, &mut steps)?;
    first_wrong_entry(alloc, &mut book, row, &mut steps)
}

/// The same of each row of a table, with steps that nobody reads.
fn wrong_entry(rt: &HostRuntime, table: &[Row]) -> Result<Option<&'static str>, Fail> {
    for row in table {
        let wrong = first_wrong::<Brand>(rt, Blank::new(1), row)?;
        if wrong.is_some() {
            return Ok(wrong);
        }
    }
    Ok(None)
}

#[test]
fn items_come_and_go(rt: HostRuntime) -> Result<(), Fail> {
    assert_eq!(rt; wrong_entry(&rt, &LISTS)?, None);
    Ok(())
}

#[test]
fn lists_count_down(rt: HostRuntime) -> Result<(), Fail> {
    assert_eq!(rt; wrong_entry(&rt, &COUNTED_DOWN)?, None);
    Ok(())
}

#[test]
fn edits_reach_elsewhere(rt: HostRuntime) -> Result<(), Fail> {
    assert_eq!(rt; wrong_entry(&rt, &ELSEWHERE)?, None);
    Ok(())
}

/// The first item becomes the last.
static FIRST_TO_LAST: Row = Row {
    document: r#"<ol><li id="a"/><li id="b"/><li id="c"/></ol>"#,
    sheet: "",
    edits: &["move /0 / 3", "move /0 / 2", "unset /1 title"],
    kept: &[],
};

const MOVED: &str = r#"<ol><li id="b"/><li id="c"/><li id="a"/></ol>"#;

/// A book after the edits of a row.
fn edited_book<L: Ledger>(rt: &HostRuntime, blank: Blank, row: &Row) -> Result<Book, Fail>
    requires name { blank.name ≡ L.name }
    requires parts { blank.parts ≡ L.parts }
    requires some { 0 < L.parts }
    ensures settled { IfOk result (λ book. book.settled ≡ true) }
{
    let alloc = rt.alloc();
    let mut steps = Steps::<L>::open(rt, blank);
    let Some(tree) = tree_of(alloc, row.document)? else {
        return Err(Fail::from("no document"));
    };
    let mut book = Book::begin(alloc, tree, row.sheet, &mut steps)?;
    edit_by_lines(alloc, &mut book, row.edits, &mut steps)?;
    Ok(book)
}

/// The paths of the root and of its three children.
static PATHS: [Place; 4] = [&[], &[0], &[1], &[2]];

/// Whether a book has the document in which the first item is the last, and tells the paths of its nodes.
fn tells_its_document(alloc: Global, book: &Book) -> Result<bool, Fail>
    requires { book.now.settled ≡ true }
{
    let arena = book.arena();
    let expected = tree_of(alloc, MOVED)?.ok_or("no document")?;
    if !same_tree(&arena.to_tree(alloc)?, &expected) {
        return Ok(false);
    }
    for path in &PATHS {
        let Some(key) = arena.at(&Path::of(alloc, path)?) else {
            return Ok(false);
        };
        if arena.path_of(alloc, key)?.as_slice() != *path {
            return Ok(false);
        }
    }
    Ok(true)
}

fn the_moved_book_tells_its_document(rt: &HostRuntime) -> Result<bool, Fail> {
    let book = edited_book::<Brand>(rt, Blank::new(1), &FIRST_TO_LAST)?;
    tells_its_document(rt.alloc(), &book)
}

#[test]
fn a_book_by_itself(rt: HostRuntime) -> Result<(), Fail> {
    assert!(rt; the_moved_book_tells_its_document(&rt)?);
    Ok(())
}
