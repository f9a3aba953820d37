//! The reach of edits, worked out by hand.

use css_reader::sheet::read_sheet;
use edit_script::action::Action;
use edit_script::command::Command;
use edit_script::read_script;
use mini_cascade::agent_sheet::AGENT_SHEET;
use node_arena::arena::{Arena, has_element_root};
use plain_types::duplicate::Duplicate;
use plain_types::edit::Edit;
use plain_types::memory::Memory;
use plain_types::path::Path;
use plain_types::sheet::Sheet;
use plain_types::text::Text;
use std::alloc::Global;
use std::test::Fail;
use style_reach::extent::Reach;
use style_reach::reach::{all_features, reach};
use xhtml_reader::read_document;

/// A document with a style element, a list of two items, and a paragraph.
const DOCUMENT: &str =
    "<html><head><style>i{}</style></head><body><ul><li>a</li><li/></ul><p/></body></html>";

/// A reach whose nodes are named by their paths.
enum Reached {
    Own,
    Under(&'static str),
    Both(&'static str, &'static str),
    All,
}

/// The author's sheet, an edit as a line of a script, and its reach.
type Reaching = (&'static str, &'static str, Reached);

static ROWS: [Reaching; 37] = [
    // an attribute
    ("ul>li{}", "set /1/0/0 class x", Reached::Own),
    ("li:last-child{}", "set /1/0/0 class x", Reached::Own),
    ("p:empty{}", "set /1/0/0 class x", Reached::Own),
    ("li+li{}", "set /1/0/0 class x", Reached::Under("/1/0")),
    ("li~li{}", "unset /1/0/0 class", Reached::Under("/1/0")),
    ("li+li{}", "set / class x", Reached::Own),
    // a child comes
    ("ul>li{}", "insert /1/0 2 <li/>", Reached::Own),
    (
        "li:last-child{}",
        "insert /1/0 2 <li/>",
        Reached::Under("/1/0"),
    ),
    (
        ":not(:is(p:only-of-type)){}",
        "insert /1/0 2 <li/>",
        Reached::Under("/1/0"),
    ),
    ("li+li{}", "insert /1/0 2 <li/>", Reached::Under("/1/0")),
    ("ul:empty{}", "insert /1/0 2 t", Reached::Under("/1/0")),
    ("ul:empty+p{}", "insert /1/0 2 t", Reached::Under("/1")),
    ("ul:empty+p{}", "insert / 0 <p/>", Reached::Under("/")),
    // a child goes
    ("ul>li{}", "remove /1/0/1", Reached::Own),
    ("li:nth-child(2){}", "remove /1/0/1", Reached::Under("/1/0")),
    ("ul:empty{}li+li{}", "remove /1/0/1", Reached::Under("/1")),
    ("ul:empty{}li+li{}", "remove /1", Reached::Under("/")),
    // a child moves
    ("ul>li{}", "move /1/0/0 /1/1 0", Reached::Own),
    (
        "li:nth-child(2){}",
        "move /1/0/0 /1/1 0",
        Reached::Both("/1/0", "/1/1"),
    ),
    (
        "li:nth-child(2){}",
        "move /1/0/0 /1/0 1",
        Reached::Both("/1/0", "/1/0"),
    ),
    ("ul:empty~p{}", "move /1/0/0 /0 0", Reached::Both("/1", "/")),
    // a style element comes, goes, moves, or says otherwise in which language its sheet is
    ("", "insert /1 0 <style/>", Reached::All),
    ("", "insert /1 0 <p><b/><style/></p>", Reached::All),
    ("", "remove /0/0", Reached::All),
    ("", "remove /0", Reached::All),
    ("", "move /0/0 /1 0", Reached::All),
    ("", "set /0/0 type text/plain", Reached::All),
    ("", "unset /0/0 type", Reached::All),
    // what stands in one changes
    ("", "insert /0/0 0 t", Reached::All),
    ("", "remove /0/0/0", Reached::All),
    ("", "move /0/0/0 /1 0", Reached::All),
    ("", "move /1/1 /0/0 0", Reached::All),
    // none of these
    ("", "insert /0 0 <title/>", Reached::Own),
    ("", "remove /1", Reached::Own),
    ("", "set /0/0 media print", Reached::Own),
    ("", "set /1/0 type disc", Reached::Own),
    ("", "set /1/0/0 style quotes:none", Reached::Own),
];

fn arena_of(alloc: Global) -> Result<Option<Arena>, Fail> {
    let tree = read_document(alloc, DOCUMENT)?;
    if has_element_root(&tree) {
        Ok(Some(Arena::from_tree(alloc, &tree)?))
    } else {
        Ok(None)
    }
}

/// The path that is written so.
fn path_of(alloc: Global, written: &str) -> Result<Path, Memory> {
    let mut steps = Vec::new(alloc);
    for byte in written.as_bytes() {
        if *byte != b'/' {
            steps.push(usize::from(byte.saturating_sub(b'0')))?;
        }
    }
    Path::of(alloc, steps.as_slice())
}

/// The reach by keys, where the paths lead to nodes.
fn by_keys(alloc: Global, arena: &Arena, reached: &Reached) -> Result<Option<Reach>, Memory> {
    Ok(match reached {
        Reached::Own => Some(Reach::Own),
        Reached::Under(path) => match arena.at(&path_of(alloc, path)?) {
            Some(top) => Some(Reach::Under(top)),
            None => None,
        },
        Reached::Both(first, second) => {
            let first = arena.at(&path_of(alloc, first)?);
            match (first, arena.at(&path_of(alloc, second)?)) {
                (Some(first), Some(second)) => Some(Reach::Both(first, second)),
                _ => None,
            }
        }
        Reached::All => Some(Reach::All),
    })
}

/// The edit of a script of one line.
fn edit_of(alloc: Global, line: &str) -> Result<Edit, Fail> {
    let commands = read_script(alloc, line)?;
    match commands.as_slice() {
        [
            Command {
                line: _,
                action: Action::Change(edit),
            },
        ] => Ok(edit.duplicate(alloc)?),
        _ => Err(Fail::from("no edit")),
    }
}

/// Whether the edit has this reach under the two sheets.
fn has_reach(alloc: Global, arena: &Arena, agent: &Sheet, row: &Reaching) -> Result<bool, Fail> {
    let (sheet, line, reached) = row;
    let author = read_sheet(alloc, sheet)?;
    let edit = edit_of(alloc, line)?;
    let found = reach(arena, all_features(agent, &author), &edit);
    Ok(Some(found) == by_keys(alloc, arena, reached)?)
}

/// The first edit with another reach; none where each has the one beside it.
fn first_wrong(alloc: Global, table: &[Reaching]) -> Result<Option<&'static str>, Fail> {
    let arena = arena_of(alloc)?.ok_or("no document")?;
    let agent = read_sheet(alloc, AGENT_SHEET)?;
    for row in table {
        if !has_reach(alloc, &arena, &agent, row)? {
            return Ok(Some(row.1));
        }
    }
    Ok(None)
}

#[test]
fn reaches(rt: HostRuntime) -> Result<(), Fail> {
    assert_eq!(rt; first_wrong(rt.alloc(), &ROWS)?, None);
    Ok(())
}

#[test]
fn a_new_sheet_reaches_everywhere(rt: HostRuntime) -> Result<(), Fail> {
    let arena = arena_of(rt.alloc())?.ok_or("no document")?;
    let sheet = read_sheet(rt.alloc(), "")?;
    let edit = Edit::ReplaceSheet {
        text: Text::new(rt.alloc()),
    };
    let found = reach(&arena, all_features(&sheet, &sheet), &edit);
    assert_eq!(rt; found, Reach::All);
    Ok(())
}
