//! The reach of edits, beside the styles that they change.

ghost use Rattle.std.specs.Prelude.{◌≡◌, ◌<◌, None};
ghost use Rattle.forest.specs.Keys.{without_keys};
ghost use Rattle.forest.specs.Spots.{IsLive};
ghost use Rattle.node_arena.specs.Edits.{place_fault};

use crate::element_styles::{Styled, author_sheet, is_within, keys_of, styles_of};
use css_reader::sheet::read_sheet;
use edit_script::action::Action;
use edit_script::read_script;
use mini_cascade::agent_sheet::AGENT_SHEET;
use mini_cascade::rule_table::RuleTable;
use node_arena::arena::{Arena, has_element_root};
use plain_types::duplicate::Duplicate;
use plain_types::edit::Edit;
use plain_types::memory::Memory;
use plain_types::text::Text;
use std::alloc::Global;
use std::collections::HashMap;
use std::io::Read;
use std::marker::Brand;
use std::sync::ledger::{Blank, Ledger};
use steps::Steps;
use style_reach::extent::Reach;
use style_reach::reach::{all_features, reach};
use xhtml_reader::read_document;

/// A document with the text of the sheet beside it.
#[derive(Drop)]
struct SheetedDocument {
    arena: Arena,
    sheet: Text,
}

/// Where an edit meets an element.
#[derive(Clone, Copy, PartialEq, Eq)]
enum Place {
    /// In the tree that it takes out, moves or addresses.
    Edited,
    /// Beside that tree, where it reaches.
    Reached,
    Outside,
}

fn document_of(alloc: Global, text: &str) -> Option<SheetedDocument> {
    let tree = read_document(alloc, text).ok()?;
    if !has_element_root(&tree) {
        return None;
    }
    Some(SheetedDocument {
        arena: Arena::from_tree(alloc, &tree).ok()?,
        sheet: Text::new(alloc),
    })
}

/// The edit of a line of a script; behind `sheet` stands the text of a sheet, and no name of a file.
fn edit_of(alloc: Global, line: &str) -> Option<Edit> {
    let commands = read_script(alloc, line).ok()?;
    match &commands.as_slice().first()?.action {
        Action::Change(edit) => edit.duplicate(alloc).ok(),
        Action::SheetFile(text) => Some(Edit::ReplaceSheet {
            text: text.duplicate(alloc).ok()?,
        }),
        _ => None,
    }
}

/// The node that an edit takes out, moves or addresses.
fn edited_node(arena: &Arena, edit: &Edit) -> Option<usize> {
    match edit {
        Edit::Remove { path } => arena.at(path),
        Edit::Move { from, .. } => arena.at(from),
        Edit::SetAttr { path, .. } => arena.at(path),
        Edit::UnsetAttr { path, .. } => arena.at(path),
        Edit::Insert { .. } | Edit::ReplaceSheet { .. } => None,
    }
}

/// Whether a node stands where an edit reaches beside the edited tree.
fn is_reached(arena: &Arena, reach: Reach, key: usize) -> bool
    requires live { IsLive arena.now.tree key }
{
    match reach {
        Reach::Own => false,
        Reach::Under(top) => is_within(arena, top, key),
        Reach::Both(first, second) => is_within(arena, first, key) || is_within(arena, second, key),
        Reach::All => true,
    }
}

fn place_of(arena: &Arena, edited: Option<usize>, reach: Reach, key: usize) -> Place
    requires live { IsLive arena.now.tree key }
{
    match edited {
        Some(top) if is_within(arena, top, key) => Place::Edited,
        _ if is_reached(arena, reach, key) => Place::Reached,
        _ => Place::Outside,
    }
}

/// Where an edit meets the nodes of a document, by key.
fn places_of(
    alloc: Global,
    arena: &Arena,
    edit: &Edit,
    reach: Reach,
) -> Result<Vec<(usize, Place)>, Memory> {
    let edited = edited_node(arena, edit);
    let keys = keys_of(alloc, arena)?;
    let mut places = Vec::new(alloc);
    for key in keys.as_slice() {
        places.push((*key, place_of(arena, edited, reach, *key)))?;
    }
    Ok(places)
}

/// Of the elements that are there before an edit and after it, how many there are at a place, and how many of these have
/// other styles then.
#[derive(Clone, Copy)]
struct Tally {
    elements: usize,
    changed: usize,
}

impl Tally {
    fn count(&mut self, is_changed: bool) {
        self.elements = self.elements.saturating_add(1);
        if is_changed {
            self.changed = self.changed.saturating_add(1);
        }
    }
}

/// What an edit finds: its reach, the places of nodes and the styles of elements, both by key.
#[derive(Drop)]
struct Before {
    reach: Reach,
    places: Vec<(usize, Place)>,
    styles: HashMap<usize, Styled>,
}

fn tally_of(before: &Before, place: Place, after: &HashMap<usize, Styled>) -> Tally {
    let mut tally = Tally {
        elements: 0,
        changed: 0,
    };
    for (key, held) in before.places.as_slice() {
        if *held == place {
            if let (Some(old), Some(new)) = (before.styles.get(key), after.get(key)) {
                tally.count(old.words != new.words);
            }
        }
    }
    tally
}

fn word_of(reach: Reach) -> &'static str {
    match reach {
        Reach::Own => "own",
        Reach::Under(_) => "under",
        Reach::Both(_, _) => "both",
        Reach::All => "everywhere",
    }
}

/// Prints the reach, and of each place how many elements are compared and how many of them have other styles.
fn show_compared(rt: &HostRuntime, before: &Before, after: &HashMap<usize, Styled>) -> Option<()> {
    print!(rt; "{}", word_of(before.reach)).ok()?;
    for place in [Place::Edited, Place::Reached, Place::Outside] {
        let tally = tally_of(before, place, after);
        print!(rt; " {} {}", tally.elements, tally.changed).ok()?;
    }
    println!(rt; "").ok()
}

/// The author's sheet of a document, with its rules filed.
fn table_of(alloc: Global, document: &SheetedDocument) -> Result<RuleTable, Memory> {
    RuleTable::new(
        alloc,
        author_sheet(alloc, &document.arena, &document.sheet)?,
    )
}

fn found<L: Ledger>(
    alloc: Global,
    agent: &RuleTable,
    document: &SheetedDocument,
    edit: &Edit,
    steps: &mut Steps<L>,
) -> Result<Before, Memory> {
    let author = table_of(alloc, document)?;
    let features = all_features(agent.sheet(), author.sheet());
    let reach = reach(&document.arena, features, edit);
    Ok(Before {
        reach,
        places: places_of(alloc, &document.arena, edit, reach)?,
        styles: styles_of(alloc, &document.arena, agent, &author, steps)?,
    })
}

/// Does an edit that the document allows, and gives the styles of its elements after it. No new node has the key of one that
/// was there.
fn edited_styles<L: Ledger>(
    alloc: Global,
    agent: &RuleTable,
    document: &mut SheetedDocument,
    edit: &Edit,
    steps: &mut Steps<L>,
) -> Result<HashMap<usize, Styled>, Memory>
    requires allowed { place_fault edit.now (without_keys document.old.arena.tree) ≡ None }
{
    if let Edit::ReplaceSheet { text } = edit {
        document.sheet = text.duplicate(alloc)?;
    }
    let prepared = document.arena.prepare(alloc, edit)?;
    let reversal = document.arena.commit(prepared);
    let author = table_of(alloc, document)?;
    let after = styles_of(alloc, &document.arena, agent, &author, steps)?;
    document.arena.settle(reversal);
    Ok(after)
}

/// Does an edit, and prints what is compared; `refused` where the document does not allow it.
fn show_edit<L: Ledger>(
    rt: &HostRuntime,
    agent: &RuleTable,
    document: &mut SheetedDocument,
    edit: &Edit,
    steps: &mut Steps<L>,
) -> Option<()> {
    let alloc = rt.alloc();
    let before = found(alloc, agent, document, edit, steps).ok()?;
    if let Some(_fault) = document.arena.allows(edit) {
        return println!(rt; "refused").ok();
    }
    let after = edited_styles(alloc, agent, document, edit, steps).ok()?;
    show_compared(rt, &before, &after)
}

/// Does what the lines of a text say, and answers how many edits there were.
fn show_lines<L: Ledger>(rt: &HostRuntime, blank: Blank, text: &[u8]) -> Option<usize>
    requires name { blank.name ≡ L.name }
    requires parts { blank.parts ≡ L.parts }
    requires some { 0 < L.parts }
{
    let alloc = rt.alloc();
    let lines = str::from_utf8(text).ok()?;
    let mut steps = Steps::<L>::open(rt, blank);
    let agent = RuleTable::new(alloc, read_sheet(alloc, AGENT_SHEET).ok()?).ok()?;
    let mut document: Option<SheetedDocument> = None;
    let mut count: usize = 0;
    for line in lines.lines() {
        match line.strip_prefix("document ") {
            Some(text) => document = Some(document_of(alloc, text)?),
            None => {
                let edit = edit_of(alloc, line)?;
                show_edit(rt, &agent, document.as_mut()?, &edit, &mut steps)?;
                count = count.saturating_add(1);
            }
        }
    }
    Some(count)
}

/// Does the edits on standard input, and prints of each its reach and how many elements have other styles then. A line is
/// `document` and a document, which has no sheet yet, or an edit as in a script; behind `sheet` stands a sheet's text.
pub(crate) fn show_reaches(rt: &HostRuntime) -> Option<usize> {
    let mut bytes = Vec::new(rt.alloc());
    rt.reader().read_to_end(&mut bytes).ok()?;
    show_lines::<Brand>(rt, Blank::new(1), bytes.as_slice())
}
