//! Edits of small documents, with what becomes of them or why they are refused.
//!
//! A document is written as its nodes in tree order, each by its depth and one letter: `t` is a text of the
//! character `t`, `e` a text without characters, and every other letter an element of that name. Attributes
//! follow in parentheses. A path is written as its positions.

use crate::pushing::{push_all, push_number};
use node_arena::arena::{Arena, has_element_root};
use node_arena::place_fault::PlaceFault;
use plain_types::attr::Attr;
use plain_types::edit::Edit;
use plain_types::list::List;
use plain_types::memory::Memory;
use plain_types::node::NodeView;
use plain_types::path::Path;
use plain_types::text::Text;
use plain_types::tree::Tree;
use plain_types::tree_builder::TreeBuilder;
use std::alloc::Global;
use std::fmt::InlineText;
use std::test::Fail;

const NO_PLACE: &str = "no place";

const INTO_ITSELF: &str = "into itself";

/// A document, the parent, the index, the fragment, and what becomes of the document.
type Inserted = (
    &'static str,
    &'static str,
    usize,
    &'static str,
    &'static str,
);

static INSERTIONS: [Inserted; 16] = [
    ("0p", "", 0, "0t", "0p1t"),
    ("0p1t", "", 2, "0t", NO_PLACE),
    ("0p", "", 1, "0t", NO_PLACE),
    ("0p", "", usize::MAX, "0t", NO_PLACE),
    ("0p", "0", 0, "0t", NO_PLACE),
    ("0p1t", "0", 0, "0t", NO_PLACE),
    ("0p1a", "00", 0, "0t", NO_PLACE),
    ("0p1a1b", "", 0, "0c", "0p1c1a1b"),
    ("0p1a1b", "", 1, "0c", "0p1a1c1b"),
    ("0p1a1b", "", 2, "0c", "0p1a1b1c"),
    ("0p1a1b", "", 3, "0c", NO_PLACE),
    ("0p1a", "0", 0, "0c1d1t", "0p1a2c3d3t"),
    ("0p1a2b1c", "0", 1, "0d1e", "0p1a2b2d3e1c"),
    ("0p1a2b1c", "1", 0, "0e", "0p1a2b1c2e"),
    ("0p", "", 0, "0e", "0p1e"),
    ("0p1t1t", "", 1, "0t", "0p1t1t1t"),
];

/// A document, the path, and what becomes of the document.
type Removed = (&'static str, &'static str, &'static str);

static REMOVALS: [Removed; 10] = [
    ("0p", "", NO_PLACE),
    ("0p", "0", NO_PLACE),
    ("0o1l2b2i", "9", NO_PLACE),
    ("0o1l2b2i", "", NO_PLACE),
    ("0p1t", "00", NO_PLACE),
    ("0p1a", "0", "0p"),
    ("0p1t1a", "0", "0p1a"),
    ("0p1a1t", "1", "0p1a"),
    ("0p1a2b3c2d1t", "00", "0p1a2d1t"),
    ("0p1a1b1c", "1", "0p1a1c"),
];

/// A document, the path, the new parent, the index, and what becomes of the document.
type Moved = (
    &'static str,
    &'static str,
    &'static str,
    usize,
    &'static str,
);

static MOVES: [Moved; 17] = [
    ("0p1t", "0", "0", 0, NO_PLACE),
    ("0p1b", "0", "0", 0, INTO_ITSELF),
    ("0p1b", "0", "0", 5, INTO_ITSELF),
    ("0o1l2b2i", "0", "01", 0, INTO_ITSELF),
    ("0p1b", "0", "00", 0, NO_PLACE),
    ("0p1b", "", "", 0, NO_PLACE),
    ("0p1b", "", "0", 0, NO_PLACE),
    ("0p1b", "1", "", 0, NO_PLACE),
    ("0p1b", "0", "1", 0, NO_PLACE),
    ("0p1b1t", "0", "1", 0, NO_PLACE),
    ("0o1a1b1c", "0", "", 3, NO_PLACE),
    ("0o1a1b1c", "0", "", 2, "0o1b1c1a"),
    ("0o1a1b1c", "0", "", 0, "0o1a1b1c"),
    ("0o1a1b1c", "2", "", 0, "0o1c1a1b"),
    ("0o1a1b1c", "1", "", 2, "0o1a1c1b"),
    ("0p1a2b", "00", "", 1, "0p1a1b"),
    ("0p1a2b", "00", "", 0, "0p1b1a"),
];

/// Moves from one parent to another.
static MOVES_AWAY: [Moved; 8] = [
    ("0p1a1b", "1", "0", 0, "0p1a2b"),
    ("0p1a1b", "0", "1", 0, "0p1b2a"),
    ("0p1a1b2c", "0", "10", 0, "0p1b2c3a"),
    ("0p1a1b2c", "0", "1", 1, "0p1b2c2a"),
    ("0p1a1b2c", "0", "1", 2, NO_PLACE),
    ("0p1a1t", "1", "0", 0, "0p1a2t"),
    ("0p1a2b3c2d", "00", "", 1, "0p1a2d1b2c"),
    ("0p1a2b2c1d", "01", "1", 0, "0p1a2b1d2c"),
];

/// One edit after the other of `<p><b/>t</p>`: the path, the attribute's name, its value or that it is unset,
/// and what becomes of the document.
type Set = (
    &'static str,
    &'static str,
    Option<&'static str>,
    &'static str,
);

static SETTINGS: [Set; 14] = [
    ("", "a", None, "0p1b1t"),
    ("0", "a", Some("1"), "0p1b(a=1)1t"),
    ("0", "b", Some("2"), "0p1b(a=1)(b=2)1t"),
    ("0", "a", Some(""), "0p1b(a=)(b=2)1t"),
    ("0", "A", Some("3"), "0p1b(a=)(b=2)(A=3)1t"),
    ("0", "c", None, "0p1b(a=)(b=2)(A=3)1t"),
    ("1", "a", Some("1"), NO_PLACE),
    ("1", "a", None, NO_PLACE),
    ("2", "a", Some("1"), NO_PLACE),
    ("00", "a", None, NO_PLACE),
    ("0", "a", None, "0p1b(b=2)(A=3)1t"),
    ("0", "a", Some("4"), "0p1b(b=2)(A=3)(a=4)1t"),
    ("0", "A", None, "0p1b(b=2)(a=4)1t"),
    ("", "b", Some("2"), "0p(b=2)1b(b=2)(a=4)1t"),
];

fn path_of(alloc: Global, digits: &str) -> Result<Path, Memory> {
    let mut steps = Vec::new(alloc);
    for digit in digits.as_bytes() {
        steps.push(usize::from(digit.saturating_sub(b'0')))?;
    }
    Path::of(alloc, steps.as_slice())
}

/// Puts the node of a letter.
fn put(alloc: Global, builder: &mut TreeBuilder, letter: u8) -> Result<bool, Memory> {
    let mut name = Text::new(alloc);
    if letter != b'e' {
        name.push(char::from(letter))?;
    }
    if !builder.accepts_node() {
        return Ok(false);
    }
    if letter == b'e' || letter == b't' {
        builder.text(name)?;
        return Ok(false);
    }
    builder.start(name, List::new(alloc))?;
    Ok(true)
}

/// Ends so many elements.
fn end(builder: &mut TreeBuilder, count: usize) {
    for _ended in 0..count {
        if builder.is_inside() {
            builder.end();
        }
    }
}

fn tree_of(alloc: Global, shape: &str) -> Result<Option<Tree>, Memory> {
    let mut builder = TreeBuilder::new(alloc);
    let mut open = 0_usize;
    for byte in shape.as_bytes() {
        if byte.is_ascii_digit() {
            let depth = usize::from(byte.saturating_sub(b'0'));
            end(&mut builder, open.saturating_sub(depth));
            open = depth;
        } else if put(alloc, &mut builder, *byte)? {
            open = open.saturating_add(1);
        }
    }
    end(&mut builder, open);
    if builder.is_whole() {
        Ok(Some(builder.finish()))
    } else {
        Ok(None)
    }
}

/// The letter of a node.
fn letter(node: NodeView<'_>) -> &str {
    match node {
        NodeView::Element { name, attrs: _ } => name,
        NodeView::Text { characters: "" } => "e",
        NodeView::Text { characters } => characters,
    }
}

fn attrs_of(node: NodeView<'_>) -> &[Attr] {
    match node {
        NodeView::Element { name: _, attrs } => attrs,
        NodeView::Text { characters: _ } => &[],
    }
}

fn push_attrs(attrs: &[Attr], shape: &mut Text) -> Result<(), Memory> {
    for attr in attrs {
        push_all(
            &["(", attr.name.as_str(), "=", attr.value.as_str(), ")"],
            shape,
        )?;
    }
    Ok(())
}

fn shape_of(alloc: Global, tree: &Tree) -> Result<Text, Memory> {
    let mut shape = Text::new(alloc);
    for place in 0..tree.len() {
        push_number(tree.depth(place), &mut shape)?;
        shape.push_str(letter(tree.node(place)))?;
        push_attrs(attrs_of(tree.node(place)), &mut shape)?;
    }
    Ok(shape)
}

fn word_of(fault: PlaceFault) -> &'static str {
    match fault {
        PlaceFault::NoPlace => NO_PLACE,
        PlaceFault::IntoItself => INTO_ITSELF,
    }
}

/// The edit is done and settled, or refused.
fn apply(alloc: Global, arena: &mut Arena, edit: &Edit) -> Result<Option<PlaceFault>, Memory> {
    if let Some(fault) = arena.allows(edit) {
        return Ok(Some(fault));
    }
    let prepared = arena.prepare(alloc, edit)?;
    let reversal = arena.commit(prepared);
    arena.settle(reversal);
    Ok(None)
}

/// The edit is done and taken back, or refused.
fn try_out(alloc: Global, arena: &mut Arena, edit: &Edit) -> Result<(), Memory> {
    if arena.allows(edit).is_none() {
        let prepared = arena.prepare(alloc, edit)?;
        let reversal = arena.commit(prepared);
        arena.revert(reversal);
    }
    Ok(())
}

/// Whether the arena has this document, and the path of each of its keys leads back to the key.
fn has_shape(alloc: Global, arena: &Arena, shape: &str) -> Result<bool, Memory> {
    let tree = arena.to_tree(alloc)?;
    let same = shape_of(alloc, &tree)?.as_str() == shape;
    let mut at = arena.root();
    'walk: for _node in 0..tree.len() {
        if arena.at(&arena.path_of(alloc, at)?) != Some(at) {
            return Ok(false);
        }
        match arena.next_in_order(at) {
            Some(next) => at = next,
            None => return Ok(same),
        }
    }
    Ok(false)
}

/// Whether the edit makes this of the document, or is refused with this word; and whether the document is as
/// before where the edit is taken back.
fn becomes(alloc: Global, arena: &mut Arena, edit: &Edit, expected: &str) -> Result<bool, Memory> {
    let before = shape_of(alloc, &arena.to_tree(alloc)?)?;
    try_out(alloc, arena, edit)?;
    let undone = has_shape(alloc, arena, before.as_str())?;
    let done = match apply(alloc, arena, edit)? {
        Some(fault) => word_of(fault) == expected && has_shape(alloc, arena, before.as_str())?,
        None => has_shape(alloc, arena, expected)?,
    };
    Ok(undone && done)
}

fn arena_of(alloc: Global, shape: &str) -> Result<Option<Arena>, Memory> {
    let Some(tree) = tree_of(alloc, shape)? else {
        return Ok(None);
    };
    if !has_element_root(&tree) {
        return Ok(None);
    }
    Ok(Some(Arena::from_tree(alloc, &tree)?))
}

/// Whether the edit makes this of a document, or is refused with this word.
fn makes(alloc: Global, shape: &str, edit: &Edit, expected: &str) -> Result<bool, Memory> {
    let Some(mut arena) = arena_of(alloc, shape)? else {
        return Ok(false);
    };
    Ok(has_shape(alloc, &arena, shape)? && becomes(alloc, &mut arena, edit, expected)?)
}

fn inserts(alloc: Global, row: &Inserted) -> Result<bool, Memory> {
    let (shape, parent, index, fragment, expected) = *row;
    let Some(fragment) = tree_of(alloc, fragment)? else {
        return Ok(false);
    };
    let parent = path_of(alloc, parent)?;
    let edit = Edit::Insert {
        parent,
        index,
        fragment,
    };
    makes(alloc, shape, &edit, expected)
}

fn removes(alloc: Global, row: &Removed) -> Result<bool, Memory> {
    let (shape, path, expected) = *row;
    let edit = Edit::Remove {
        path: path_of(alloc, path)?,
    };
    makes(alloc, shape, &edit, expected)
}

fn moves(alloc: Global, row: &Moved) -> Result<bool, Memory> {
    let (shape, from, parent, index, expected) = *row;
    let edit = Edit::Move {
        from: path_of(alloc, from)?,
        parent: path_of(alloc, parent)?,
        index,
    };
    makes(alloc, shape, &edit, expected)
}

/// The place of the first insertion that makes something else.
fn first_wrong_insertion(alloc: Global, table: &[Inserted]) -> Result<Option<usize>, Memory> {
    for (place, row) in table.iter().enumerate() {
        if !inserts(alloc, row)? {
            return Ok(Some(place));
        }
    }
    Ok(None)
}

/// The place of the first removal that makes something else.
fn first_wrong_removal(alloc: Global, table: &[Removed]) -> Result<Option<usize>, Memory> {
    for (place, row) in table.iter().enumerate() {
        if !removes(alloc, row)? {
            return Ok(Some(place));
        }
    }
    Ok(None)
}

/// The place of the first move that makes something else.
fn first_wrong_move(alloc: Global, table: &[Moved]) -> Result<Option<usize>, Memory> {
    for (place, row) in table.iter().enumerate() {
        if !moves(alloc, row)? {
            return Ok(Some(place));
        }
    }
    Ok(None)
}

#[test]
fn edits_make_what_they_say(rt: HostRuntime) -> Result<(), Fail> {
    assert_eq!(rt; first_wrong_insertion(rt.alloc(), &INSERTIONS)?, None);
    assert_eq!(rt; first_wrong_removal(rt.alloc(), &REMOVALS)?, None);
    assert_eq!(rt; first_wrong_move(rt.alloc(), &MOVES)?, None);
    assert_eq!(rt; first_wrong_move(rt.alloc(), &MOVES_AWAY)?, None);
    Ok(())
}

fn key_at(alloc: Global, arena: &Arena, path: &str) -> Result<Option<usize>, Memory> {
    Ok(arena.at(&path_of(alloc, path)?))
}

/// Whether nodes keep their keys where the first child of the root is removed, and where that is taken back.
fn keys_stay(alloc: Global, arena: &mut Arena, removal: &Edit) -> Result<bool, Memory> {
    let (root, first) = (key_at(alloc, arena, "")?, key_at(alloc, arena, "0")?);
    let (below, second) = (key_at(alloc, arena, "00")?, key_at(alloc, arena, "1")?);
    if arena.allows(removal).is_some() {
        return Ok(false);
    }
    let prepared = arena.prepare(alloc, removal)?;
    let early = key_at(alloc, arena, "00")? == below;
    let reversal = arena.commit(prepared);
    let gone = key_at(alloc, arena, "")? == root && key_at(alloc, arena, "0")? == second;
    arena.revert(reversal);
    let back = key_at(alloc, arena, "0")? == first
        && key_at(alloc, arena, "00")? == below
        && key_at(alloc, arena, "1")? == second;
    Ok(early && gone && back)
}

/// Whether the new first two nodes below the root have keys that none of the old ones had, where the old ones
/// aren't settled.
fn keys_are_new(
    alloc: Global,
    arena: &mut Arena,
    removal: &Edit,
    insertion: &Edit,
) -> Result<bool, Memory> {
    let (first, below) = (key_at(alloc, arena, "0")?, key_at(alloc, arena, "00")?);
    if arena.allows(removal).is_some() {
        return Ok(false);
    }
    let prepared = arena.prepare(alloc, removal)?;
    let _removed = arena.commit(prepared);
    let last = key_at(alloc, arena, "0")?;
    if arena.allows(insertion).is_some() {
        return Ok(false);
    }
    let prepared = arena.prepare(alloc, insertion)?;
    let _inserted = arena.commit(prepared);
    let (new, under) = (key_at(alloc, arena, "0")?, key_at(alloc, arena, "00")?);
    let apart = new != first && new != below && under != first && under != below;
    Ok(apart && new.is_some() && under.is_some() && key_at(alloc, arena, "1")? == last)
}

/// The edit that gives an attribute this value, or unsets it.
fn setting(alloc: Global, path: &str, name: &str, value: Option<&str>) -> Result<Edit, Memory> {
    let path = path_of(alloc, path)?;
    let name = Text::from_str(alloc, name)?;
    match value {
        Some(value) => Ok(Edit::SetAttr {
            path,
            name,
            value: Text::from_str(alloc, value)?,
        }),
        None => Ok(Edit::UnsetAttr { path, name }),
    }
}

/// Whether the edit makes this of the document, or is refused with this word.
fn sets(alloc: Global, arena: &mut Arena, row: &Set) -> Result<bool, Memory> {
    let (path, name, value, expected) = *row;
    let edit = setting(alloc, path, name, value)?;
    becomes(alloc, arena, &edit, expected)
}

/// The place of the first edit of an attribute that makes something else.
fn first_wrong_setting(
    alloc: Global,
    arena: &mut Arena,
    table: &[Set],
) -> Result<Option<usize>, Memory> {
    for (place, row) in table.iter().enumerate() {
        if !sets(alloc, arena, row)? {
            return Ok(Some(place));
        }
    }
    Ok(None)
}

#[test]
fn attributes_are_set_and_unset(rt: HostRuntime) -> Result<(), Fail> {
    let mut arena = arena_of(rt.alloc(), "0p1b1t")?.ok_or("no document")?;
    assert_eq!(rt;
        first_wrong_setting(rt.alloc(), &mut arena, &SETTINGS)?,
        None
    );
    Ok(())
}

#[test]
fn a_sheet_is_no_part_of_the_document(rt: HostRuntime) -> Result<(), Fail> {
    let edit = Edit::ReplaceSheet {
        text: Text::new(rt.alloc()),
    };
    assert!(rt; makes(rt.alloc(), "0p1b1t", &edit, "0p1b1t")?);
    Ok(())
}

#[test]
fn keys_of_nodes_that_stay(rt: HostRuntime) -> Result<(), Fail> {
    let mut arena = arena_of(rt.alloc(), "0o1a2b1c")?.ok_or("no document")?;
    let removal = Edit::Remove {
        path: path_of(rt.alloc(), "0")?,
    };
    assert!(rt; keys_stay(rt.alloc(), &mut arena, &removal)?);
    Ok(())
}

#[test]
fn keys_of_new_nodes(rt: HostRuntime) -> Result<(), Fail> {
    let mut arena = arena_of(rt.alloc(), "0o1a2b1c")?.ok_or("no document")?;
    let removal = Edit::Remove {
        path: path_of(rt.alloc(), "0")?,
    };
    let insertion = Edit::Insert {
        parent: path_of(rt.alloc(), "")?,
        index: 0,
        fragment: tree_of(rt.alloc(), "0d1e")?.ok_or("no fragment")?,
    };
    assert!(rt; keys_are_new(rt.alloc(), &mut arena, &removal, &insertion)?);
    Ok(())
}

/// Each fault, in words for a person.
#[test]
fn faults_have_messages(rt: HostRuntime) -> Result<(), Fail> {
    let message: InlineText<64> = InlineText::of(PlaceFault::NoPlace);
    assert_eq!(rt; message.as_str(), "the edit has no place in the document");
    let message: InlineText<64> = InlineText::of(PlaceFault::IntoItself);
    assert_eq!(rt; message.as_str(), "a node can't be moved into itself");
    Ok(())
}
