//! The edit that undoes an edit, made before that edit is done.

ghost use Rattle.std.specs.Prelude.{◌≡◌, IfOk, None, true, option_map, option_copied};
ghost use Rattle.std.specs.Str.{chars};
ghost use Rattle.forest.specs.Keys.{without_keys};
ghost use Rattle.plain_types.specs.declared.edit.Edit.TheVariants as edits;
ghost use Rattle.node_arena.specs.AtPaths.{once_out};
ghost use Rattle.node_arena.specs.Edits.{is_inner_at, place_fault};
ghost use Rattle.edit_inverses.specs.Inverses.{as_it_is, child_at, inverse_of, move_back, put_back, value_at};
ghost use Rattle.edit_inverses.specs.Laws.{IsAllowed};

use crate::laws::edits_insert_trees;
use crate::place::{once_in, once_out, place_of};
use crate::subtree::tree_at;
use node_arena::arena::Arena;
use node_arena::laws::arena_holds_document;
use plain_types::duplicate::Duplicate;
use plain_types::edit::Edit;
use plain_types::memory::Memory;
use plain_types::path::Path;
use plain_types::text::Text;
use std::alloc::Global;

/// The edit that removes what an insertion puts in.
fn removal_of(alloc: Global, parent: &Path, index: usize) -> Result<Edit, Memory>
    ensures edit { IfOk result (λ edit. edit ≡ edits.Remove (child_at parent.now index)) }
{
    let mut steps = Vec::from_slice(alloc, parent.as_slice())?;
    steps.push(index)?;
    Ok(Edit::Remove {
        path: Path::of(alloc, steps.as_slice())?,
    })
}

/// The edit that inserts again what a removal takes out.
fn put_back(alloc: Global, arena: &Arena, path: &Path) -> Result<Edit, Memory>
    requires { is_inner_at path.now (without_keys arena.now.tree) ≡ true }
    ensures edit { IfOk result (λ edit. edit ≡ put_back path.now (without_keys arena.now.tree)) }
{
    arena_holds_document(arena);
    let Some(key) = arena.at(path) else {
        unreachable!()
    };
    let (parent, index) = place_of(path.as_slice());
    Ok(Edit::Insert {
        parent: Path::of(alloc, parent)?,
        index,
        fragment: tree_at(alloc, arena, key)?,
    })
}

/// The edit that moves back what a move of this node to this place moves. The node has a path in some document.
fn move_back(
    alloc: Global,
    arena: &Arena,
    from: &Path,
    parent: &Path,
    index: usize,
) -> Result<Edit, Memory>
    requires { is_inner_at from.now (without_keys arena.now.tree) ≡ true }
    ensures edit { IfOk result (λ edit. edit ≡ move_back from.now (child_at (once_out from.now parent.now) index)) }
{
    arena_holds_document(arena);
    let (home, position) = place_of(from.as_slice());
    let mut there = once_out(alloc, from.as_slice(), parent.as_slice())?;
    there.push(index)?;
    let home = once_in(alloc, there.as_slice(), home)?;
    Ok(Edit::Move {
        from: Path::of(alloc, there.as_slice())?,
        parent: Path::of(alloc, home.as_slice())?,
        index: position,
    })
}

/// The value of an attribute of the node at a path.
fn value_at<'a>(arena: &'a Arena, path: &Path, name: &Text) -> Option<&'a str>
    ensures value { option_map chars (option_copied result) ≡ value_at path.now name.now (without_keys arena.now.tree) }
{
    arena_holds_document(arena);
    match arena.at(path) {
        Some(key) => arena.attr(key, name.as_str()),
        None => None,
    }
}

/// The edit by which an attribute has the value that it has now, or is not there if it is not there now.
fn as_it_is(alloc: Global, arena: &Arena, path: &Path, name: &Text) -> Result<Edit, Memory>
    ensures edit { IfOk result (λ edit. edit ≡ as_it_is path.now name.now (without_keys arena.now.tree)) }
{
    match value_at(arena, path, name) {
        Some(value) => Ok(Edit::SetAttr {
            path: path.duplicate(alloc)?,
            name: name.duplicate(alloc)?,
            value: Text::from_str(alloc, value)?,
        }),
        None => Ok(Edit::UnsetAttr {
            path: path.duplicate(alloc)?,
            name: name.duplicate(alloc)?,
        }),
    }
}

/// The edit that undoes an edit of the document in the arena, under the sheet of this text; it is made before that edit is
/// done. The document allows the edit.
///
/// It takes memory and time linear in the edit's paths, and in what the edit takes away: the tree of a removed node, the
/// value that an attribute had, or the text of the sheet; `Memory` where that is wanting.
pub fn inverse_of(alloc: Global, arena: &Arena, sheet: &str, edit: &Edit) -> Result<Edit, Memory>
    requires { place_fault edit.now (without_keys arena.now.tree) ≡ None }
    ensures inverse { IfOk result (λ inverse. inverse ≡ inverse_of edit.now (without_keys arena.now.tree) (chars sheet.now)) }
    ensures allowed { IsAllowed edit.now (without_keys arena.now.tree) }
{
    arena_holds_document(arena);
    edits_insert_trees(edit);
    match edit {
        Edit::Insert {
            parent,
            index,
            fragment: _,
        } => removal_of(alloc, parent, *index),
        Edit::Remove { path } => put_back(alloc, arena, path),
        Edit::Move {
            from,
            parent,
            index,
        } => move_back(alloc, arena, from, parent, *index),
        Edit::SetAttr {
            path,
            name,
            value: _,
        } => as_it_is(alloc, arena, path, name),
        Edit::UnsetAttr { path, name } => as_it_is(alloc, arena, path, name),
        Edit::ReplaceSheet { text: _ } => Ok(Edit::ReplaceSheet {
            text: Text::from_str(alloc, sheet)?,
        }),
    }
}
