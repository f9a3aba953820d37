//! The edits of a document that is made up.

ghost use Rattle.std.specs.Prelude.{◌≡◌, ◌<◌, ◌==◌, if◌then◌else◌, IfOk, OnOk};
ghost use Rattle.forest.specs.Forest.{Empty};
ghost use Rattle.edit_script.specs.Draws.{drawn, next_state, state_after};
ghost use Rattle.edit_script.specs.Generator.{draws_of, edit_drawn, edit_of_kind, edits, item, item_path, kind_drawn, list_path};

use crate::draws::Draws;
use crate::texts::{copied, numbered};
use plain_types::edit::Edit;
use plain_types::list::List;
use plain_types::memory::Memory;
use plain_types::path::Path;
use plain_types::tree::Tree;
use plain_types::tree_builder::TreeBuilder;
use std::alloc::Global;

/// The list of a section.
fn list_path(alloc: Global, section: u32) -> Result<Path, Memory>
    ensures path { IfOk result (λ path. path ≡ list_path section) }
{
    Path::of(alloc, &[section as usize, 1])
}

/// An item of the list of a section.
fn item_path(alloc: Global, section: u32, place: u32) -> Result<Path, Memory>
    ensures path { IfOk result (λ path. path ≡ item_path section place) }
{
    Path::of(alloc, &[section as usize, 1, place as usize])
}

/// `<li/>`
fn one_item(alloc: Global) -> Result<Tree, Memory>
    ensures tree { IfOk result (λ tree. tree ≡ item Empty) }
{
    let mut builder = TreeBuilder::new(alloc);
    builder.start(copied(alloc, "li")?, List::new(alloc))?;
    builder.end();
    Ok(builder.finish())
}

fn edit_of_kind(
    alloc: Global,
    kind: u32,
    section: u32,
    place: u32,
    target: u32,
) -> Result<Edit, Memory>
    ensures edit { IfOk result (λ edit. edit ≡ edit_of_kind kind section place target) }
{
    match kind {
        0..=3 => Ok(Edit::Insert {
            parent: list_path(alloc, section)?,
            index: place as usize,
            fragment: one_item(alloc)?,
        }),
        4..=6 => Ok(Edit::Remove {
            path: item_path(alloc, section, place)?,
        }),
        7 => Ok(Edit::Move {
            from: item_path(alloc, section, place)?,
            parent: list_path(alloc, target)?,
            index: 0,
        }),
        8 => Ok(Edit::SetAttr {
            path: item_path(alloc, section, place)?,
            name: copied(alloc, "value")?,
            value: numbered(alloc, "", place)?,
        }),
        _ => Ok(Edit::UnsetAttr {
            path: item_path(alloc, section, place)?,
            name: copied(alloc, "value")?,
        }),
    }
}

/// The section to which an edit of this kind moves an item; 0 where it moves none.
fn draw_target(kind: u32, sections: u32, draws: &mut Draws) -> u32
    requires { 0 < sections }
    ensures target { kind ≡ 7 → result ≡ drawn sections draws.new.state }
    ensures state { draws.new.state ≡ (if kind == 7 then next_state draws.old.state else draws.old.state) }
{
    if kind == 7 { draws.draw(sections) } else { 0 }
}

/// An edit of a document of so many sections.
fn draw_edit(alloc: Global, sections: u32, draws: &mut Draws) -> Result<Edit, Memory>
    requires { 0 < sections }
    ensures edit { IfOk result (λ edit. edit ≡ edit_drawn sections draws.old.state) }
    ensures state { OnOk result (draws.new.state ≡ state_after (draws_of (kind_drawn draws.old.state)) draws.old.state) }
{
    let section = draws.draw(sections);
    let kind = draws.draw(10);
    let place = draws.draw(4);
    let target = draw_target(kind, sections, draws);
    edit_of_kind(alloc, kind, section, place, target)
}

/// So many edits of a document of so many sections.
pub(crate) fn draw_edits(
    alloc: Global,
    sections: u32,
    count: u32,
    draws: &mut Draws,
) -> Result<List<Edit>, Memory>
    requires { 0 < sections }
    ensures edits { IfOk result (λ list. list ≡ edits sections count draws.old.state) }
{
    let mut list = List::new(alloc);
    for _ in 0..count {
        list.push(draw_edit(alloc, sections, draws)?)?;
    }
    Ok(list)
}
