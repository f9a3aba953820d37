//! The documents of tests: an `ol` with one element in it.

ghost use Rattle.std.specs.Prelude.{◌≢◌, IfOk, IsTrue, OnOk};
ghost use Rattle.std.specs.List.{All};
ghost use Rattle.plain_types.specs.declared.attr.Attr.{Attr};
ghost use Rattle.plain_types.specs.Tree.{HasDistinctNames};

use node_arena::arena::{Arena, has_element_root};
use plain_types::attr::Attr;
use plain_types::list::List;
use plain_types::memory::Memory;
use plain_types::text::Text;
use plain_types::tree::Tree;
use plain_types::tree_builder::TreeBuilder;
use std::alloc::Global;

/// The name and the value of an attribute.
pub type Attribute = (&'static str, &'static str);

/// Whether no attribute has this name.
fn is_new(attrs: &[Attr], name: &Text) -> bool
    ensures { IsTrue result → All (λ (held : Attr). held.name ≢ name.now) attrs.now }
{
    attrs.iter().all(|held| held.name.as_str() != name.as_str())
}

/// These attributes, without those whose names are there already.
fn attrs_of(alloc: Global, attributes: &[Attribute]) -> Result<List<Attr>, Memory>
    ensures { IfOk result HasDistinctNames }
{
    let mut attrs = List::new(alloc);
    for (name, value) in attributes {
        let name = Text::from_str(alloc, name)?;
        let value = Text::from_str(alloc, value)?;
        if is_new(attrs.as_slice(), &name) {
            attrs.push(Attr { name, value })?;
        }
    }
    Ok(attrs)
}

/// The tree of an `ol` with one element in it, with these attributes.
fn tree_of(
    alloc: Global,
    list: &[Attribute],
    name: &str,
    attributes: &[Attribute],
) -> Result<Option<Tree>, Memory> {
    let list = attrs_of(alloc, list)?;
    let attrs = attrs_of(alloc, attributes)?;
    let mut builder = TreeBuilder::new(alloc);
    if !builder.accepts_node() {
        return Ok(None);
    }
    builder.start(Text::from_str(alloc, "ol")?, list)?;
    if !builder.accepts_node() {
        return Ok(None);
    }
    builder.start(Text::from_str(alloc, name)?, attrs)?;
    for _ended in 0..2 {
        if builder.is_inside() {
            builder.end();
        }
    }
    if builder.is_whole() {
        Ok(Some(builder.finish()))
    } else {
        Ok(None)
    }
}

/// That document, in an arena.
pub fn arena_of(
    alloc: Global,
    list: &[Attribute],
    name: &str,
    attributes: &[Attribute],
) -> Result<Option<Arena>, Memory> {
    let Some(tree) = tree_of(alloc, list, name, attributes)? else {
        return Ok(None);
    };
    if has_element_root(&tree) {
        Ok(Some(Arena::from_tree(alloc, &tree)?))
    } else {
        Ok(None)
    }
}
