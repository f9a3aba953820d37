//! Work with trees and arenas.

ghost use Rattle.forest.specs.Spots.{IsLive};

use node_arena::arena::{Arena, has_element_root};
use plain_types::list::List;
use plain_types::memory::Memory;
use plain_types::text::Text;
use plain_types::tree::Tree;
use plain_types::tree_builder::TreeBuilder;
use std::alloc::Global;

fn start(alloc: Global, builder: &mut TreeBuilder) -> Result<(), Memory> {
    if builder.accepts_node() {
        builder.start(Text::from_str(alloc, "a")?, List::new(alloc))?;
    }
    Ok(())
}

fn end(builder: &mut TreeBuilder) {
    if builder.is_inside() {
        builder.end();
    }
}

/// An element with so many children.
fn put_wide(alloc: Global, size: usize, builder: &mut TreeBuilder) -> Result<(), Memory> {
    start(alloc, builder)?;
    for _ in 0..size {
        start(alloc, builder)?;
        end(builder);
    }
    end(builder);
    Ok(())
}

/// So many nested elements.
fn put_deep(alloc: Global, size: usize, builder: &mut TreeBuilder) -> Result<(), Memory> {
    for _ in 0..size {
        start(alloc, builder)?;
    }
    for _ in 0..size {
        end(builder);
    }
    Ok(())
}

/// A tree of this shape, `wide` or `deep`, and size, if there is such a shape.
pub(crate) fn tree_of(alloc: Global, shape: &str, size: usize) -> Option<Tree> {
    let mut builder = TreeBuilder::new(alloc);
    match shape {
        "wide" => put_wide(alloc, size, &mut builder).ok()?,
        "deep" => put_deep(alloc, size, &mut builder).ok()?,
        _ => return None,
    }
    if builder.is_whole() {
        Some(builder.finish())
    } else {
        None
    }
}

/// The last node in tree order, by links; at most so many nodes are gone over.
pub(crate) fn last_node(arena: &Arena, most: usize) -> usize
    ensures live { IsLive arena.now.tree result }
{
    let mut last = arena.root();
    'walk: for _ in 0..most {
        match arena.next_in_order(last) {
            Some(next) => last = next,
            None => break,
        }
    }
    last
}

/// How often, of a hundred times, the root comes before that node.
fn count_preceding(arena: &Arena, node: usize) -> usize
    requires live { IsLive arena.now.tree node }
{
    let root = arena.root();
    (0..100).filter(|_| arena.precedes(root, node)).count()
}

/// Does that work with a tree of this shape and size, and answers how large it was.
pub fn perform(alloc: Global, shape: &str, size: usize, work: &str) -> Option<usize> {
    let tree = tree_of(alloc, shape, size)?;
    if work == "tree" || !has_element_root(&tree) {
        return Some(tree.len());
    }
    let arena = Arena::from_tree(alloc, &tree).ok()?;
    match work {
        "from" => Some(tree.len()),
        "to" => Some(arena.to_tree(alloc).ok()?.len()),
        "walk" => Some(last_node(&arena, tree.len())),
        "precedes" => Some(count_preceding(&arena, last_node(&arena, tree.len()))),
        _ => None,
    }
}
