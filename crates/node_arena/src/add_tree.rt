//! Trees whose nodes get entries.

ghost use Rattle.std.specs.Prelude.{◌≡◌, ◌≤◌, ℕ, [], IfOk, OnErr, length, vec_capacity};
ghost use Rattle.plain_types.specs.Rows.{rows};
ghost use Rattle.slab.specs.Slab.{get};
ghost use Rattle.node_arena.specs.Added.{AddsOnly, IsAdded};

use crate::children::free;
use crate::copies::copied_node;
use crate::entry::{Entry, append};
use plain_types::memory::Memory;
use plain_types::tree::Tree;
use slab::Slab;
use std::alloc::Global;

/// Gives each node of a tree an entry, from the first to the last. Their keys are put into `keys`, which
/// has room for them; after `Memory` too, for those that got one.
fn add_nodes(
    alloc: Global,
    nodes: &mut Slab<Entry>,
    tree: &Tree,
    keys: &mut Vec<usize>,
) -> Result<usize, Memory>
    requires empty { keys.old.items ≡ [] }
    requires room { length (rows 0 tree.now) ≤ vec_capacity keys.old }
    ensures added { IfOk result (λ root. IsAdded nodes.old nodes.new tree.now keys.new.items root) }
    ensures only { AddsOnly nodes.old nodes.new keys.new.items }
{
    let count = tree.len();
    let root = nodes.insert(Entry {
        parent: None,
        position: 0,
        children: Vec::new(alloc),
        node: copied_node(alloc, tree.node(0))?,
    })?;
    keys.push_reserved(root);
    let mut open = Vec::new(alloc);
    open.push(root)?;
    for place in 1..count {
        open.truncate(tree.depth(place));
        let parent = open[open.len() - 1];
        let node = copied_node(alloc, tree.node(place))?;
        let key = append(alloc, nodes, parent, node)?;
        keys.push_reserved(key);
        open.push(key)?;
    }
    Ok(root)
}

/// Gives each node of a tree an entry: the root's key, and the keys of all. After `Memory` the entries are
/// as before. Time linear in the number of nodes.
pub(crate) fn add_tree(
    alloc: Global,
    nodes: &mut Slab<Entry>,
    tree: &Tree,
) -> Result<(usize, Vec<usize>), Memory>
    ensures added { IfOk result (λ added. IsAdded nodes.old nodes.new tree.now added.1.items added.0) }
    ensures same { OnErr result ((key : ℕ) → get nodes.new key ≡ get nodes.old key) }
{
    let mut keys = Vec::with_capacity(alloc, tree.len())?;
    match add_nodes(alloc, nodes, tree, &mut keys) {
        Ok(root) => Ok((root, keys)),
        Err(Memory) => {
            free(nodes, keys.as_slice());
            Err(Memory)
        }
    }
}
