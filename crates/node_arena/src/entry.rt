//! The entries of an arena.

ghost use Rattle.std.specs.Prelude.{◌≡◌, ◌≢◌, ◌+◌, ℕ, OnOk, OnErr, IfOk};
ghost use Rattle.slab.specs.Slab.{get, ContainsKey, slab_len};
ghost use Rattle.node_arena.specs.Children.{HasRoom};
ghost use Rattle.node_arena.specs.Entries.{links_in, AddsChild, Appends};

use crate::children::make_room;
use plain_types::memory::Memory;
use plain_types::node::Node;
use slab::Slab;
use std::alloc::Global;

/// A node with its links.
#[derive(Drop)]
pub(crate) struct Entry {
    pub(crate) parent: Option<usize>,
    /// How many siblings it has before it.
    pub(crate) position: usize,
    /// The keys of its children, in order.
    pub(crate) children: Vec<usize>,
    pub(crate) node: Node,
}

/// Puts a key at the end of a node's children, whose list has room for it.
fn push_child(nodes: &mut Slab<Entry>, parent: usize, child: usize)
    requires { HasRoom nodes.old parent }
    ensures adds { AddsChild (links_in nodes.old) (links_in nodes.new) parent child }
    ensures others { (key : ℕ) → key ≢ parent → get nodes.new key ≡ get nodes.old key }
    ensures len { slab_len nodes.new ≡ slab_len nodes.old }
{
    if let Some(entry) = nodes.get_mut(parent) {
        entry.children.push_reserved(child);
    }
}

/// Puts a new node behind the children of a node. After `Memory` nothing is put.
pub(crate) fn append(
    alloc: Global,
    nodes: &mut Slab<Entry>,
    parent: usize,
    node: Node,
) -> Result<usize, Memory>
    requires parent { ContainsKey nodes.old parent }
    ensures appends { IfOk result (Appends (links_in nodes.old) (links_in nodes.new) parent node) }
    ensures others { IfOk result (λ key. (other : ℕ) → other ≢ key → other ≢ parent → get nodes.new other ≡ get nodes.old other) }
    ensures len { OnOk result (slab_len nodes.new ≡ slab_len nodes.old + 1) }
    ensures err { OnErr result ((other : ℕ) → other ≢ parent → get nodes.new other ≡ get nodes.old other) }
{
    make_room(nodes, parent)?;
    let position = nodes[parent].children.len();
    let entry = Entry {
        parent: Some(parent),
        position,
        children: Vec::new(alloc),
        node,
    };
    let key = nodes.insert(entry)?;
    push_child(nodes, parent, key);
    Ok(key)
}
