//! The lists of children in entries.

ghost use Rattle.std.specs.Prelude.{◌≡◌, ◌≢◌, ◌<◌, ◌≤◌, ℕ, Contains, OnOk, Some, None, length, insert, remove, slice_get, option_and_then};
ghost use Rattle.slab.specs.Slab.{get, slab_len, ContainsKey};
ghost use Rattle.node_arena.specs.Entries.{links_in};
ghost use Rattle.node_arena.specs.Children.{listed, AreOnce, KeepsRooms, HasRoom, Places, Lists, Numbers, Hangs};

use crate::entry::Entry;
use plain_types::memory::Memory;
use slab::Slab;

/// Gives an entry its parent, and its place among its siblings.
fn place(nodes: &mut Slab<Entry>, key: usize, parent: usize, position: usize)
    ensures places { Places (links_in nodes.old) (links_in nodes.new) key parent position }
    ensures rooms { KeepsRooms nodes.old nodes.new }
    ensures len { slab_len nodes.new ≡ slab_len nodes.old }
{
    if let Some(entry) = nodes.get_mut(key) {
        entry.parent = Some(parent);
        entry.position = position;
    }
}

/// The child of this index.
fn child_at(nodes: &Slab<Entry>, parent: usize, index: usize) -> Option<usize>
    ensures { result ≡ slice_get (listed (links_in nodes.now) parent) index }
{
    nodes.get(parent)?.children.as_slice().get(index).copied()
}

/// How many children an entry lists.
fn count(nodes: &Slab<Entry>, parent: usize) -> usize
    ensures { result ≡ length (listed (links_in nodes.now) parent) }
{
    match nodes.get(parent) {
        Some(entry) => entry.children.len(),
        None => 0,
    }
}

/// Makes room for one child more. No node changes.
pub(crate) fn make_room(nodes: &mut Slab<Entry>, parent: usize) -> Result<(), Memory>
    requires { ContainsKey nodes.old parent }
    ensures room { OnOk result (HasRoom nodes.new parent) }
    ensures links { (key : ℕ) → links_in nodes.new key ≡ links_in nodes.old key }
    ensures others { (key : ℕ) → key ≢ parent → get nodes.new key ≡ get nodes.old key }
    ensures len { slab_len nodes.new ≡ slab_len nodes.old }
{
    nodes[parent].children.reserve(1)?;
    Ok(())
}

/// Puts a key among the children of an entry, whose list has room for it.
fn list_child(nodes: &mut Slab<Entry>, parent: usize, index: usize, child: usize)
    requires room { HasRoom nodes.old parent }
    requires within { index ≤ length (listed (links_in nodes.old) parent) }
    ensures lists { Lists (links_in nodes.old) (links_in nodes.new) parent (insert (listed (links_in nodes.old) parent) index child) }
    ensures rooms { KeepsRooms nodes.old nodes.new }
    ensures len { slab_len nodes.new ≡ slab_len nodes.old }
{
    if let Some(entry) = nodes.get_mut(parent) {
        if entry.children.insert(index, child).is_err() {
            unreachable!();
        }
    }
}

/// Takes a key from among the children of an entry.
fn unlist_child(nodes: &mut Slab<Entry>, parent: usize, index: usize)
    requires within { index < length (listed (links_in nodes.old) parent) }
    ensures lists { Lists (links_in nodes.old) (links_in nodes.new) parent (remove (listed (links_in nodes.old) parent) index) }
    ensures rooms { KeepsRooms nodes.old nodes.new }
    ensures room { HasRoom nodes.new parent }
    ensures len { slab_len nodes.new ≡ slab_len nodes.old }
{
    if let Some(entry) = nodes.get_mut(parent) {
        let _child = entry.children.remove(index);
    }
}

/// Gives the children of an entry from this index on their places.
fn number_children(nodes: &mut Slab<Entry>, parent: usize, from: usize)
    requires once { AreOnce (listed (links_in nodes.old) parent) }
    ensures numbers { Numbers (links_in nodes.old) (links_in nodes.new) parent (listed (links_in nodes.old) parent) from (length (listed (links_in nodes.old) parent)) }
    ensures rooms { KeepsRooms nodes.old nodes.new }
    ensures len { slab_len nodes.new ≡ slab_len nodes.old }
{
    for index in from..count(nodes, parent) {
        if let Some(child) = child_at(nodes, parent, index) {
            place(nodes, child, parent, index);
        }
    }
}

/// Puts a child at this index of a parent whose list has room for it; the children behind move down by
/// one. Time linear in their number.
pub(crate) fn put_child(nodes: &mut Slab<Entry>, parent: usize, index: usize, child: usize)
    requires room { HasRoom nodes.old parent }
    requires within { index ≤ length (listed (links_in nodes.old) parent) }
    requires once { AreOnce (insert (listed (links_in nodes.old) parent) index child) }
    requires below { (at : ℕ) → slice_get (insert (listed (links_in nodes.old) parent) index child) at ≢ Some parent }
    ensures hangs { Hangs (links_in nodes.old) (links_in nodes.new) parent (insert (listed (links_in nodes.old) parent) index child) index }
    ensures rooms { KeepsRooms nodes.old nodes.new }
    ensures len { slab_len nodes.new ≡ slab_len nodes.old }
{
    list_child(nodes, parent, index, child);
    number_children(nodes, parent, index);
}

/// Takes the child of this index from a parent; the children behind it move up by one. The child's own
/// entry stays as it is. Time linear in the number of children behind it.
pub(crate) fn take_child(nodes: &mut Slab<Entry>, parent: usize, index: usize)
    requires within { index < length (listed (links_in nodes.old) parent) }
    requires once { AreOnce (remove (listed (links_in nodes.old) parent) index) }
    requires below { (at : ℕ) → slice_get (remove (listed (links_in nodes.old) parent) index) at ≢ Some parent }
    ensures hangs { Hangs (links_in nodes.old) (links_in nodes.new) parent (remove (listed (links_in nodes.old) parent) index) index }
    ensures rooms { KeepsRooms nodes.old nodes.new }
    ensures room { HasRoom nodes.new parent }
    ensures len { slab_len nodes.new ≡ slab_len nodes.old }
{
    unlist_child(nodes, parent, index);
    number_children(nodes, parent, index);
}

/// Removes entries for good: their keys may be used again.
pub(crate) fn free(nodes: &mut Slab<Entry>, keys: &[usize])
    ensures gone { (key : ℕ) → Contains keys.now key → get nodes.new key ≡ None }
    ensures others { (key : ℕ) → (Contains keys.now key → ⊥) → get nodes.new key ≡ get nodes.old key }
{
    for key in keys {
        let _entry = nodes.try_remove(*key);
    }
}
