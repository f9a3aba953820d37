//! Changes of an arena's nodes, done without memory.

ghost use Rattle.std.specs.Prelude.{◌≡◌, ℕ, Some, option_map};
ghost use Rattle.forest.specs.Spots.{label_of};
ghost use Rattle.node_arena.specs.Changes.{changed, aside, HasPlace, IsAside, IsFreePlace, CanRelabel, CanChange, IsTakenOut, IsPutIn, IsRelabelled, IsChanged, GivesUp};
ghost use Rattle.node_arena.specs.Children.{HasRoom, KeepsRooms, Relabels};
ghost use Rattle.node_arena.specs.Entries.{Links, links_in};
ghost use Rattle.slab.specs.Slab.{ContainsKey, slab_len};

use crate::arena::Arena;
use crate::change::{Change, ChildPlace};
use crate::children::{free, put_child, take_child};
use crate::entry::Entry;
use plain_types::node::Node;
use slab::Slab;
use std::mem;

/// Puts another node into an entry, and gives back the one that was there.
fn replace_node(nodes: &mut Slab<Entry>, key: usize, node: Node) -> Node
    requires { ContainsKey nodes.old key }
    ensures relabels { Relabels (links_in nodes.old) (links_in nodes.new) key node }
    ensures was { option_map (λ (links : Links). links.node) (links_in nodes.old key) ≡ Some result }
    ensures rooms { KeepsRooms nodes.old nodes.new }
    ensures len { slab_len nodes.new ≡ slab_len nodes.old }
{
    let entry = &mut nodes[key];
    mem::replace(&mut entry.node, node)
}

impl Arena {
    /// A node that is kept aside becomes the child at a place. Time linear in the number of children
    /// behind it.
    fn put_in(&mut self, key: usize, place: ChildPlace)
        requires kept { IsAside self.old key }
        requires free { IsFreePlace self.old.tree place }
        requires room { HasRoom self.old.entries place.parent }
        ensures { IsPutIn self.old self.new key place }
    {
        // The contract of `len` says that the count fits.
        let _count = self.nodes.len();
        put_child(&mut self.nodes, place.parent, place.index, key);
    }

    /// The child at a place is kept aside. Time linear in the number of children behind it.
    fn take_out(&mut self, place: ChildPlace)
        requires { (key : ℕ) × HasPlace self.old.tree key place }
        ensures { (key : ℕ) → HasPlace self.old.tree key place → IsTakenOut self.old self.new key place }
    {
        take_child(&mut self.nodes, place.parent, place.index);
    }

    /// An element becomes another; the one that it was is given back. Constant time.
    fn relabel(&mut self, key: usize, node: Node) -> Node
        requires { CanRelabel self.old key node }
        ensures { IsRelabelled self.old self.new key node result }
    {
        replace_node(&mut self.nodes, key, node)
    }

    /// Does a change, and gives back the one that undoes it. Time linear in the number of children behind
    /// those that come and go.
    pub(crate) fn apply(&mut self, change: Change) -> Change
        requires { CanChange self.old change }
        ensures { IsChanged self.old self.new change result }
    {
        match change {
            Change::Nothing => Change::Nothing,
            Change::Relabel { key, node } => Change::Relabel {
                key,
                node: self.relabel(key, node),
            },
            Change::PutIn { key, keys, place } => {
                self.put_in(key, place);
                Change::TakeOut { key, keys, place }
            }
            Change::TakeOut { key, keys, place } => {
                self.take_out(place);
                Change::PutIn { key, keys, place }
            }
            Change::Move { key, from, to } => {
                self.take_out(from);
                self.put_in(key, to);
                Change::Move {
                    key,
                    from: to,
                    to: from,
                }
            }
        }
    }

    /// Gives up the nodes that a change would put in. Time linear in their number.
    pub(crate) fn give_up(&mut self, change: &Change)
        requires { CanChange self.old change.now }
        ensures { GivesUp self.old self.new change.now }
    {
        if let Change::PutIn {
            key: _,
            keys,
            place: _,
        } = change
        {
            free(&mut self.nodes, keys.as_slice());
        }
    }
}
