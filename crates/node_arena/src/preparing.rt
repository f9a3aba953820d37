//! Edits for which memory is taken.

ghost use Rattle.std.specs.Prelude.{◌≡◌, ℕ, IfOk, OnOk, OnErr, true, false, Some, None, is_some};
ghost use Rattle.forest.specs.Keys.{without_keys};
ghost use Rattle.forest.specs.Paths.{key_at};
ghost use Rattle.forest.specs.Spots.{IsLive, label_of, on_link};
ghost use Rattle.plain_types.specs.declared.edit.Edit.TheVariants as edit;
ghost use Rattle.plain_types.specs.declared.node.Node.TheVariants as kind;
ghost use Rattle.slab.specs.Slab.{get};
ghost use Rattle.node_arena.specs.Changes.{alone, HasPlace, AreKeysOf, KeepsEntries, Prepares};
ghost use Rattle.node_arena.specs.Children.{HasRoom};
ghost use Rattle.node_arena.specs.Document.{IsKeyedDocument};
ghost use Rattle.node_arena.specs.Edits.{is_element_at, is_inner_at, has_room_at, move_fault, place_fault, IsEdited};
ghost use Rattle.node_arena.specs.Reversals.{IsReady, tree_after, IsOnlyIn, Reserves, is_used};

use crate::add_tree::add_tree;
use crate::arena::Arena;
use crate::attrs::{with_attr, without_attr};
use crate::change::{Change, ChildPlace};
use crate::children::make_room;
use crate::laws::arena_holds_document;
use crate::prepared::Prepared;
use plain_types::attr::Attr;
use plain_types::duplicate::Duplicate;
use plain_types::edit::Edit;
use plain_types::list::List;
use plain_types::memory::Memory;
use plain_types::node::Node;
use plain_types::path::Path;
use plain_types::text::Text;
use plain_types::tree::Tree;
use std::alloc::Global;

impl Arena {
    /// The element at a path: its key, its name and its attributes.
    fn element(&self, path: &Path) -> (usize, &Text, &List<Attr>)
        requires { is_element_at path.now (without_keys self.now.tree) ≡ true }
        ensures key { key_at self.now.tree path.now ≡ Some result.0 }
        ensures parts { Some (kind.Element result.1.now result.2.now) ≡ label_of self.now.tree result.0 }
        ensures document { IsKeyedDocument self.now.tree }
    {
        let Some(key) = self.element_at(path) else {
            unreachable!()
        };
        match &self.entry(key).node {
            Node::Element { name, attrs } => (key, name, attrs),
            Node::Text(_) => unreachable!(),
        }
    }

    /// The node at a path that isn't the root's: its key, and its place among the children of its parent.
    fn inner(&self, path: &Path) -> (usize, ChildPlace)
        requires { is_inner_at path.now (without_keys self.now.tree) ≡ true }
        ensures key { key_at self.now.tree path.now ≡ Some result.0 }
        ensures place { HasPlace self.now.tree result.0 result.1 }
        ensures document { IsKeyedDocument self.now.tree }
    {
        arena_holds_document(self);
        let Some(key) = self.inner_at(path) else {
            unreachable!()
        };
        let Some(parent) = self.parent(key) else {
            unreachable!()
        };
        let index = self.index_of(key);
        (key, ChildPlace { parent, index })
    }

    fn prepare_set(
        &self,
        alloc: Global,
        path: &Path,
        name: &Text,
        value: &Text,
    ) -> Result<Change, Memory>
        requires { is_element_at path.now (without_keys self.now.tree) ≡ true }
        ensures { IfOk result (λ change. Prepares (edit.SetAttr path.now name.now value.now) self.now self.now change) }
    {
        let (key, tag, attrs) = self.element(path);
        let node = Node::Element {
            name: tag.duplicate(alloc)?,
            attrs: with_attr(alloc, attrs.as_slice(), name, value)?,
        };
        Ok(Change::Relabel { key, node })
    }

    fn prepare_unset(&self, alloc: Global, path: &Path, name: &Text) -> Result<Change, Memory>
        requires { is_element_at path.now (without_keys self.now.tree) ≡ true }
        ensures { IfOk result (λ change. Prepares (edit.UnsetAttr path.now name.now) self.now self.now change) }
    {
        let (key, tag, attrs) = self.element(path);
        let node = Node::Element {
            name: tag.duplicate(alloc)?,
            attrs: without_attr(alloc, attrs.as_slice(), name)?,
        };
        Ok(Change::Relabel { key, node })
    }

    /// The keys of a node and of all under it, level by level. Time linear in their number.
    fn keys_under(&self, alloc: Global, key: usize) -> Result<Vec<usize>, Memory>
        requires { IsLive self.now.tree key }
        ensures { IfOk result (λ keys. AreKeysOf keys.items (alone (on_link self.now.tree (Some key)))) }
    {
        arena_holds_document(self);
        let mut keys = Vec::new(alloc);
        keys.push(key)?;
        let mut next = 0;
        'level: while next < keys.len() {
            let at = keys[next];
            keys.extend_from_slice(self.entry(at).children.as_slice())?;
            next += 1;
        }
        Ok(keys)
    }

    fn prepare_removal(&self, alloc: Global, path: &Path) -> Result<Change, Memory>
        requires { is_inner_at path.now (without_keys self.now.tree) ≡ true }
        ensures { IfOk result (λ change. Prepares (edit.Remove path.now) self.now self.now change) }
    {
        let (key, place) = self.inner(path);
        let keys = self.keys_under(alloc, key)?;
        Ok(Change::TakeOut { key, keys, place })
    }

    /// Makes room for one child more of a node. No node changes.
    fn make_room(&mut self, key: usize) -> Result<(), Memory>
        requires { IsLive self.old.tree key }
        ensures tree { self.new.tree ≡ self.old.tree }
        ensures room { OnOk result (HasRoom self.new.entries key) }
        ensures entries { KeepsEntries self.old self.new }
    {
        make_room(&mut self.nodes, key)
    }

    fn prepare_move(&mut self, from: &Path, parent: &Path, index: usize) -> Result<Change, Memory>
        requires { move_fault from.now parent.now index (without_keys self.old.tree) ≡ None }
        ensures tree { self.new.tree ≡ self.old.tree }
        ensures entries { KeepsEntries self.old self.new }
        ensures prepares { IfOk result (λ change. Prepares (edit.Move from.now parent.now index) self.old self.new change) }
    {
        let (key, place) = self.inner(from);
        let Some(parent) = self.element_at(parent) else {
            unreachable!()
        };
        self.make_room(parent)?;
        Ok(Change::Move {
            key,
            from: place,
            to: ChildPlace { parent, index },
        })
    }

    fn prepare_insertion(
        &mut self,
        alloc: Global,
        parent: &Path,
        index: usize,
        fragment: &Tree,
    ) -> Result<Change, Memory>
        requires element { is_element_at parent.now (without_keys self.old.tree) ≡ true }
        requires room { has_room_at parent.now index (without_keys self.old.tree) ≡ true }
        ensures tree { self.new.tree ≡ self.old.tree }
        ensures prepares { IfOk result (λ change. Prepares (edit.Insert parent.now index fragment.now) self.old self.new change) }
        ensures err { OnErr result (KeepsEntries self.old self.new) }
    {
        arena_holds_document(self);
        let Some(parent) = self.element_at(parent) else {
            unreachable!()
        };
        self.make_room(parent)?;
        let (key, keys) = add_tree(alloc, &mut self.nodes, fragment)?;
        Ok(Change::PutIn {
            key,
            keys,
            place: ChildPlace { parent, index },
        })
    }

    fn prepare_change(&mut self, alloc: Global, edit: &Edit) -> Result<Change, Memory>
        requires { place_fault edit.now (without_keys self.old.tree) ≡ None }
        ensures tree { self.new.tree ≡ self.old.tree }
        ensures prepares { IfOk result (λ change. Prepares edit.now self.old self.new change) }
        ensures err { OnErr result (KeepsEntries self.old self.new) }
    {
        arena_holds_document(self);
        match edit {
            Edit::Insert {
                parent,
                index,
                fragment,
            } => self.prepare_insertion(alloc, parent, *index, fragment),
            Edit::Remove { path } => self.prepare_removal(alloc, path),
            Edit::Move {
                from,
                parent,
                index,
            } => self.prepare_move(from, parent, *index),
            Edit::SetAttr { path, name, value } => self.prepare_set(alloc, path, name, value),
            Edit::UnsetAttr { path, name } => self.prepare_unset(alloc, path, name),
            Edit::ReplaceSheet { text: _ } => Ok(Change::Nothing),
        }
    }

    /// Takes all memory that an edit needs, which the arena allows; the tree and its keys stay. `commit`
    /// then does it. Inserted nodes get keys that weren't used, and no other key is used more; `Memory` where
    /// memory is wanting, and then none is. It takes memory, and time linear in it, of the size of what is inserted, of
    /// the keys of what is removed, or of the attributes of the element that is changed.
    pub fn prepare(&mut self, alloc: Global, edit: &Edit) -> Result<Prepared, Memory>
        requires allowed { place_fault edit.now (without_keys self.old.tree) ≡ None }
        ensures tree { self.new.tree ≡ self.old.tree }
        ensures ready { IfOk result (λ prepared. IsReady self.new prepared) }
        ensures edits { IfOk result (λ prepared. IsEdited edit.now self.old.tree (tree_after self.new prepared)) }
        ensures fresh { IfOk result (λ prepared. (key : ℕ) → IsOnlyIn (tree_after self.new prepared) self.old.tree key → is_used self.old key ≡ false) }
        ensures reserves { IfOk result (λ prepared. Reserves self.old.tree (tree_after self.new prepared) self.old self.new) }
        ensures err { OnErr result ((key : ℕ) → is_used self.new key ≡ is_used self.old key) }
    {
        arena_holds_document(self);
        let change = self.prepare_change(alloc, edit)?;
        Ok(Prepared { change })
    }
}
