//! Which edits a document allows.

ghost use Rattle.std.specs.Prelude.{◌≡◌, ◌&&◌, IfSome, Some, is_some};
ghost use Rattle.forest.specs.Keys.{without_keys};
ghost use Rattle.forest.specs.Paths.{key_at};
ghost use Rattle.node_arena.specs.Edits.{place_fault, move_fault, is_element_at, is_inner_at, has_room_at, no_place_unless};

use crate::arena::Arena;
use crate::laws::arena_holds_document;
use crate::place_fault::PlaceFault;
use plain_types::edit::Edit;
use plain_types::node::Node;
use plain_types::path::Path;

/// A place that is there is no reason to refuse an edit.
fn no_place_unless(there: bool) -> Option<PlaceFault>
    ensures { result ≡ no_place_unless there }
{
    if there {
        None
    } else {
        Some(PlaceFault::NoPlace)
    }
}

impl Arena {
    /// Why the edit can't be done, if it can't. It takes no memory, and time linear in the lengths of
    /// the edit's paths.
    pub fn allows(&self, edit: &Edit) -> Option<PlaceFault>
        ensures fault { result ≡ place_fault edit.now (without_keys self.now.tree) }
    {
        match edit {
            Edit::Insert {
                parent,
                index,
                fragment: _,
            } => no_place_unless(self.has_room_at(parent, *index)),
            Edit::Remove { path } => no_place_unless(self.inner_at(path).is_some()),
            Edit::Move {
                from,
                parent,
                index,
            } => self.move_fault(from, parent, *index),
            Edit::SetAttr {
                path,
                name: _,
                value: _,
            } => no_place_unless(self.element_at(path).is_some()),
            Edit::UnsetAttr { path, name: _ } => no_place_unless(self.element_at(path).is_some()),
            Edit::ReplaceSheet { text: _ } => None,
        }
    }

    /// The element at a path, if there is one.
    pub(crate) fn element_at(&self, path: &Path) -> Option<usize>
        ensures key { IfSome result (λ key. key_at self.now.tree path.now ≡ Some key) }
        ensures found { is_some result ≡ is_element_at path.now (without_keys self.now.tree) }
    {
        let key = self.at(path)?;
        match &self.entry(key).node {
            Node::Element { name: _, attrs: _ } => Some(key),
            Node::Text(_) => None,
        }
    }

    /// The node at a path that isn't the root's, if there is one.
    pub(crate) fn inner_at(&self, path: &Path) -> Option<usize>
        ensures key { IfSome result (λ key. key_at self.now.tree path.now ≡ Some key) }
        ensures found { is_some result ≡ is_inner_at path.now (without_keys self.now.tree) }
    {
        if path.as_slice().is_empty() {
            return None;
        }
        self.at(path)
    }

    /// Whether an element stands at a path, and may have a child of this index.
    fn has_room_at(&self, parent: &Path, index: usize) -> bool
        ensures { result ≡ (is_element_at parent.now (without_keys self.now.tree) && has_room_at parent.now index (without_keys self.now.tree)) }
    {
        arena_holds_document(self);
        match self.element_at(parent) {
            Some(key) => index <= self.child_count(key),
            None => false,
        }
    }

    fn move_fault(&self, from: &Path, parent: &Path, index: usize) -> Option<PlaceFault>
        ensures { result ≡ move_fault from.now parent.now index (without_keys self.now.tree) }
    {
        arena_holds_document(self);
        let (Some(key), Some(target)) = (self.inner_at(from), self.element_at(parent)) else {
            return Some(PlaceFault::NoPlace);
        };
        if parent.as_slice().starts_with(from.as_slice()) {
            return Some(PlaceFault::IntoItself);
        }
        let mut count = self.child_count(target);
        if self.parent(key) == Some(target) {
            count -= 1;
        }
        no_place_unless(index <= count)
    }
}
