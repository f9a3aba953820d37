//! Documents under keys.

ghost use Rattle.std.specs.Prelude.{◌≡◌, ◌↔◌, ◌-◌, ◌<◌, IsTrue, IfOk, IfSome, IfNone, Some, length, take, option_map, option_copied, encode_utf8_all};
ghost use Rattle.std.specs.Str.{chars};
ghost use Rattle.forest.specs.Spots.{IsLive, IsLink, label_of, first_key, parent_of, child_of, child_count_of, index_of, first_child_of, last_child_of, next_sibling_of, previous_sibling_of};
ghost use Rattle.forest.specs.Paths.{key_at, path_of, route_of};
ghost use Rattle.forest.specs.Order.{next_in_order_of, comes_before, Precedes};
ghost use Rattle.node_arena.specs.Levels.{AreDistinctParents};
ghost use Rattle.forest.specs.Keys.{without_keys};
ghost use Rattle.plain_types.specs.Building.{accepts_node};
ghost use Rattle.node_arena.specs.Copies.{PutsNode};
ghost use Rattle.node_arena.specs.Document.{IsKeyedDocument, HasElementRoot};
ghost use Rattle.node_arena.specs.Nodes.{name_of, characters_of, attrs_of, attr_of};
ghost use Rattle.node_arena.specs.Entries.{IsEntryOf};
ghost use Rattle.node_arena.specs.Reversals.{IsSettled};

use crate::add_tree::add_tree;
use crate::entry::Entry;
use crate::laws::arena_holds_document;
use plain_types::attr::Attr;
use plain_types::duplicate::Duplicate;
use plain_types::memory::Memory;
use plain_types::node::{Node, NodeView};
use plain_types::path::Path;
use plain_types::tree::Tree;
use plain_types::tree_builder::TreeBuilder;
use slab::Slab;
use std::alloc::Global;
use std::marker::Model;

/// A document whose nodes are named by keys that stay.
pub struct Arena {
    pub(crate) nodes: Slab<Entry>,
    pub(crate) root: usize,
}

impl Drop for Arena {
    fn drop(self) {
        let Arena { nodes: _, root: _ } = self;
    }
}

impl Model for Arena {
    ghost use Rattle.plain_types.specs.contracts.node.Node as node;
    ghost use Rattle.node_arena.specs.contracts.entry.Entry as entry;
    ghost use Rattle.node_arena.specs.Document.{Document, coded_document};
    ghost use Rattle.node_arena.specs.Entries.{tree_in, IsArena};

    ghost Value = { Document };

    ghost coded = { coded_document node.the_row.coded entry.the_row.coded };

    ghost view = { λ arena. record { tree = tree_in arena.nodes arena.root; entries = arena.nodes } };

    ghost invariant = { λ arena. IsArena arena.nodes arena.root };
}

/// Whether the root of a tree is an element, as `Arena::from_tree` asks. Constant time.
pub fn has_element_root(tree: &Tree) -> bool
    ensures { IsTrue result ↔ HasElementRoot tree.now }
{
    // The contract of `len` says that there is a node.
    let _count = tree.len();
    match tree.node(0) {
        NodeView::Element { name: _, attrs: _ } => true,
        NodeView::Text { characters: _ } => false,
    }
}

impl Arena {
    /// An arena that stands for the tree, whose root is an element. Its keys are the arena's choice, one a node.
    /// It takes memory of the size of the tree, and time linear in it; `Memory` where that is wanting.
    pub fn from_tree(alloc: Global, tree: &Tree) -> Result<Arena, Memory>
        requires element { HasElementRoot tree.now }
        ensures tree { IfOk result (λ arena. without_keys arena.tree ≡ tree.now) }
        ensures settled { IfOk result (λ arena. IsSettled arena) }
    {
        let mut nodes = Slab::with_capacity(alloc, tree.len())?;
        let (root, _keys) = add_tree(alloc, &mut nodes, tree)?;
        Ok(Arena { nodes, root })
    }

    /// The tree that the arena stands for. It takes memory of the size of the tree, and time linear in
    /// it; `Memory` where that is wanting.
    pub fn to_tree(&self, alloc: Global) -> Result<Tree, Memory>
        ensures tree { IfOk result (λ tree. tree ≡ without_keys self.now.tree) }
    {
        let root = self.root();
        let mut builder = TreeBuilder::new(alloc);
        self.put_node(alloc, root, &mut builder)?;
        let mut inside = root;
        let mut link = self.first_child(root);
        'walk: loop {
            if let Some(key) = link {
                if self.put_node(alloc, key, &mut builder)? {
                    inside = key;
                    link = self.first_child(key);
                } else {
                    link = self.next_sibling(key);
                }
                continue;
            }
            builder.end();
            match self.parent(inside) {
                None => return Ok(builder.finish()),
                Some(parent) => {
                    link = self.next_sibling(inside);
                    inside = parent;
                }
            }
        }
    }

    /// Puts a copy of a node without its children, and tells whether it is an element, which is then begun.
    fn put_node(&self, alloc: Global, key: usize, builder: &mut TreeBuilder) -> Result<bool, Memory>
        requires live { IsLive self.now.tree key }
        requires accepts { IsTrue (accepts_node builder.old) }
        ensures puts { IfOk result (λ element. IfSome (label_of self.now.tree key) (λ node. PutsNode builder.old builder.new node element)) }
    {
        match &self.entry(key).node {
            Node::Element { name, attrs } => {
                builder.start(name.duplicate(alloc)?, attrs.duplicate(alloc)?)?;
                Ok(true)
            }
            Node::Text(characters) => {
                builder.text(characters.duplicate(alloc)?)?;
                Ok(false)
            }
        }
    }

    /// The key of the root element. Constant time.
    pub fn root(&self) -> usize
        ensures root { Some result ≡ first_key self.now.tree }
        ensures live { IsLive self.now.tree result }
        ensures document { IsKeyedDocument self.now.tree }
    {
        self.root
    }

    pub(crate) fn entry(&self, key: usize) -> &Entry
        requires { IsLive self.now.tree key }
        ensures says { IsEntryOf self.now.tree key result.now }
        ensures document { IsKeyedDocument self.now.tree }
    {
        &self.nodes[key]
    }

    /// The parent of a node; the root has none. Constant time.
    pub fn parent(&self, key: usize) -> Option<usize>
        requires { IsLive self.now.tree key }
        ensures link { result ≡ parent_of self.now.tree key }
        ensures live { IsLink self.now.tree result }
    {
        self.entry(key).parent
    }

    /// The child of this index: the one with so many siblings before it. Constant time.
    pub fn child(&self, key: usize, index: usize) -> Option<usize>
        requires { IsLive self.now.tree key }
        ensures link { result ≡ child_of self.now.tree key index }
        ensures live { IsLink self.now.tree result }
    {
        self.entry(key).children.as_slice().get(index).copied()
    }

    /// How many children a node has. Constant time.
    pub fn child_count(&self, key: usize) -> usize
        requires { IsLive self.now.tree key }
        ensures { result ≡ child_count_of self.now.tree key }
    {
        self.entry(key).children.len()
    }

    /// How many siblings a node has before it. Constant time.
    pub fn index_of(&self, key: usize) -> usize
        requires { IsLive self.now.tree key }
        ensures { result ≡ index_of self.now.tree key }
    {
        self.entry(key).position
    }

    /// The first child of a node. Constant time.
    pub fn first_child(&self, key: usize) -> Option<usize>
        requires { IsLive self.now.tree key }
        ensures link { result ≡ first_child_of self.now.tree key }
        ensures live { IsLink self.now.tree result }
    {
        self.entry(key).children.as_slice().first().copied()
    }

    /// The last child of a node. Constant time.
    pub fn last_child(&self, key: usize) -> Option<usize>
        requires { IsLive self.now.tree key }
        ensures link { result ≡ last_child_of self.now.tree key }
        ensures live { IsLink self.now.tree result }
    {
        self.entry(key).children.as_slice().last().copied()
    }

    /// The sibling after a node. Constant time.
    pub fn next_sibling(&self, key: usize) -> Option<usize>
        requires { IsLive self.now.tree key }
        ensures link { result ≡ next_sibling_of self.now.tree key }
        ensures live { IsLink self.now.tree result }
    {
        let entry = self.entry(key);
        let siblings = self.entry(entry.parent?).children.as_slice();
        siblings.get(entry.position + 1).copied()
    }

    /// The sibling before a node. Constant time.
    pub fn previous_sibling(&self, key: usize) -> Option<usize>
        requires { IsLive self.now.tree key }
        ensures link { result ≡ previous_sibling_of self.now.tree key }
        ensures live { IsLink self.now.tree result }
    {
        let entry = self.entry(key);
        let siblings = self.entry(entry.parent?).children.as_slice();
        siblings.get(entry.position.checked_sub(1)?).copied()
    }

    /// The node at a path, if there is one. Time linear in the path's length.
    pub fn at(&self, path: &Path) -> Option<usize>
        ensures link { result ≡ key_at self.now.tree path.now }
        ensures live { IsLink self.now.tree result }
    {
        let mut key = self.root();
        for position in path.as_slice() {
            key = self.child(key, *position)?;
        }
        Some(key)
    }

    /// The node after a node in tree order. Time linear in the node's depth at most; constant time a
    /// node, amortized, in a walk over all nodes.
    pub fn next_in_order(&self, key: usize) -> Option<usize>
        requires { IsLive self.now.tree key }
        ensures link { result ≡ next_in_order_of self.now.tree key }
        ensures live { IsLink self.now.tree result }
    {
        arena_holds_document(self);
        if let Some(child) = self.first_child(key) {
            return Some(child);
        }
        let mut at = key;
        'climb: loop {
            if let Some(next) = self.next_sibling(at) {
                return Some(next);
            }
            match self.parent(at) {
                Some(parent) => at = parent,
                None => return None,
            }
        }
    }

    /// The name of an element; a text has none. Constant time.
    pub fn name(&self, key: usize) -> Option<&str>
        requires { IsLive self.now.tree key }
        ensures characters { option_map chars (option_copied result) ≡ name_of self.now.tree key }
        ensures bytes { option_copied result ≡ option_map encode_utf8_all (name_of self.now.tree key) }
    {
        match &self.entry(key).node {
            Node::Element { name, attrs: _ } => Some(name.as_str()),
            Node::Text(_) => None,
        }
    }

    /// The characters of a text; an element has none of its own. Constant time.
    pub fn characters(&self, key: usize) -> Option<&str>
        requires { IsLive self.now.tree key }
        ensures characters { option_map chars (option_copied result) ≡ characters_of self.now.tree key }
        ensures bytes { option_copied result ≡ option_map encode_utf8_all (characters_of self.now.tree key) }
    {
        match &self.entry(key).node {
            Node::Element { name: _, attrs: _ } => None,
            Node::Text(characters) => Some(characters.as_str()),
        }
    }

    /// The attributes of an element, in their order; a text has none. Constant time.
    pub fn attrs(&self, key: usize) -> &[Attr]
        requires { IsLive self.now.tree key }
        ensures { result.now ≡ attrs_of self.now.tree key }
    {
        match &self.entry(key).node {
            Node::Element { name: _, attrs } => attrs.as_slice(),
            Node::Text(_) => &[],
        }
    }

    /// The value of the attribute of this name, which is compared as written. Time linear in the number
    /// of attributes and the length of the name.
    pub fn attr(&self, key: usize, name: &str) -> Option<&str>
        requires { IsLive self.now.tree key }
        ensures characters { option_map chars (option_copied result) ≡ attr_of self.now.tree key (chars name.now) }
        ensures bytes { option_copied result ≡ option_map encode_utf8_all (attr_of self.now.tree key (chars name.now)) }
    {
        for attr in self.attrs(key) {
            if attr.name.as_str() == name {
                return Some(attr.value.as_str());
            }
        }
        None
    }

    /// How many nodes a node is in, itself among them. Time linear in that number.
    fn level(&self, key: usize) -> usize
        requires { IsLive self.now.tree key }
        ensures { result ≡ length (route_of self.now.tree key) }
    {
        arena_holds_document(self);
        let mut level = 1;
        let mut at = key;
        'climb: while let Some(parent) = self.parent(at) {
            level += 1;
            at = parent;
        }
        level
    }

    /// The node so many levels above a node, which has so many. Time linear in the number of steps.
    fn ancestor(&self, key: usize, steps: usize) -> usize
        requires live { IsLive self.now.tree key }
        requires deep { steps < length (route_of self.now.tree key) }
        ensures live { IsLive self.now.tree result }
        ensures route { route_of self.now.tree result ≡ take (length (route_of self.now.tree key) - steps) (route_of self.now.tree key) }
    {
        arena_holds_document(self);
        let mut at = key;
        'climb: for _step in 0..steps {
            if let Some(parent) = self.parent(at) {
                at = parent;
            }
        }
        at
    }

    /// The parents of two nodes of one level, unless they have the same or none.
    fn distinct_parents(&self, first: usize, second: usize) -> Option<(usize, usize)>
        requires first { IsLive self.now.tree first }
        requires second { IsLive self.now.tree second }
        requires level { length (route_of self.now.tree first) ≡ length (route_of self.now.tree second) }
        ensures some { IfSome result (AreDistinctParents self.now.tree first second) }
        ensures none { IfNone result (parent_of self.now.tree first ≡ parent_of self.now.tree second) }
    {
        arena_holds_document(self);
        let above_first = self.parent(first)?;
        let above_second = self.parent(second)?;
        (above_first != above_second).then_some((above_first, above_second))
    }

    /// Whether of two nodes of one level the first comes before the second in tree order.
    fn comes_before(&self, first: usize, second: usize) -> bool
        requires first { IsLive self.now.tree first }
        requires second { IsLive self.now.tree second }
        requires level { length (route_of self.now.tree first) ≡ length (route_of self.now.tree second) }
        ensures { result ≡ comes_before (route_of self.now.tree first) (route_of self.now.tree second) }
    {
        arena_holds_document(self);
        let mut left = first;
        let mut right = second;
        'climb: while let Some((above_left, above_right)) = self.distinct_parents(left, right) {
            left = above_left;
            right = above_right;
        }
        self.index_of(left) < self.index_of(right)
    }

    /// Whether the first node comes before the second in tree order. Time linear in the greater of
    /// their depths.
    pub fn precedes(&self, first: usize, second: usize) -> bool
        requires first { IsLive self.now.tree first }
        requires second { IsLive self.now.tree second }
        ensures { IsTrue result ↔ Precedes self.now.tree first second }
    {
        arena_holds_document(self);
        let first_level = self.level(first);
        let second_level = self.level(second);
        let common = first_level.min(second_level);
        let left = self.ancestor(first, first_level - common);
        let right = self.ancestor(second, second_level - common);
        if left == right {
            return first_level < second_level;
        }
        self.comes_before(left, right)
    }

    /// The path of a node. Time linear in its depth.
    pub fn path_of(&self, alloc: Global, key: usize) -> Result<Path, Memory>
        requires { IsLive self.now.tree key }
        ensures path { IfOk result (λ path. path ≡ path_of self.now.tree key) }
    {
        arena_holds_document(self);
        let mut steps = Vec::new(alloc);
        let mut at = key;
        'climb: while let Some(parent) = self.parent(at) {
            steps.push(self.index_of(at))?;
            at = parent;
        }
        steps.reverse();
        Path::of(alloc, steps.as_slice())
    }
}
