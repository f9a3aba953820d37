//! The tags of a document, one after the other.

ghost use Rattle.std.specs.Prelude.{◌≡◌, ◌++◌, [], None, IfOk, IfSome, IsSome, OnErr, OnOk};
ghost use Rattle.std.specs.Option.{option_to_list};
ghost use Rattle.bake_book.specs.Walks.{IsWalk, tags_left, tree_tags};
ghost use Rattle.forest.specs.Spots.{IsLink, on_link};
ghost use Rattle.node_arena.specs.Nodes.{name_of};

use node_arena::arena::Arena;
use node_arena::laws::arena_holds_document;
use plain_types::memory::Memory;
use std::alloc::Global;

/// A tag: the key of its element, and whether it ends the element.
#[derive(Clone, Copy, Debug, PartialEq, Eq)]
pub struct KeyedTag {
    pub key: usize,
    pub is_end: bool,
}

/// A walk over the tags of a document, in the order of its text: an element begins, its content, it ends.
#[derive(Drop)]
pub struct TagWalk {
    /// The elements that the walk is in, the outermost first.
    inside: Vec<usize>,
    /// The node that is reached next; where there is none, the innermost element ends.
    link: Option<usize>,
}

/// The first element among a node and the siblings after it.
fn first_element(arena: &Arena, link: Option<usize>) -> Option<usize>
    requires link { IsLink arena.now.tree link }
    ensures link { IsLink arena.now.tree result }
    ensures tags { tree_tags (on_link arena.now.tree result) ≡ tree_tags (on_link arena.now.tree link) }
    ensures element { IfSome result (λ key. IsSome (name_of arena.now.tree key)) }
{
    arena_holds_document(arena);
    let mut at = link;
    while let Some(key) = at {
        if arena.name(key).is_some() {
            return Some(key);
        }
        at = arena.next_sibling(key);
    }
    None
}

impl TagWalk {
    /// A walk that stands before the first tag. It takes no memory and constant time.
    pub fn begin(alloc: Global, arena: &Arena) -> TagWalk
        ensures walk { IsWalk arena.now.tree result }
        ensures left { tags_left arena.now.tree result ≡ tree_tags arena.now.tree }
    {
        TagWalk {
            inside: Vec::new(alloc),
            link: Some(arena.root()),
        }
    }

    /// The next tag of the document, where one is left, and goes past it. It takes memory for the elements that it is in;
    /// after `Memory` the walk stands where it stood. A whole walk takes time linear in the nodes.
    pub fn next(&mut self, arena: &Arena) -> Result<Option<KeyedTag>, Memory>
        requires walk { IsWalk arena.now.tree self.old }
        ensures walk { IsWalk arena.now.tree self.new }
        ensures next { IfOk result (λ tag. tags_left arena.now.tree self.old ≡ option_to_list tag ++ tags_left arena.now.tree self.new) }
        ensures element { IfOk result (λ tag. IfSome tag (λ each. IsSome (name_of arena.now.tree each.key))) }
        ensures end { IfOk result (λ tag. tag ≡ None → tags_left arena.now.tree self.old ≡ []) }
        ensures failed { OnErr result (tags_left arena.now.tree self.new ≡ tags_left arena.now.tree self.old) }
    {
        arena_holds_document(arena);
        if let Some(key) = first_element(arena, self.link) {
            self.inside.push(key)?;
            self.link = arena.first_child(key);
            return Ok(Some(KeyedTag { key, is_end: false }));
        }
        let Some(key) = self.inside.pop() else {
            self.link = None;
            return Ok(None);
        };
        self.link = arena.next_sibling(key);
        Ok(Some(KeyedTag { key, is_end: true }))
    }
}
