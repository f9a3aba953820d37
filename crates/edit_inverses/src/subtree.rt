//! Copies of the trees under nodes.

ghost use Rattle.std.specs.Prelude.{◌≡◌, ◌⊎◌, ◌≢◌, IsTrue, IfOk, IfSome, IfNone, Some, None, length};
ghost use Rattle.forest.specs.Keys.{without_keys};
ghost use Rattle.forest.specs.Spots.{IsLive, label_of, on_link, parent_of};
ghost use Rattle.plain_types.specs.Building.{accepts_node};
ghost use Rattle.node_arena.specs.Changes.{alone};
ghost use Rattle.node_arena.specs.Copies.{PutsNode};

use node_arena::arena::Arena;
use node_arena::laws::arena_holds_document;
use plain_types::attr::Attr;
use plain_types::duplicate::Duplicate;
use plain_types::list::List;
use plain_types::memory::Memory;
use plain_types::text::Text;
use plain_types::tree::Tree;
use plain_types::tree_builder::TreeBuilder;
use std::alloc::Global;

/// A list of copies of the attributes.
fn copied_attrs(alloc: Global, attrs: &[Attr]) -> Result<List<Attr>, Memory>
    ensures same { IfOk result (λ copy. copy ≡ attrs.now) }
{
    let mut copy = List::new(alloc);
    for attr in attrs {
        copy.push(attr.duplicate(alloc)?)?;
    }
    Ok(copy)
}

/// Puts a copy of a node without its children, and tells whether it is an element, which is then begun.
fn put_node(
    alloc: Global,
    arena: &Arena,
    key: usize,
    builder: &mut TreeBuilder,
) -> Result<bool, Memory>
    requires live { IsLive arena.now.tree key }
    requires accepts { IsTrue (accepts_node builder.old) }
    ensures puts { IfOk result (λ element. IfSome (label_of arena.now.tree key) (λ node. PutsNode builder.old builder.new node element)) }
{
    arena_holds_document(arena);
    match arena.name(key) {
        Some(name) => {
            let attrs = copied_attrs(alloc, arena.attrs(key))?;
            builder.start(Text::from_str(alloc, name)?, attrs)?;
            Ok(true)
        }
        None => {
            let characters = arena.characters(key).unwrap();
            builder.text(Text::from_str(alloc, characters)?)?;
            Ok(false)
        }
    }
}

/// The parent of a node, unless the node is `top`.
fn parent_below(arena: &Arena, top: usize, key: usize) -> Option<usize>
    requires { IsLive arena.now.tree key }
    ensures none { IfNone result ((key ≡ top) ⊎ (parent_of arena.now.tree key ≡ None)) }
    ensures some { IfSome result (λ parent. (key ≢ top) × (parent_of arena.now.tree key ≡ Some parent)) }
{
    if key == top {
        return None;
    }
    arena.parent(key)
}

/// A copy of the tree of a node: the node and all that is under it. It takes memory of the size of that tree, and time
/// linear in it; `Memory` where that is wanting.
pub fn tree_at(alloc: Global, arena: &Arena, key: usize) -> Result<Tree, Memory>
    requires { IsLive arena.now.tree key }
    ensures tree { IfOk result (λ tree. tree ≡ without_keys (alone (on_link arena.now.tree (Some key)))) }
{
    arena_holds_document(arena);
    let mut builder = TreeBuilder::new(alloc);
    let begun = put_node(alloc, arena, key, &mut builder)?;
    if !begun {
        return Ok(builder.finish());
    }
    let mut inside = key;
    let mut link = arena.first_child(key);
    'walk: loop {
        if let Some(next) = link {
            if put_node(alloc, arena, next, &mut builder)? {
                inside = next;
                link = arena.first_child(next);
            } else {
                link = arena.next_sibling(next);
            }
            continue;
        }
        builder.end();
        match parent_below(arena, key, inside) {
            None => return Ok(builder.finish()),
            Some(parent) => {
                link = arena.next_sibling(inside);
                inside = parent;
            }
        }
    }
}
