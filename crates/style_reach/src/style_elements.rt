//! Style elements, and where they stand.

ghost use Rattle.std.specs.Prelude.{◌≡◌};
ghost use Rattle.forest.specs.Spots.{IsLive};
ghost use Rattle.plain_types.specs.View.{Shows};
ghost use Rattle.plain_types.specs.declared.node.Node.{Node};
ghost use Rattle.style_reach.specs.TouchedSheets.{have_style, holds_style, is_in_style, is_style, is_style_of};

use node_arena::arena::Arena;
use node_arena::laws::arena_holds_document;
use plain_types::node::NodeView;
use plain_types::tree::Tree;

/// Whether a node is a style element. Constant time.
pub(crate) fn is_style(arena: &Arena, key: usize) -> bool
    requires live { IsLive arena.now.tree key }
    ensures { result ≡ is_style_of arena.now.tree key }
{
    arena.name(key) == Some("style")
}

/// Whether the node that a view shows is a style element.
fn shows_style(view: NodeView<'_>) -> bool
    ensures { (node : Node) → Shows node view.entry → result ≡ is_style node }
{
    match view {
        NodeView::Element { name, attrs: _ } => name == "style",
        NodeView::Text { characters: _ } => false,
    }
}

/// Whether a style element stands in a tree. Time linear in it.
pub(crate) fn have_style(tree: &Tree) -> bool
    ensures { result ≡ have_style tree.now }
{
    for place in 0..tree.len() {
        if shows_style(tree.node(place)) {
            return true;
        }
    }
    false
}

/// Whether a node is a style element, or stands in one. Time linear in its depth.
pub(crate) fn is_in_style(arena: &Arena, key: usize) -> bool
    requires live { IsLive arena.now.tree key }
    ensures { result ≡ is_in_style arena.now.tree key }
{
    arena_holds_document(arena);
    let mut at = key;
    'climb: loop {
        if is_style(arena, at) {
            return true;
        }
        match arena.parent(at) {
            Some(parent) => at = parent,
            None => return false,
        }
    }
}

/// Whether a node is a style element, or one stands in it. Time linear in the nodes in it.
pub(crate) fn holds_style(arena: &Arena, key: usize) -> bool
    requires live { IsLive arena.now.tree key }
    ensures { result ≡ holds_style arena.now.tree key }
{
    arena_holds_document(arena);
    if is_style(arena, key) {
        return true;
    }
    let mut inside = key;
    let mut link = arena.first_child(key);
    'walk: loop {
        if let Some(node) = link {
            if is_style(arena, node) {
                return true;
            }
            inside = node;
            link = arena.first_child(node);
            continue;
        }
        if inside == key {
            return false;
        }
        link = arena.next_sibling(inside);
        match arena.parent(inside) {
            Some(parent) => inside = parent,
            None => return false,
        }
    }
}
