//! The nodes beside a node, and its children.

ghost use Rattle.std.specs.Prelude.{◌≡◌, ◌==◌, [], false, if◌then◌else◌, length, IfNone, IfSome};
ghost use Rattle.std.specs.Option.{option_map_or};
ghost use Rattle.forest.specs.Keys.{without_keys};
ghost use Rattle.forest.specs.Spots.{IsLive, IsLink, children_of, next_sibling_of, previous_sibling_of};
ghost use Rattle.node_arena.specs.Nodes.{characters_of};
ghost use Rattle.selector_match.specs.Elements.{are_nothing};
ghost use Rattle.selector_match.specs.Positions.{siblings};
ghost use Rattle.selector_match.specs.Machinery.Lookups.{IsElement, IsElementBeside, standing_at};
ghost use Rattle.selector_match.specs.Machinery.Sides.{is_later};

use crate::side::Side;
use node_arena::arena::Arena;
use node_arena::laws::arena_holds_document;

/// The node beside a node: the sibling after it, or before it.
pub(crate) fn neighbour(arena: &Arena, key: usize, side: Side) -> Option<usize>
    requires { IsLive arena.now.tree key }
    ensures link { result ≡ (if is_later side then next_sibling_of arena.now.tree key else previous_sibling_of arena.now.tree key) }
    ensures live { IsLink arena.now.tree result }
{
    match side {
        Side::Earlier => arena.previous_sibling(key),
        Side::Later => arena.next_sibling(key),
    }
}

/// The nearest element among the siblings after an element, or among those before it. Time linear in the number of
/// texts between.
pub(crate) fn element_beside(arena: &Arena, key: usize, side: Side) -> Option<usize>
    requires live { IsLive arena.now.tree key }
    requires element { IsElement arena.now.tree key }
    ensures some { IfSome result (IsElementBeside arena.now.tree (is_later side) key) }
    ensures none { IfNone result (siblings (is_later side) (standing_at arena.now.tree key).level ≡ []) }
{
    arena_holds_document(arena);
    let mut at = key;
    'beside: while let Some(beside) = neighbour(arena, at, side) {
        if arena.name(beside).is_some() {
            return Some(beside);
        }
        at = beside;
    }
    None
}

/// Whether a node is a text without characters.
fn is_nothing(arena: &Arena, key: usize) -> bool
    requires { IsLive arena.now.tree key }
    ensures { result ≡ option_map_or (λ characters. length characters == 0) (characters_of arena.now.tree key) false }
{
    match arena.characters(key) {
        Some(characters) => characters.is_empty(),
        None => false,
    }
}

/// Whether a node has neither a child element nor a text with characters. Time linear in the number of
/// its children that are empty texts.
pub(crate) fn is_empty(arena: &Arena, key: usize) -> bool
    requires { IsLive arena.now.tree key }
    ensures { result ≡ are_nothing (without_keys (children_of arena.now.tree key)) }
{
    arena_holds_document(arena);
    let mut child = arena.first_child(key);
    'children: while let Some(at) = child {
        if !is_nothing(arena, at) {
            return false;
        }
        child = arena.next_sibling(at);
    }
    true
}
