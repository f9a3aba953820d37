//! The characters under an element.

ghost use Rattle.std.specs.Prelude.{◌≡◌, ◌++◌, [], IfOk, OnOk, unwrap_or};
ghost use Rattle.forest.specs.Spots.{IsLive, children_of};
ghost use Rattle.node_arena.specs.Nodes.{characters_of};
ghost use Rattle.generated_texts.specs.References.{characters_in};

use node_arena::arena::Arena;
use node_arena::laws::arena_holds_document;
use plain_types::memory::Memory;
use plain_types::text::Text;
use std::alloc::Global;

/// Appends the characters of a node; an element has none of its own.
fn add_characters(arena: &Arena, key: usize, text: &mut Text) -> Result<(), Memory>
    requires live { IsLive arena.now.tree key }
    ensures ok { OnOk result (text.new ≡ text.old ++ unwrap_or (characters_of arena.now.tree key) []) }
{
    match arena.characters(key) {
        Some(characters) => text.push_str(characters),
        None => Ok(()),
    }
}

/// The characters of all texts under a node, in tree order. It takes time and memory in the nodes under it and
/// their characters.
pub fn characters_under(alloc: Global, arena: &Arena, key: usize) -> Result<Text, Memory>
    requires live { IsLive arena.now.tree key }
    ensures characters { IfOk result (λ text. text ≡ characters_in (children_of arena.now.tree key)) }
{
    arena_holds_document(arena);
    let mut text = Text::new(alloc);
    let mut inside = Vec::new(alloc);
    let mut link = arena.first_child(key);
    'walk: loop {
        match link {
            Some(node) => {
                add_characters(arena, node, &mut text)?;
                inside.push(node)?;
                link = arena.first_child(node);
            }
            None => match inside.pop() {
                None => return Ok(text),
                Some(node) => link = arena.next_sibling(node),
            },
        }
    }
}
