//! The element that an id names.

ghost use Rattle.std.specs.Prelude.{◌≡◌};
ghost use Rattle.std.specs.Str.{chars};
ghost use Rattle.forest.specs.Spots.{IsLink};
ghost use Rattle.generated_texts.specs.References.{first_holder};
ghost use Rattle.referring_elements.specs.Indexes.{IsIndexOf};

use node_arena::arena::Arena;
use node_arena::laws::arena_holds_document;
use target_index::index::Index;

/// The first element in tree order that has an id, which is compared as written. It takes no memory, and time in the number
/// of elements that have it, for each of them linear in how deep they are.
pub fn first_holder(index: &Index, arena: &Arena, id: &str) -> Option<usize>
    requires index { IsIndexOf index.now arena.now.tree }
    ensures first { result ≡ first_holder arena.now.tree (chars id.now) }
    ensures live { IsLink arena.now.tree result }
{
    arena_holds_document(arena);
    index.first(arena, id)
}
