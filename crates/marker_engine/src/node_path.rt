//! The path of a node, in a buffer that is used again.

ghost use Rattle.std.specs.Prelude.{◌≡◌, ◌<◌, ◌≤◌, OnOk, OnErr, length, vec_capacity};
ghost use Rattle.forest.specs.Paths.{path_of};
ghost use Rattle.forest.specs.Spots.{IsLive};

use node_arena::arena::Arena;
use node_arena::laws::arena_holds_document;
use plain_types::memory::Memory;

/// Makes the positions those of the path of a node, whatever they were, in time linear in its depth. It takes memory only
/// where there is no room for so many, and the room is kept: `Memory` where that is wanting, and then the positions are of
/// no use.
pub fn fill_path(positions: &mut Vec<usize>, arena: &Arena, key: usize) -> Result<(), Memory>
    requires live { IsLive arena.now.tree key }
    ensures path { OnOk result (positions.new.items ≡ path_of arena.now.tree key) }
    ensures room { vec_capacity positions.old ≤ vec_capacity positions.new }
    // where there is room for the path, it is put there
    ensures wanting { OnErr result (vec_capacity positions.old < length (path_of arena.now.tree key)) }
{
    arena_holds_document(arena);
    positions.clear();
    let mut at = key;
    'climb: while let Some(parent) = arena.parent(at) {
        positions.push(arena.index_of(at))?;
        at = parent;
    }
    positions.reverse();
    Ok(())
}
