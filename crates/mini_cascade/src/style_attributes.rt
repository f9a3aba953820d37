//! The `style` attributes of elements (HTML, 3.2.6 "The style attribute").

ghost use Rattle.std.specs.Prelude.{◌≡◌, IfOk};
ghost use Rattle.forest.specs.Spots.{IsLive};
ghost use Rattle.mini_cascade.specs.StyleAttributes.{inline_of};

use crate::texts::attr;
use css_reader::inline::read_inline;
use node_arena::arena::Arena;
use plain_types::declaration::Declared;
use plain_types::list::List;
use plain_types::memory::Memory;
use std::alloc::Global;

/// The declarations of the node's `style` attribute, in their order, without what is not understood; none where
/// it has no such attribute, and then no memory is taken. Time is linear in the node's attributes and in the
/// length of this one, and so is memory in the latter.
pub fn inline_declarations(
    alloc: Global,
    arena: &Arena,
    key: usize,
) -> Result<List<Declared>, Memory>
    requires live { IsLive arena.now.tree key }
    ensures declared { IfOk result (λ found. found ≡ inline_of arena.now.tree key) }
{
    match attr(arena, key, "style") {
        Some(text) => read_inline(alloc, text),
        None => Ok(List::new(alloc)),
    }
}
