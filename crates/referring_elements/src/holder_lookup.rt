//! The elements that ids name, of which none is looked for twice.

ghost use Rattle.std.specs.Prelude.{◌≡◌, IfOk};
ghost use Rattle.std.specs.Str.{chars};
ghost use Rattle.forest.specs.Spots.{IsLink};
ghost use Rattle.generated_texts.specs.References.{first_holder};
ghost use Rattle.referring_elements.specs.ElementsById.{NameFirst};
ghost use Rattle.referring_elements.specs.Indexes.{IsIndexOf};

use crate::elements_by_id::ElementsById;
use crate::holders::first_holder;
use node_arena::arena::Arena;
use node_arena::laws::arena_holds_document;
use plain_types::memory::Memory;
use std::alloc::Global;
use target_index::index::Index;

/// The first element in tree order of each id of a document, by its index.
#[derive(Drop)]
pub struct HolderLookup<'a> {
    pub arena: &'a Arena,
    index: &'a Index,
    /// Of ids that several elements have: those that were found.
    found: ElementsById,
    ghost indexed: { IsIndexOf index.now arena.now.tree },
    ghost first: { NameFirst found arena.now.tree },
}

impl<'a> HolderLookup<'a> {
    /// No element is found yet. It takes no memory.
    pub fn new(alloc: Global, arena: &'a Arena, index: &'a Index) -> HolderLookup<'a>
        requires indexed { IsIndexOf index.now arena.now.tree }
        ensures tree { result.arena.now.tree ≡ arena.now.tree }
    {
        HolderLookup {
            arena,
            index,
            found: ElementsById::new(alloc),
        }
    }

    /// The first element in tree order that has an id, which is compared as written. It takes time linear in the id; where
    /// several elements have it, the first time beside that memory of the id, and time in their number, for each of them linear
    /// in how deep they are.
    pub fn find(&mut self, alloc: Global, id: &str) -> Result<Option<usize>, Memory>
        ensures first { IfOk result (λ element. element ≡ first_holder self.old.arena.now.tree (chars id.now)) }
        ensures tree { self.new.arena.now.tree ≡ self.old.arena.now.tree }
    {
        if let Some(element) = self.found.get(id) {
            return Ok(Some(element));
        }
        let first = first_holder(self.index, self.arena, id);
        if let Some(element) = first {
            if self.index.holders(id).len() > 1 {
                self.found.put_first(alloc, id, element)?;
            }
        }
        Ok(first)
    }

    /// The same, but it is not kept for the next time. It takes no memory.
    pub fn of(&self, id: &str) -> Option<usize>
        ensures first { result ≡ first_holder self.now.arena.now.tree (chars id.now) }
        ensures live { IsLink self.now.arena.now.tree result }
    {
        arena_holds_document(self.arena);
        match self.found.get(id) {
            Some(element) => Some(element),
            None => first_holder(self.index, self.arena, id),
        }
    }
}
