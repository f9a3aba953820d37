//! The elements that all ids of a document name, found at once.

ghost use Rattle.std.specs.Prelude.{◌≡◌, ℕ, List, IfOk, OnOk};
ghost use Rattle.std.specs.Option.{option_or};
ghost use Rattle.std.specs.Str.{chars};
ghost use Rattle.forest.specs.Spots.{IsLink, IsLive};
ghost use Rattle.generated_texts.specs.References.{first_holder};
ghost use Rattle.referring_elements.specs.ElementsById.{element_of, if_holder};

use crate::elements_by_id::ElementsById;
use node_arena::arena::Arena;
use node_arena::laws::arena_holds_document;
use plain_types::memory::Memory;
use std::alloc::Global;

/// The first element in tree order of each id of a document.
#[derive(Drop)]
pub struct FirstHolders<'a> {
    arena: &'a Arena,
    elements: ElementsById,
    ghost first: { (id : List ℕ) → element_of elements id ≡ first_holder arena.now.tree id },
}

impl<'a> FirstHolders<'a> {
    /// Finds them in one walk. It takes time linear in the document, and memory of its ids: worth it where many ids are
    /// followed, since `first_holder` looks at all elements that have an id each time.
    pub fn of_document(alloc: Global, arena: &'a Arena) -> Result<FirstHolders<'a>, Memory>
        ensures tree { IfOk result (λ holders. holders.arena.now.tree ≡ arena.now.tree) }
    {
        let elements = first_elements(alloc, arena)?;
        Ok(FirstHolders { arena, elements })
    }

    /// The first element in tree order that has an id, which is compared as written. It takes no memory, and time linear in
    /// the id.
    pub fn of(&self, id: &str) -> Option<usize>
        ensures first { result ≡ first_holder self.now.arena.now.tree (chars id.now) }
        ensures live { IsLink self.now.arena.now.tree result }
    {
        arena_holds_document(self.arena);
        self.elements.get(id)
    }
}

/// The first element in tree order of each id.
fn first_elements(alloc: Global, arena: &Arena) -> Result<ElementsById, Memory>
    ensures first { IfOk result (λ elements. (id : List ℕ) → element_of elements id ≡ first_holder arena.now.tree id) }
{
    let mut elements = ElementsById::new(alloc);
    let mut at = arena.root();
    'walk: loop {
        put_holder(alloc, arena, at, &mut elements)?;
        match arena.next_in_order(at) {
            Some(next) => at = next,
            None => return Ok(elements),
        }
    }
}

/// Gives an id the node that has it, where that is an element and the id has none.
fn put_holder(
    alloc: Global,
    arena: &Arena,
    key: usize,
    elements: &mut ElementsById,
) -> Result<(), Memory>
    requires live { IsLive arena.now.tree key }
    ensures ok { OnOk result ((id : List ℕ) → element_of elements.new id ≡ option_or (element_of elements.old id) (if_holder arena.now.tree id key)) }
{
    match arena.attr(key, "id") {
        Some(id) => elements.put_first(alloc, id, key),
        None => Ok(()),
    }
}
