//! The elements that the ids of a document name.

ghost use Rattle.std.specs.Prelude.{◌≡◌, ℕ, IfOk};
ghost use Rattle.std.specs.List.{list_any};
ghost use Rattle.std.specs.Str.{chars};
ghost use Rattle.forest.specs.Spots.{IsLink};
ghost use Rattle.generated_texts.specs.References.{first_holder};
ghost use Rattle.surroundings.specs.declared.told.Told.{Told};
ghost use Rattle.referring_elements.specs.Indexes.{IsIndexOf};
ghost use Rattle.dirty_walk.specs.Machinery.NamedElements.{AreHoldersOf};
ghost use Rattle.box_pieces.specs.BoxPieces.{refers};

use box_pieces::box_pieces::refers;
use node_arena::arena::Arena;
use node_arena::laws::arena_holds_document;
use plain_types::memory::Memory;
use referring_elements::first_holders::FirstHolders;
use referring_elements::holders::first_holder;
use std::alloc::Global;
use surroundings::told::Told;
use target_index::index::Index;

/// The elements that the ids of a document name: of those that have an id, the first in tree order.
#[derive(Drop)]
pub(crate) struct NamedElements<'a> {
    pub(crate) arena: &'a Arena,
    pub(crate) index: &'a Index,
    /// Those of all ids, found at once. Where they were not, each is looked for when its id is followed.
    pub(crate) first: Option<FirstHolders<'a>>,
    ghost indexed: { IsIndexOf index.now arena.now.tree },
    ghost found: { AreHoldersOf first arena.now.tree },
}

impl<'a> NamedElements<'a> {
    /// Those of a document of whose elements this is told, to follow all their references.
    pub(crate) fn of_document(
        alloc: Global,
        arena: &'a Arena,
        index: &'a Index,
        records: &[(usize, Told)],
    ) -> Result<NamedElements<'a>, Memory>
        requires indexed { IsIndexOf index.now arena.now.tree }
        ensures tree { IfOk result (λ named. named.arena.now.tree ≡ arena.now.tree) }
    {
        let first = first_holders(alloc, arena, records)?;
        Ok(NamedElements {
            arena,
            index,
            first,
        })
    }

    /// The element that an id names.
    pub(crate) fn of(&self, id: &str) -> Option<usize>
        ensures first { result ≡ first_holder self.now.arena.now.tree (chars id.now) }
        ensures live { IsLink self.now.arena.now.tree result }
    {
        arena_holds_document(self.arena);
        match &self.first {
            Some(holders) => holders.of(id),
            None => first_holder(self.index, self.arena, id),
        }
    }
}

fn is_referring(element: &(usize, Told)) -> bool
    ensures { result ≡ refers element.now.1.said }
{
    refers(&element.1.said)
}

/// Whether a box of some element refers to an id.
fn some_refers(records: &[(usize, Told)]) -> bool
    ensures { result ≡ list_any (λ (element : ℕ × Told). refers element.1.said) records.now }
{
    records.iter().any(|element| is_referring(element))
}

/// The first holders of a document's ids, where a box of some element refers to one: else they are not found, which takes
/// time linear in the document.
fn first_holders<'a>(
    alloc: Global,
    arena: &'a Arena,
    records: &[(usize, Told)],
) -> Result<Option<FirstHolders<'a>>, Memory>
    ensures holders { IfOk result (λ first. AreHoldersOf first arena.now.tree) }
{
    if some_refers(records) {
        Ok(Some(FirstHolders::of_document(alloc, arena)?))
    } else {
        Ok(None)
    }
}
