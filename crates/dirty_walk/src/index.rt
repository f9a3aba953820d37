//! The index of a document's ids.

ghost use Rattle.std.specs.Prelude.{◌≡◌, ◌++◌, ◌∷◌, [], ℕ, List, codes, false, flat_map, IfOk, OnOk};
ghost use Rattle.std.specs.Option.{option_map_or};
ghost use Rattle.forest.specs.Keys.{keys};
ghost use Rattle.forest.specs.Spots.{IsLive};
ghost use Rattle.node_arena.specs.Nodes.{attr_of};
ghost use Rattle.target_index.specs.declared.change.IndexChange.TheVariants.{Hold};
ghost use Rattle.target_index.specs.Holders.{is_reference};
ghost use Rattle.referring_elements.specs.References.{AreOnce, TellsReferencesOf};
ghost use Rattle.referring_elements.specs.Indexes.{IsIndexOf};

use node_arena::arena::Arena;
use node_arena::laws::arena_holds_document;
use plain_types::list::List;
use plain_types::memory::Memory;
use plain_types::text::Text;
use referring_elements::references::add_references;
use std::alloc::Global;
use surroundings::told::Told;
use target_index::change::IndexChange;
use target_index::index::Index;

/// The index of the ids of a document's elements, where nothing refers to them yet. Linear time.
fn index_of(alloc: Global, arena: &Arena) -> Result<Index, Memory>
    ensures index { IfOk result (λ index. IsIndexOf index arena.now.tree) }
    ensures none { IfOk result (λ index. (id : List ℕ) (key : ℕ) → is_reference index id key ≡ false) }
{
    arena_holds_document(arena);
    let changes = id_changes(alloc, arena)?;
    let mut index = Index::new(alloc);
    index.reserve_for(alloc, changes.as_slice())?;
    index.commit(changes);
    Ok(index)
}

/// The index of the ids of a document's elements and of their references, where this is told of them. Linear time.
pub(crate) fn index_with(
    alloc: Global,
    arena: &Arena,
    told: &[(usize, Told)],
) -> Result<Index, Memory>
    requires once { AreOnce told.now }
    ensures index { IfOk result (λ index. IsIndexOf index arena.now.tree) }
    ensures references { IfOk result (λ index. TellsReferencesOf index told.now) }
{
    let mut index = index_of(alloc, arena)?;
    add_references(alloc, &mut index, told)?;
    Ok(index)
}

/// Of each element that has an id, in tree order, that it holds it.
fn id_changes(alloc: Global, arena: &Arena) -> Result<List<IndexChange>, Memory>
    ensures changes { IfOk result (λ changes. changes ≡ flat_map (λ (key : ℕ). option_map_or (λ id. Hold id key ∷ []) (attr_of arena.now.tree key (codes "id")) []) (keys arena.now.tree)) }
{
    let mut changes = List::new(alloc);
    let mut at = arena.root();
    'walk: loop {
        put_id_change(alloc, arena, at, &mut changes)?;
        match arena.next_in_order(at) {
            Some(next) => at = next,
            None => return Ok(changes),
        }
    }
}

/// Appends that a node holds its id, where it is an element that has one.
fn put_id_change(
    alloc: Global,
    arena: &Arena,
    key: usize,
    changes: &mut List<IndexChange>,
) -> Result<(), Memory>
    requires live { IsLive arena.now.tree key }
    ensures ok { OnOk result (changes.new ≡ changes.old ++ option_map_or (λ id. Hold id key ∷ []) (attr_of arena.now.tree key (codes "id")) []) }
{
    let Some(id) = arena.attr(key, "id") else {
        return Ok(());
    };
    let id = Text::from_str(alloc, id)?;
    changes.push(IndexChange::Hold { id, key })?;
    Ok(())
}
