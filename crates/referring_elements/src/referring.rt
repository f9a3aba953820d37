//! The elements whose texts an edit can change, beside those that it changes itself.

ghost use Rattle.std.specs.Prelude.{◌≡◌, ◌||◌, ◌&&◌, ℕ, List, codes, IfOk, OnOk};
ghost use Rattle.std.specs.List.{list_any};
ghost use Rattle.std.specs.Str.{chars};
ghost use Rattle.forest.specs.Spots.{IsLive};
ghost use Rattle.box_eval.specs.declared.element_record.ElementRecord.{ElementRecord};
ghost use Rattle.edit_work.specs.KeyedSources.{is_among};
ghost use Rattle.target_index.specs.Holders.{is_reference};
ghost use Rattle.reference_reach.specs.ChangedTargets.{Evaluated, refers, refers_through};
ghost use Rattle.referring_elements.specs.Former.{AreFormerTargets, is_former};
ghost use Rattle.referring_elements.specs.Found.{is_found, is_named, refers_anew, refers_by_id};
ghost use Rattle.referring_elements.specs.Indexes.{AreLive, AreReferencesLive, IsIndexOf, TellsReferences};
ghost use Rattle.referring_elements.specs.Machinery.Additions.{AreAdded};

use crate::elements::Elements;
use crate::elements_by_id::ElementsById;
use crate::former::FormerTarget;
use crate::holder_lookup::HolderLookup;
use node_arena::arena::Arena;
use node_arena::laws::arena_holds_document;
use plain_types::memory::Memory;
use std::alloc::Global;
use target_index::index::Index;

/// Adds the elements that refer to an id.
fn add_references(index: &Index, id: &str, found: &mut Elements) -> Result<(), Memory>
    ensures ok { OnOk result ((key : ℕ) → is_among found.new key ≡ (is_among found.old key || is_reference index.now (chars id.now) key)) }
{
    found.add_all(index.references(id))
}

/// Adds the elements that refer to an id, where these are not added yet. For each id that several refer to and whose elements
/// are added, one of them is kept.
fn add_once(
    alloc: Global,
    index: &Index,
    id: &str,
    added: &mut ElementsById,
    found: &mut Elements,
) -> Result<(), Memory>
    requires added { AreAdded index.now added.old found.old }
    ensures ok { OnOk result ((key : ℕ) → is_among found.new key ≡ (is_among found.old key || is_reference index.now (chars id.now) key)) }
    ensures added { OnOk result (AreAdded index.now added.new found.new) }
{
    if added.get(id).is_some() {
        return Ok(());
    }
    let referring = index.references(id);
    found.add_all(referring)?;
    if referring.len() > 1 {
        added.put_first(alloc, id, referring[0])?;
    }
    Ok(())
}

/// Whether an id names another element than before, or none any longer.
fn is_former(
    alloc: Global,
    lookup: &mut HolderLookup<'_>,
    target: &FormerTarget,
) -> Result<bool, Memory>
    ensures test { IfOk result (λ test. test ≡ is_former lookup.old.arena.now.tree target.now) }
    ensures tree { lookup.new.arena.now.tree ≡ lookup.old.arena.now.tree }
{
    let named = lookup.find(alloc, target.id.as_str())?;
    Ok(target.element != named)
}

/// Adds the elements that refer to an id, where it names another element than before and these are not added yet.
fn add_anew(
    alloc: Global,
    lookup: &mut HolderLookup<'_>,
    index: &Index,
    target: &FormerTarget,
    added: &mut ElementsById,
    found: &mut Elements,
) -> Result<(), Memory>
    requires added { AreAdded index.now added.old found.old }
    ensures ok { OnOk result ((key : ℕ) → is_among found.new key ≡ (is_among found.old key || refers_anew lookup.old.arena.now.tree index.now key target.now)) }
    ensures added { OnOk result (AreAdded index.now added.new found.new) }
    ensures tree { lookup.new.arena.now.tree ≡ lookup.old.arena.now.tree }
{
    if is_former(alloc, lookup, target)? {
        add_once(alloc, index, target.id.as_str(), added, found)?;
    }
    Ok(())
}

/// Whether an id names this element.
fn is_named(
    alloc: Global,
    lookup: &mut HolderLookup<'_>,
    target: usize,
    id: &str,
) -> Result<bool, Memory>
    ensures test { IfOk result (λ test. test ≡ is_named lookup.old.arena.now.tree target (chars id.now)) }
    ensures tree { lookup.new.arena.now.tree ≡ lookup.old.arena.now.tree }
{
    let named = lookup.find(alloc, id)?;
    Ok(named == Some(target))
}

/// Adds the elements that refer to an element by its id, where the id names it.
fn add_by_id(
    alloc: Global,
    lookup: &mut HolderLookup<'_>,
    index: &Index,
    target: usize,
    found: &mut Elements,
) -> Result<(), Memory>
    requires live { IsLive lookup.old.arena.now.tree target }
    ensures ok { OnOk result ((key : ℕ) → is_among found.new key ≡ (is_among found.old key || refers_by_id lookup.old.arena.now.tree index.now key target)) }
    ensures tree { lookup.new.arena.now.tree ≡ lookup.old.arena.now.tree }
{
    let arena = lookup.arena;
    if let Some(id) = arena.attr(target, "id") {
        if is_named(alloc, lookup, target, id)? {
            add_references(index, id, found)?;
        }
    }
    Ok(())
}

/// Adds the elements that refer to one of these by its id.
fn add_all_by_id(
    alloc: Global,
    lookup: &mut HolderLookup<'_>,
    index: &Index,
    targets: &[usize],
    found: &mut Elements,
) -> Result<(), Memory>
    requires live { AreLive lookup.old.arena.now.tree targets.now }
    ensures ok { OnOk result ((key : ℕ) → is_among found.new key ≡ (is_among found.old key || list_any (refers_by_id lookup.old.arena.now.tree index.now key) targets.now)) }
    ensures tree { lookup.new.arena.now.tree ≡ lookup.old.arena.now.tree }
{
    for target in targets {
        add_by_id(alloc, lookup, index, *target, found)?;
    }
    Ok(())
}

/// The elements that refer to ids which name other elements than before.
fn elements_anew(
    alloc: Global,
    lookup: &mut HolderLookup<'_>,
    index: &Index,
    former: &[FormerTarget],
) -> Result<Elements, Memory>
    ensures found { IfOk result (λ found. (key : ℕ) → is_among found key ≡ list_any (refers_anew lookup.old.arena.now.tree index.now key) former.now) }
    ensures tree { lookup.new.arena.now.tree ≡ lookup.old.arena.now.tree }
{
    let mut added = ElementsById::new(alloc);
    let mut found = Elements::new(alloc);
    for target in former {
        add_anew(alloc, lookup, index, target, &mut added, &mut found)?;
    }
    Ok(found)
}

/// The elements that refer to ids which name other elements than before, or to one of these elements.
fn found_elements(
    alloc: Global,
    lookup: &mut HolderLookup<'_>,
    index: &Index,
    former: &[FormerTarget],
    targets: &[usize],
) -> Result<Elements, Memory>
    requires live { AreLive lookup.old.arena.now.tree targets.now }
    ensures found { IfOk result (λ found. (key : ℕ) → is_among found key ≡ is_found lookup.old.arena.now.tree index.now former.now targets.now key) }
    ensures tree { lookup.new.arena.now.tree ≡ lookup.old.arena.now.tree }
{
    let mut found = elements_anew(alloc, lookup, index, former)?;
    add_all_by_id(alloc, lookup, index, targets, &mut found)?;
    Ok(found)
}

/// The elements whose texts an edit can change, beside those that it changes.
#[derive(Drop)]
pub struct Referring {
    /// Those that refer to an id with a changed target: their flat texts can be other ones, and their full texts.
    pub first: Elements,
    /// Those that refer to an id whose target is one of these: their full texts can be other ones.
    pub second: Elements,
}

/// The elements whose texts an edit can change, beside those that it changes: the index is that of the edited document, which
/// is this. Each element is there once, in the order in which it was found. An id counts where it names another element than
/// before, or one that is changed: the elements that refer to it may be many where it does not.
///
/// It takes memory of these elements and of ids, and time in these elements and in the ids of the former targets, of the changed
/// elements and of the first elements: it looks up each id once, in time in the number of elements that hold it, for each of them
/// linear in how deep they are; where several refer to an id, it goes through them three times at most; and it walks nowhere.
pub fn referring_elements(
    alloc: Global,
    arena: &Arena,
    index: &Index,
    former: &[FormerTarget],
    changed: &[usize],
) -> Result<Referring, Memory>
    requires indexed { IsIndexOf index.now arena.now.tree }
    requires references { AreReferencesLive index.now arena.now.tree }
    requires live { AreLive arena.now.tree changed.now }
    ensures first { IfOk result (λ found. (before : Evaluated) (said : List (ℕ × ElementRecord)) → let after : Evaluated = record { tree = arena.now.tree; said = said } in AreFormerTargets former.now before after → TellsReferences index.now after → (key : ℕ) → is_among found.first key ≡ refers before after changed.now key) }
    ensures second { IfOk result (λ found. (before : Evaluated) (said : List (ℕ × ElementRecord)) → let after : Evaluated = record { tree = arena.now.tree; said = said } in AreFormerTargets former.now before after → TellsReferences index.now after → (key : ℕ) → is_among found.second key ≡ refers_through before after changed.now key) }
{
    arena_holds_document(arena);
    let mut lookup = HolderLookup::new(alloc, arena, index);
    let first = found_elements(alloc, &mut lookup, index, former, changed)?;
    let second = found_elements(alloc, &mut lookup, index, &[], first.as_slice())?;
    Ok(Referring { first, second })
}
