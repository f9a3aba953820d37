//! What an edit takes out of a document and what it brings into it.

ghost use Rattle.std.specs.Prelude.{◌≡◌, ◌++◌, ◌∷◌, [], ℕ, List, Some, codes, flat_map, IfOk, OnErr, OnOk};
ghost use Rattle.std.specs.Option.{option_map_or};
ghost use Rattle.forest.specs.Paths.{key_at};
ghost use Rattle.forest.specs.Spots.{IsLink, IsLive, keyed, label_of, on_link};
ghost use Rattle.node_arena.specs.Changes.{alone};
ghost use Rattle.node_arena.specs.Nodes.{attr_of};
ghost use Rattle.edit_merge.specs.Laws.{InsertsOneTree};
ghost use Rattle.target_index.specs.Changes.{AreReserved, holds_after_all};
ghost use Rattle.target_index.specs.Holders.{is_holder, is_reference};
ghost use Rattle.dirty_walk.specs.Exchanges.{coming, element_of, elements_in, exchanges, first_node, held, leaving, taken_keys, unheld};

use node_arena::arena::Arena;
use node_arena::laws::arena_holds_document;
use plain_types::duplicate::Duplicate;
use plain_types::edit::Edit;
use plain_types::list::List;
use plain_types::memory::Memory;
use plain_types::path::Path;
use plain_types::text::Text;
use std::alloc::Global;
use target_index::change::IndexChange;
use target_index::index::Index;

/// An element of a document, and its id where it has one.
#[derive(Drop)]
pub(crate) struct ElementId {
    pub(crate) key: usize,
    pub(crate) id: Option<Text>,
}

/// What an edit inserts is one tree. This is a law: the function does nothing.
pub(crate) fn inserts_one_tree(edit: &Edit)
    ensures { InsertsOneTree edit.now }
{
    if let Edit::Insert { fragment, .. } = edit {
        // The contract of `len` says so.
        let _count = fragment.len();
    }
}

/// The id of a node; a text has none.
fn id_of(alloc: Global, arena: &Arena, key: usize) -> Result<Option<Text>, Memory>
    requires live { IsLive arena.now.tree key }
    ensures id { IfOk result (λ id. id ≡ attr_of arena.now.tree key (codes "id")) }
{
    match arena.attr(key, "id") {
        Some(id) => Ok(Some(Text::from_str(alloc, id)?)),
        None => Ok(None),
    }
}

/// Appends a node, where it is an element.
fn put_element(
    alloc: Global,
    arena: &Arena,
    key: usize,
    elements: &mut List<ElementId>,
) -> Result<(), Memory>
    requires live { IsLive arena.now.tree key }
    ensures ok { OnOk result (elements.new ≡ elements.old ++ option_map_or (λ label. element_of (keyed key label)) (label_of arena.now.tree key) []) }
{
    if arena.name(key).is_some() {
        let id = id_of(alloc, arena, key)?;
        elements.push(ElementId { key, id })?;
    }
    Ok(())
}

/// A node, where there is one and it is an element.
fn element_at(alloc: Global, arena: &Arena, link: Option<usize>) -> Result<List<ElementId>, Memory>
    requires live { IsLink arena.now.tree link }
    ensures elements { IfOk result (λ elements. elements ≡ elements_in (first_node (on_link arena.now.tree link))) }
{
    let mut elements = List::new(alloc);
    if let Some(key) = link {
        put_element(alloc, arena, key, &mut elements)?;
    }
    Ok(elements)
}

/// The elements among a node and all under it, in tree order.
fn elements_from(alloc: Global, arena: &Arena, key: usize) -> Result<List<ElementId>, Memory>
    requires live { IsLive arena.now.tree key }
    ensures elements { IfOk result (λ elements. elements ≡ elements_in (alone (on_link arena.now.tree (Some key)))) }
{
    arena_holds_document(arena);
    let mut elements = List::new(alloc);
    put_element(alloc, arena, key, &mut elements)?;
    let mut inside = Vec::new(alloc);
    let mut link = arena.first_child(key);
    'walk: loop {
        match link {
            Some(node) => {
                put_element(alloc, arena, node, &mut elements)?;
                inside.push(node)?;
                link = arena.first_child(node);
            }
            None => match inside.pop() {
                None => return Ok(elements),
                Some(node) => link = arena.next_sibling(node),
            },
        }
    }
}

/// The elements of a tree, where there is one.
pub(crate) fn tree_elements(
    alloc: Global,
    arena: &Arena,
    link: Option<usize>,
) -> Result<List<ElementId>, Memory>
    requires live { IsLink arena.now.tree link }
    ensures elements { IfOk result (λ elements. elements ≡ elements_in (alone (on_link arena.now.tree link))) }
{
    match link {
        Some(key) => elements_from(alloc, arena, key),
        None => Ok(List::new(alloc)),
    }
}

/// The child of this index of the node at a path.
fn child_at(arena: &Arena, parent: &Path, index: usize) -> Option<usize>
    ensures link { result ≡ key_at arena.now.tree (parent.now ++ index ∷ []) }
    ensures live { IsLink arena.now.tree result }
{
    arena_holds_document(arena);
    arena.child(arena.at(parent)?, index)
}

/// The elements that an edit takes out of a document, which is not edited yet, in tree order. Of an element whose
/// attributes change it is that element alone.
///
/// It takes memory of their number and their ids, and time linear in the path and in the nodes that go with their
/// attributes.
pub(crate) fn leaving_elements(
    alloc: Global,
    arena: &Arena,
    edit: &Edit,
) -> Result<List<ElementId>, Memory>
    ensures elements { IfOk result (λ elements. elements ≡ elements_in (leaving edit.now arena.now.tree)) }
{
    arena_holds_document(arena);
    match edit {
        Edit::Remove { path } => tree_elements(alloc, arena, arena.at(path)),
        Edit::SetAttr { path, .. } | Edit::UnsetAttr { path, .. } => {
            element_at(alloc, arena, arena.at(path))
        }
        _ => Ok(List::new(alloc)),
    }
}

/// The elements that an edit brings into a document, which is edited already, in tree order. It takes memory and time
/// as `leaving_elements` does.
fn coming_elements(alloc: Global, arena: &Arena, edit: &Edit) -> Result<List<ElementId>, Memory>
    ensures elements { IfOk result (λ elements. elements ≡ elements_in (coming edit.now arena.now.tree)) }
{
    arena_holds_document(arena);
    match edit {
        Edit::Insert { parent, index, .. } => {
            tree_elements(alloc, arena, child_at(arena, parent, *index))
        }
        Edit::SetAttr { path, .. } | Edit::UnsetAttr { path, .. } => {
            element_at(alloc, arena, arena.at(path))
        }
        _ => Ok(List::new(alloc)),
    }
}

/// The keys of the elements that a document has no longer after an edit, of those that the edit takes out.
pub(crate) fn taken_keys(
    alloc: Global,
    edit: &Edit,
    leaving: &[ElementId],
) -> Result<List<usize>, Memory>
    ensures keys { IfOk result (λ keys. keys ≡ taken_keys edit.now leaving.now) }
{
    let mut keys = List::new(alloc);
    if let Edit::Remove { .. } = edit {
        for element in leaving {
            keys.push(element.key)?;
        }
    }
    Ok(keys)
}

/// Appends that elements hold their ids no longer.
fn put_unheld(
    alloc: Global,
    elements: &[ElementId],
    changes: &mut List<IndexChange>,
) -> Result<(), Memory>
    ensures ok { OnOk result (changes.new ≡ changes.old ++ flat_map unheld elements.now) }
{
    for element in elements {
        if let Some(id) = &element.id {
            let id = id.duplicate(alloc)?;
            let key = element.key;
            changes.push(IndexChange::Unhold { id, key })?;
        }
    }
    Ok(())
}

/// Appends that elements hold their ids.
fn put_held(
    alloc: Global,
    elements: &[ElementId],
    changes: &mut List<IndexChange>,
) -> Result<(), Memory>
    ensures ok { OnOk result (changes.new ≡ changes.old ++ flat_map held elements.now) }
{
    for element in elements {
        if let Some(id) = &element.id {
            let id = id.duplicate(alloc)?;
            let key = element.key;
            changes.push(IndexChange::Hold { id, key })?;
        }
    }
    Ok(())
}

/// Appends the changes of an index where elements go and others come.
fn put_exchange(
    alloc: Global,
    leaving: &[ElementId],
    coming: &[ElementId],
    changes: &mut List<IndexChange>,
) -> Result<(), Memory>
    ensures ok { OnOk result (changes.new ≡ changes.old ++ exchanges leaving.now coming.now) }
{
    put_unheld(alloc, leaving, changes)?;
    put_held(alloc, coming, changes)
}

/// Exchanges elements of an index for others, and answers the way back, whose memory is taken. After `Memory` the
/// index has the holders that it had.
///
/// It takes memory of the ids, and time linear in them.
fn exchange(
    alloc: Global,
    index: &mut Index,
    leaving: &[ElementId],
    coming: &[ElementId],
) -> Result<List<IndexChange>, Memory>
    ensures holders { OnOk result ((id : List ℕ) (key : ℕ) → is_holder index.new id key ≡ holds_after_all (exchanges leaving.now coming.now) id key (is_holder index.old id key)) }
    ensures back { IfOk result (λ back. back ≡ exchanges coming.now leaving.now) }
    ensures reserved { IfOk result (λ back. AreReserved index.new back) }
    ensures err { OnErr result ((id : List ℕ) (key : ℕ) → is_holder index.new id key ≡ is_holder index.old id key) }
    ensures references { (id : List ℕ) (key : ℕ) → is_reference index.new id key ≡ is_reference index.old id key }
{
    let mut changes = List::new(alloc);
    put_exchange(alloc, leaving, coming, &mut changes)?;
    let mut back = List::new(alloc);
    put_exchange(alloc, coming, leaving, &mut back)?;
    let mut both = List::new(alloc);
    put_exchange(alloc, leaving, coming, &mut both)?;
    put_exchange(alloc, coming, leaving, &mut both)?;
    index.reserve_for(alloc, both.as_slice())?;
    index.commit(changes);
    Ok(back)
}

/// Brings the index of a document, which is edited already, to what it is now: the elements that the edit took out
/// hold their ids no longer, and those that it brought hold theirs. It answers the way back, whose memory is taken;
/// after `Memory` the index has the holders that it had.
///
/// It takes memory of the ids of these elements, and time linear in them and in the nodes that came.
pub(crate) fn exchange_ids(
    alloc: Global,
    index: &mut Index,
    arena: &Arena,
    edit: &Edit,
    leaving: &[ElementId],
) -> Result<List<IndexChange>, Memory>
    ensures holders { OnOk result ((id : List ℕ) (key : ℕ) → is_holder index.new id key ≡ holds_after_all (exchanges leaving.now (elements_in (coming edit.now arena.now.tree))) id key (is_holder index.old id key)) }
    ensures back { IfOk result (λ back. back ≡ exchanges (elements_in (coming edit.now arena.now.tree)) leaving.now) }
    ensures reserved { IfOk result (λ back. AreReserved index.new back) }
    ensures err { OnErr result ((id : List ℕ) (key : ℕ) → is_holder index.new id key ≡ is_holder index.old id key) }
    ensures references { (id : List ℕ) (key : ℕ) → is_reference index.new id key ≡ is_reference index.old id key }
{
    let coming = coming_elements(alloc, arena, edit)?;
    exchange(alloc, index, leaving, coming.as_slice())
}
