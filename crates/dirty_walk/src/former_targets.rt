//! What the ids named that an edit can give another target.

ghost use Rattle.std.specs.Prelude.{◌≡◌, ◌++◌, Some, codes, option_copied, IfOk, OnOk};
ghost use Rattle.plain_types.specs.Attributes.{value_of};
ghost use Rattle.plain_types.specs.Rows.{rows};
ghost use Rattle.plain_types.specs.View.{Shows};
ghost use Rattle.plain_types.specs.declared.node.Node.{Node};
ghost use Rattle.referring_elements.specs.Indexes.{IsIndexOf};
ghost use Rattle.dirty_walk.specs.Exchanges.{elements_in, id_of, leaving};
ghost use Rattle.dirty_walk.specs.FormerTargets.{AreFormerTargetsOf};
ghost use Rattle.dirty_walk.specs.Machinery.FormerLists.{coming_formers, former_of, formers_in, formers_of, value_formers};

use crate::exchange::{ElementId, tree_elements};
use node_arena::arena::Arena;
use node_arena::laws::arena_holds_document;
use plain_types::attr::Attr;
use plain_types::duplicate::Duplicate;
use plain_types::edit::Edit;
use plain_types::list::List;
use plain_types::memory::Memory;
use plain_types::node::NodeView;
use plain_types::text::Text;
use plain_types::tree::Tree;
use reference_reach::laws::targets_stay;
use referring_elements::former::FormerTarget;
use referring_elements::holder_lookup::HolderLookup;
use std::alloc::Global;
use target_index::index::Index;

/// Appends what an id names.
fn put_id(
    alloc: Global,
    lookup: &mut HolderLookup<'_>,
    id: &Text,
    former: &mut List<FormerTarget>,
) -> Result<(), Memory>
    ensures ok { OnOk result (former.new ≡ former.old ++ former_of lookup.old.arena.now.tree (Some id.now)) }
    ensures tree { lookup.new.arena.now.tree ≡ lookup.old.arena.now.tree }
{
    former.push(FormerTarget::of(alloc, lookup, id.duplicate(alloc)?)?)
}

/// Appends what the ids of elements name.
fn put_elements(
    alloc: Global,
    lookup: &mut HolderLookup<'_>,
    elements: &[ElementId],
    former: &mut List<FormerTarget>,
) -> Result<(), Memory>
    ensures ok { OnOk result (former.new ≡ former.old ++ formers_of lookup.old.arena.now.tree elements.now) }
    ensures tree { lookup.new.arena.now.tree ≡ lookup.old.arena.now.tree }
{
    for element in elements {
        if let Some(id) = &element.id {
            put_id(alloc, lookup, id, former)?;
        }
    }
    Ok(())
}

/// The value of the attribute `id`.
fn id_in(attrs: &[Attr]) -> Option<&Text>
    ensures id { option_copied result ≡ value_of (codes "id") attrs.now }
{
    for attr in attrs {
        if attr.name.as_str() == "id" {
            return Some(&attr.value);
        }
    }
    None
}

/// The id of a node of a fragment; a text has none.
fn id_of(node: NodeView<'_>) -> Option<&Text>
    ensures id { (shown : Node) → Shows shown node.entry → option_copied result ≡ id_of shown }
{
    match node {
        NodeView::Element { attrs, .. } => id_in(attrs),
        NodeView::Text { .. } => None,
    }
}

/// Appends what the id of a node of a fragment names, where it has one.
fn put_node(
    alloc: Global,
    lookup: &mut HolderLookup<'_>,
    node: NodeView<'_>,
    former: &mut List<FormerTarget>,
) -> Result<(), Memory>
    ensures ok { OnOk result ((shown : Node) → Shows shown node.entry → former.new ≡ former.old ++ former_of lookup.old.arena.now.tree (id_of shown)) }
    ensures tree { lookup.new.arena.now.tree ≡ lookup.old.arena.now.tree }
{
    if let Some(id) = id_of(node) {
        put_id(alloc, lookup, id, former)?;
    }
    Ok(())
}

/// Appends what the ids of a fragment name.
fn put_fragment(
    alloc: Global,
    lookup: &mut HolderLookup<'_>,
    fragment: &Tree,
    former: &mut List<FormerTarget>,
) -> Result<(), Memory>
    ensures ok { OnOk result (former.new ≡ former.old ++ formers_in lookup.old.arena.now.tree (rows 0 fragment.now)) }
    ensures tree { lookup.new.arena.now.tree ≡ lookup.old.arena.now.tree }
{
    for place in 0..fragment.len() {
        put_node(alloc, lookup, fragment.node(place), former)?;
    }
    Ok(())
}

/// Appends what the value of an attribute names, where that is the id.
fn put_value(
    alloc: Global,
    lookup: &mut HolderLookup<'_>,
    name: &Text,
    value: &Text,
    former: &mut List<FormerTarget>,
) -> Result<(), Memory>
    ensures ok { OnOk result (former.new ≡ former.old ++ value_formers lookup.old.arena.now.tree name.now value.now) }
{
    if name.as_str() == "id" {
        put_id(alloc, lookup, value, former)?;
    }
    Ok(())
}

/// Appends what the ids name that an edit brings into a document or moves in it.
fn put_coming(
    alloc: Global,
    lookup: &mut HolderLookup<'_>,
    edit: &Edit,
    former: &mut List<FormerTarget>,
) -> Result<(), Memory>
    ensures ok { OnOk result (former.new ≡ former.old ++ coming_formers lookup.old.arena.now.tree edit.now) }
{
    let arena = lookup.arena;
    arena_holds_document(arena);
    match edit {
        Edit::Insert { fragment, .. } => put_fragment(alloc, lookup, fragment, former),
        Edit::Move { from, .. } => {
            let moved = tree_elements(alloc, arena, arena.at(from))?;
            put_elements(alloc, lookup, moved.as_slice(), former)
        }
        Edit::SetAttr { name, value, .. } => put_value(alloc, lookup, name, value, former),
        _ => Ok(()),
    }
}

/// What the ids name, in a document which is not edited yet, that an edit can give another target: those of the nodes that it
/// takes out, moves or puts in, and of the element whose attributes it changes. These are the elements that it takes out.
///
/// It takes memory of these ids, and time linear in the nodes that go, come or move and in their ids; of each id that several
/// elements have, once time in their number, for each of them linear in how deep they are.
pub(crate) fn former_targets(
    alloc: Global,
    arena: &Arena,
    index: &Index,
    edit: &Edit,
    gone: &[ElementId],
) -> Result<List<FormerTarget>, Memory>
    requires indexed { IsIndexOf index.now arena.now.tree }
    requires gone { gone.now ≡ elements_in (leaving edit.now arena.now.tree) }
    ensures former { IfOk result (λ former. AreFormerTargetsOf edit.now arena.now.tree former) }
{
    targets_stay();
    let mut lookup = HolderLookup::new(alloc, arena, index);
    let mut former = List::new(alloc);
    put_elements(alloc, &mut lookup, gone, &mut former)?;
    put_coming(alloc, &mut lookup, edit, &mut former)?;
    Ok(former)
}
