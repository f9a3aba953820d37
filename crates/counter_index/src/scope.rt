//! What is done to a counter in its scope, read by the keys of a document.

ghost use Rattle.std.specs.Prelude.{◌≡◌, ◌++◌, [], All, IfOk, OnOk, option_copied};
ghost use Rattle.std.specs.Option.{option_map_or};
ghost use Rattle.std.specs.Str.{bytes_eq, chars};
ghost use Rattle.forest.specs.Spots.{IsLink, IsLive, after_of, children_of, on_link, parent_of};
ghost use Rattle.box_eval.specs.declared.inputs.Start.{Start};
ghost use Rattle.box_eval.specs.Starts.{events_of};
ghost use Rattle.scope_reading.specs.ScopeChanges.{has_it};
ghost use Rattle.scope_deeds.specs.KeptScopes.{kept_after, kept_before, kept_changes, kept_from, kept_own, kept_row, kept_scope};
ghost use Rattle.counter_index.specs.Indexes.{countings, told_by_scope, with_values};
ghost use Rattle.counter_index.specs.Machinery.Rows.{boxed_changes, lacks_it, tree_changes};

use crate::deeds::CounterDeeds;
use crate::events::{add_after, add_before, add_under};
use crate::slots::Slots;
use box_eval::inputs::Start;
use counter_sets::counter_set::CounterSet;
use node_arena::arena::Arena;
use node_arena::laws::arena_holds_document;
use plain_types::box_id::BoxId;
use plain_types::box_kind::BoxKind;
use plain_types::count::Count;
use plain_types::counter::Counter;
use plain_types::duplicate::Duplicate;
use plain_types::list::List;
use plain_types::memory::Memory;
use reversed_start::event::Event;
use reversed_start::start_of;
use std::alloc::Global;

/// Whether a counter has this name.
fn is_named(counter: &Counter, name: &str) -> bool
    ensures test { result ≡ bytes_eq counter.now.name (chars name.now) }
{
    counter.name.as_str() == name
}

/// Whether the set has the counter of this name that this box created.
fn has_counter(set: &CounterSet, creator: BoxId, name: &str) -> bool
    ensures test { result ≡ has_it creator (chars name.now) set.now }
{
    for counter in set.as_slice() {
        if counter.creator == creator && is_named(counter, name) {
            return true;
        }
    }
    false
}

/// The counters of the own box of a node, where it is an element with a box.
fn own_set(deeds: &Slots<CounterDeeds>, key: usize) -> Option<&CounterSet>
    ensures own { option_copied result ≡ kept_own (countings deeds.now.held) key }
{
    deeds.get(key)?.own.as_ref()
}

/// Whether the own box of a node lacks the counter. A node without a box lacks none.
fn lacks_counter(deeds: &Slots<CounterDeeds>, key: usize, creator: BoxId, name: &str) -> bool
    ensures test { result ≡ lacks_it (countings deeds.now.held) creator (chars name.now) key }
{
    match own_set(deeds, key) {
        Some(own) => !has_counter(own, creator, name),
        None => false,
    }
}

/// Appends the events of a node and of all under it.
fn add_tree(
    alloc: Global,
    deeds: &Slots<CounterDeeds>,
    arena: &Arena,
    key: usize,
    creator: BoxId,
    name: &str,
    events: &mut List<Event>,
) -> Result<(), Memory>
    requires live { IsLive arena.now.tree key }
    ensures ok { OnOk result (events.new ≡ events.old ++ events_of (tree_changes (countings deeds.now.held) key (children_of arena.now.tree key)) creator (chars name.now)) }
{
    add_before(deeds, key, creator, name, events)?;
    add_under(alloc, deeds, arena, key, creator, name, events)?;
    add_after(deeds, key, creator, name, events)
}

/// The same, where the node has a box.
fn add_boxed(
    alloc: Global,
    deeds: &Slots<CounterDeeds>,
    arena: &Arena,
    key: usize,
    creator: BoxId,
    name: &str,
    events: &mut List<Event>,
) -> Result<(), Memory>
    requires live { IsLive arena.now.tree key }
    ensures ok { OnOk result (events.new ≡ events.old ++ events_of (boxed_changes (countings deeds.now.held) key (children_of arena.now.tree key)) creator (chars name.now)) }
{
    match own_set(deeds, key) {
        Some(_) => add_tree(alloc, deeds, arena, key, creator, name, events),
        None => Ok(()),
    }
}

/// Appends the events of siblings from this one on, with all that is in them, up to the first whose own set lacks the
/// counter. Those that have no box are passed.
fn add_row(
    alloc: Global,
    deeds: &Slots<CounterDeeds>,
    arena: &Arena,
    first: Option<usize>,
    creator: BoxId,
    name: &str,
    events: &mut List<Event>,
) -> Result<(), Memory>
    requires link { IsLink arena.now.tree first }
    ensures ok { OnOk result (events.new ≡ events.old ++ events_of (kept_row (countings deeds.now.held) creator (chars name.now) (on_link arena.now.tree first)) creator (chars name.now)) }
{
    arena_holds_document(arena);
    let mut link = first;
    'row: while let Some(node) = link {
        if lacks_counter(deeds, node, creator, name) {
            return Ok(());
        }
        add_boxed(alloc, deeds, arena, node, creator, name, events)?;
        link = arena.next_sibling(node);
    }
    Ok(())
}

/// Appends the events of an element, and of the siblings after it that are in the scope of a counter that its own box or its
/// marker creates.
fn add_own(
    alloc: Global,
    deeds: &Slots<CounterDeeds>,
    arena: &Arena,
    creator: BoxId,
    name: &str,
    events: &mut List<Event>,
) -> Result<(), Memory>
    requires live { IsLive arena.now.tree creator.key }
    ensures ok { OnOk result (events.new ≡ events.old ++ events_of (tree_changes (countings deeds.now.held) creator.key (children_of arena.now.tree creator.key) ++ kept_row (countings deeds.now.held) creator (chars name.now) (after_of arena.now.tree creator.key)) creator (chars name.now)) }
{
    arena_holds_document(arena);
    let key = creator.key;
    add_tree(alloc, deeds, arena, key, creator, name, events)?;
    add_row(
        alloc,
        deeds,
        arena,
        arena.next_sibling(key),
        creator,
        name,
        events,
    )
}

/// Appends the events of an element's boxes, and of those of its children that are in the scope of a counter that its before
/// box creates.
fn add_before_box(
    alloc: Global,
    deeds: &Slots<CounterDeeds>,
    arena: &Arena,
    creator: BoxId,
    name: &str,
    events: &mut List<Event>,
) -> Result<(), Memory>
    requires live { IsLive arena.now.tree creator.key }
    ensures ok { OnOk result (events.new ≡ events.old ++ events_of (kept_before (countings deeds.now.held) creator.key ++ (kept_row (countings deeds.now.held) creator (chars name.now) (children_of arena.now.tree creator.key) ++ kept_after (countings deeds.now.held) creator.key)) creator (chars name.now)) }
{
    arena_holds_document(arena);
    let key = creator.key;
    add_before(deeds, key, creator, name, events)?;
    add_row(
        alloc,
        deeds,
        arena,
        arena.first_child(key),
        creator,
        name,
        events,
    )?;
    add_after(deeds, key, creator, name, events)
}

/// Appends the events from the creator's element on, by the box of it that creates the counter.
fn add_from(
    alloc: Global,
    deeds: &Slots<CounterDeeds>,
    arena: &Arena,
    creator: BoxId,
    name: &str,
    events: &mut List<Event>,
) -> Result<(), Memory>
    requires live { IsLive arena.now.tree creator.key }
    ensures ok { OnOk result (events.new ≡ events.old ++ events_of (kept_from (countings deeds.now.held) creator (chars name.now) creator.kind creator.key (children_of arena.now.tree creator.key) (after_of arena.now.tree creator.key)) creator (chars name.now)) }
{
    match creator.kind {
        BoxKind::Before => add_before_box(alloc, deeds, arena, creator, name, events),
        BoxKind::After => add_after(deeds, creator.key, creator, name, events),
        BoxKind::Element => add_own(alloc, deeds, arena, creator, name, events),
        BoxKind::Marker => add_own(alloc, deeds, arena, creator, name, events),
    }
}

/// Appends the events of the after box of the parent of the creator's element, where it has one.
fn add_parent(
    deeds: &Slots<CounterDeeds>,
    arena: &Arena,
    creator: BoxId,
    name: &str,
    events: &mut List<Event>,
) -> Result<(), Memory>
    requires live { IsLive arena.now.tree creator.key }
    ensures ok { OnOk result (events.new ≡ events.old ++ events_of (option_map_or (kept_after (countings deeds.now.held)) (parent_of arena.now.tree creator.key) []) creator (chars name.now)) }
{
    match arena.parent(creator.key) {
        Some(parent) => add_after(deeds, parent, creator, name, events),
        None => Ok(()),
    }
}

/// The events of a counter in its scope, in tree order. It takes time in the nodes of the scope and what they do to counters.
fn scope_events(
    alloc: Global,
    deeds: &Slots<CounterDeeds>,
    arena: &Arena,
    creator: BoxId,
    name: &str,
) -> Result<List<Event>, Memory>
    requires live { IsLive arena.now.tree creator.key }
    ensures events { IfOk result (λ events. events ≡ events_of (kept_scope (countings deeds.now.held) creator (chars name.now) arena.now.tree) creator (chars name.now)) }
{
    arena_holds_document(arena);
    let mut events = List::new(alloc);
    add_from(alloc, deeds, arena, creator, name, &mut events)?;
    add_parent(deeds, arena, creator, name, &mut events)?;
    Ok(events)
}

/// The start of a counter, by these.
fn start_told(
    alloc: Global,
    deeds: &Slots<CounterDeeds>,
    arena: &Arena,
    creator: BoxId,
    name: &str,
) -> Result<Count, Memory>
    requires live { IsLive arena.now.tree creator.key }
    ensures start { IfOk result (λ told. told ≡ told_by_scope (countings deeds.now.held) arena.now.tree creator (chars name.now)) }
{
    let events = scope_events(alloc, deeds, arena, creator, name)?;
    Ok(start_of(events.as_slice()))
}

/// These starts, each with the value that is told so.
pub(crate) fn starts_told(
    alloc: Global,
    deeds: &Slots<CounterDeeds>,
    arena: &Arena,
    asked: &[Start],
) -> Result<List<Start>, Memory>
    requires live { All (λ (start : Start). IsLive arena.now.tree start.creator.key) asked.now }
    ensures starts { IfOk result (λ told. told ≡ with_values (told_by_scope (countings deeds.now.held) arena.now.tree) asked.now) }
{
    let mut told = List::new(alloc);
    for start in asked {
        told.push(Start {
            creator: start.creator,
            name: start.name.duplicate(alloc)?,
            value: start_told(alloc, deeds, arena, start.creator, start.name.as_str())?,
        })?;
    }
    Ok(told)
}
