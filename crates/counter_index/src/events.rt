//! What is done to a counter, read by the keys of a document.

ghost use Rattle.std.specs.Prelude.{◌≡◌, ◌++◌, OnOk};
ghost use Rattle.std.specs.Str.{chars};
ghost use Rattle.forest.specs.Spots.{IsLive, children_of};
ghost use Rattle.box_eval.specs.Starts.{events_of};
ghost use Rattle.scope_deeds.specs.KeptScopes.{kept_after, kept_before, kept_changes};
ghost use Rattle.counter_index.specs.Indexes.{countings};

use crate::deeds::CounterDeeds;
use crate::slots::Slots;
use crate::values::is_same;
use box_eval::change::Change;
use node_arena::arena::Arena;
use node_arena::laws::arena_holds_document;
use plain_types::box_id::BoxId;
use plain_types::list::List;
use plain_types::memory::Memory;
use reversed_start::event::Event;
use std::alloc::Global;

/// Appends the events of the counter of this name that this box creates.
pub(crate) fn add_events(
    changes: &[Change],
    creator: BoxId,
    name: &str,
    events: &mut List<Event>,
) -> Result<(), Memory>
    ensures ok { OnOk result (events.new ≡ events.old ++ events_of changes.now creator (chars name.now)) }
{
    for change in changes {
        if change.creator == creator && is_same(&change.name, name) {
            events.push(change.event)?;
        }
    }
    Ok(())
}

/// Appends those of what an element does before its children.
pub(crate) fn add_before(
    deeds: &Slots<CounterDeeds>,
    key: usize,
    creator: BoxId,
    name: &str,
    events: &mut List<Event>,
) -> Result<(), Memory>
    ensures ok { OnOk result (events.new ≡ events.old ++ events_of (kept_before (countings deeds.now.held) key) creator (chars name.now)) }
{
    match deeds.get(key) {
        Some(its) => add_events(its.before_children.as_slice(), creator, name, events),
        None => Ok(()),
    }
}

/// Appends those of what an element does after its children.
pub(crate) fn add_after(
    deeds: &Slots<CounterDeeds>,
    key: usize,
    creator: BoxId,
    name: &str,
    events: &mut List<Event>,
) -> Result<(), Memory>
    ensures ok { OnOk result (events.new ≡ events.old ++ events_of (kept_after (countings deeds.now.held) key) creator (chars name.now)) }
{
    match deeds.get(key) {
        Some(its) => add_events(its.after_children.as_slice(), creator, name, events),
        None => Ok(()),
    }
}

/// Appends the events of the nodes under a node, in tree order. It takes time in these nodes and what they do to counters.
pub(crate) fn add_under(
    alloc: Global,
    deeds: &Slots<CounterDeeds>,
    arena: &Arena,
    key: usize,
    creator: BoxId,
    name: &str,
    events: &mut List<Event>,
) -> Result<(), Memory>
    requires live { IsLive arena.now.tree key }
    ensures ok { OnOk result (events.new ≡ events.old ++ events_of (kept_changes (countings deeds.now.held) (children_of arena.now.tree key)) creator (chars name.now)) }
{
    arena_holds_document(arena);
    let mut inside = Vec::new(alloc);
    let mut link = arena.first_child(key);
    'walk: loop {
        match link {
            Some(node) => {
                add_before(deeds, node, creator, name, events)?;
                inside.push(node)?;
                link = arena.first_child(node);
            }
            None => match inside.pop() {
                None => return Ok(()),
                Some(node) => {
                    add_after(deeds, node, creator, name, events)?;
                    link = arena.next_sibling(node);
                }
            },
        }
    }
}
