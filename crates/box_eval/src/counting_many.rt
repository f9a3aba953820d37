//! The counters of a box with many entries in its counter properties: the same as `counting` has, in time linear in the
//! entries and in the counters in whose scope the box is.

ghost use Rattle.std.specs.Prelude.{◌≡◌, ◌∷◌, [], IfOk, map, unwrap_or};
ghost use Rattle.std.specs.Str.{chars};
ghost use Rattle.counter_sets.specs.Sets.{is_missing_in};
ghost use Rattle.box_eval.specs.Lookups.{created};
ghost use Rattle.box_eval.specs.Scopes.{HasNoneOf};
ghost use Rattle.box_eval.specs.Properties.{after_resets, assigned_all, change_of, changes_of, counted_from, creator_of, incremented_all, last_resets};

use crate::box_starts::BoxStarts;
use crate::change::Change;
use crate::counting::Counted;
use crate::inputs::Start;
use crate::numbers::Numbers;
use crate::ops::last_resets;
use content_eval::place::Place;
use counter_sets::by_name::is_at;
use counter_sets::counter_set::CounterSet;
use counter_sets::indexed_set::IndexedSet;
use plain_types::box_id::BoxId;
use plain_types::counter::Counter;
use plain_types::duplicate::Duplicate;
use plain_types::list::List;
use plain_types::memory::Memory;
use plain_types::style::{CounterOp, ResetOp};
use plain_types::text::Text;
use reversed_start::event::Event;
use std::alloc::Global;

/// The counters of a box after these increments and numbers that it sets.
pub fn count_many(
    alloc: Global,
    increments: &[CounterOp],
    assigns: &[CounterOp],
    place: &Place,
    reset: CounterSet,
) -> Result<Counted, Memory>
    ensures counted { IfOk result (λ after. after ≡ counted_from (is_missing_in place.now.parent) place.now.creator [] increments.now assigns.now reset) }
{
    let asked = increments.len().max(assigns.len());
    let indexed = IndexedSet::of(alloc, reset, asked)?;
    let raised = increment_all(alloc, increments, place, indexed)?;
    let set = assign_all(alloc, assigns, place, raised)?;
    let changes = changes_of(alloc, place.creator, increments, assigns, &set)?;
    Ok(Counted {
        set: set.into_set(),
        changes,
    })
}

/// The counters after many entries of `counter-reset`, all at once.
pub fn reset_many(
    alloc: Global,
    starts: &[Start],
    resets: &[ResetOp],
    place: &Place,
) -> Result<CounterSet, Memory>
    requires new { HasNoneOf (place.now.creator ∷ []) place.now.set }
    ensures set { IfOk result (λ after. after ≡ after_resets (is_missing_in place.now.parent) place.now.creator starts.now resets.now place.now.set) }
{
    let starts = BoxStarts::of(alloc, starts, place.creator)?;
    let counters = created_by(alloc, &starts, resets)?;
    let set = place.set.share(alloc)?;
    // It ensures that they are distinct.
    let _counters = set.as_slice();
    set.instantiate_all(alloc, &place.parent, counters)
}

/// The counters that the entries of `counter-reset` create, of which the last of each name holds.
fn created_by(alloc: Global, starts: &BoxStarts, resets: &[ResetOp]) -> Result<Vec<Counter>, Memory>
    ensures counters { IfOk result (λ counters. counters.items ≡ map (created starts.now.0 starts.now.1) (last_resets resets.now)) }
{
    let last = last_resets(alloc, resets)?;
    let mut counters = Vec::new(alloc);
    for (place, op) in resets.iter().enumerate() {
        if is_at(last.get(op.name.as_str()), place) {
            counters.push(starts.created(alloc, op)?)?;
        }
    }
    Ok(counters)
}

/// The counters after all increments.
fn increment_all(
    alloc: Global,
    increments: &[CounterOp],
    place: &Place,
    set: IndexedSet,
) -> Result<IndexedSet, Memory>
    ensures set { IfOk result (λ after. after ≡ incremented_all (is_missing_in place.now.parent) place.now.creator increments.now set) }
{
    let mut set = set;
    for op in increments {
        set = set.increment(alloc, &place.parent, &op.name, op.value, place.creator)?;
    }
    Ok(set)
}

/// The counters after all numbers are set.
fn assign_all(
    alloc: Global,
    assigns: &[CounterOp],
    place: &Place,
    set: IndexedSet,
) -> Result<IndexedSet, Memory>
    ensures set { IfOk result (λ after. after ≡ assigned_all (is_missing_in place.now.parent) place.now.creator assigns.now set) }
{
    let mut set = set;
    for op in assigns {
        set = set.assign(alloc, &place.parent, &op.name, op.value, place.creator)?;
    }
    Ok(set)
}

/// The box that created the innermost counter of the name.
fn creator_of(set: &IndexedSet, name: &str, otherwise: BoxId) -> BoxId
    ensures creator { result ≡ creator_of set.now (chars name.now) otherwise }
{
    match set.innermost(name) {
        Some(counter) => counter.creator,
        None => otherwise,
    }
}

/// What a box does to the innermost counter of the name.
fn change_of(
    alloc: Global,
    creator: BoxId,
    increments: &Numbers,
    assigns: &Numbers,
    set: &IndexedSet,
    name: &Text,
) -> Result<Change, Memory>
    ensures change { IfOk result (λ change. change ≡ change_of creator increments.now assigns.now set.now name.now) }
{
    Ok(Change {
        creator: creator_of(set, name.as_str(), creator),
        name: name.duplicate(alloc)?,
        event: Event {
            by: increments.get(name.as_str()).unwrap_or(0),
            assigned: assigns.get(name.as_str()),
        },
    })
}

/// What a box does to counters: to those that it increments, and then to those that it only sets.
fn changes_of(
    alloc: Global,
    creator: BoxId,
    increments: &[CounterOp],
    assigns: &[CounterOp],
    set: &IndexedSet,
) -> Result<List<Change>, Memory>
    ensures changes { IfOk result (λ changes. changes ≡ changes_of creator increments.now assigns.now set.now) }
{
    let raised = Numbers::of(alloc, increments)?;
    let assigned = Numbers::of(alloc, assigns)?;
    let mut changes = List::new(alloc);
    for op in increments {
        changes.push(change_of(alloc, creator, &raised, &assigned, set, &op.name)?)?;
    }
    for op in assigns {
        if !raised.has(op.name.as_str()) {
            changes.push(change_of(alloc, creator, &raised, &assigned, set, &op.name)?)?;
        }
    }
    Ok(changes)
}
