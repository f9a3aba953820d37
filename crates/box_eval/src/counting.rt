//! The counters of a box after its counter properties (CSS Lists 3, 4.1, 4.2 and 4.6).

ghost use Rattle.std.specs.Prelude.{◌≡◌, ◌∷◌, [], IfOk, unwrap_or};
ghost use Rattle.std.specs.Str.{chars};
ghost use Rattle.counter_sets.specs.Sets.{AreDistinct, is_missing_in};
ghost use Rattle.box_eval.specs.Scopes.{HasNoneOf};
ghost use Rattle.box_eval.specs.Properties.{after_resets, change_of, changes_of, counted, counted_from, creator_of, first_value, has_implicit_step, implicit_op, implicit_step, incremented_all, assigned_all, increments_of, reset_by, start_in};

use crate::change::Change;
use crate::counting_many::{count_many, reset_many};
use crate::inputs::Start;
use crate::ops::{is_named_in, is_reset_in, is_same, last_assigns, merged, number_for};
use content_eval::place::Place;
use counter_sets::by_name::MANY;
use counter_sets::counter_set::CounterSet;
use plain_types::box_id::BoxId;
use plain_types::count::Count;
use plain_types::counter::Counter;
use plain_types::duplicate::Duplicate;
use plain_types::list::List;
use plain_types::memory::Memory;
use plain_types::shared_text::SharedText;
use plain_types::style::{CounterOp, ResetOp, Style};
use plain_types::text::Text;
use reversed_start::event::Event;
use std::alloc::Global;

/// The counters of a box after its counter properties, and what these did to counters.
#[derive(Drop)]
pub struct Counted {
    pub set: CounterSet,
    pub changes: List<Change>,
}

/// The counters of a box after its counter properties. The place has those that it inherits.
pub fn count_box(
    alloc: Global,
    starts: &[Start],
    is_item: bool,
    style: &Style,
    place: &Place,
) -> Result<Counted, Memory>
    requires new { HasNoneOf (place.now.creator ∷ []) place.now.set }
    ensures counted { IfOk result (λ after. after ≡ counted (is_missing_in place.now.parent) place.now.creator starts.now is_item style.now place.now.set) }
{
    let reset = reset_all(alloc, starts, style.resets.as_slice(), place)?;
    let increments = increments_of(alloc, is_item, style.increments.as_slice(), &reset)?;
    let assigns = last_assigns(alloc, style.assigns.as_slice())?;
    if increments.len() < MANY && assigns.len() < MANY {
        count_few(
            alloc,
            increments.as_slice(),
            assigns.as_slice(),
            place,
            reset,
        )
    } else {
        count_many(
            alloc,
            increments.as_slice(),
            assigns.as_slice(),
            place,
            reset,
        )
    }
}

/// The counters of a box after these few increments and numbers that it sets.
fn count_few(
    alloc: Global,
    increments: &[CounterOp],
    assigns: &[CounterOp],
    place: &Place,
    reset: CounterSet,
) -> Result<Counted, Memory>
    ensures counted { IfOk result (λ after. after ≡ counted_from (is_missing_in place.now.parent) place.now.creator [] increments.now assigns.now reset) }
{
    let raised = increment_all(alloc, increments, place, reset)?;
    let set = assign_all(alloc, assigns, place, raised)?;
    let changes = changes_of(alloc, place.creator, increments, assigns, &set)?;
    Ok(Counted { set, changes })
}

/// The start of a reversed counter of the box; one that is not given is 0.
pub(crate) fn start_in(starts: &[Start], creator: BoxId, name: &str) -> Count
    ensures start { result ≡ start_in starts.now creator (chars name.now) }
{
    for start in starts {
        if start.creator == creator && is_same(&start.name, name) {
            return start.value;
        }
    }
    0
}

/// The value with which an entry of `counter-reset` creates its counter.
fn first_value(starts: &[Start], creator: BoxId, op: &ResetOp) -> Count
    ensures value { result ≡ first_value starts.now creator op.now }
{
    match op.value {
        Some(value) => value,
        None => {
            if op.reversed {
                start_in(starts, creator, op.name.as_str())
            } else {
                0
            }
        }
    }
}

/// The counters after one entry of `counter-reset`.
fn reset(
    alloc: Global,
    starts: &[Start],
    op: &ResetOp,
    place: &Place,
    set: CounterSet,
) -> Result<CounterSet, Memory>
    requires distinct { AreDistinct (reset_by (is_missing_in place.now.parent) place.now.creator starts.now set op.now) }
    ensures set { IfOk result (λ after. after ≡ reset_by (is_missing_in place.now.parent) place.now.creator starts.now set op.now) }
{
    let counter = Counter {
        name: SharedText::from_str(alloc, op.name.as_str())?,
        creator: place.creator,
        reversed: op.reversed,
        value: first_value(starts, place.creator, op),
    };
    set.instantiate(alloc, &place.parent, counter)
}

/// The counters after `counter-reset`, of which the last entry of each name holds.
fn reset_all(
    alloc: Global,
    starts: &[Start],
    resets: &[ResetOp],
    place: &Place,
) -> Result<CounterSet, Memory>
    requires new { HasNoneOf (place.now.creator ∷ []) place.now.set }
    ensures set { IfOk result (λ after. after ≡ after_resets (is_missing_in place.now.parent) place.now.creator starts.now resets.now place.now.set) }
{
    if resets.len() < MANY {
        reset_few(alloc, starts, resets, place)
    } else {
        reset_many(alloc, starts, resets, place)
    }
}

/// The same after a few entries, one after the other.
fn reset_few(
    alloc: Global,
    starts: &[Start],
    resets: &[ResetOp],
    place: &Place,
) -> Result<CounterSet, Memory>
    requires new { HasNoneOf (place.now.creator ∷ []) place.now.set }
    ensures set { IfOk result (λ after. after ≡ after_resets (is_missing_in place.now.parent) place.now.creator starts.now resets.now place.now.set) }
{
    let mut set = place.set.share(alloc)?;
    // It ensures that they are distinct.
    let _counters = set.as_slice();
    let mut rest = resets;
    while let Some((op, later)) = rest.split_first() {
        if !is_reset_in(later, op.name.as_str()) {
            set = reset(alloc, starts, op, place, set)?;
        }
        rest = later;
    }
    Ok(set)
}

/// What a list item adds to its innermost counter `list-item`.
fn implicit_step(set: &CounterSet) -> Count
    ensures step { result ≡ implicit_step set.now }
{
    match set.innermost("list-item") {
        Some(counter) => { if counter.reversed { -1 } else { 1 } }
        None => 1,
    }
}

/// Whether a box adds to its counter `list-item` without saying so.
fn has_implicit_step(is_item: bool, increments: &[CounterOp]) -> bool
    ensures test { result ≡ has_implicit_step is_item increments.now }
{
    is_item && !is_named_in(increments, "list-item")
}

/// What a list item adds, as an entry of `counter-increment`.
fn implicit_op(alloc: Global, set: &CounterSet) -> Result<CounterOp, Memory>
    ensures op { IfOk result (λ op. op ≡ implicit_op set.now) }
{
    Ok(CounterOp {
        name: Text::from_str(alloc, "list-item")?,
        value: implicit_step(set),
    })
}

/// What a box adds to its counters, with the implicit step of a list item.
fn increments_of(
    alloc: Global,
    is_item: bool,
    increments: &[CounterOp],
    set: &CounterSet,
) -> Result<List<CounterOp>, Memory>
    ensures increments { IfOk result (λ all. all ≡ increments_of is_item increments.now set.now) }
{
    let mut all = merged(alloc, increments)?;
    if has_implicit_step(is_item, increments) {
        all.push(implicit_op(alloc, set)?)?;
    }
    Ok(all)
}

/// The counters after all increments.
fn increment_all(
    alloc: Global,
    increments: &[CounterOp],
    place: &Place,
    set: CounterSet,
) -> Result<CounterSet, Memory>
    ensures set { IfOk result (λ after. after ≡ incremented_all (is_missing_in place.now.parent) place.now.creator increments.now set) }
{
    let mut set = set;
    for op in increments {
        set = set.increment(alloc, &place.parent, &op.name, op.value, place.creator)?;
    }
    Ok(set)
}

/// The counters after all numbers are set.
fn assign_all(
    alloc: Global,
    assigns: &[CounterOp],
    place: &Place,
    set: CounterSet,
) -> Result<CounterSet, Memory>
    ensures set { IfOk result (λ after. after ≡ assigned_all (is_missing_in place.now.parent) place.now.creator assigns.now set) }
{
    let mut set = set;
    for op in assigns {
        set = set.assign(alloc, &place.parent, &op.name, op.value, place.creator)?;
    }
    Ok(set)
}

/// The box that created the innermost counter of the name.
fn creator_of(set: &CounterSet, name: &str, otherwise: BoxId) -> BoxId
    ensures creator { result ≡ creator_of set.now (chars name.now) otherwise }
{
    match set.innermost(name) {
        Some(counter) => counter.creator,
        None => otherwise,
    }
}

/// What a box does to the innermost counter of the name.
fn change_of(
    alloc: Global,
    creator: BoxId,
    increments: &[CounterOp],
    assigns: &[CounterOp],
    set: &CounterSet,
    name: &Text,
) -> Result<Change, Memory>
    ensures change { IfOk result (λ change. change ≡ change_of creator increments.now assigns.now set.now name.now) }
{
    Ok(Change {
        creator: creator_of(set, name.as_str(), creator),
        name: name.duplicate(alloc)?,
        event: Event {
            by: number_for(increments, name.as_str()).unwrap_or(0),
            assigned: number_for(assigns, name.as_str()),
        },
    })
}

/// What a box does to counters: to those that it increments, and then to those that it only sets.
fn changes_of(
    alloc: Global,
    creator: BoxId,
    increments: &[CounterOp],
    assigns: &[CounterOp],
    set: &CounterSet,
) -> Result<List<Change>, Memory>
    ensures changes { IfOk result (λ changes. changes ≡ changes_of creator increments.now assigns.now set.now) }
{
    let mut changes = List::new(alloc);
    for op in increments {
        changes.push(change_of(alloc, creator, increments, assigns, set, &op.name)?)?;
    }
    for op in assigns {
        if !is_named_in(increments, op.name.as_str()) {
            changes.push(change_of(alloc, creator, increments, assigns, set, &op.name)?)?;
        }
    }
    Ok(changes)
}
