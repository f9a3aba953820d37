//! The counters that a box inherits (CSS Lists 3, 4.4).

ghost use Rattle.std.specs.Prelude.{◌≡◌, ◌≢◌, ◌↔◌, ◌++◌, ◌∷◌, ℕ, IfNone, IfOk, IfSome, IsTrue, List, OnOk, Some, filter, length, map, nat_le, slice_get};
ghost use Rattle.plain_types.specs.declared.counter.Counter.{Counter};
ghost use Rattle.counter_sets.specs.Sets.{AreDistinct, inherited, is_missing_in, valued_in, with_value};

use crate::counters::{find_same, is_missing_in, is_same, is_with_value};
use plain_types::count::Count;
use plain_types::counter::Counter;
use plain_types::duplicate::Duplicate;
use plain_types::memory::Memory;
use std::alloc::Global;

/// The counters that a box inherits from its parent's and those of the sibling before it, each with its value among
/// `values`.
pub(crate) fn copy_inherited(
    alloc: Global,
    parent: &[Counter],
    sibling: &[Counter],
    values: &[Counter],
) -> Result<Vec<Counter>, Memory>
    requires siblings { AreDistinct sibling.now }
    requires distinct { AreDistinct values.now }
    ensures copy { IfOk result (λ copy. copy.items ≡ inherited parent.now (Some sibling.now) (Some values.now)) }
{
    let (others, added) = besides(parent, sibling);
    let mut list = Vec::with_capacity(alloc, parent.len() + added.len())?;
    push_added(alloc, &mut list, &[], parent, values)?;
    push_added(alloc, &mut list, others, added, values)?;
    Ok(list)
}

/// Whether `list` has the counters that a box inherits, as `copy_inherited` has them. It takes no memory.
pub(crate) fn is_inherited(
    list: &[Counter],
    parent: &[Counter],
    sibling: &[Counter],
    values: &[Counter],
) -> bool
    requires siblings { AreDistinct sibling.now }
    requires distinct { AreDistinct values.now }
    ensures test { IsTrue result ↔ (list.now ≡ inherited parent.now (Some sibling.now) (Some values.now)) }
{
    let Some(others) = past_added(list, 0, &[], parent, values) else {
        return false;
    };
    let (lacking, added) = besides(parent, sibling);
    let Some(rest) = past_added(others, parent.len(), lacking, added, values) else {
        return false;
    };
    rest.is_empty()
}

/// Two lists, of which the second has besides the first what the sibling's counters have besides the parent's. Where
/// the parent's come first among the sibling's, as they do in the sets of boxes, these are none and those past them:
/// then none of these has to be looked for among the parent's.
fn besides<'a>(parent: &'a [Counter], sibling: &'a [Counter]) -> (&'a [Counter], &'a [Counter])
    requires siblings { AreDistinct sibling.now }
    ensures same { filter (is_missing_in result.0.now) result.1.now ≡ filter (is_missing_in parent.now) sibling.now }
{
    match past_front(parent, sibling) {
        Some(past) => (&[], past),
        None => (parent, sibling),
    }
}

/// The sibling's counters past those of the parent, where these come first among them.
pub(crate) fn past_front<'a>(parent: &[Counter], sibling: &'a [Counter]) -> Option<&'a [Counter]>
    requires siblings { AreDistinct sibling.now }
    ensures past { IfSome result (λ past. past.now ≡ filter (is_missing_in parent.now) sibling.now) }
    ensures front { IfSome result (λ _. (place : ℕ) (counter : Counter) → slice_get sibling.now place ≡ Some counter → is_missing_in parent.now counter ≡ nat_le (length parent.now) place) }
{
    let mut past = sibling;
    for counter in parent {
        let (first, rest) = past.split_first()?;
        if !is_same(counter, first) {
            return None;
        }
        past = rest;
    }
    Some(past)
}

/// Appends those of the counters that `others` lacks, each with its value among `values`.
fn push_added(
    alloc: Global,
    list: &mut Vec<Counter>,
    others: &[Counter],
    counters: &[Counter],
    values: &[Counter],
) -> Result<(), Memory>
    requires distinct { AreDistinct values.now }
    ensures ok { OnOk result (list.new.items ≡ list.old.items ++ map (valued_in values.now) (filter (is_missing_in others.now) counters.now)) }
{
    for (place, counter) in counters.iter().enumerate() {
        if is_missing_in(others, place, counter) {
            let mut copy = counter.duplicate(alloc)?;
            copy.value = value_in(values, list.len(), counter);
            list.push(copy)?;
        }
    }
    Ok(())
}

/// What `list` has past those of the counters that `others` lacks, each with its value among `values`, where it begins
/// with them. The first of these values is looked for at the place `first` first, and each other one past the one before.
fn past_added<'a>(
    list: &'a [Counter],
    first: usize,
    others: &[Counter],
    counters: &[Counter],
    values: &[Counter],
) -> Option<&'a [Counter]>
    requires distinct { AreDistinct values.now }
    ensures past { IfSome result (λ past. list.now ≡ map (valued_in values.now) (filter (is_missing_in others.now) counters.now) ++ past.now) }
    ensures none { IfNone result ((past : List Counter) → list.now ≢ map (valued_in values.now) (filter (is_missing_in others.now) counters.now) ++ past) }
{
    let mut past = list;
    for (place, counter) in counters.iter().enumerate() {
        if is_missing_in(others, place, counter) {
            let at = first.saturating_add(list.len().saturating_sub(past.len()));
            past = past_first(past, counter, value_in(values, at, counter))?;
        }
    }
    Some(past)
}

/// What `list` has past its first counter, where that is this counter with this value.
fn past_first<'a>(list: &'a [Counter], counter: &Counter, value: Count) -> Option<&'a [Counter]>
    ensures past { IfSome result (λ past. list.now ≡ with_value (λ _. value) counter.now ∷ past.now) }
    ensures none { IfNone result ((past : List Counter) → list.now ≢ with_value (λ _. value) counter.now ∷ past) }
{
    let (first, past) = list.split_first()?;
    if is_with_value(first, counter, value) {
        Some(past)
    } else {
        None
    }
}

/// The value of this counter among `values`, where it is there, and else its own. It is looked for at this place
/// first.
fn value_in(values: &[Counter], place: usize, counter: &Counter) -> Count
    requires distinct { AreDistinct values.now }
    ensures value { with_value (λ _. result) counter.now ≡ valued_in values.now counter.now }
{
    match find_same(values, place, counter) {
        Some(same) => same.value,
        None => counter.value,
    }
}
