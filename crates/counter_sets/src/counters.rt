//! Lists of counters.

ghost use Rattle.std.specs.Prelude.{◌≡◌, ◌↔◌, ◌<◌, ℕ, List, IfOk, IfSome, IsSomeAnd, IsTrue, find, length, option_copied, slice_get, true};
ghost use Rattle.std.specs.List.{list_any};
ghost use Rattle.std.specs.Str.{chars};
ghost use Rattle.counter_sets.specs.ByNames.{value_of};
ghost use Rattle.counter_sets.specs.Sets.{AreDistinct, is_missing_in, is_named, is_same, last_place, with_value};

use crate::by_name::ByName;
use plain_types::count::Count;
use plain_types::counter::Counter;
use plain_types::duplicate::Duplicate;
use plain_types::memory::Memory;
use std::alloc::Global;

/// Whether the counter has this name, compared as written.
pub fn is_named(name: &str, counter: &Counter) -> bool
    ensures test { result ≡ is_named (chars name.now) counter.now }
{
    name == counter.name.as_str()
}

/// Whether both are the same counter, by name and creator.
pub(crate) fn is_same(first: &Counter, second: &Counter) -> bool
    ensures test { result ≡ is_same first.now second.now }
{
    is_named(first.name.as_str(), second) && first.creator == second.creator
}

/// Whether the first is the second with this value.
pub(crate) fn is_with_value(first: &Counter, second: &Counter, value: Count) -> bool
    ensures test { IsTrue result ↔ (first.now ≡ with_value (λ _. value) second.now) }
{
    is_same(first, second) && first.reversed == second.reversed && first.value == value
}

/// Whether both lists have the same counters with the same values, in the same order.
pub(crate) fn are_equal(first: &[Counter], second: &[Counter]) -> bool
    ensures test { IsTrue result ↔ (first.now ≡ second.now) }
{
    first.len() == second.len()
        && first
            .iter()
            .zip(second)
            .all(|(one, other)| is_with_value(one, other, other.value))
}

/// Whether the counter at a place is the same as this one.
fn is_same_at(counters: &[Counter], place: usize, counter: &Counter) -> bool
    ensures test { IsTrue result ↔ IsSomeAnd (slice_get counters.now place) (λ other. is_same counter.now other ≡ true) }
{
    counters
        .get(place)
        .is_some_and(|other| is_same(counter, other))
}

/// The counter in a list that is the same as this one. It is looked for at this place first.
pub(crate) fn find_same<'a>(
    counters: &'a [Counter],
    place: usize,
    counter: &Counter,
) -> Option<&'a Counter>
    requires distinct { AreDistinct counters.now }
    ensures found { option_copied result ≡ find (is_same counter.now) counters.now }
{
    if is_same_at(counters, place, counter) {
        return counters.get(place);
    }
    counters.iter().find(|other| is_same(counter, other))
}

/// Whether a counter in a list is the same as this one.
fn contains(counters: &[Counter], counter: &Counter) -> bool
    ensures test { result ≡ list_any (is_same counter.now) counters.now }
{
    counters.iter().any(|other| is_same(counter, other))
}

/// Whether no counter in a list is the same as this one. It is looked for at this place first.
pub(crate) fn is_missing_in(counters: &[Counter], place: usize, counter: &Counter) -> bool
    ensures test { result ≡ is_missing_in counters.now counter.now }
{
    !(is_same_at(counters, place, counter) || contains(counters, counter))
}

/// The place of the last counter of a name.
pub(crate) fn last_place(counters: &[Counter], name: &str) -> Option<usize>
    ensures place { result ≡ last_place (is_named (chars name.now)) counters.now }
    ensures within { IfSome result (λ place. place < length counters.now) }
{
    let mut front = counters;
    while let Some((last, before)) = front.split_last() {
        if is_named(name, last) {
            return Some(before.len());
        }
        front = before;
    }
    None
}

/// The place of the last counter of each name.
pub(crate) fn last_places(alloc: Global, counters: &[Counter]) -> Result<ByName<usize>, Memory>
    ensures places { IfOk result (λ places. (name : List ℕ) → value_of places name ≡ last_place (is_named name) counters.now) }
{
    let mut places = ByName::new(alloc);
    for (place, counter) in counters.iter().enumerate() {
        places.put(alloc, counter.name.as_str(), place)?;
    }
    Ok(places)
}

/// Copies of the counters, in a list with room for so many.
pub(crate) fn copy_with_capacity(
    alloc: Global,
    counters: &[Counter],
    capacity: usize,
) -> Result<Vec<Counter>, Memory>
    ensures copy { IfOk result (λ copy. copy.items ≡ counters.now) }
{
    let mut copy = Vec::with_capacity(alloc, capacity)?;
    for counter in counters {
        copy.push(counter.duplicate(alloc)?)?;
    }
    Ok(copy)
}
