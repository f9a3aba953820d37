//! What is left of a set where a box instantiates many counters at once (CSS Lists 3, 4.4).

ghost use Rattle.std.specs.Prelude.{◌≡◌, ◌&&◌, ℕ, IfOk, IfSome, Some, is_some, length, nat_le, slice_get};
ghost use Rattle.plain_types.specs.declared.counter.Counter.{Counter};
ghost use Rattle.counter_sets.specs.ByNames.{is_at, value_of};
ghost use Rattle.counter_sets.specs.Indexes.{left_by};
ghost use Rattle.counter_sets.specs.Sets.{AreDistinct, is_missing_in};

use crate::by_name::{ByName, is_at};
use crate::counters::{is_missing_in, last_places};
use crate::inheriting::past_front;
use plain_types::counter::Counter;
use plain_types::duplicate::Duplicate;
use plain_types::memory::Memory;
use std::alloc::Global;

/// Copies of the counters of a set whose places none of the new ones takes, in a list with room for these.
pub(crate) fn copy_left(
    alloc: Global,
    set: &[Counter],
    parent: &[Counter],
    new: &[Counter],
) -> Result<Vec<Counter>, Memory>
    requires distinct { AreDistinct set.now }
    ensures left { IfOk result (λ left. left.items ≡ left_by (is_missing_in parent.now) new.now set.now) }
{
    let places = last_places(alloc, set)?;
    let named = last_places(alloc, new)?;
    let front = front_len(parent, set);
    let mut left = Vec::with_capacity(alloc, set.len())?;
    for (place, counter) in set.iter().enumerate() {
        if !goes(parent, front, &places, &named, place, counter) {
            left.push(counter.duplicate(alloc)?)?;
        }
    }
    left.reserve_exact(new.len())?;
    Ok(left)
}

/// Whether a new counter takes the place of the one at a place in a set, where these are the places of the set's
/// innermost counters and of the new ones, and so many counters come before those that the parent's set lacks.
fn goes(
    parent: &[Counter],
    front: Option<usize>,
    places: &ByName<usize>,
    named: &ByName<usize>,
    place: usize,
    counter: &Counter,
) -> bool
    requires front { IfSome front (λ len. is_missing_in parent.now counter.now ≡ nat_le len place) }
    ensures test { result ≡ (is_some (value_of named.now counter.now.name) && (is_at (value_of places.now counter.now.name) place && is_missing_in parent.now counter.now)) }
{
    let name = counter.name.as_str();
    named.get(name).is_some()
        && is_at(places.get(name), place)
        && is_missing_at(parent, front, place, counter)
}

/// Whether the parent's set lacks the counter at a place, where so many counters come before those that it lacks.
fn is_missing_at(parent: &[Counter], front: Option<usize>, place: usize, counter: &Counter) -> bool
    requires front { IfSome front (λ len. is_missing_in parent.now counter.now ≡ nat_le len place) }
    ensures test { result ≡ is_missing_in parent.now counter.now }
{
    match front {
        Some(len) => len <= place,
        None => is_missing_in(parent, place, counter),
    }
}

/// How many counters come before those that the parent's set lacks, where the parent's come first, as they do in the
/// sets of boxes: then none of these has to be looked for among the parent's.
fn front_len(parent: &[Counter], set: &[Counter]) -> Option<usize>
    requires distinct { AreDistinct set.now }
    ensures front { IfSome result (λ len. (place : ℕ) (counter : Counter) → slice_get set.now place ≡ Some counter → is_missing_in parent.now counter ≡ nat_le len place) }
{
    match past_front(parent, set) {
        Some(_) => Some(parent.len()),
        None => None,
    }
}
