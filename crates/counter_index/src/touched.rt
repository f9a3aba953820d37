//! The elements whose starts an exchange of deeds can change.

ghost use Rattle.std.specs.Prelude.{◌≡◌, ◌++◌, ℕ, IfOk, OnOk, flat_map, option_copied};
ghost use Rattle.std.specs.Str.{bytes_eq, chars};
ghost use Rattle.box_eval.specs.Starts.{events_of};
ghost use Rattle.edit_work.specs.KeyedSources.{is_among};
ghost use Rattle.scope_deeds.specs.Reversed.{is_start_of};
ghost use Rattle.counter_index.specs.Indexes.{asked_by, is_asked};
ghost use Rattle.counter_index.specs.Touched.{AreTouched, asking, asking_other, by_exchanged, by_moved, changes_after, changes_before, do_same, is_alike, touched_by, touched_in, touched_keys};
ghost use Rattle.edit_work.specs.Inputs.{are_same_starts, is_same_start};

use crate::deeds::CounterDeeds;
use crate::events::add_events;
use crate::index::CounterIndex;
use crate::keys::Keys;
use crate::values::is_same;
use box_eval::change::Change;
use box_eval::inputs::Start;
use plain_types::box_id::BoxId;
use plain_types::list::List;
use plain_types::memory::Memory;
use reversed_start::event::Event;
use std::alloc::Global;

/// What the boxes of an element do before its children; nothing where there is no element.
fn changes_before<'a>(deeds: Option<&'a CounterDeeds>) -> &'a [Change]
    ensures changes { result.now ≡ changes_before (option_copied deeds.entry) }
{
    match deeds {
        Some(its) => its.before_children.as_slice(),
        None => &[],
    }
}

/// What its box after them does.
fn changes_after<'a>(deeds: Option<&'a CounterDeeds>) -> &'a [Change]
    ensures changes { result.now ≡ changes_after (option_copied deeds.entry) }
{
    match deeds {
        Some(its) => its.after_children.as_slice(),
        None => &[],
    }
}

/// The starts for which it asks.
fn asked_by<'a>(deeds: Option<&'a CounterDeeds>) -> &'a [Start]
    ensures asked { result.now ≡ asked_by (option_copied deeds.entry) }
{
    match deeds {
        Some(its) => its.asked.as_slice(),
        None => &[],
    }
}

/// Whether both are the start of one counter, with the same value.
fn is_same_start(one: &Start, other: &Start) -> bool
    ensures test { result ≡ is_same_start one.now other.now }
{
    one.creator == other.creator
        && is_same(&one.name, other.name.as_str())
        && one.value == other.value
}

/// Whether both lists have the same starts, in the same order.
pub(crate) fn are_same_starts(starts: &[Start], others: &[Start]) -> bool
    ensures test { result ≡ are_same_starts starts.now others.now }
{
    starts.len() == others.len()
        && starts
            .iter()
            .zip(others)
            .all(|(one, other)| is_same_start(one, other))
}

/// The events of the counter of this name that this box creates.
fn events_in(
    alloc: Global,
    changes: &[Change],
    creator: BoxId,
    name: &str,
) -> Result<List<Event>, Memory>
    ensures events { IfOk result (λ events. events ≡ events_of changes.now creator (chars name.now)) }
{
    let mut events = List::new(alloc);
    add_events(changes, creator, name, &mut events)?;
    Ok(events)
}

/// Whether changes do the same to the counter of this name that this box creates.
fn do_same(
    alloc: Global,
    changes: &[Change],
    others: &[Change],
    creator: BoxId,
    name: &str,
) -> Result<bool, Memory>
    ensures test { IfOk result (λ test. test ≡ do_same creator (chars name.now) changes.now others.now) }
{
    let events = events_in(alloc, changes, creator, name)?;
    let other_events = events_in(alloc, others, creator, name)?;
    Ok(events.as_slice() == other_events.as_slice())
}

/// Whether elements do the same to it.
fn is_alike(
    alloc: Global,
    now: Option<&CounterDeeds>,
    was: Option<&CounterDeeds>,
    creator: BoxId,
    name: &str,
) -> Result<bool, Memory>
    ensures test { IfOk result (λ test. test ≡ is_alike creator (chars name.now) (option_copied now.entry) (option_copied was.entry)) }
{
    if !do_same(
        alloc,
        changes_before(now),
        changes_before(was),
        creator,
        name,
    )? {
        return Ok(false);
    }
    do_same(alloc, changes_after(now), changes_after(was), creator, name)
}

/// Whether one of these is the start of the counter of this name that this box creates.
fn is_start_of(starts: &[Start], creator: BoxId, name: &str) -> bool
    ensures test { result ≡ is_start_of creator (chars name.now) starts.now }
{
    for start in starts {
        if start.creator == creator && is_same(&start.name, name) {
            return true;
        }
    }
    false
}

/// Appends the element that creates the counter of a change, where it asks for its start.
fn put_asking(index: &CounterIndex, change: &Change, keys: &mut List<usize>) -> Result<(), Memory>
    ensures ok { OnOk result (keys.new ≡ keys.old ++ asking index.now change.now) }
{
    let asked = index.asked(change.creator.key);
    if is_start_of(asked, change.creator, change.name.as_str()) {
        keys.push(change.creator.key)?;
    }
    Ok(())
}

/// Appends those of changes.
fn put_all_asking(
    index: &CounterIndex,
    changes: &[Change],
    keys: &mut List<usize>,
) -> Result<(), Memory>
    ensures ok { OnOk result (keys.new ≡ keys.old ++ flat_map (asking index.now) changes.now) }
{
    for change in changes {
        put_asking(index, change, keys)?;
    }
    Ok(())
}

/// Appends that of a change, where elements do something else to the counter.
fn put_touched_by(
    alloc: Global,
    index: &CounterIndex,
    now: Option<&CounterDeeds>,
    was: Option<&CounterDeeds>,
    change: &Change,
    keys: &mut List<usize>,
) -> Result<(), Memory>
    ensures ok { OnOk result (keys.new ≡ keys.old ++ touched_by index.now (option_copied now.entry) (option_copied was.entry) change.now) }
{
    if is_alike(alloc, now, was, change.creator, change.name.as_str())? {
        return Ok(());
    }
    put_asking(index, change, keys)
}

/// Appends those of changes.
fn put_all_touched_by(
    alloc: Global,
    index: &CounterIndex,
    now: Option<&CounterDeeds>,
    was: Option<&CounterDeeds>,
    changes: &[Change],
    keys: &mut List<usize>,
) -> Result<(), Memory>
    ensures ok { OnOk result (keys.new ≡ keys.old ++ flat_map (touched_by index.now (option_copied now.entry) (option_copied was.entry)) changes.now) }
{
    for change in changes {
        put_touched_by(alloc, index, now, was, change, keys)?;
    }
    Ok(())
}

/// Appends those of what an element does.
fn put_touched_in(
    alloc: Global,
    index: &CounterIndex,
    now: Option<&CounterDeeds>,
    was: Option<&CounterDeeds>,
    its: Option<&CounterDeeds>,
    keys: &mut List<usize>,
) -> Result<(), Memory>
    ensures ok { OnOk result (keys.new ≡ keys.old ++ touched_in index.now (option_copied now.entry) (option_copied was.entry) (option_copied its.entry)) }
{
    put_all_touched_by(alloc, index, now, was, changes_before(its), keys)?;
    put_all_touched_by(alloc, index, now, was, changes_after(its), keys)
}

/// Appends an element, where it asks for other starts than before.
fn put_asking_other(
    key: usize,
    now: Option<&CounterDeeds>,
    was: Option<&CounterDeeds>,
    keys: &mut List<usize>,
) -> Result<(), Memory>
    ensures ok { OnOk result (keys.new ≡ keys.old ++ asking_other key (option_copied now.entry) (option_copied was.entry)) }
{
    if !are_same_starts(asked_by(now), asked_by(was)) {
        keys.push(key)?;
    }
    Ok(())
}

/// Appends the elements that are found by one that was exchanged.
fn put_by_exchanged(
    alloc: Global,
    index: &CounterIndex,
    entry: &(usize, Option<CounterDeeds>),
    keys: &mut List<usize>,
) -> Result<(), Memory>
    ensures ok { OnOk result (keys.new ≡ keys.old ++ by_exchanged index.now entry.now) }
{
    let now = index.deeds(entry.0);
    let was = entry.1.as_ref();
    put_asking_other(entry.0, now, was, keys)?;
    put_touched_in(alloc, index, now, was, now, keys)?;
    put_touched_in(alloc, index, now, was, was, keys)
}

/// Appends those that are found by one that goes or comes.
fn put_by_moved(index: &CounterIndex, key: usize, keys: &mut List<usize>) -> Result<(), Memory>
    ensures ok { OnOk result (keys.new ≡ keys.old ++ by_moved index.now key) }
{
    let its = index.deeds(key);
    put_all_asking(index, changes_before(its), keys)?;
    put_all_asking(index, changes_after(its), keys)
}

/// Appends those that are found by elements that were exchanged.
fn put_by_all_exchanged(
    alloc: Global,
    index: &CounterIndex,
    former: &[(usize, Option<CounterDeeds>)],
    keys: &mut List<usize>,
) -> Result<(), Memory>
    ensures ok { OnOk result (keys.new ≡ keys.old ++ flat_map (by_exchanged index.now) former.now) }
{
    for entry in former {
        put_by_exchanged(alloc, index, entry, keys)?;
    }
    Ok(())
}

/// Appends those that are found by elements that go or come.
fn put_by_all_moved(
    index: &CounterIndex,
    moved: &[usize],
    keys: &mut List<usize>,
) -> Result<(), Memory>
    ensures ok { OnOk result (keys.new ≡ keys.old ++ flat_map (by_moved index.now) moved.now) }
{
    for key in moved {
        put_by_moved(index, *key, keys)?;
    }
    Ok(())
}

impl CounterIndex {
    /// The elements whose starts an exchange of deeds can change, where these were kept before it, and these elements go or
    /// come: the creators of the counters to which one of them does something else than before, and of those to which one that
    /// goes or comes does anything, where they ask for the start; and those of them that ask for other starts than before.
    ///
    /// It takes memory of these elements and of the changes that are compared. Of each element that was exchanged it takes time
    /// in the square of what it does and did, and of each other one time in what it does.
    pub fn touched(
        &self,
        alloc: Global,
        former: &[(usize, Option<CounterDeeds>)],
        moved: &[usize],
    ) -> Result<Keys, Memory>
        ensures keys { IfOk result (λ keys. (key : ℕ) → is_among keys key ≡ is_among (touched_keys self.now former.now moved.now) key) }
        ensures enough { IfOk result (AreTouched former.now moved.now self.now) }
    {
        let mut found = List::new(alloc);
        put_by_all_exchanged(alloc, self, former, &mut found)?;
        put_by_all_moved(self, moved, &mut found)?;
        let mut keys = Keys::new(alloc);
        keys.add_all(found.as_slice())?;
        Ok(keys)
    }
}
