//! What an element does to counters.

ghost use Rattle.std.specs.Prelude.{◌≡◌, ◌++◌, IfOk, OnOk, option_copied};
ghost use Rattle.box_eval.specs.Evaluation.{changes_in};
ghost use Rattle.scope_deeds.specs.Counting.{own_set};
ghost use Rattle.scope_deeds.specs.Reversed.{has_reversed, has_reversed_in, meets_reversed};
ghost use Rattle.counter_index.specs.Exchanges.{takes_out};
ghost use Rattle.counter_index.specs.Told.{all_deeds_kept, deeds_kept, deeds_told, told_exchange};

use box_eval::change::Change;
use box_eval::element_record::ElementRecord;
use box_eval::inputs::Start;
use box_eval::made::Made;
use counter_sets::counter_set::CounterSet;
use plain_types::duplicate::Duplicate;
use plain_types::list::List;
use plain_types::memory::Memory;
use std::alloc::Global;
use surroundings::told::Told;

/// What is kept of an element: the counters of its own box, where it has one, the starts for which its boxes ask, and
/// what they do to counters before its children and after them.
pub struct CounterDeeds {
    pub own: Option<CounterSet>,
    pub asked: List<Start>,
    pub before_children: List<Change>,
    pub after_children: List<Change>,
}

impl Drop for CounterDeeds {
    fn drop(self) {
        let CounterDeeds {
            own: _,
            asked: _,
            before_children: _,
            after_children: _,
        } = self;
    }
}

impl CounterDeeds {
    /// What is to be kept of an element of which this is told, by a walk with all starts 0. The set of its own box is shared; it
    /// takes memory and time in the starts and the changes.
    pub fn of(alloc: Global, told: &Told) -> Result<CounterDeeds, Memory>
        ensures deeds { IfOk result (λ deeds. deeds ≡ deeds_told told.now) }
    {
        let said = &told.said;
        let mut before_children = told.changes.duplicate(alloc)?;
        add_made(alloc, said.before.as_ref(), &mut before_children)?;
        let mut after_children = List::new(alloc);
        add_made(alloc, said.after.as_ref(), &mut after_children)?;
        Ok(CounterDeeds {
            own: own_set(alloc, said)?,
            asked: same_starts(alloc, told.starts.as_slice())?,
            before_children,
            after_children,
        })
    }
}

/// The counters of its own box, where it has one.
fn own_set(alloc: Global, said: &ElementRecord) -> Result<Option<CounterSet>, Memory>
    ensures own { IfOk result (λ own. own ≡ own_set said.now) }
{
    if said.has_box {
        Ok(Some(said.own.share(alloc)?))
    } else {
        Ok(None)
    }
}

/// The same starts once more.
fn same_starts(alloc: Global, starts: &[Start]) -> Result<List<Start>, Memory>
    ensures same { IfOk result (λ same. same ≡ starts.now) }
{
    let mut same = List::new(alloc);
    for start in starts {
        same.push(Start {
            creator: start.creator,
            name: start.name.duplicate(alloc)?,
            value: start.value,
        })?;
    }
    Ok(same)
}

/// Appends what a box does, where there is one.
fn add_made(alloc: Global, made: Option<&Made>, changes: &mut List<Change>) -> Result<(), Memory>
    ensures ok { OnOk result (changes.new ≡ changes.old ++ changes_in (option_copied made.entry)) }
{
    match made {
        Some(made) => add_changes(alloc, made.changes.as_slice(), changes),
        None => Ok(()),
    }
}

/// Appends the same changes once more.
fn add_changes(alloc: Global, more: &[Change], changes: &mut List<Change>) -> Result<(), Memory>
    ensures ok { OnOk result (changes.new ≡ changes.old ++ more.now) }
{
    for change in more {
        changes.push(change.duplicate(alloc)?)?;
    }
    Ok(())
}

/// Whether a set has a reversed counter.
fn has_reversed(set: &CounterSet) -> bool
    ensures { result ≡ has_reversed set.now }
{
    set.as_slice().iter().any(|counter| counter.reversed)
}

/// Whether that of the box of a pseudo-element has one, where there is such a box.
fn has_reversed_in(made: Option<&Made>) -> bool
    ensures { result ≡ has_reversed_in (option_copied made.entry) }
{
    match made {
        Some(made) => has_reversed(&made.set),
        None => false,
    }
}

/// Whether an element meets a reversed counter: the set of a box of it has one, or a box asks for the start of one. It takes time in
/// these sets.
fn meets_reversed(told: &Told) -> bool
    ensures { result ≡ meets_reversed told.now }
{
    let said = &told.said;
    told.asks
        || has_reversed(&said.own)
        || has_reversed_in(said.before.as_ref())
        || has_reversed_in(said.after.as_ref())
}

/// What is to be kept of an element: nothing where it meets no reversed counter.
fn kept_deeds(alloc: Global, told: &Told) -> Result<Option<CounterDeeds>, Memory>
    ensures kept { IfOk result (λ kept. kept ≡ deeds_kept told.now) }
{
    if !meets_reversed(told) {
        return Ok(None);
    }
    let deeds = CounterDeeds::of(alloc, told)?;
    Ok(Some(deeds))
}

/// What is exchanged, as by [`CounterIndex::exchange`](crate::index::CounterIndex::exchange), where these elements go, and of
/// others this is told by a walk with all starts 0. Of an element that meets no reversed counter nothing is kept.
pub fn told_exchange(
    alloc: Global,
    takes: &[usize],
    told: &[(usize, Told)],
) -> Result<Vec<(usize, Option<CounterDeeds>)>, Memory>
    ensures entries { IfOk result (λ entries. entries.items ≡ told_exchange takes.now told.now) }
{
    let mut entries = Vec::new(alloc);
    put_taken(takes, &mut entries)?;
    put_told(alloc, told, &mut entries)?;
    Ok(entries)
}

/// Appends that these elements go.
fn put_taken(
    takes: &[usize],
    entries: &mut Vec<(usize, Option<CounterDeeds>)>,
) -> Result<(), Memory>
    ensures ok { OnOk result (entries.new.items ≡ entries.old.items ++ takes_out takes.now) }
{
    for key in takes {
        entries.push((*key, None))?;
    }
    Ok(())
}

/// Appends what is to be kept of elements of which this is told.
fn put_told(
    alloc: Global,
    told: &[(usize, Told)],
    entries: &mut Vec<(usize, Option<CounterDeeds>)>,
) -> Result<(), Memory>
    ensures ok { OnOk result (entries.new.items ≡ entries.old.items ++ all_deeds_kept told.now) }
{
    for (key, element) in told {
        entries.push((*key, kept_deeds(alloc, element)?))?;
    }
    Ok(())
}
