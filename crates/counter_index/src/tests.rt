//! An exchange and its way back, what it touches, starts that are kept, and what is told.

ghost use Rattle.std.specs.Prelude.{◌≡◌, ◌<◌, OnOk};

use crate::deeds::{CounterDeeds, told_exchange};
use crate::index::CounterIndex;
use box_eval::change::Change;
use box_eval::element_record::ElementRecord;
use box_eval::inputs::Start;
use box_eval::made::Made;
use box_eval::starts::Starts;
use counter_sets::counter_set::CounterSet;
use plain_types::box_id::BoxId;
use plain_types::box_kind::BoxKind;
use plain_types::count::Count;
use plain_types::list::List;
use plain_types::memory::Memory;
use plain_types::text::Text;
use reversed_start::event::Event;
use std::alloc::Global;
use std::test::Fail;
use surroundings::told::Told;
use surroundings::walked::Walked;

/// The list that creates the counter, and its item.
const LIST: usize = 1;

const ITEM: usize = 2;

const ROOM: usize = 3;

/// The own box of the list.
fn list_box() -> BoxId {
    BoxId {
        key: LIST,
        kind: BoxKind::Element,
    }
}

/// That a box increments the counter of the list.
fn increment(alloc: Global, by: Count) -> Result<List<Change>, Memory> {
    let mut changes = List::new(alloc);
    changes.push(Change {
        creator: list_box(),
        name: Text::from_str(alloc, "c")?,
        event: Event { by, assigned: None },
    })?;
    Ok(changes)
}

/// The deeds of an item that increments the counter of the list.
fn item_deeds(alloc: Global, by: Count) -> Result<CounterDeeds, Memory> {
    Ok(CounterDeeds {
        own: None,
        asked: List::new(alloc),
        before_children: increment(alloc, by)?,
        after_children: List::new(alloc),
    })
}

/// The start of the list's counter.
fn list_starts(alloc: Global, value: Count) -> Result<List<Start>, Memory> {
    let mut starts = List::new(alloc);
    starts.push(Start {
        creator: list_box(),
        name: Text::from_str(alloc, "c")?,
        value,
    })?;
    Ok(starts)
}

/// The deeds of the list: it asks for the start of its counter.
fn list_deeds(alloc: Global) -> Result<CounterDeeds, Memory> {
    Ok(CounterDeeds {
        own: None,
        asked: list_starts(alloc, 0)?,
        before_children: List::new(alloc),
        after_children: List::new(alloc),
    })
}

/// By how much an element increments the first counter that it changes.
fn step_of(index: &CounterIndex, key: usize) -> Option<Count> {
    let change = index.deeds(key)?.before_children.as_slice().first()?;
    Some(change.event.by)
}

/// Whether the deeds of an item are there once they are exchanged for those before, and gone once these are restored.
fn comes_and_goes(alloc: Global, index: &mut CounterIndex, by: Count) -> Result<bool, Memory>
    requires room { ITEM < index.old.deeds.room }
    ensures room { OnOk result (index.new.deeds.room ≡ index.old.deeds.room) }
    ensures starts { OnOk result (index.new.starts ≡ index.old.starts) }
{
    let before = step_of(index, ITEM);
    let mut entries = [(ITEM, Some(item_deeds(alloc, by)?))];
    index.exchange(&mut entries);
    let between = step_of(index, ITEM);
    index.restore(&mut entries);
    Ok(between == Some(by) && step_of(index, ITEM) == before)
}

/// Whether the start of the list is to be told again once it asks and the item increments its counter, and no other; and
/// nothing once both have what they had.
fn is_touched(alloc: Global, index: &mut CounterIndex) -> Result<bool, Memory>
    requires room { ITEM < index.old.deeds.room }
    ensures starts { OnOk result (index.new.starts ≡ index.old.starts) }
{
    let asks_before = index.asks();
    let mut entries = [
        (LIST, Some(list_deeds(alloc)?)),
        (ITEM, Some(item_deeds(alloc, -1)?)),
    ];
    index.exchange(&mut entries);
    let asks = index.asks();
    let keys = index.touched(alloc, &entries, &[ITEM])?;
    index.restore(&mut entries);
    let later = index.touched(alloc, &[], &[ITEM])?;
    Ok(!asks_before && asks && keys.as_slice() == [LIST].as_slice() && later.as_slice().is_empty())
}

/// Whether this is the one start that is listed of the list.
fn is_listed(index: &CounterIndex, value: Count) -> bool {
    match index.listed(list_box()) {
        Some([start]) => start.value == value,
        _ => false,
    }
}

/// Whether the start of the list's counter is this, and is listed, once it is exchanged for that before, and 0 once that is
/// restored.
fn starts_and_ends(alloc: Global, index: &mut CounterIndex, value: Count) -> Result<bool, Memory>
    requires room { LIST < index.old.starts.room }
{
    let mut entries = [(LIST, Some(list_starts(alloc, value)?))];
    index.exchange_starts(&mut entries);
    let between = index.start(list_box(), "c");
    let other = index.start(list_box(), "d");
    let listed = is_listed(index, value);
    index.restore_starts(&mut entries);
    Ok(between == value && other == 0 && listed && index.start(list_box(), "c") == 0)
}

#[test]
fn exchanges_are_taken_back(rt: HostRuntime) -> Result<(), Fail> {
    let alloc = rt.alloc();
    let mut index = CounterIndex::new(alloc);
    index.reserve(ROOM)?;
    assert!(rt; comes_and_goes(alloc, &mut index, -1)?);
    assert!(rt; is_touched(alloc, &mut index)?);
    assert!(rt; !index.asks());
    assert!(rt; starts_and_ends(alloc, &mut index, 5)?);
    Ok(())
}

/// A pseudo-element's box that increments the counter of the list.
fn made(alloc: Global, by: Count) -> Result<Made, Memory> {
    Ok(Made {
        set: CounterSet::empty(alloc)?,
        pieces: List::new(alloc),
        changes: increment(alloc, by)?,
    })
}

/// What is told of the list: it asks for a start, its own box does -1, its before box -2, and its after box -3.
fn told_list(alloc: Global) -> Result<Told, Memory> {
    let said = ElementRecord {
        has_box: true,
        own: CounterSet::empty(alloc)?,
        exit: CounterSet::empty(alloc)?,
        depth_before: 0,
        depth_after: 0,
        marker: None,
        before: Some(made(alloc, -2)?),
        after: Some(made(alloc, -3)?),
    };
    Ok(Told {
        said,
        walked: Walked {
            handed: None,
            behind: None,
        },
        asks: true,
        starts: list_starts(alloc, 0)?,
        changes: increment(alloc, -1)?,
    })
}

/// By how much each of these increments a counter, one after the other.
fn are_steps(changes: &[Change], steps: &[Count]) -> bool {
    changes.len() == steps.len()
        && changes
            .iter()
            .zip(steps)
            .all(|(change, step)| change.event.by == *step)
}

/// Whether these are the deeds of the list.
fn are_told(deeds: &CounterDeeds) -> bool {
    deeds.own.is_some()
        && deeds.asked.len() == 1
        && are_steps(deeds.before_children.as_slice(), &[-1, -2])
        && are_steps(deeds.after_children.as_slice(), &[-3])
}

/// Whether the item goes and the list comes.
fn are_exchanged(alloc: Global) -> Result<bool, Memory> {
    let told = [(LIST, told_list(alloc)?)];
    let entries = told_exchange(alloc, &[ITEM], &told)?;
    Ok(match entries.as_slice() {
        [(gone, None), (come, Some(deeds))] => *gone == ITEM && *come == LIST && are_told(deeds),
        _ => false,
    })
}

#[test]
fn what_is_told_is_exchanged(rt: HostRuntime) -> Result<(), Fail> {
    assert!(rt; are_exchanged(rt.alloc())?);
    Ok(())
}
