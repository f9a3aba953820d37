//! The starts of reversed counters, by what boxes do to counters, as a table.

use box_eval::change::Change;
use box_eval::changed_starts::ChangedStarts;
use box_eval::starts::{NoStarts, Starts};
use plain_types::box_id::BoxId;
use plain_types::box_kind::BoxKind;
use plain_types::count::Count;
use plain_types::list::List;
use plain_types::memory::Memory;
use plain_types::text::Text;
use reversed_start::event::Event;
use std::alloc::Global;
use std::test::Fail;

/// A box of an element, by its key.
type Creator = (usize, BoxKind);

/// What boxes do to counters: the counter's creator and name, its increment, and the number that is set. The
/// list of element 1 has another in its first item, that of element 2.
static CHANGES: [(Creator, &str, Count, Option<Count>); 7] = [
    ((1, BoxKind::Element), "list-item", -1, None),
    ((2, BoxKind::Element), "list-item", -1, None),
    ((2, BoxKind::Element), "s", -5, None),
    ((1, BoxKind::Before), "list-item", -3, None),
    ((2, BoxKind::Element), "list-item", -1, None),
    ((2, BoxKind::Element), "s", 0, Some(7)),
    ((1, BoxKind::Element), "list-item", -1, Some(10)),
];

static STARTS: [(Creator, &str, Count); 7] = [
    ((1, BoxKind::Element), "list-item", 12),
    ((2, BoxKind::Element), "list-item", 3),
    ((2, BoxKind::Element), "s", 17),
    ((1, BoxKind::Before), "list-item", 6),
    // no box does anything to these
    ((1, BoxKind::Element), "s", 0),
    ((1, BoxKind::After), "list-item", 0),
    ((3, BoxKind::Element), "list-item", 0),
];

fn box_of(creator: &Creator) -> BoxId {
    BoxId {
        key: creator.0,
        kind: creator.1,
    }
}

fn changes(alloc: Global) -> Result<List<Change>, Memory> {
    let mut changes = List::new(alloc);
    for (creator, name, by, assigned) in &CHANGES {
        changes.push(Change {
            creator: box_of(creator),
            name: Text::from_str(alloc, name)?,
            event: Event {
                by: *by,
                assigned: *assigned,
            },
        })?;
    }
    Ok(changes)
}

/// Whether the counters of the table start so.
fn tells<T: Starts>(starts: &T) -> bool {
    STARTS.iter().all(|(creator, name, start)| starts.start(box_of(creator), name) == *start)
}

#[test]
fn starts_by_changes(rt: HostRuntime) -> Result<(), Fail> {
    let changes = changes(rt.alloc())?;
    let starts = ChangedStarts::of(rt.alloc(), changes.as_slice())?;
    assert!(rt; tells(&starts));
    assert!(rt; !tells(&NoStarts));
    Ok(())
}
