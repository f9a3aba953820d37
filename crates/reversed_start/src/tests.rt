//! Starts that are worked out by hand.

use crate::event::Event;
use crate::start_of;
use plain_types::count::{COUNT_HIGH, COUNT_LOW, Count};
use plain_types::list::List;
use plain_types::memory::Memory;
use std::alloc::Global;
use std::test::Fail;

/// By how much a box increments the counter, and the number that it sets.
type Row = (Count, Option<Count>);

static STARTS: [(&'static [Row], Count); 17] = [
    // <ol reversed="reversed"><li/><li/><li/></ol>, whose items have the numbers 3, 2 and 1
    (&[(-1, None), (-1, None), (-1, None)], 4),
    // with <li value="10"/> as the third: 12, 11 and 10
    (&[(-1, None), (-1, None), (-1, Some(10))], 13),
    // what comes behind a box that sets the counter says nothing
    (&[(-1, None), (-1, Some(10)), (-1, None), (-7, Some(3))], 12),
    // the step of that box alone isn't added, but it is the latest
    (&[(-2, Some(5))], 7),
    (&[(-1, None), (-2, Some(5))], 8),
    // a box that only sets the counter has the step 0
    (&[(0, Some(5))], 5),
    (&[(-2, None), (0, Some(5))], 9),
    // without a step
    (&[], 0),
    (&[(0, None)], 0),
    // the latest step is the latest that is not 0
    (&[(-2, None), (-3, None)], 8),
    (&[(-2, None), (0, None)], 4),
    (&[(-2, None), (3, None)], -4),
    // the ends of counts
    (&[(COUNT_LOW, None)], COUNT_HIGH),
    (&[(COUNT_LOW, None), (-1, None), (1, None)], COUNT_HIGH - 2),
    (&[(COUNT_HIGH, None), (3, None)], COUNT_LOW),
    (&[(-5, None), (0, Some(COUNT_HIGH))], COUNT_HIGH),
    (&[(5, None), (0, Some(COUNT_LOW))], COUNT_LOW),
];

/// The start that these boxes give.
fn start_by(alloc: Global, rows: &[Row]) -> Result<Count, Memory> {
    let mut events = List::new(alloc);
    for (by, assigned) in rows {
        events.push(Event {
            by: *by,
            assigned: *assigned,
        })?;
    }
    Ok(start_of(events.as_slice()))
}

#[test]
fn starts_are_these(rt: HostRuntime) -> Result<(), Fail> {
    for (rows, start) in &STARTS {
        let found = start_by(rt.alloc(), rows)?;
        assert_eq!(rt; found, *start);
    }
    Ok(())
}
