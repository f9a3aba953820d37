//! Where reversed counters start (CSS Lists 3, 4.4): so that they count down to 1.
//!
//! A counter that `counter-reset: reversed(name)` creates without a number starts at a value that is told by
//! what boxes do to it: an [`event::Event`] for each box that increments or sets that very counter, in tree
//! order. [`start_of`] tells the start of one counter by its events. A counter that nothing sets ends one step
//! above 0: a list whose items count down by 1 ends at 1. One that a box sets comes down to that number there.
//!
//! The layer above knows this crate by `start` of `specs/Starts.antt`.
//!
//! ```text
//! let item = Event { by: -1, assigned: None };
//! start_of(&[item, item, item])     // 4: the items have the numbers 3, 2 and 1
//! ```
#![tactic(auto)]

ghost use Rattle.std.specs.Prelude.{◌≡◌};
ghost use Rattle.reversed_start.specs.Starts.{latest_step, start};

pub mod event;
#[cfg(test)]
mod tests;

use event::Event;
use plain_types::count::{Count, add_counts, negate_count};

/// The value with which a reversed counter starts that is given no number, where `events` is what boxes do to
/// it, in tree order; 0 where there are none. It takes no memory, and time linear in the events. Sums and
/// negations end at the ends of counts.
pub fn start_of(events: &[Event]) -> Count
    ensures start { result ≡ start events.now }
{
    let mut total = 0;
    let mut latest = 0;
    for event in events {
        let step = negate_count(event.by);
        latest = later_step(latest, step);
        match event.assigned {
            Some(number) => return add_counts(add_counts(total, number), latest),
            None => total = add_counts(total, step),
        }
    }
    add_counts(total, latest)
}

/// The latest step that is not 0, where `latest` was it before this step.
fn later_step(latest: Count, step: Count) -> Count
    ensures latest { result ≡ latest_step latest step }
{
    if step == 0 { latest } else { step }
}
