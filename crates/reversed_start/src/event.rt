//! What boxes do to counters.

use plain_types::count::Count;

/// What one box does to one counter (CSS Lists 3, 4.2): its whole increment, which is 0 where it has none,
/// and then the value that it sets, if it sets one.
#[derive(Clone, Copy, Debug, PartialEq, Eq)]
pub struct Event {
    pub by: Count,
    pub assigned: Option<Count>,
}
