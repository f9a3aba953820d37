//! What the evaluation says of an element.

use crate::made::Made;
use counter_sets::counter_set::CounterSet;

/// An element of an evaluated document. One without a box has empty sets, depths of 0 and no boxes.
pub struct ElementRecord {
    pub has_box: bool,
    /// Its own box's counters.
    pub own: CounterSet,
    /// The counters of its last box in tree order, with which it is left.
    pub exit: CounterSet,
    /// The quote depth before its first box.
    pub depth_before: u64,
    /// The quote depth behind its last box.
    pub depth_after: u64,
    pub marker: Option<Made>,
    pub before: Option<Made>,
    pub after: Option<Made>,
}

impl Drop for ElementRecord {
    fn drop(self) {
        let ElementRecord {
            has_box: _,
            own: _,
            exit: _,
            depth_before: _,
            depth_after: _,
            marker: _,
            before: _,
            after: _,
        } = self;
    }
}
