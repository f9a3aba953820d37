//! What the evaluation of an element answers.

use crate::change::Change;
use crate::made::Made;
use counter_sets::counter_set::CounterSet;
use plain_types::list::List;

/// An element as far as its children come: its own counters and what its box does to counters, its marker
/// and its before box, and the quote depth behind them.
#[derive(Drop)]
pub struct Entry {
    pub own: CounterSet,
    pub changes: List<Change>,
    pub marker: Option<Made>,
    pub before: Option<Made>,
    pub depth: u64,
}

/// An element from its children on: its after box, the counters with which the element is left, and the
/// quote depth then.
#[derive(Drop)]
pub struct Closing {
    pub after: Option<Made>,
    pub exit: CounterSet,
    pub depth: u64,
}
