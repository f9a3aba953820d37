//! Where content stands.

use counter_sets::counter_set::CounterSet;
use plain_types::box_id::BoxId;

/// Where a list of content items stands: its box, the counters of the parent box, those of the box itself
/// after its counter properties, and the quote depth before the first item.
#[derive(Drop)]
pub struct Place {
    pub creator: BoxId,
    pub parent: CounterSet,
    pub set: CounterSet,
    pub depth: u64,
}
