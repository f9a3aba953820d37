//! What the evaluation of an element stands on, beside its style and its attributes.

use counter_sets::counter_set::CounterSet;
use plain_types::box_id::BoxId;
use plain_types::count::Count;
use plain_types::list::List;
use plain_types::text::Text;

/// The first value of a reversed counter that is created without a number: the box that creates it, its
/// name, and that value.
#[derive(Drop)]
pub struct Start {
    pub creator: BoxId,
    pub name: Text,
    pub value: Count,
}

/// What boxes before hand on to the next boxes of an element: to its own box, or, once its children are
/// evaluated, to its after box.
#[derive(Drop)]
pub struct Inputs {
    /// The element's key.
    pub key: usize,
    /// The counters of the parent box. For the after box that is the element's own box.
    pub parent: CounterSet,
    /// Those of the sibling box before, where there is one. For the after box that is the element's last child
    /// box so far.
    pub sibling: Option<CounterSet>,
    /// Those of the box just before in tree order, where there is one.
    pub preceding: Option<CounterSet>,
    /// The quote depth behind that box.
    pub depth: u64,
    /// The starts of the reversed counters that its boxes create. A missing one is 0.
    pub starts: List<Start>,
}
