//! Elements with a box, as far as their children come.

use box_eval::entry::Entry;
use box_eval::inputs::Start;
use counter_sets::counter_set::CounterSet;
use plain_types::list::List;
use plain_types::style::ElementStyle;

/// An element with a box, as far as its children come.
#[derive(Drop)]
pub(crate) struct Opened {
    /// The counters of the parent box.
    pub(crate) parent: CounterSet,
    /// The quote depth before its first box.
    pub(crate) depth: u64,
    pub(crate) style: ElementStyle,
    /// The starts of the reversed counters that its boxes create.
    pub(crate) starts: List<Start>,
    pub(crate) entry: Entry,
}
