//! What an evaluation keeps of an element.

use crate::walked::Walked;
use box_eval::change::Change;
use box_eval::element_record::ElementRecord;
use box_eval::inputs::Start;
use plain_types::list::List;

/// What is said of an element, what it was handed and hands on, and what it has to do with counters, beside what is said.
pub struct Told {
    pub said: ElementRecord,
    pub walked: Walked,
    /// Whether a box of it creates a reversed counter without a number, and so asks for its start.
    pub asks: bool,
    /// The starts of these counters, as they were given.
    pub starts: List<Start>,
    /// What its own box does to counters. What its other boxes do is said with them.
    pub changes: List<Change>,
}

impl Drop for Told {
    fn drop(self) {
        let Told {
            said: _,
            walked: _,
            asks: _,
            starts: _,
            changes: _,
        } = self;
    }
}
