//! Boxes of pseudo-elements.

use crate::change::Change;
use content_eval::generated::Piece;
use counter_sets::counter_set::CounterSet;
use plain_types::list::List;

/// A marker, before or after box: its counters once its content is used, the pieces of its text, and what
/// it does to counters.
pub struct Made {
    pub set: CounterSet,
    pub pieces: List<Piece>,
    pub changes: List<Change>,
}

impl Drop for Made {
    fn drop(self) {
        let Made {
            set: _,
            pieces: _,
            changes: _,
        } = self;
    }
}
