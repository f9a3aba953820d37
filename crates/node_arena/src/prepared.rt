//! Edits for which all memory is taken.

use crate::change::Change;

/// An edit that an arena is ready to do. The arena that prepared it can commit it for as long as nothing
/// else changes that arena. One that is let go leaves the keys of its new nodes used.
#[derive(Drop)]
pub struct Prepared {
    pub(crate) change: Change,
}
