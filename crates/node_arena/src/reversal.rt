//! Edits that can be taken back.

use crate::change::Change;

/// The way back from an edit. The arena that committed it can take it back, or settle it, for as long as
/// nothing else changes that arena. One that is let go leaves the keys of removed nodes used.
#[derive(Drop)]
pub struct Reversal {
    pub(crate) change: Change,
}
