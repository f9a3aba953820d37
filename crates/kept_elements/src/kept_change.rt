//! What comes to be kept of elements.

use crate::kept::Kept;
use surroundings::walked::Walked;

/// What comes to be kept of an element of which something else was kept, or nothing.
#[derive(Drop)]
pub struct KeptChange {
    pub kept: Kept,
    /// Whether one of its boxes shows another text than before, so that lines of the dump are others.
    pub shows_other: bool,
    /// What the element was handed before, and what was handed on behind its children; none where nothing was kept of it.
    pub was: Option<Walked>,
}
