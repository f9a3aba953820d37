//! What is formed of a pseudo-element.

use crate::made::Made;

/// The box of a pseudo-element, where it has one, and the quote depth behind it.
#[derive(Drop)]
pub struct Formed {
    pub made: Option<Made>,
    pub depth: u64,
}
