//! Commands of scripts.

use crate::action::Action;

/// A line of a script that asks for something.
#[derive(Drop)]
pub struct Command {
    /// The line's number in its script, from 1. Lines that are skipped count.
    pub line: usize,
    pub action: Action,
}
