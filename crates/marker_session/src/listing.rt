//! Whether the changed lines of an edit were listed.

/// What is listed after an edit that was done.
#[derive(Clone, Copy, Debug, PartialEq, Eq)]
pub enum Listing {
    /// The lines that it changed.
    Listed,
    /// None: memory was wanting for the list alone.
    Unlisted,
}
