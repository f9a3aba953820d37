//! Where the writing of a line stands.

/// Where the writing of a line stands.
#[derive(Clone, Copy)]
pub(crate) enum LineState {
    /// Nothing stands in the line yet.
    Start,
    /// The line ends with a word, which may go on.
    Word,
    /// The line ends with a word, and blanks came after it.
    Blank,
}
