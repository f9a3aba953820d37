//! Where an edit can change styles.

/// Where the styles of elements can change, beside the trees that an edit puts in, takes out or moves, and that of the
/// element whose attribute it changes. Elements are named by their keys in the document before the edit.
#[derive(Clone, Copy, Debug, PartialEq, Eq)]
pub enum Reach {
    /// Nowhere else.
    Own,
    /// At this element, and at those in it.
    Under(usize),
    /// At these elements, and at those in them.
    Both(usize, usize),
    /// Everywhere.
    All,
}
