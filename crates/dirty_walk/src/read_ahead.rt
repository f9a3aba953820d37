//! What is read of a document before an edit of it is done.

use referring_elements::former::FormerTarget;

/// What was read of a document before an edit of it was done.
#[derive(Drop)]
pub(crate) struct ReadAhead<'a> {
    /// The keys of the elements that the document has no longer then.
    pub(crate) takes: &'a [usize],
    /// What the ids named that the edit can give another target.
    pub(crate) former: &'a [FormerTarget],
}
