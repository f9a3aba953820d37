//! Why an edit is refused.

use thiserror::Error;

/// Why an edit can't be done. `NoPlace` comes first: a move that goes into itself has its places.
#[derive(Clone, Copy, Debug, PartialEq, Eq, Error)]
pub enum PlaceFault {
    /// A path leads to no node, or to none that may be edited so, or an index is past the children.
    #[error("the edit has no place in the document")]
    NoPlace,
    /// A node is moved into itself: the new parent is the node, or under it.
    #[error("a node can't be moved into itself")]
    IntoItself,
}
