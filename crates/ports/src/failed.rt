//! The answer of a call that failed.

use thiserror::Error;

/// A call on a shelf or a sink failed. Why is not told.
#[derive(Clone, Copy, Debug, PartialEq, Eq, Error)]
#[error("a read or a write failed")]
pub struct Failed;
