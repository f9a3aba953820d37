//! Kinds of scripts.

/// Which commands a script may have.
#[derive(Clone, Copy, Debug, PartialEq, Eq)]
pub enum ScriptKind {
    /// Edits, sheets and `show`.
    Edits,
    /// These, and `undo` and `redo`.
    History,
    /// Edits, sheets and `show`, and `in`.
    Book,
}
