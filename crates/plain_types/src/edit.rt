//! Edits of a document and its sheet.

use crate::duplicate::Duplicate;
use crate::memory::Memory;
use crate::path::Path;
use crate::text::Text;
use crate::tree::Tree;
use std::alloc::Global;

/// An edit (our own). Paths name nodes of the document before the edit.
#[derive(Drop)]
pub enum Edit {
    /// The fragment becomes this child of the parent.
    Insert {
        parent: Path,
        index: usize,
        fragment: Tree,
    },
    /// The node goes, and all under it.
    Remove {
        path: Path,
    },
    /// The node is taken out, and becomes this child of the parent.
    Move {
        from: Path,
        parent: Path,
        index: usize,
    },
    /// An attribute that is there keeps its place; a new one goes last.
    SetAttr {
        path: Path,
        name: Text,
        value: Text,
    },
    /// The attribute goes; where it isn't there nothing changes.
    UnsetAttr {
        path: Path,
        name: Text,
    },
    /// The sheet is that of this text.
    ReplaceSheet {
        text: Text,
    },
}

impl Duplicate for Edit {
    fn duplicate(&self, alloc: Global) -> Result<Edit, Memory> {
        match self {
            Edit::Insert {
                parent,
                index,
                fragment,
            } => Ok(Edit::Insert {
                parent: parent.duplicate(alloc)?,
                index: *index,
                fragment: fragment.duplicate(alloc)?,
            }),
            Edit::Remove { path } => Ok(Edit::Remove {
                path: path.duplicate(alloc)?,
            }),
            Edit::Move {
                from,
                parent,
                index,
            } => Ok(Edit::Move {
                from: from.duplicate(alloc)?,
                parent: parent.duplicate(alloc)?,
                index: *index,
            }),
            Edit::SetAttr { path, name, value } => Ok(Edit::SetAttr {
                path: path.duplicate(alloc)?,
                name: name.duplicate(alloc)?,
                value: value.duplicate(alloc)?,
            }),
            Edit::UnsetAttr { path, name } => Ok(Edit::UnsetAttr {
                path: path.duplicate(alloc)?,
                name: name.duplicate(alloc)?,
            }),
            Edit::ReplaceSheet { text } => Ok(Edit::ReplaceSheet {
                text: text.duplicate(alloc)?,
            }),
        }
    }
}
