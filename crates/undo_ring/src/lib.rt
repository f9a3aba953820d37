//! A document under its sheet whose last edits can be undone, and redone.
//!
//! A [`history::History`] keeps an `Engine` (`marker_engine`) and, for each of its last edits, the edit that undoes it
//! (`edit_inverses`): no copies of documents. So a step back is an edit as any other, with the cost of one. What is undone is
//! kept to be redone, until another edit is done.
//!
//! Of the versions of a document, which are the document and the text of its sheet, a history has the present one, the past,
//! which is the versions to which it can go back, the newest first, and the future, which is those to which it can go forth
//! again. All three are what contracts speak of (`specs/Histories.antt`):
//!
//! | Call | The present | The past | The future |
//! |---|---|---|---|
//! | `start` | what it is given | none | none |
//! | `apply` | what the edit makes of it | the version before, and then the past so far, cut to the depth | none |
//! | `undo` | the first of the past | the rest of it | the version before, and then the future so far |
//! | `redo` | the first of the future | the version before, and then the past so far | the rest of it |
//!
//! A version comes back the same in the sense of `same_documents`: an attribute that is set anew goes last, and nothing that is
//! generated depends on that order. Nodes that come back have new keys. An edit that is refused, and an undo or a redo
//! for which memory is wanting, leave the history as it was.
//!
//! The edits are kept in two rings of the kit's `circular_buffer`, which are made at the start, each with room for as many as
//! can be undone. So one more always has its place, and the oldest goes where the ring is full; only what an edit itself
//! holds (a removed tree, a former value) takes memory.
//!
//! ```text
//! let mut history = History::start(alloc, tree, "", 2, steps)?;        // <ol><li/><li/></ol>
//! history.apply(alloc, &Edit::Remove { path: first }, steps)?;         // <ol><li/></ol>
//! history.undo(alloc, steps)?;                                         // <ol><li/><li/></ol>
//! history.redo(alloc, steps)?;                                         // <ol><li/></ol>
//! history.redo(alloc, steps)                                           // Err(UndoFault::Nothing)
//! ```
#![tactic(auto)]

pub mod history;
pub mod laws;
mod taking;
pub mod undo_fault;
