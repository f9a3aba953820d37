//! The edit that undoes an edit.
//!
//! Each edit of a document and its sheet that is allowed has an inverse, which is an edit too. What the edit makes allows
//! its inverse, and the inverse makes of it the same document and the same sheet as before. The document is the same in the
//! sense of `same_documents`: an attribute that is set anew goes last.
//!
//! | The edit | Its inverse |
//! |---|---|
//! | inserts a fragment | removes it |
//! | removes a node | inserts that node, with all that was under it, at its place |
//! | moves a node | moves it back |
//! | sets or unsets an attribute | gives it its former value, or unsets it where it had none |
//! | replaces the sheet | replaces it by the former text |
//!
//! | File of `specs/` | It says |
//! |---|---|
//! | `Inverses.antt` | the inverse of an edit, `inverse_of edit document sheet`, by the document and the sheet before the edit |
//! | `Places.antt` | the position that a path has below a node, as the code finds it |
//! | `Versions.antt` | a document with its sheet, and to which versions edits lead one after the other |
//! | `Laws.antt` | that inverses are allowed and undo, and that inverses which are kept lead back version by version |
//!
//! A history of edits is a list of inverses, the newest first, and the versions that it keeps are those to which they
//! lead: after an edit the version before it, and then those that were kept before, each the same. So it is with edits
//! that are undone and kept to be redone. The functions of [`laws`] do nothing, and each contract is a law.
//!
//! [`inverse::inverse_of`] makes the inverse before the edit is done, from the document in its arena, and
//! [`subtree::tree_at`] copies the tree of a node, as an insertion takes it. Neither recurses, and want of memory is their
//! one free answer.
//!
//! ```text
//! <ol><li>a<ul/></li><li>b</li></ol>      move /1 /0/1 0     makes of it    <ol><li>a<ul><li>b</li></ul></li></ol>
//!                                         move /0/1/0 / 1    undoes that
//! <body><p/><ul><li/></ul></body>         move /1/0 / 0      makes of it    <body><li/><p/><ul/></body>
//!                                         move /0 /2 0       undoes that: by then the list stands one position further on
//! <p id="a" class="b"/>                   unset / id         makes of it    <p class="b"/>
//!                                         set / id a         undoes that, but for the order: <p class="b" id="a"/>
//! ```
#![tactic(auto)]

pub mod inverse;
pub mod laws;
mod place;
pub mod subtree;
