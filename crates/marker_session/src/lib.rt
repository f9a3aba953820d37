//! Documents that are open in another program: an editor with live numbers, a tool for e-books, a reading device.
//!
//! A [`session::Session`] is one document under its sheet. It is opened from two texts, edited by lines of a script, and
//! tells after each edit which lines of its dump are others now. It keeps two things beside the document: a list of lines,
//! which is of all lines after it was opened and of the changed ones after an edit, and the last dump that was asked for.
//! Who asks twice gets the same, and a call that is refused changes nothing.
//!
//! A line is read as a script of one command (`edit_script`). A session has no files, so the command `sheet FILE` is a bad
//! line here, and the sheet is replaced by a call of its own; `show` is no edit. Where memory is wanting for the list of an
//! edit alone, the edit is done and the list is empty: the answer is then [`listing::Listing::Unlisted`].
//!
//! The layer above knows this crate by `OpenDocument`, `all_lines` and `listed_after` (`specs/Sessions.antt`), and by
//! `IsLine`, `DoesLine` and `IsLineFault` (`specs/Lines.antt`), beside `changed_lines` of the crate of that name.
//!
//! ```text
//! let mut session = Session::open(alloc, "<ol><li/><li/></ol>", "", steps)?;    // /0 marker "1. "; /1 marker "2. "
//! session.apply(alloc, "insert / 0 <li/>", steps)?;
//! session.listed();                                     // /0 marker "1. "; /1 marker "2. "; /2 marker "3. "
//! ```
#![tactic(auto)]

mod heap_sink;
pub mod laws;
mod line;
pub mod line_fault;
mod lines;
pub mod listing;
pub mod session;
#[cfg(test)]
mod tests;
