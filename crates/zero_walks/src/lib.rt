//! What a walk with all starts 0 keeps of the elements of a document.
//!
//! Where a document has reversed counters that are given no number (CSS Lists 3, 4.4), an edit is walked twice: first with all
//! starts 0, and then with the starts that this gives (`start_reach`). Each of these walks goes only into elements that are
//! handed something else than before, so it compares with what the walk before it, with such starts, has kept. What the second
//! walk compares with stands on the board of a book. What the first one does is a [`zero_walks::ZeroWalks`]: of each element
//! what it is handed, and what is handed on behind its children, where all starts are 0.
//!
//! | Call | What it does |
//! |---|---|
//! | [`zero_walks::ZeroWalks::reserve`] | takes all memory that keys below a room need |
//! | [`zero_walks::walked_of`] | takes what is kept of elements from what a walk has told of them; this needs memory too |
//! | [`zero_walks::ZeroWalks::bring`] | brings what is kept from before an edit to after it: some elements go, and others come or are told otherwise; without memory |
//! | [`zero_walks::ZeroWalks::put_missing`] | keeps what is known of one element, where nothing is kept of it and there is room; without memory |
//! | `walked`, of the trait [`document_walk::snapshot::Snapshots`] | what is kept of one element, as `document_walk::catch_up` reads it: one step |
//! | [`zeros_over::ZerosOver`] | what is kept so over a board, as a walk reads it: of an element of which nothing is kept here, what the board keeps |
//!
//! So a caller takes all memory first, and what cannot fail comes last. Only reading is a step, of a [`steps::Steps`]: to
//! put what a walk found costs no more than to find it, and the walk's steps are counted.
//!
//! What is kept here need not be of each element: where nothing asks for a start, the board tells what would be kept, and so it does
//! of an element that is handed the same with all starts 0 as with the document's own. A walk reads both by a
//! [`zeros_over::ZerosOver`].
//!
//! # An example
//!
//! A document with two headings, and a key before each node:
//!
//! ```text
//! 0 body
//! 1   h2
//! 2   p
//! 3   h2
//! ```
//!
//! ```css
//! h2 { counter-reset: reversed(c) }
//! p { counter-increment: c -1 }
//! ```
//!
//! With all starts 0 each heading's counter is 0, and the paragraph makes it -1. The paragraph goes by `remove /1`: then the
//! second heading is handed another set by its sibling before it, with 0 for -1, and nothing else is.
//!
//! ```text
//! let mut zeros = ZeroWalks::new(alloc);
//! zeros.reserve(4)?;                                  // room for the keys 0 to 3
//! zeros.bring(&[], walked_of(alloc, &told)?);         // told by a walk over the whole document
//! // after the edit, which has these stops
//! let caught = catch_up(alloc, &sources, &zeros, stops, steps)?;
//! zeros.bring(&[2], walked_of(alloc, &caught.changes)?);
//! ```
//!
//! # What the layers above cite
//!
//! In contracts: `walked_of` (`specs/Told.antt`), `put_missing` (`specs/Missing.antt`), and `Records`, `put_all` and `take_all` of
//! `snapshot_board`. In proofs: the law
//! `KeepsWhatIsTold` (`specs/Laws.antt`) by `proofs/LawLemmas.antt`, which leads from what was told before an edit to what is
//! told after it, as `ChangesAreEnough` of `merged_walk` does for all that is told.
#![tactic(auto)]

pub mod laws;
#[cfg(test)]
mod tests;
pub mod zero_walks;
pub mod zeros_over;
