//! Documents and the items that they are made of, as tables of tests.
//!
//! | Module | Its rows |
//! |---|---|
//! | `item_rows` | texts, with the item at their front; runs of plain characters |
//! | `reader_rows` | documents and fragments, with their trees or the place of the fault; names; messages; a deep one |
//!
//! What is expected is worked out by hand. The rows stand here, above xhtml_items and xhtml_reader, so that those are
//! proved once.
#![tactic(auto)]

#[cfg(test)]
mod item_rows;
#[cfg(test)]
mod reader_rows;
