//! Documents with their generated texts written into them.
//!
//! What is put into a document, and which text comes of it, the crate `bake_definitions` says. [`put_baked`] writes the
//! text of a document with the texts that are to be put into it. They come from a
//! [`TagInsertions`](tag_insertions::TagInsertions), a walk over the document's tags; so nothing here knows a style sheet.
//! [`put_insertion`] writes one such text, as an element of its own, and [`span_taking`] says into which elements one may be
//! put. What finds no place is left out, and counted.
//!
//! [`laws`] says what is true of all baked texts: a document bakes to one text, that text is a document again, its tree
//! is the baked tree, and the text has grown by insertions alone, but for the tags that were opened. Without the insertions
//! the tree is that of the document again, where no element of its own could be one of them. No character is lost, and no
//! insertion but those that are counted.
//!
//! The form is this project's own: a `span` with the prefix of the element that it is put into, and with one class,
//! `baked-marker`, `baked-before` or `baked-after` (`baked-element` would be that of a text of the element itself, which has
//! none that is generated). `&`, `<`, `>` and the carriage return are written by references (XML
//! 1.0, 2.4 and 2.11), characters that no document can have as U+FFFD, all others as they are.
//!
//! ```
//! // puts `<span class="baked-marker">1. </span>`
//! put_insertion("li", BoxKind::Marker, "1. ", out)?;
//! ```
#![tactic(auto)]

pub mod laws;
pub mod put_baked;
pub mod put_insertion;
mod put_items;
pub mod span_taking;
mod splitting;
pub mod tag_insertions;
