//! A document as lines of text, with its generated texts in place.
//!
//! What a reader hears of a page, where it is read aloud: the characters of its texts, and the texts of the marker, before
//! and after boxes where they stand. Elements such as `p` and `li` begin a line and end it; others stand in it. What is in
//! an element without a box is not there. In a line each run of blanks is one space, and there are none at its ends; what
//! is empty then is no line, and a line feed ends each other one. Blanks are the ASCII whitespace of Infra, 4.6; the
//! no-break space is none. The format is our own.
//!
//! What goes in is an `Engine` (`marker_engine`), which has the generated texts already. [`view::view`] goes over its
//! document once, and puts the lines to a sink as their texts and breaks come.
//!
//! The layer above knows these bytes by one word of `specs/`: `text_view sheet tree` (`specs/Views.antt`). It stands on
//! `lines` (`specs/Lines.antt`) and on the names of `specs/Breaks.antt`.
//!
//! ```text
//! let engine = Engine::start(alloc, tree, "", steps)?;    // <ol><li>a</li><li>b <q> c</q></li></ol>
//! view(alloc, &engine, out, steps)?;                      // the lines `1. a` and `2. b “ c”`
//! ```
#![tactic(auto)]

mod line_state;
mod line_writer;
mod names;
mod open_element;
#[cfg(test)]
mod tests;
pub mod view;
