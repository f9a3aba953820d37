//! One element's boxes: their counters and texts.
//!
//! In goes a table of counter styles, the element's style and attributes, and its [`inputs::Inputs`]: what the
//! boxes before it hand on. The evaluation comes in two calls, one on each side of the element's children,
//! whose boxes stand between its before box and its after box (CSS Lists 3, 4.4):
//!
//! | Call | It gives |
//! |---|---|
//! | [`element::eval_element`] | an [`entry::Entry`]: the counters of the element's own box, its marker and its before box, the quote depth behind them |
//! | [`element::close_element`] | an [`entry::Closing`]: its after box, the counters and the quote depth with which it is left |
//!
//! A box of a pseudo-element is a [`made::Made`]: its counters and the pieces of its text. What a box does to
//! counters it increments or sets is told as well, as [`change::Change`]s: the starts of reversed counters rest
//! on them. Who evaluates a document asks a [`starts::Starts`] for these, by [`starts::element_starts`]:
//! [`starts::NoStarts`] first, to learn the document's changes, and then, where a box asks for a start, the
//! [`changed_starts::ChangedStarts`] of these changes.
//!
//! The layers above know this crate by `entry_of` and `closing_of` of `specs/Elements.antt`, and by `records`,
//! `changes`, `box_changes` and `inputs` of `specs/Evaluation.antt`, which are the evaluation of a whole document. A box
//! replaces counters that it or a sibling box before it created. No call is handed a list of these boxes, since
//! the parent's set tells the same. That is a law of [`laws`]; another is that the starts of reversed counters
//! change nothing of what each box does to counters, so that they can be read off it; a third, that where no box
//! creates a reversed counter without a number they change nothing at all.
//!
//! ```text
//! let entry = eval_element(alloc, &table, &style, attrs, &inputs, steps)?;
//! // .. the children, the first of which is handed entry's last set and depth ..
//! let closing = close_element(alloc, &table, &style, attrs, &behind, steps)?;
//! ```
#![tactic(auto)]

mod box_starts;
pub mod boxes;
pub mod change;
pub mod changed_starts;
mod counter_id;
mod counting;
mod counting_many;
pub mod element;
pub mod element_record;
pub mod entry;
mod formed;
pub mod inputs;
pub mod laws;
pub mod made;
mod numbers;
mod ops;
pub mod starts;
