//! What content gives: the text of a box, up to what other elements decide.
//!
//! In goes a list of content items, as `content` has them (CSS Generated Content 3, 2), and the place where it
//! stands: the originating element's attributes, the quotes, the counters of the box and the quote depth.
//! [`eval_items::eval_items`] takes the items from left to right. Each gives one piece. Strings, attributes,
//! quotes and counters give characters; a target function gives itself, with its url looked up, since other
//! elements decide what it reads. Beside the pieces come the set and the depth as the items leave them: a
//! `counter()` of a name that has no counter creates one, and quotes change the depth.
//!
//! Once the other elements are known, [`texts`] turns the pieces into text. It has two layers, so that no
//! reference is circular: in a flat text `target-text()` of a `::before` or `::after` box writes nothing, in a
//! full text it writes that box's flat text. [`targets::Targets`] is what the caller tells of the elements that
//! urls name; [`laws`] has what the texts depend on.
//!
//! The layers above know this crate by `generated` of `specs/Contents.antt`, and by `Known`, `flat_text` and
//! `full_text` of `specs/Targets.antt`.
//!
//! ```text
//! // content: counter(s) ". " open-quote, in a box whose innermost counter `s` has the value 2
//! let made = eval_items(alloc, &table, &items, attrs, &Quotes::Auto, &place)?;
//! // the pieces "2", ". " and "“"; the same set; the depth is one more
//! let text = full_text(alloc, &table, &made.pieces, &targets)?;
//! // "2. “", whatever the targets are
//! ```
#![tactic(auto)]

mod attributes;
mod counters;
pub mod eval_items;
pub mod generated;
pub mod laws;
pub mod place;
pub mod targets;
pub mod texts;
