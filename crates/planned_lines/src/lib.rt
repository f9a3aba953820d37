//! The lines of a dump that a planned edit changes.
//!
//! A `Book` of `dirty_walk` plans an edit before it does it. Between the two its document is the edited one, the plan has
//! what comes to be kept, and the book keeps what was there before. [`lines::changed_lines`] compares these, and tells the
//! `changed_lines` of the document before and after (crate `changed_lines`): exactly the boxes that show another text, in
//! tree order. Of all other elements the same is kept, by the law `plans_put_what_differs` of `dirty_walk`; so it looks at
//! none of them. The plan tells which of its elements show another text in a box. What the book keeps is looked up of these
//! alone, in one step each: of an element of which only counters are other nothing is.
//!
//! The layer above knows this crate by `changed_lines` and by `IsPlannedFrom` of `dirty_walk`.
//!
//! ```text
//! let plan = book.plan(alloc, &edit, steps)?;
//! let lines = changed_lines(alloc, &book, &plan, steps);
//! book.commit(plan, steps);
//! ```
#![tactic(auto)]

pub mod lines;
mod puts_by_key;
mod span;
