//! Why an element is numbered and marked as it is.
//!
//! What an author asks who finds a number that is not the expected one. For each property that makes generated texts the
//! account says where its value comes from: the place of the rule whose declaration wins, among the style rules of the user
//! agent's sheet or of the author's; a hint, that is an attribute of a list or list item; the `style` attribute; or that nothing is declared,
//! and the value is inherited or initial. Then it says which counters the element has, which box created each of them, and
//! their values. The format is our own:
//!
//! ```text
//! display agent 1
//! content initial
//! counter-reset initial
//! counter-increment author 0
//! counter-set initial
//! list-style-type inherited
//! quotes inherited
//! counter "list-item" / element 4
//! ```
//!
//! What goes in is an `Engine` (`marker_engine`), which has the counters already, and the path of an element.
//! [`explain::explain`] finds the sources anew (`style_sources`), since nothing is kept of what the cascade weighed, and
//! puts the lines to a sink.
//!
//! The layer above knows these bytes by one word of `specs/`: `account sheet tree path` (`specs/Accounts.antt`), which is
//! nothing where the path leads to no element. It stands on `value_source_at` of `style_sources`.
//!
//! ```text
//! let engine = Engine::start(alloc, tree, "li { counter-increment: list-item 2 }", steps)?;   // <ol><li/><li/></ol>
//! explain(alloc, &engine, &Path::of(alloc, &[1])?, out, steps)?;                              // the lines above
//! ```
#![tactic(auto)]

mod counters;
pub mod explain;
mod sources;
pub mod why_fault;
