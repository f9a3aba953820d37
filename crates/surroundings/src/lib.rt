//! What a box is handed by the boxes before it, and the evaluation of a document as what is handed from node to node.
//!
//! A [`surroundings::Surroundings`] is what an element's first box is handed (CSS Lists 3, 4.4): the counters of the
//! parent box, of the sibling box before and of the box just before in tree order, and the quote depth. Its methods
//! make what the evaluation of an element hands on:
//!
//! | Method | What it makes | Of what |
//! |---|---|---|
//! | [`surroundings::Surroundings::of_root`] | what the root is handed | |
//! | [`surroundings::Surroundings::inputs`] | the inputs of an element | what it is handed, its key and its starts |
//! | [`surroundings::Surroundings::inside`] | what its children are handed | its [`box_eval::entry::Entry`] |
//! | [`surroundings::Surroundings::behind`] | what is handed on behind it | what it is handed, its counters, its [`box_eval::entry::Closing`] |
//!
//! In an element without a box nothing is handed, and behind one the same is handed on as to it. So what is handed is
//! an `Option<Surroundings>`.
//!
//! A [`told::Told`] is what an evaluation keeps of an element: what it says of it, what the element was handed and what
//! was handed on behind its children ([`walked::Walked`]), the starts for which it asks, and what its own box does to
//! counters. So what is kept of single elements tells all that an evaluation handed on, and a walk that begins in the
//! middle of a document needs no more; and where two evaluations tell the same of an element, its boxes do the same to
//! counters. Sets share their lists, so to keep what was handed costs no list.
//!
//! The layers above know this crate by `styled_evaluator` of `specs/StyledEvaluators.antt`, an `Evaluator` of
//! `merged_walk`, and by `styled_asks`, what the calls that open and close an element ask for. `specs/MergedLevels.antt`
//! says what a walk asks of the levels of a merge. The laws of [`laws`] tie the evaluator to `box_eval`: what it says is
//! `evaluation`, what it hands is `all_inputs`, and each document with distinct keys fits. In proofs, layers cite
//! `proofs/Ties.antt`: what the methods make of an element is what the evaluator hands on.
//!
//! ```text
//! let handed = Surroundings::of_root(alloc)?;
//! let inputs = handed.inputs(alloc, key, starts)?;
//! let entry = eval_element(alloc, &table, &style, attrs, &inputs, steps)?;
//! let first = Surroundings::inside(alloc, &entry)?;
//! // .. the children: the first is handed `first`, and `last` is handed on behind them ..
//! let closing = close_element(alloc, &table, &style, attrs, &behind_children, steps)?;    // the inputs of `last`
//! let next = handed.behind(alloc, &entry.own, &closing)?;
//! // kept of the element: Walked { handed: Some(handed), behind: Some(last) }
//! ```
#![tactic(auto)]

pub mod laws;
pub mod surroundings;
#[cfg(test)]
mod tests;
pub mod told;
pub mod walked;
