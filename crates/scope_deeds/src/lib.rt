//! The start of a reversed counter, told by what is kept of elements under their keys.
//!
//! A reversed counter that is given no number starts with one that is told by all that boxes do to it in its scope (CSS Lists
//! 3, 4.4). `scope_reading` says which elements are read for it, in a document whose evaluation is at hand. When an edit is planned
//! none is at hand: there is the tree of keys, and what was kept of each element under its key, of an evaluation with all starts 0.
//! This crate says what is to be kept of an element, and that the start is told by it. It has no code. Its functions are laws.
//!
//! | Of an element is kept | It tells |
//! |---|---|
//! | `own`: the counters of its own box, where it has one | which siblings are in a scope |
//! | `deeds.before_children`: what its own box and its before box do to counters | what is done to each counter |
//! | `deeds.after_children`: what its after box does | the same |
//!
//! Nothing is kept of a text. An element without a box has no own set and does nothing.
//!
//! What is read for a counter, where `kept` has this (`kept_scope kept creator name trees`):
//!
//! | The counter is created by | What is read |
//! |---|---|
//! | the element's own box, or its marker | all that is kept in the element; its later siblings up to the first whose own set lacks the counter |
//! | its before box | `before_children` of the element; its children up to the first whose own set lacks the counter; its `after_children` |
//! | its after box | its `after_children` |
//! | any of these | and last `after_children` of its parent |
//!
//! A sibling that has no own set is passed with all that is in it. Further in, `kept_changes` reads the elements in one without a box
//! too: nothing is found there, and code may leave them out. What was done to other counters is read along with the rest, as what the
//! own box of an element does before its before box creates the counter, or what the after box of the parent does where the counter
//! does not reach it: it is no event of this one. So what is read is not compared list by list with what `scope_reading` reads, but
//! by the events of the counter. [`laws::kept_scopes_tell_starts`]
//!
//! # An example
//!
//! ```text
//! 0 body
//! 1   h2     counter-reset: reversed(c)
//! 2   p      counter-increment: c -1
//! 3   p      counter-increment: c -1
//! 4   h2     counter-reset: reversed(c)
//! 5   p      counter-increment: c -1
//! ```
//!
//! | Key | `own` | `before_children` |
//! |---|---|---|
//! | 0 | no counter | |
//! | 1 | that of 1 | |
//! | 2 | that of 1 | -1 to that of 1 |
//! | 3 | that of 1 | -1 to that of 1 |
//! | 4 | that of 4 | |
//! | 5 | that of 4 | -1 to that of 4 |
//!
//! For the counter of the first heading 1 is read, then 2 and 3, whose own sets have it. That of 4 lacks it, so there the row
//! ends, and last comes what the after box of 0 does: there is none. Two events of -1 are read, and the counter starts with 3. Where
//! 3 goes, nothing else is to be done but to read 1, 2, the own set of 4 and `after_children` of 0 again: the counter starts with 2.
//!
//! An element with a before box that creates the counter, a text, and a child without a box:
//!
//! ```text
//! 1 div        div::before { content: ""; counter-reset: reversed(c) }  div::after { content: ""; counter-increment: c -1 }
//! 2   p        counter-increment: c -1
//! 3   (a text)
//! 4   p        display: none
//! 5     p      counter-increment: c -1
//! 6   p        counter-increment: c -1
//! ```
//!
//! What is read is that of 1 before its children, of 2, of 6, and of 1 after its children: the counter starts with 4. Nothing is
//! kept of 3, and 4 has no own set, so both are passed, and 5 with them. Were the counter created by the after box, that would be
//! read alone, since 1 has no parent. Each of these readings is computed in `proofs/Examples.antt`.
//!
//! # Elements that meet reversed counters
//!
//! Starts are asked for of reversed counters alone. So it is enough to keep the elements that meet one: a box of theirs has a reversed
//! counter in its set, or asks for the start of one (`meets_reversed`). A document without reversed counters has no such element, and
//! of it nothing is kept.
//!
//! Nothing is kept then of an element in a row whose own set lacks the counter, where its set has no other reversed one. So the row does
//! not end there, and more is read. What is read then is between what is read of the scope where all is kept, and all that is kept of the
//! document. These two have the same events of the counter, and so has what is between them.
//! [`laws::reversed_scopes_tell_starts`]
//!
//! In the first example all elements but the body are kept. Where the second heading has `counter-reset: c`, its set has no reversed
//! counter, so of 4 and 5 nothing is kept: both are passed, and what 5 does is done to another counter. The counter starts with 3 as before.
//!
//! # What the layers above cite
//!
//! In contracts: `Counting`, `own_set`, `counting_in` and `KeepsCounting` (`specs/Counting.antt`), `kept_changes`, `kept_row` and
//! `kept_scope` (`KeptScopes.antt`), `meets_reversed`, `counting_told` and `KeepsReversed` (`Reversed.antt`). In proofs: the laws of [`laws`], by the lemmas of `proofs/LawLemmas.antt` and `proofs/ReversedLemmas.antt`.
#![tactic(auto)]

pub mod laws;
