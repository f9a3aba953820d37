//! Which elements tell the start of a reversed counter.
//!
//! A reversed counter that is given no number starts with one that is told by all that boxes do to it (CSS Lists 3, 4.4). Boxes
//! outside of its scope do nothing to it. So it is enough to read the elements in its scope: the one whose box creates the
//! counter, and the siblings behind it, each with all that is in it, up to the first sibling that the counter does not
//! reach. This crate says what is read, element by element, and that it tells the start. It has no code. Its functions are
//! laws.
//!
//! | The counter is created by | What is read |
//! |---|---|
//! | the element's own box | the element; its later siblings up to the first whose own set lacks the counter; the after box of its parent |
//! | its before box | that box; the element's children up to the first whose own set lacks the counter; its after box |
//! | its after box | that box alone |
//!
//! A sibling that has no box does nothing to counters, so it is passed with all that is in it. A sibling whose own set lacks the
//! counter hands it on to none: neither it nor any sibling behind it does anything to the counter. The after box of the
//! parent is the last sibling box, so it can still be in the scope. Of a before and an after box the law lets the after box of
//! the parent be read too, where it does nothing to the counter.
//!
//! What an element does can be kept of it, and so can what is handed on behind its children, where its own set is that of the
//! parent. So the start of a counter is told again after an edit by reading what is kept of the elements in its scope, in
//! tree order, and no more. [`laws::scopes_tell_starts`]
//!
//! # An example
//!
//! ```text
//! 0 body
//! 1   h2     counter-reset: reversed(c)
//! 2   p      counter-increment: c -1
//! 3   p      counter-increment: c -1
//! 4   h2     counter-reset: reversed(c)
//! 5   p      counter-increment: c -1
//! ```
//!
//! For the counter of the first heading 1, 2 and 3 are read, and then 4: the counter of the second heading takes the place of
//! the first one's in its own set, so it ends there. They do -1 and -1 to it, and it starts with 3. For the counter of the second
//! heading 4 and 5 are read. What the headings stand in is not looked at, but for the after box of the body, which is the last
//! box behind 5.
//!
//! # What the layers above cite
//!
//! In contracts: `scope_changes` (`specs/ScopeChanges.antt`). In proofs: the laws of [`laws`], by the lemmas of
//! `proofs/LawLemmas.antt` and `proofs/OwnSets.antt`.
#![tactic(auto)]

pub mod laws;
