//! How far an edit reaches through references: whose texts it can change, beside those of what it evaluates anew.
//!
//! `target-counter()`, `target-counters()` and `target-text()` write of another element, the target of an id. So an edit
//! can change the text of a box that stands nowhere near it. This crate says which elements these are, and that all
//! others keep what is kept of them. It has no code. Its functions are laws.
//!
//! They speak of two documents with what is said of their elements, whatever starts the reversed counters have
//! (`Evaluated`), of a merge that has the one before the edit and the one after it, and of the elements that are
//! *visited*: what is said of each other element is as before. An edit *changes* an element that is visited, comes, is
//! turned, or has a place of the edit under it.
//!
//! | Of the document after the edit | Word |
//! |---|---|
//! | an id has another target than before, or a changed one | `has_changed_target` |
//! | an element refers to such an id: its flat texts can be other ones, and its full texts | `refers` |
//! | the target of an id refers to one with a changed target | `has_referring_target` |
//! | an element refers to such an id: its full texts can be other ones | `refers_through` |
//! | an element is visited, or one of these two hold of it | `is_renewed` |
//!
//! There is no third step, since `target-text()` writes the flat text of a target's box, and flat texts rest on no others.
//! What is known:
//!
//! * An id has the same target as before where no node that goes or comes has it. [`laws::targets_stay`]
//! * A node that stays has the same characters under it where no place is.
//! * Of the target of an id that keeps it unchanged the same counters and characters are known, and the same flat texts where
//!   the target refers to no id with a changed one. [`laws::known_targets_agree`]
//! * So texts stay ([`laws::texts_stay`]), and so does what is kept of an element that is not renewed.
//!   [`laws::entries_stay`]
//! * The elements of which `refers` or `refers_through` holds weigh no more than the work of the edit says under
//!   "referring", where each changed element falls under another point. [`laws::work_pays_for_references`]
//! * A walk over the merge of an edit may pass an element that the merge does not enter, and that has the inputs which it
//!   had: the same is told of it. [`laws::passed_elements_stay`]
//! * So an element of which something else is told falls under a point of the edit's work. Changes that cover all that is
//!   told of the document after the edit lead from one to the other, and where each is told anew, the work pays for the
//!   elements that refer to what they change. [`laws::walks_lead`]
//!
//! # An example
//!
//! A document with three figures, and a key before each node:
//!
//! ```text
//! 0 body
//! 1   a id="r" href="#one"
//! 2   b
//! 3   i href="#three"
//! 4   figure id="one"
//! 5     "Frame"
//! 6   figure id="two"
//! 7   figure id="three"
//! ```
//!
//! ```css
//! body { counter-reset: fig }
//! figure { counter-increment: fig }
//! a::after, i::after { content: "Fig. " target-counter(attr(href), fig) }
//! b::after { content: "as in " target-text("#r", after) }
//! ```
//!
//! The first figure moves behind the second: `move /3 / 4`. In the merge of this edit it goes and comes, and the body has
//! both places under it; all else is kept. What is said differs for the figures 4 and 6 alone, which now have the
//! numbers 2 and 1. So these two are visited, and 0, 4 and 6 are changed; 5 is a text, and only elements are.
//!
//! | Id | Its target | What is known of it |
//! |---|---|---|
//! | `one` | 4 is changed: so is the target of the id | the number 2, before it 1 |
//! | `two` | 6 is changed: so is the target of the id | the number 1, before it 2. No element refers to it |
//! | `three` | 7 is not changed | the number 3, as before |
//! | `r` | 1 is not changed, but refers to an id with a changed target | the same counters and characters, but another text of its after box |
//!
//! | Element | Refers to | Its text |
//! |---|---|---|
//! | `a` 1 | `one`: `refers` holds | `Fig. 2`, before it `Fig. 1` |
//! | `b` 2 | `r`: `refers_through` holds | the flat text `as in `, as before; the full text `as in Fig. 2` |
//! | `i` 3 | `three`: neither holds | `Fig. 3`, as before |
//!
//! So 1, 2, 4 and 6 are renewed, and what is kept of 0, 3 and 7 is as before. Each of the elements 1 and 2 holds one
//! reference before the edit and one after it, and weighs 3. Under "referring" the work of the edit lists the same two.
//!
//! # What the layers above cite
//!
//! In contracts: `Evaluated`, `known_in`, `entries_in`, `has_changed_target`, `refers`, `has_referring_target` and
//! `refers_through` (`specs/ChangedTargets.antt`), `entered_elements` and `IsLeftAlone` (`MergedNodes.antt`), `LeadsBy`,
//! `KeepsTarget` and `is_renewed` (`Laws.antt`), `IsPassed` and `AreNews` (`ToldLaws.antt`), `elements_at_stops` (`MergedNodes.antt`). In proofs: the laws, by the lemmas of
//! `proofs/LawLemmas.antt`. The examples, with one more, are computed in `proofs/Examples.antt`.
#![tactic(auto)]

pub mod laws;
