//! Which elements a selector matches (Selectors 4).
//!
//! The floor between documents and the cascade: [`matching::matches`] takes a document in an `Arena`, as
//! [`siblings::Siblings`] has it, the key of one of its nodes and a `Selector` of `plain_types`, and tells whether
//! the node is an element that the selector matches. The pseudo-element of the selector does not count here. A
//! selector that no sheet gives, because its combinators are not one less than its compounds, matches nothing.
//!
//! The layer above knows it by the word `matches tree key selector` (`specs/Matching.antt`), which rests on
//! `matches_complex selector standing`. A `Standing` is what a selector sees of an element: the element with
//! its element siblings before and after it, and its ancestors, each among its own siblings
//! (`specs/Elements.antt`). It knows nothing of keys, so a definition over whole trees can pass it down.
//!
//! Positions among siblings are counted where a selector asks for one (`element`). A count that was missing is noted,
//! and [`siblings::Siblings::keep`] then counts for all children of the same element at once (`counting`), and keeps it
//! (`kept`): so a walk over a document pays for the children of an element once, and not once for each child.
//!
//! Matching does not recurse on the document; recursion follows `:is()`, `:where()` and
//! `:not()` alone. At a descendant or subsequent-sibling combinator the nearest element is taken from which
//! the nearer combinators before it hold, and no other is ever tried again: no other could do better, which
//! `proofs/ChainLaws.antt` proves. So each element of a chain is looked at once.
//!
//! What comes of the compounds before such a combinator at an element is kept too, once many elements were passed by in
//! vain (`outcomes`), by the same walk from the topmost element down (`filling`). A selector is known again by a copy of it
//! (`copies`), which is found by a number (`fingerprint`) and compared (`same`).
//!
//! ```text
//! let selector = ..;                                  // ol > li:first-child
//! let mut siblings = Siblings::new(alloc, &arena);
//! let first = matches(&siblings, key, &selector);
//! siblings.keep(alloc, key);                          // the next sibling's position takes constant time
//! ```
#![tactic(auto)]

mod attributes;
mod case;
mod compounds;
mod copies;
mod counting;
mod element;
mod filling;
mod fingerprint;
mod kept;
pub mod matching;
mod neighbours;
mod outcomes;
mod positions;
mod same;
pub mod siblings;
mod side;
#[cfg(test)]
mod tests;
