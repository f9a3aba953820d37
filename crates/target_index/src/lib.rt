//! Which elements hold an id, and which refer to one.
//!
//! An id is the value of an `id` attribute (DOM, 4.9); an element refers to an id by a url of its target functions
//! (CSS Generated Content 3, 2.6). The index keeps pairs of an id and the key of an element in an arena, each
//! pair once, and answers from them without a walk over the document: the first element in tree order that
//! holds an id, all that hold it, and all that refer to it. Ids are compared as written. The index knows
//! nothing of attributes and urls: its user says what changed.
//!
//! Changes come in two steps. [`index::Index::reserve_for`] takes all memory that they need and leaves the pairs
//! as they are; [`index::Index::commit`] makes them, takes none, and cannot fail. So a change of a document can be
//! given up until it is made; and also after that, where its way back was reserved behind it in the same call.
//!
//! The layer above knows this crate by `holders_of`, `references_of` and `IsFirstHolder` of
//! `specs/Holders.antt`, and by `holds_after_all`, `refers_after_all` and `AreReserved` of `specs/Changes.antt`.
//!
//! ```text
//! let mut changes = List::new(alloc);
//! changes.push(IndexChange::Hold { id: Text::from_str(alloc, "x")?, key: heading })?;
//! index.reserve_for(alloc, changes.as_slice())?;
//! index.commit(changes);
//! let target = index.first(&arena, "x");              // the heading, where no element before it has this id
//! ```
#![tactic(auto)]

pub mod change;
mod counts;
pub mod index;
mod pairs;
#[cfg(test)]
mod tests;
