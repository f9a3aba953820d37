//! The index of a document: what its elements do to counters, and the starts of the reversed counters for which they ask.
//!
//! A reversed counter that is given no number starts with one that is told by all that boxes do to it in its scope (CSS Lists 3,
//! 4.4). So an edit at one place can change the start of a counter that a box far from it creates. The index keeps of each element
//! that meets a reversed counter what it does to counters, as it is told where all starts are 0, since these are not changed by any
//! start. An element meets one where the set of a box of it has one, or a box of it asks for the start of one: no other element does
//! anything to a counter for which one asks. So the index of a document without reversed counters is empty. An edit exchanges what is
//! kept of the elements that it changes, and the starts that can be other now are told again by what is kept.
//!
//! | In an [`index::CounterIndex`] stands under the key of an element | as |
//! |---|---|
//! | the counters of its own box, the starts for which its boxes ask, and what they do to counters | [`deeds::CounterDeeds`] |
//! | the starts for which its boxes ask, each with its value | a list of `Start` |
//!
//! An edit of a document takes these steps:
//!
//! | Step | Call | It takes |
//! |---|---|---|
//! | the deeds of the elements that change, come and go, as a walk with all starts 0 tells of them | [`deeds::told_exchange`] | memory for what they do; it shares sets |
//! | room for the keys of those of which something is kept | `reserve` | memory for a key |
//! | these deeds | `exchange` | no memory; time in these elements |
//! | which elements' starts can be other now | `touched` | time in the square of what each exchanged element does and did, and in what each other one does |
//! | their starts, told by the scopes of their counters | `tell` | time in the nodes of these scopes |
//! | these starts | `exchange_starts` | no memory |
//! | which elements have other starts now | `with_other_starts` | time in these starts |
//!
//! An exchange leaves in the entries what was there before, so the same entries are its way back (`restore`,
//! `restore_starts`), and a way back cannot fail. A key may come several times in an exchange: the last entry counts, and on the
//! way back the first.
//!
//! An index is a [`Starts`](box_eval::starts::Starts): a walk asks it for the start of each counter that a box creates.
//!
//! # An example
//!
//! ```text
//! 0 body
//! 1   h2    counter-reset: reversed(c)
//! 2   p     counter-increment: c -1
//! 3   p     counter-increment: c -1
//! 4   h2    counter-reset: reversed(c)
//! ```
//!
//! The second paragraph goes. A walk with all starts 0 tells of 4, which is handed another set by its sibling before it, and of
//! 0, in which the paragraph was; both do what they did.
//!
//! ```text
//! let mut entries = told_exchange(alloc, &[3], &told)?;          // 3 goes; of 4 and 0 it is told again
//! index.exchange(&mut entries);                                  // the first entry has now what 3 did: -1 to the counter of 1
//! let keys = index.touched(alloc, &entries, &[3])?;              // 1: its counter was changed by 3
//! let mut starts = index.tell(alloc, &arena, keys.as_slice())?;  // 1: c starts with 2
//! index.exchange_starts(&mut starts);                            // the entry has now the start of before, 3
//! let other = index.with_other_starts(alloc, &starts)?;          // 1
//! ```
//!
//! Read were what 1 and 2 do, the own set of 4, which has another counter, so that the scope ends there, and what the after box
//! of 0 does. The start of 4 stays as it is, and nothing behind it is read.
//!
//! # What the layers above cite
//!
//! In contracts: `IsCounterIndex` with its parts `KeepsDeeds` and `KeepsStarts`, and `all_deeds` (`specs/Documents.antt`); `deeds_at`, `asked_at`,
//! `starts_at`, `value_at` and `counting_at` (`Indexes.antt`); `deeds_kept`, `told_exchange` and `TellsWithoutStarts`
//! (`Told.antt`); `after_exchange`, `restored` and `IsWayBack` (`Exchanges.antt`); `IsUntouched` and `AreTouched`
//! (`Touched.antt`); `told_entries` and `other_keys` (`Retold.antt`). What ties them to a document are the laws of [`laws`]; in
//! proofs, by `proofs/IndexLemmas.antt`, `PutLemmas.antt` and `ToldLemmas.antt`.
#![tactic(auto)]

mod asks;
pub mod deeds;
mod events;
pub mod index;
pub mod keys;
pub mod laws;
mod scope;
mod slots;
pub mod telling;
#[cfg(test)]
mod tests;
pub mod touched;
mod values;
