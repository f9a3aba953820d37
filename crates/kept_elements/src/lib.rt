//! What is kept of the elements of a document, and made again where the texts of other elements change.
//!
//! Of an element a board of `snapshot_board` keeps its entry, what a walk reads that does not come to it, and the pieces of its
//! boxes where one of them has a url ([`kept::Kept`]). It is made from what the evaluation tells of the element
//! ([`node_texts`]); its texts can show what other elements have (CSS Generated Content 3, 2.6), and what is known of these is
//! handed in (`content_eval`'s `Targets`).
//!
//! After an edit a walk tells of the elements that it touches. [`renewed_texts::walked_entries`] finds those that refer to them
//! (`referring_elements`), and makes what comes to the board by all of them, without an evaluation of the document: an element
//! that refers to what changed has its pieces on the board, the flat texts of such a target are made again, and those of each
//! other target are read there.
//!
//! Of what the walk told, that is enough which can be told otherwise than before ([`news::news_of`]): an element that the walk had
//! no need to evaluate anew is left out. No board is asked for an element that the walk's merge enters, as for each that was not there
//! before (`PassedElementsStay` of `specs/News.antt`). The steps of `walked_entries` are within the weights of the elements that were
//! told and of those that refer to what the edit touches (`renewal_weight` of `specs/RenewalSteps.antt`), and no more than two an
//! element: one to read it, whether it refers or is referred to, and one to compare what comes with what is held.
//!
//! What comes to a board of an element tells, too, whether a box of the element shows another text than by what the board has
//! ([`kept_change::KeptChange`]): it is compared with that anyway. So who tells the lines that an edit changes need look at no
//! element of which only counters are other. And it tells what the element was handed before the change, which the board has no
//! more once the change has come to it: so who keeps something beside a board need not read the board once more.
//!
//! The layer above knows this crate by `kept_of`, `document_kept` and `evaluated_document` of `specs/Evaluations.antt`, by
//! `Renews` and `TellWere` of `specs/Changes.antt`: what comes to a board of which all that is to be kept is known; by `IsSomeWalk` of
//! `specs/Renewals.antt`: what a walk has told of a document that an edit made of another one; and by `AreNewsOf` of
//! `specs/News.antt`: which of that is enough.
//!
//! ```text
//! let caught = catch_up(alloc, &sources, &board, stops, steps)?;       // the index is brought to the edited document
//! let changes = walked_entries(alloc, arena, &index, &table, &stops, &former, caught.changes, &board, steps)?;
//! ```
#![tactic(auto)]

mod again;
pub mod by_key;
pub mod characters;
pub mod flat_texts;
mod held_elements;
pub mod kept;
pub mod kept_change;
pub mod laws;
pub mod news;
pub mod node_texts;
mod renewed_targets;
pub mod renewed_texts;
