//! What an edit makes of a document, as a merge, and the stops of the walk over it.
//!
//! A document before an edit and after it are the two forests of one merge (`edit_merge`), and a walk over that merge
//! goes to its stops alone. The laws of [`laws`] say so of each edit that a document allows; `IsDone` puts what is to
//! be known of the two documents into one record. [`stops`] makes the list of stops from the document as it is
//! before the edit, by the edit's paths: into each node above a place, and to the place. It looks at no other nodes
//! but the siblings behind a place, up to the first element.
//!
//! ```text
//! let mut stops = stops_of_edit(alloc, &arena, &edit)?;       // the edit is allowed
//! let prepared = arena.prepare(alloc, &edit)?;
//! let reversal = arena.commit(prepared);
//! name_inserted(&arena, &edit, &mut stops);                   // the key of an inserted root is known now
//! ```
//!
//! After these calls the stops are `edit_stops` of the edit, of `inserted_key` in the document after it and of the
//! document before it. By the law `EditsStop` they are the `stops_of` the merge, in tree order. The merge of another
//! sheet keeps all nodes: it has no stops, and its documents are to be evaluated whole.
//!
//! Where selectors see an edit from other nodes, these go and come again with all that is in them. [`nodes`] tells the
//! stops of one such node, or of two, by their paths: one that stands in the other has none of its own.
//!
//! # Examples
//!
//! All are edits of `<ol><li>a</li><li>b</li><li>c</li></ol>`, where the list has the key 0, and its items with their
//! texts have 1 and 2, 3 and 4, 5 and 6. Each stop is its depth, the link, the way and the element that tells what
//! is handed there. The lists were made by hand from the merges, and `proofs/Examples.antt` computes that the
//! definitions give them.
//!
//! | Edit | Stops |
//! |---|---|
//! | the item at `/1` goes | 0, 0, `Inside`, 0; 1, 5, `Past`, 3 |
//! | an item under the key 7 comes as the last one, index 3 of `/` | 0, 0, `Inside`, 0; 1, 7, `Anew`, none |
//! | an attribute of the item at `/1` is set | 0, 0, `Inside`, 0; 1, 3, `Past`, 3; 1, 3, `Anew`, 5 |
//! | an attribute of the list at `/` goes | 0, 0, `Past`, 0; 0, 0, `Anew`, none |
//! | the item at `/0` moves into that at `/2`, index 0 | 0, 0, `Inside`, 0; 1, 3, `Past`, 1; 1, 5, `Inside`, 5; 2, 1, `Anew`, none |
//! | the item at `/0` moves behind the next, index 1 of `/` | 0, 0, `Inside`, 0; 1, 3, `Past`, 1; 1, 1, `Anew`, 5 |
//! | another sheet comes | |
//!
//! The moves come from two lists each, of which the first stop is common: that of the node that goes, and that of the
//! node that comes. Behind the place in the item at `/2` there is a text, and no element: what is handed there is
//! told by the item itself.
//!
//! # What the layers above cite
//!
//! In contracts: `edit_merge`, `edit_stops`, `inserted_key`, `is_element`, `IsDone`, `stops_at_node` and
//! `stops_at_nodes`. In proofs: the laws, by the lemmas of `proofs/EditLaws.antt`, and `stops-named`, which joins them to
//! the contracts of [`stops`].
#![tactic(auto)]

mod joining;
pub mod laws;
pub mod nodes;
mod places;
pub mod stops;
