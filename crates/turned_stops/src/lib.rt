//! The stops that lead a walk into turned elements too, and which elements come with an edit.
//!
//! An edit of a document with reversed counters is walked twice: with all starts 0, and with the starts that this gives. A walk is
//! *led into* an element that stays by a stop: the element has a place of the edit under it, or is turned. The second walk is led
//! into the elements whose starts are other than before too: they are turned. What is to be known of the two walks is said in the
//! crate `start_reach`; this one makes the stops of the second, and tells which elements may be turned.
//!
//! | In | Out |
//! |---|---|
//! | the document after an edit, the edit's stops, and the keys of elements | [`ways::with_ways`]: the stops, with those on the ways to these elements |
//! | the document after an edit, the edit's stops, and a key | [`coming::is_coming`]: whether it is an element that comes |
//! | the document after an edit, and the edit's stops | [`coming::coming_keys`]: all elements that come |
//!
//! An element *comes* where it is in a tree that a stop evaluates anew: one that was inserted or moved, one whose root had an
//! attribute set or taken away, or one that the edit reaches; the last two go and come again. Each other element of the document after
//! the edit stays ([`laws::elements_stay_or_come`]), and may be turned. What comes is evaluated anew in either walk, whatever its
//! starts are.
//!
//! The way to an element is found by its parents. It is put in among the stops in one pass over them: the ways of several elements
//! share what they have in common, since a stop that stands already is not put in again.
//!
//! # An example
//!
//! A document with two headings, and a key before each node:
//!
//! ```text
//! 0 body
//! 1   h2
//! 2   p
//! 3   p
//! 4   h2
//! 5   p
//! ```
//!
//! ```css
//! h2 { counter-reset: reversed(c) }
//! p { counter-increment: c -1 }
//! ```
//!
//! The second paragraph goes: `remove /2`. The edit has two stops, and the first heading has another start than before:
//!
//! ```text
//! let keys = coming_keys(alloc, &arena, &stops)?;              // no element comes
//! let comes = is_coming(&arena, &stops, 1);                    // false: the heading stays, so it may be turned
//! let stops = with_ways(alloc, &arena, &[1], &stops)?;
//! ```
//!
//! The stops are then
//!
//! | Depth | Link | Way | From | |
//! |---|---|---|---|---|
//! | 0 | 0 | `Inside` | 0 | the body has a place under it; it is on the way to the heading too, and stands once |
//! | 1 | 1 | `Inside` | 1 | the first heading has another start |
//! | 1 | 4 | `Past` | 3 | the paragraph that goes |
//!
//! That they are the stops of the merge where the heading is turned is computed in `proofs/Examples.antt` of `start_reach`, and
//! `TurnedElementsStop`, a law of that crate, says it of each edit.
//!
//! # What the layers above cite
//!
//! In contracts: `coming_at_stops` (`specs/Coming.antt`), and `with_ways_to` of `start_reach`. In proofs: the law
//! `StaysIsNotComing` (`specs/Laws.antt`), by `proofs/LawLemmas.antt`.
#![tactic(auto)]

pub mod coming;
pub mod laws;
pub mod ways;
