//! How far an edit reaches through the starts of reversed counters: which of them stay, and what is evaluated anew where
//! one does not.
//!
//! A reversed counter that is given no number starts with one that is told by what all boxes in its scope do to it (CSS Lists
//! 3, 4.4). So an edit can change the numbers of elements that stand before its place. A document is evaluated twice: with all
//! starts 0, which tells what boxes do to counters, and with the starts that this gives. An edit can be walked the same way:
//! a first walk with all starts 0 finds which counters are touched, their starts are told again, and a second walk with the
//! starts goes also to the elements whose starts are other than before. This crate holds what is to be known of the two walks;
//! which elements tell a start again is told in `scope_reading`. It has no code. Its functions are laws.
//!
//! | In | Out |
//! |---|---|
//! | the merge of an edit with all starts 0, and a counter | whether the edit leaves the counter alone: `LeavesAlone table counter handed was_handed merge` |
//! | the merge of an edit, and the keys of elements whose starts are other than before | the merge where these are turned: `turned_where is_element is_turned merge` |
//! | the stops of an edit, and these keys | the stops of that merge: `with_ways_to document keys stops` |
//!
//! A walk *goes into* an element that stays where a place of the edit is under it, or where it is handed something else than
//! before (`is_entered`). What is known:
//!
//! * A counter has the start that it had, where no tree that goes or comes does anything to it, and each element into which
//!   the first walk goes does the same to it as before. What an element does to another counter does not matter. So it is
//!   where what is kept of each element is compared by its key, and all that went is looked through (`AreCompared`).
//!   [`laws::starts_stay`]
//! * So has each counter that is created under an element into which the first walk does not go.
//! * To turn elements changes neither forest of a merge, and adds the stops on the way to each of them.
//!   [`laws::elements_are_turned`]
//! * Where those elements are turned that have other starts, the second merge has the two documents, each with its styles and
//!   starts, and a walk may go over it. An element has other starts only where one is other that its boxes ask for, so it is
//!   enough to look at what each element asks for. [`laws::second_merges_are_walkable`]
//! * Where the edit does not reach everywhere, the second walk goes into no more elements than there are above the places of
//!   the edit and among those whose inputs differ: an element that is turned has other starts, which are among its inputs, and
//!   the first walk goes into all that are above it. And the work of the edit pays for its places: for the elements that are
//!   above them, into which a walk is led, and for those that go and come. So it pays for both walks.
//!   [`laws::work_pays_for_both_walks`]
//!
//! # An example
//!
//! A document with two headings, and a key before each node:
//!
//! ```text
//! 0 body
//! 1   h2
//! 2   p
//! 3   p
//! 4   h2
//! 5   p
//! ```
//!
//! ```css
//! h2 { counter-reset: reversed(c) }
//! p { counter-increment: c -1 }
//! ```
//!
//! The first heading's counter starts with 3, the second one's with 2: the paragraphs have the numbers 2, 1 and 1. The second
//! paragraph goes: `remove /2`. With all starts 0, this is how the first walk finds the elements that stay:
//!
//! | Element | It is handed | The walk |
//! |---|---|---|
//! | 0 | the same, and has a place under it | goes into it |
//! | 1, 2 | the same | skips them |
//! | 4 | the first heading's counter with -1, and before with -2 | goes into it |
//! | 5 | the same: the second heading's counter takes the place of the first one's | skips it |
//!
//! The paragraph that goes did something to the first heading's counter: so this is told again, and starts with 2. It did
//! nothing to the second heading's, and neither do 0 and 4, before or after. So that has the start that it had, though no
//! paragraph behind it was looked at. In the second merge element 1 is turned. Its stop is put among those of the edit:
//!
//! | Depth | Link | Way | From | |
//! |---|---|---|---|---|
//! | 0 | 0 | `Inside` | 0 | the body has a place under it |
//! | 1 | 1 | `Inside` | 1 | the first heading has another start |
//! | 1 | 4 | `Past` | 3 | the paragraph that goes |
//!
//! The second walk goes into 0, 1 and 2, which now has the number 1. Element 4 is handed the first heading's counter with 1, as
//! before, so it is skipped. The work of this edit is 10: element 3 is placed, the inputs of 1, 2 and 4 differ, 1, 2, 3 and 4
//! are in the scope of the first heading's counter, and 0 and 2 are around the place. Without the four in a scope it is 6,
//! which pays for 168 steps: the budgets of the two walks are 22 and 31, and one element goes.
//! The stops are computed in `proofs/Examples.antt`.
//!
//! # What the layers above cite
//!
//! In contracts: `LeavesAlone` and `OfEachSkipped` (`specs/CounterChanges.antt`), `AreCompared` (`Deeds.antt`),
//! `turned_where`, `stays`, `way_to`, `with_ways_to` and `KeptHaveSameStarts` (`TurnedElements.antt`), `turned_merge` and
//! `second_merge` (`SecondMerges.antt`), `AreTurned` (`Laws.antt`). In proofs: the laws, by the lemmas of
//! `proofs/LawLemmas.antt`, `CounterLaws.antt`, `DeedLaws.antt`, `SkipLaws.antt`, `StartedLaws.antt`, `WayLaws.antt`,
//! `ClimbLaws.antt` and `WorkLemmas.antt`. Which elements tell a start again is said by the crate `scope_reading`.
#![tactic(auto)]

pub mod laws;
