//! The two walks of an edit of a document with reversed counters.
//!
//! A reversed counter that is given no number starts with one that is told by all that boxes do to it in its scope (CSS Lists 3,
//! 4.4). So an edit can change the start of a counter that a box far from its place creates. Such an edit is walked twice: with
//! all starts 0, which tells what elements do to counters; and, once the starts are told again that this can change, with the
//! starts of the document. Each walk goes only into elements that are handed something else than before.
//!
//! What is kept of the document for this, beside its board, is a [`counting::Counting`]: an index of counters (`counter_index`), and
//! of what the first walk compares with what the board does not tell (`zero_walks`). Where a document asks for no start, with all
//! starts 0 it is told as with its own (`unasked_are_own` of [`laws`]): so nothing is kept beside the index, which is empty in a
//! document without reversed counters, and an edit is walked once, unless it begins to ask. An edit that begins to ask, or ceases to,
//! is no case of its own. [`counting::Counting::of`] makes what is to be kept of what a walk over the whole document tells with all
//! starts 0.
//!
//! [`twice::walk_twice`] walks an edit. Its parts:
//!
//! | Step | Call | What it does |
//! |---|---|---|
//! | the walk with all starts 0 | [`walk::turned_walk`], where no element is turned, over the zeros and the board | tells of each element that is handed something else, and of each that comes |
//! | the elements that go or come | [`moved::moved_keys`] | those that the edit takes out, and those that come at its stops |
//! | the index | [`turned::turn`] | exchanges what elements do, tells the starts again that can be other than before, and answers the elements that are turned: those that stay, and have other starts |
//! | all three | [`counted::first_walk`] | brings the index to the edited document |
//! | the walk with the starts, where a box asked for one before or asks now | [`second::second_walk`] | tells of each element that is handed something else, is turned or comes; with the stops that lead to the turned ones |
//! | where memory is wanting behind that | [`bring::take_back`] | takes the index back to what it kept, without memory |
//!
//! A walk of this kind goes over the merge of the edit in which elements are turned. What is known before, and what is told then, is
//! said with the starts that each of the two documents is evaluated with, whatever these are: so the first walk and the second are
//! both cases of `StandsTurned` (`specs/Walks.antt`).
//!
//! After `Memory` an index keeps what it kept, element by element (`KeepsTheSame`); only its room may have grown. What the first walk
//! compares with is read alone, but for its room: [`counting::Counting::settle`] brings it to the edited document when nothing can fail
//! any more. Where something fails before, [`counting::Counting::restore`] takes the index back.
//!
//! What a board keeps of an element changes where the second walk tells of it. If the first one tells nothing of it, and nothing is
//! kept of it here, then the board has had what the first walk compares with. So `settle` takes that from the element's change, and
//! keeps it here.
//!
//! ```text
//! let counting = Counting::of(alloc, arena, told)?;                  // `told` is that of a walk over the whole document, with all starts 0
//! // after an edit that takes these elements out, and has these stops
//! let twice = walk_twice(alloc, &document, &mut counting, &board, takes, stops, steps)?;
//! // the changes of the board by `twice.told`, which is of the document with its starts; where it fails: counting.restore(twice.back)
//! counting.settle(alloc, takes, twice.zeros, changes.as_mut_slice());
//! ```
//!
//! # What the layers above cite
//!
//! In contracts: `Counts`, `KeepsWalked` and `KeepsTheSame` (`specs/Countings.antt`); `CanWalkTwice`, `IsWalkedTwice` and
//! `IsWithinTwice` (`Twice.antt`); `Reads` and `Finds` (`Walks.antt`); `TakesBack` (`Exchanges.antt`); `IsWalked`, `TellsZeros` and
//! `without_were` (`Settled.antt`). In proofs: `UnaskedAreOwn` (`Laws.antt`) by `proofs/UnaskedLemmas.antt`, and what of changes stays
//! once what elements were handed before is moved out of them, by `proofs/SavedLemmas.antt`.
#![tactic(auto)]

pub mod bring;
pub mod counted;
pub mod counting;
pub mod laws;
pub mod moved;
mod room;
mod saved;
pub mod second;
mod starts;
pub mod turned;
pub mod twice;
pub mod walk;
mod zeros;
