//! What an edit does to the index of a document with reversed counters.
//!
//! An index of counters (`counter_index`) has what each element of a document does to counters, and the starts for which they ask
//! (CSS Lists 3, 4.4). An edit exchanges what is kept of the elements that it changes. Which starts are then to be told again is
//! found by looking at these elements alone: a counter is *untouched* where each of them does to it what it did, and where those that
//! go or come did nothing to it (`IsUntouched`). This crate says that this is enough, and what the walk is to be told that evaluates
//! the document with its starts. It has no code. Its functions are laws.
//!
//! | In | Out |
//! |---|---|
//! | the index before the edit, and after the exchange; the way back of the exchange; the elements that go or come | which counters have the start that they had |
//! | the starts of touched elements, told again and exchanged | the index of the document after the edit (`IsIndexOf`) |
//! | the way back of that exchange; the elements that come | the elements that are turned in the second merge of the edit (`turned_keys`) |
//!
//! What is known of an edit that does not reach everywhere:
//!
//! * A counter that is untouched has the start that it had. So the index is brought to the document after the edit where the starts of
//!   touched elements alone are told again. [`laws::untouched_starts_stay`]
//! * Each element in a tree that goes is taken out, or it comes again: in the document before the edit, but not after it; or in both. So
//!   those that are moved are those that are taken, and those that come. [`laws::gone_elements_are_moved`]
//! * An element that has other starts than before, asks for some and does not come, stays. Neither its style nor that its parent has a
//!   box has changed, so it asks for the same starts, and one of them has another value: its inputs differ. Each other element that stays
//!   has the starts that it had. That is what is asked of the elements that are turned (`AreTurned` of `start_reach`). An element that
//!   goes can have other starts too, none: it asks for none. [`laws::turned_elements_are_told`]
//! * An evaluation that asks the index for starts is that with the document's own ones. An element asks for those of its style where its
//!   parent has a box, and where that has none no box is created, and the start is 0, as the index says of each counter that it does
//!   not have. [`laws::starts_are_asked`]
//!
//! # An example
//!
//! That of `start_reach`, which `counter_index` has without its last paragraph. The second paragraph goes: `remove /2`.
//!
//! ```text
//! 0 body
//! 1   h2    counter-reset: reversed(c)
//! 2   p     counter-increment: c -1
//! 3   p     counter-increment: c -1
//! 4   h2    counter-reset: reversed(c)
//! 5   p     counter-increment: c -1
//! ```
//!
//! | | |
//! |---|---|
//! | moved | 3, which is taken; nothing comes |
//! | touched | 1, to whose counter 3 did something. To that of 4 no element that was exchanged does anything |
//! | told again | the start of 1 is 2, and before it was 3. That of 4 is 2, as it was |
//! | turned | 1 |
//!
//! # What the layers above cite
//!
//! In contracts: `HasDeeds`, `HasStarts`, `IsIndexOf`, `IsBrought`, `WereExchanged` and `turned_keys` (`specs/Laws.antt`). In proofs:
//! the laws, by `proofs/LawLemmas.antt`, `MovedLemmas.antt`, `TurnedLemmas.antt` and `AskedLemmas.antt`.
#![tactic(auto)]

pub mod laws;
