//! The merge of a document before and after an edit, with the styles and the starts of its elements.
//!
//! A walk that evaluates only what an edit touches goes over styled nodes, and an edit is one of nodes without styles.
//! This crate is what lies between: it says what becomes of the merge of an edit once its elements have their styles,
//! and that the two forests of it are then the two styled documents. Most of its functions are laws. [`stops`] tells the
//! walk where to go.
//!
//! | In | Out |
//! |---|---|
//! | a merge of nodes, the styles and starts before and after | a merge of styled nodes: `styled_merge old new was_start start parent merge` |
//! | the merge of an edit, and which elements selectors may see it from | the merge where these go and come: `reached_merge features edit old new` |
//! | the document before an edit, the edit and its reach | the stops of that merge: `reach_stops extent edit key old` |
//!
//! In a styled merge an element that is kept or goes has the styles and starts of before, one that comes those of
//! after, and one that is turned has both. What is known of it:
//!
//! * Its old forest is the old one, styled as before. Its new forest is the new one, styled as after, where each
//!   element that is kept has the same styles and starts in both. [`laws::merges_are_styled`]
//! * A walk stops at the same places of it as of the merge without styles, and finds as many elements there.
//! * What the merge of an edit keeps stands outside of the edited trees and of what the edit reaches, once the latter
//!   goes and comes: so it has the same styles before and after. [`laws::kept_elements_keep_their_styles`]
//! * Where an edit reaches no more than the edited trees, nothing else goes and comes.
//!   [`laws::edits_without_reach_keep_styles`]
//! * Where an edit reaches nodes, its places stand in these. So the stops are at these, told by the document before alone:
//!   no key of an inserted tree is among them. Else they are at the edit's own places, and the key of an inserted root is
//!   put in once it is known. [`laws::reached_merges_are_walkable`]
//!
//! # An example
//!
//! The first item gets an attribute in `<ol><li>a</li><li>b</li></ol>`, under a sheet with `li + li`. Selectors look at
//! siblings, so the edit reaches the list. In the merge of the edit the list and its second item are kept, and the first
//! item goes and comes. But the second item can have another style now. In the merge of what is reached the list goes
//! and comes, and all in it. Under a sheet without such a selector the second merge is the first, and the second item
//! keeps its style.
//!
//! # An example of stops
//!
//! An item comes as the last one of the first list, under a sheet with `li:last-child`:
//!
//! ```text
//! <body><ol><li/><li/></ol><ol><li/></ol></body>     body 0, ol 1 with li 2 and 3, ol 4 with li 5
//! insert /0 2 <li/>
//! ```
//!
//! Selectors look at positions, so the list 1 is reached, and it goes and comes:
//!
//! | Depth | Link | Way | From | |
//! |---|---|---|---|---|
//! | 0 | 0 | `Inside` | 0 | the body has a place under it |
//! | 1 | 1 | `Past` | 1 | the list goes |
//! | 1 | 1 | `Anew` | 4 | and comes again, with the new item in it; the next list was handed what is handed behind it |
//!
//! Under a sheet without such a selector the walk goes into the list, and the item alone comes, under its key 6:
//!
//! | Depth | Link | Way | From |
//! |---|---|---|---|
//! | 0 | 0 | `Inside` | 0 |
//! | 1 | 1 | `Inside` | 1 |
//! | 2 | 6 | `Anew` | none |
//!
//! Where the first item moves into the second list (`move /0/0 /1 0`), both lists are reached, each with two stops. Where
//! it moves behind them (`move /0/0 / 2`), the body is reached too, and the list goes and comes with it. These lists were
//! made by hand, and `proofs/Examples.antt` computes that the definitions give them.
//!
//! ```text
//! let extent = reach(&arena, all_features(&agent, &author), &edit);
//! let mut stops = stops_of_reach(alloc, &arena, &edit, extent)?;      // the edit is allowed
//! let prepared = arena.prepare(alloc, &edit)?;
//! let reversal = arena.commit(prepared);
//! name_inserted_root(&arena, &edit, extent, &mut stops);                     // the key of an inserted root is known now
//! ```
//!
//! # What the layers above cite
//!
//! In contracts: `styled_merge` (`specs/StyledMerges.antt`), `OfEachKept` and `HasSameStarts` (`Stays.antt`),
//! `reached_merge` (`Reached.antt`), `reach_stops` (`ReachStops.antt`), `IsWalkable` (`StopLaws.antt`), `AreStyledBy`,
//! `HasShape`, `style_beside` and `looks_beside` (`Laws.antt`). In proofs: the laws of [`laws`], by the lemmas of
//! `proofs/LawLemmas.antt` and `proofs/StopLemmas.antt`.
#![tactic(auto)]

pub mod laws;
pub mod stops;
