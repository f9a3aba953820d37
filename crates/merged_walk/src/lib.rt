//! A document before and after an edit, read off one tree, and the walk over it that evaluates only what the edit
//! touches.
//!
//! This crate holds what is to be known of such a walk, whatever its nodes are labelled with, whatever the
//! evaluation hands from node to node, and whatever it keeps. Its code is the two types of [`stop`], which tell a
//! walk where to go.
//!
//! A `Merge` is two keyed forests in one, an old and a new one:
//!
//! | Node | Old forest | New forest |
//! |---|---|---|
//! | `Kept` | has the node | has the node; what is under it is merged |
//! | `Turned` | has the node | has it under another label; what is under it is merged |
//! | `Gone` | has the node and all under it | |
//! | `Come` | | has the node and all under it |
//!
//! Each node that isn't kept is a place. A removal makes one `Gone`, an insertion one `Come`, another label `Gone` and
//! `Come` of the same key, and a move a `Gone` here and a `Come` there. Where all comes there is no old document.
//!
//! A walk is *led into* the nodes that are turned, and into those that are kept and have a place under them: it has a stop
//! at each (`led_count`). The other stops are at trees that go or come, which `place_count` counts. It counts no turned
//! node: what is skipped behind one is paid for with the node itself, as behind each that is evaluated anew.
//!
//! An `Evaluator` hands something from node to node in tree order: to the first child of a node, and from behind its
//! children to the node after it. What it keeps of an element tells what the element was handed, and what was handed on
//! behind its children. So a walk needs no other memory of the old evaluation than what was kept of single elements:
//! where an element is handed what it was handed, nothing is other than before up to the next place of its level.
//!
//! `specs/` goes from the plain to the composed:
//!
//! | File | It says |
//! |---|---|
//! | `Merges.antt` | what a merge is, its two forests and its places |
//! | `Stops.antt` | the stops of a merge: its places, and the nodes above them, in tree order |
//! | `Evaluators.antt` | what an evaluation hands on, what it tells of elements, and what its calls ask for |
//! | `Entries.antt` | what a map holds of the told entries, and what it has once changes are put |
//! | `Counts.antt` | how much of a merge is evaluated, and how many steps are set aside for that |
//! | `Walks.antt` | where a walk stands, and what is known of it there |
//! | `WalkTurns.antt` | what a walk does at each turn |
//! | `Edits.antt` | the merge of each edit |
//! | `EditStops.antt` | the stops of each edit, told by paths in the tree before it |
//! | `TurnedNodes.antt` | the stops of a node more that is turned, put among those that are there |
//! | `Work.antt` | how much an edit touches, told without a merge |
//! | `Laws.antt` | that all this fits together |
//!
//! # An example
//!
//! The second item goes from `<ol><li>a</li><li>b</li><li>c</li></ol>`, that is the node at the path `/1`. With a key
//! behind each node:
//!
//! ```text
//! old forest        merge                     new forest
//! ol 0              Kept ol 0                 ol 0
//!   li 1              Kept li 1                 li 1
//!     a 2               Kept a 2                  a 2
//!   li 3              Gone li 3, b 4
//!     b 4
//!   li 5              Kept li 5                 li 5
//!     c 6               Kept c 6                  c 6
//! ```
//!
//! It has two stops. Both are told by the path alone, in the tree before the edit:
//!
//! | Depth | Link | Way | From | |
//! |---|---|---|---|---|
//! | 0 | 0 | `Inside` | 0 | the list has a place under it |
//! | 1 | 5 | `Past` | 3 | behind the item that goes item 5 is next; item 3 was handed what is handed there |
//!
//! The walk enters the list at its stop. Item 1 is handed what it was handed, so the walk skips to the next stop of
//! this depth: what is handed there is read off what was kept of item 3. There it passes the item that is gone.
//! Item 5 counts 2 now and counted 3, so it is evaluated anew. Then the list is left. The changes are what is kept
//! of item 5 and of the list, and the entry of item 3 is taken out.
//!
//! Two elements that stay are evaluated anew, none comes, and one tree goes, so the budget of the walk is
//! `9 * 2 + 6 * 0 + 2 * 1 + 2`, which is 22 steps. It takes 11: 4 for the list, which is styled, evaluated, closed
//! and put, 5 for item 5, which is read before, and 2 for the skip. The edit touches one element in the tree that
//! goes, the list above it, and item 5, which is handed something else. Where each key weighs 1 the work is 3, and
//! pays for `24 * (3 + 1)` steps.
//!
//! # What the layers above cite
//!
//! In contracts: `Merge`, `old_of`, `new_of`, `Evaluator`, `told_all`, `Covers`, `put_over`, `stops_of`, the stops
//! of each edit, `budget` and `work`. In proofs: the laws of [`laws`], by the lemmas of `proofs/LawLemmas.antt`; of
//! a walk that is written as a loop, that each turn keeps what is known of it and leaves less to walk
//! (`WalkLaws.antt`), that what is left can be opened and closed (`FitTurns.antt`), where it stands by its next
//! stop (`AtStops.antt`), and that what is kept tells what is handed there (`ToldLaws.antt`); of a loop along a
//! path, its stops step by step (`WayLaws.antt`).
#![tactic(auto)]

pub mod laws;
pub mod stop;
