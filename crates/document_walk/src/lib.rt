//! The evaluation of a document (CSS Lists 3, 4, and CSS Generated Content 3, 1 to 3), whole or from the places of an
//! edit.
//!
//! In go a document in an [`node_arena::arena::Arena`], the sheets of the user agent and of the author, the
//! author's counter styles, and the starts of reversed counters, as [`box_eval::starts::Starts`]: together the
//! [`sources::Sources`]. There are three calls of one walk:
//!
//! | Call | Out comes |
//! |---|---|
//! | [`evaluate::evaluate`] | of each element what is said of it, what it was handed and hands on, its starts and what its own box does to counters; what all boxes do to counters; and whether one asks for the start of a reversed counter |
//! | [`evaluate::tell_all`] | of each element the same, and no more |
//! | [`catch_up::catch_up`] | the same of the elements that an edit touches |
//!
//! The walk goes from link to link, with the open elements on a stack (`walk`, `catching`). To open an element is to find
//! its style, to take the starts that its boxes need, and to evaluate its boxes up to its children (`element`). It is
//! left once its children are done: then come its after box and its record (`leaving`). What a box is handed by the
//! boxes before it is a `Surroundings` of the crate `surroundings`. Elements in an element without a box are neither
//! styled nor evaluated; texts are passed. What styles ask of positions among siblings is counted once for the children
//! of an element, since a walk's document does not change (`Siblings` of `selector_match`). Where changes of counters are wanted, they are collected when an element is opened,
//! and its after box's when it is left, so that they come in tree order (`collecting`).
//!
//! The walk evaluates what differs since an edit, and no more. It goes from stop to stop, as `merged_walk` has them: to
//! the trees that come, past those that are gone, and into each element that has such a place in it. An element that
//! stays is compared: where it is handed what it was handed, nothing up to the next stop of its level is other than it
//! was, so the walk goes there (`turning`). What an element was handed is read off what the layer above has kept
//! ([`snapshot::Snapshots`]), a step a look: a board of its records, each a [`snapshot::Snapshot`], or what else tells it
//! by the elements' keys. The way up needs no code of its own: behind an element that was evaluated the next sibling is
//! compared like any other. A whole document is an edit like others: its one stop is the root, which comes with all in it,
//! so nothing is compared, and the board is empty.
//!
//! The layer above knows the calls by `specs/CatchingUp.antt`: by `told_all` of the evaluator of `surroundings`, by the
//! `Merge` of `merged_walk` that has the document before and after the edit, and by its `budget`. What boxes do to counters
//! is `all_changes` of `box_eval`, which recurses on the tree and knows nothing of keys, links and stacks; a whole document's
//! steps are bounded by `element_count` of `specs/Elements.antt`. What is made of an element is in `specs/Walking.antt`,
//! what a turn does in `specs/Catching.antt`, what trees do to counters in `specs/TreeChanges.antt`, and where a walk stands
//! in the merge in `specs/Machinery/Standing.antt`.
//!
//! ```text
//! let sources = Sources { arena: &arena, agent: &agent, author: &author, table: &table, starts: &NoStarts };
//! let evaluated = evaluate(alloc, &sources, steps)?;
//! evaluated.told       // of each element, in the order in which they are left: the last is the root
//! evaluated.changes    // in tree order; the starts of reversed counters are told by them
//!
//! let caught = catch_up(alloc, &sources, &board, stops, steps)?;
//! caught.changes       // of each element that was evaluated, with its key
//! ```
#![tactic(auto)]

pub mod catch_up;
mod catching;
mod collecting;
mod element;
pub mod evaluate;
mod leaving;
mod opened;
pub mod snapshot;
pub mod sources;
mod turning;
mod walk;
