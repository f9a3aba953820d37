//! The sets of counters that boxes have (CSS Lists 3, 4.4), and what is done to them.
//!
//! A `CounterSet` holds counters, the innermost of a name last. A box inherits its set from its parent, the
//! sibling before it and the box just before it; `counter-reset` instantiates counters in it,
//! `counter-increment` and `counter-set` change the innermost of a name, and `counter()` reads that. Sets share
//! lists: `share` hands out the same set again, over the same list, and so does `inherit` where a box inherits a set
//! that it was lent. So boxes that count nothing hold one list. What changes a set takes it, and copies a list that
//! others share once: then the list is the set's alone, and further changes are done in place. Where a counter keeps
//! its value, nothing is copied.
//!
//! A new counter takes the place of one that the box itself or an earlier sibling created. A `CounterSet`
//! knows no siblings. It looks into the parent's set: in the set of a box, the counters that the parent's set
//! lacks are those of the box and its earlier siblings.
//!
//! A box with many entries asks an `IndexedSet`, which finds the innermost counter of a name by a hash, and creates its
//! counters by `instantiate_all`. Both say the same as one entry after the other, in time linear in the entries.
//!
//! The layer above knows this crate by `inherited`, `instantiated`, `incremented`, `assigned` and `innermost`
//! of `specs/Sets.antt`.
//!
//! ```text
//! // <ol counter-reset="item"><li counter-increment="item">, where `outer` is the set of the `ol`'s parent
//! let list = CounterSet::inherit(alloc, &outer, None, Some(&outer))?.instantiate(alloc, &outer, item)?;
//! let first = CounterSet::inherit(alloc, &list, None, Some(&list))?.increment(alloc, &list, &name, 1, li)?;
//! // first.innermost("item") is the counter of the `ol`, with the value 1
//! ```
#![tactic(auto)]

pub mod by_name;
pub mod counter_set;
pub mod counters;
pub mod indexed_set;
mod inheriting;
mod instantiating;
#[cfg(test)]
mod tests;
