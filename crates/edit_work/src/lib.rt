//! How much of a document an edit touches: its work.
//!
//! The cost of an edit is measured by its work. Work is told by two documents, each with the text of its sheet, that
//! before the edit and that after it, and by their evaluations. It knows nothing of how the one evaluation is made from the
//! other, of walks or of what is kept between edits. So a bound by it says the same of whatever way there is.
//!
//! It has five points, each a list of elements by their keys. An element falls under a point where it
//!
//! - is at a place of the edit: in a tree that comes, goes, moves or is addressed, or where styles can change;
//! - has other inputs than before, or is the child of such an element;
//! - is in the scope of a reversed counter that is touched;
//! - is around a place: one of its ancestors, or of its preceding siblings back to the nearest that has a box;
//! - refers to what falls under one of these, or to what refers to that.
//!
//! Each element weighs 1, and 1 for each reference that it holds before the edit and after it. The work is the sum of
//! the weights: an element is counted each time that it falls under a point.
//!
//! | File of `specs/` | It says |
//! |---|---|
//! | `KeyedSources.antt` | a document and its sheet, its evaluations, and what its elements weigh |
//! | `Places.antt` | where an edit has its places, what stands there, and what is around them |
//! | `Inputs.antt` | which elements have other inputs than before |
//! | `Counters.antt` | which reversed counters are touched, and who is in their scope |
//! | `References.antt` | who refers to what is touched |
//! | `Work.antt` | the five points, the work, and the part of it that pays for walks |
//! | `Laws.antt` | that the work pays for the walk over the merge of an edit, and for a whole evaluation |
//! | `ReachedLaws.antt` | that it pays for the walk over the merge in which what the edit reaches goes and comes |
//!
//! The layer above knows this crate by `work edit before after` (`Work.antt`): it bounds the steps of an edit, by the laws
//! of [`laws`].
//! `docs/edit-work.md` works through six edits. The crate has no code.
#![tactic(auto)]

pub mod laws;
