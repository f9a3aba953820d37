//! Which counters are in the set of a box, and with which value, told without the sets of other boxes.
//!
//! `box_eval` tells the counters of a box from those of its parent box, of its sibling box before it and of the
//! box just before in tree order, as CSS Lists 3, 4.4 does. A reader of the standard thinks in scopes instead. This
//! crate has no code to call. It holds that reading in `specs/`, and proves that both tell the same:
//!
//! | File | It tells |
//! |---|---|
//! | `specs/Boxes.antt` | the boxes of a document as one forest |
//! | `specs/Counting.antt` | what a box does to the counters of one name |
//! | `specs/Scopes.antt` | which boxes create counters of a name, and in whose scope a box is |
//! | `specs/Values.antt` | what boxes do to counters one after the other, and the value of a counter at a box |
//! | `specs/Laws.antt` | that the sets of boxes, and what is told of changes, are so |
//!
//! A box creates a counter of a name where it resets the name, or where it increments, sets or uses it and is in
//! the scope of no counter of the name. The scope of a counter is, of its creator and the creator's later sibling
//! boxes before the first of them that resets the name, these boxes and all under them. Markers, before and after
//! boxes are siblings of the boxes of an element's children. A marker resets nothing. An element without a box does
//! nothing to counters (CSS Lists 3, 4.5), and is among no siblings.
//!
//! The layers above know this crate by the contract of [`laws::scopes_and_values`]: by `creators_around`, the boxes
//! that created the counters of a box, by `changes_by`, what boxes do to counters, and by `counter_at`, such a
//! counter with its value at a box.
#![tactic(auto)]

pub mod laws;
