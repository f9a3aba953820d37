//! The lines of a dump that an edit changes.
//!
//! Who shows the generated texts of a document in a place of his own, an editor or a reading device, wants after an edit
//! only those that are others now. This crate says which these are, by what is kept of each element before the edit and
//! after it. A node that stays keeps its key, and one that comes has a key that no node had; so a key that is in both
//! documents names one element.
//!
//! | File of `specs/` | It says |
//! |---|---|
//! | `ShownTexts.antt` | which text an element shows in a box |
//! | `Changes.antt` | which lines an edit changes |
//! | `Replays.antt` | which text a box has once changed lines are put in |
//! | `Dumps.antt` | where the lines of a dump stand once an edit has moved their elements, and the lines with the changed ones put in |
//! | `Listings.antt` | in which order all lines of a document are told, where nothing of it was shown before |
//! | `Laws.antt` | that the lines with the changed ones put in are the dump after the edit; that only elements of which something else is kept need be looked at; and that all lines are those of the dump |
//!
//! The layers above know it by `changed_lines` (`Changes.antt`). A [`changed_line::ChangedLine`] has the place of its
//! element in the document after the edit, the kind of its box and the text that it shows now, or none where the box is
//! gone and the element stays. Of an element that went there is no line.
//!
//! ```text
//! let mut lines = Vec::new(alloc);
//! push_lines(alloc, arena, key, Some(&before), Some(&after), &mut lines)?;    // /0/2 marker "3. "
//! ```
#![tactic(auto)]

pub mod changed_line;
pub mod element_lines;
pub mod laws;
