//! The generated texts of a document under a style sheet: what they are, and what is kept of them.
//!
//! This crate says what all the others are for. `specs/` goes from a tree of nodes and the text of a sheet to the
//! lines of a dump, and knows nothing of how that is computed:
//!
//! | File | It says |
//! |---|---|
//! | `Documents.antt` | which styles and counter styles a document has under a sheet, and what its evaluation says of its elements |
//! | `References.antt` | which element an id names, and what is known of it |
//! | `StyleElements.antt` | which style elements a document has, and the sheet that they and the sheet's text make |
//! | `Entries.antt` | what is kept of an element: its counters, depths, and the texts of its boxes |
//! | `Lines.antt` | the lines of a dump, in tree order, and the dump |
//! | `Keyings.antt` | the same under other keys |
//! | `Laws.antt` | which keys the entries have, which elements have boxes, and that keys do not matter |
//!
//! The layers above know it by `fresh_dump sheet_text tree` (`Lines.antt`): the dump of a fresh evaluation of a document
//! and the text of its sheet. The sheets of its style elements come after that of this text.
//!
//! An [`entry::NodeEntry`] is what is kept of an element: each element of a document has one, and a text has none. Nodes
//! are named by keys, and whichever distinct keys they have, the texts are the same. Both are laws of [`laws`].
#![tactic(auto)]

pub mod entry;
pub mod laws;
