//! Scripts of edits, and documents that are made up with edits of them. Both are our own.
//!
//! [`read_script`] reads a script: from a text to its commands, each with the number of its line, or to the
//! number of the first line that is neither skipped nor a command. A line is a keyword and its operands, with
//! one space between two words; the last operand of `insert`, `set`, `sheet` and `in` is the rest of the line as it
//! stands. A script is read before anything is done: whether an edit has its place, and whether a file is
//! there, only the run of the script tells. [`read_history_script`] reads a script that may have the lines `undo`
//! and `redo` besides, and [`read_book_script`] one that may have lines `in NAME` besides; in a script of edits these are
//! bad lines.
//!
//! The layer above knows this by `IsScript kind text commands`, that the text is a script of this kind and these
//! commands, and `FailsAsScript kind text number`, that it is none and its first bad line has this number
//! (`specs/Scripts.antt`); `IsEditCommand`, `IsHistoryCommand` and `IsBookCommand line action` have the form of each
//! command. [`laws`] says that each text reads in one way, and in one only, and which commands only one kind of script
//! has.
//!
//! ```text
//! let commands = read_script(alloc, "set /0 class x\n\nshow\n")?;    // two commands, of lines 1 and 3
//! let fault = read_script(alloc, "show\nremove 0\n");                 // BadLine { number: 2 }
//! ```
//!
//! [`path::path_of_word`] reads a path that stands alone, as a script has it. The layer above knows it by `ReadsAsPath text
//! path`.
//!
//! [`generate`] makes a document, a sheet and edits of it from a seed, for long runs that anybody can repeat. The
//! layer above knows them by `document`, `sheet` and `edits_of` (`specs/Generator.antt`).
//!
//! ```text
//! let run = generate(alloc, 1, 2)?;    // ten nodes, and two edits: an insertion and a move
//! ```
#![tactic(auto)]

pub mod action;
pub mod command;
mod draws;
pub mod fault;
pub mod generator;
mod keyword;
pub mod laws;
mod line_fault;
mod lines;
mod made_edits;
mod operands;
pub mod path;
mod script;
pub mod script_kind;
mod sections;
mod texts;
pub mod words;

pub use generator::generate;
pub use script::{read_book_script, read_history_script, read_script};
