//! Documents under their sheets: from a tree and the text of a sheet to the bytes of its dump.
//!
//! An [`engine::Engine`] holds a document and the text of its style sheet, evaluated. Contracts see it as the
//! `StyledDocument` of its book (`dirty_walk`), whose nodes have keys. What is shown and counted needs the document
//! without them and the sheet, and these two are its `Source`: what it shows is the dump of a fresh evaluation of
//! them (`generated_texts`), and an edit makes of them what `edited` says, or leaves both. Nodes that stay keep their
//! keys.
//!
//! The layer above knows this crate by `Source` and `source_of` (`specs/Engines.antt`), `edited` and `edit_fault`
//! (`specs/Edited.antt`), and `box_count` (`specs/Census.antt`), beside `element_count` of `document_walk`.
//!
//! ```text
//! let mut engine = Engine::start(alloc, tree, "h1 { counter-increment: section }", steps)?;
//! engine.apply(alloc, &Edit::Remove { path: Path::of(alloc, &[0])? }, steps)?;
//! engine.show(alloc, &mut out, steps)?;
//! let census = engine.census(steps);
//! ```
#![tactic(auto)]

pub mod census;
pub mod edit_fault;
pub mod engine;
mod entries;
mod lines;
pub mod node_path;
