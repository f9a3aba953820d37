//! What a sheet puts into a document.
//!
//! The texts of an element's marker and before boxes are put in first in it, that of its after box last; an empty text is put
//! in nowhere. `specs/Dressing.antt` says it: `dressed_document` is a document with what the sheet of a text puts into it.
//! How such a document is written as a tree and as a text the crate `bake_definitions` says, and `baked_text` writes it.
//!
//! [`bake`](bake::bake) writes it: from an engine (`marker_engine`) and the text of its document to that text with the
//! generated texts put in. [`laws`] says what is known of what is put in. [`tag_walk`] goes over the tags of a document
//! whose nodes have keys, in the order of its text; with what a book keeps of its elements these are what `baked_text`
//! asks for.
//!
//! ```text
//! let engine = Engine::start(alloc, tree, "", steps)?;    // of the text <ol><li>a</li></ol>
//! bake(alloc, &engine, text, out, steps)?;                // <ol><li><span class="baked-marker">1. </span>a</li></ol>
//! ```
#![tactic(auto)]

pub mod bake;
mod book_tags;
pub mod laws;
pub mod tag_walk;
