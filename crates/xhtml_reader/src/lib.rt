//! Reads documents: from a text to its tree, or to the place of its fault.
//!
//! In goes a text; out comes the tree of the document, or of the fragment, that it spells, or the line
//! and the column at which it stops being one. The grammar is that of XML 1.0, sections 2 to 4, without
//! declarations inside a doctype, with twenty entities, and somewhat wider and narrower in places; the
//! crate `xml_definitions` has it, production by production. A fragment is content that has one node.
//!
//! The layer above knows this crate by `IsDocumentText text tree` and `IsFragmentText text tree`, that
//! the text is a document, or a fragment, with this tree, and by `FailsAsDocument text line column` and
//! `FailsAsFragment text line column`, that it is none, and its fault is there. [`laws`] says that each text
//! has a tree or a fault, and one only.
//!
//! A text is read once, item by item, with a list of the open elements, and no call recurses: a document
//! may be of any depth. It takes memory linear in the text, and time linear in it but for the attributes of a
//! tag: n of them take n log n.
//!
//! ```text
//! let tree = read_document(alloc, "<ol><li>a</li></ol>")?;    // three nodes: ol, li, and the text a
//! let fault = read_document(alloc, "<a></b>");                // Malformed { line: 1, column: 4 }
//! ```
#![tactic(auto)]

pub mod fault;
mod kind;
pub mod laws;
mod name;
mod open_tree;
mod place;
mod prepare;
mod read;

ghost use Rattle.std.specs.Prelude.{IfErr, IfOk};
ghost use Rattle.std.specs.Str.{chars};
ghost use Rattle.xml_definitions.specs.Faults.{FailsAsDocument, FailsAsFragment};
ghost use Rattle.xml_definitions.specs.Texts.{IsDocumentText, IsFragmentText};
ghost use Rattle.xhtml_reader.specs.Fault.{IsFault};

use fault::DocFault;
use kind::Kind;
pub use name::is_name;
use plain_types::tree::Tree;
pub use prepare::{has_line_feeds_alone, with_line_feeds, without_mark};
use read::read;
use std::alloc::Global;

/// The tree of a document, in time and memory linear in the text, and n log n in the number of attributes of a
/// tag.
///
/// `Malformed` where the text is no document: the place of the first item that is broken or cannot
/// follow those before it in any document, or of the end of the text.
pub fn read_document(alloc: Global, text: &str) -> Result<Tree, DocFault>
    ensures found { IfOk result (IsDocumentText (chars text.now)) }
    ensures fault { IfErr result (IsFault (FailsAsDocument (chars text.now))) }
{
    read(alloc, Kind::Document, text)
}

/// The tree of a fragment, content that has one node with all that is in it, in time and memory linear
/// in the text, and n log n in the number of attributes of a tag.
///
/// `Malformed` where the text is no fragment, as for a document.
pub fn read_fragment(alloc: Global, text: &str) -> Result<Tree, DocFault>
    ensures found { IfOk result (IsFragmentText (chars text.now)) }
    ensures fault { IfErr result (IsFault (FailsAsFragment (chars text.now))) }
{
    read(alloc, Kind::Fragment, text)
}
