//! Items of documents: what stands at the front of a text.
//!
//! A reader of documents goes from item to item: a tag, a comment, a processing instruction, a doctype,
//! a reference, a CDATA section, or one plain character. [`item::first_item`] reads the first one, and
//! answers it as a [`token::Token`] with the text behind it, or `None` where the text begins with no
//! item. Whether the item fits where it stands is for the reader to say.
//!
//! The text is one whose line ends have become line feeds (XML 1.0, 2.11). The grammar is that of XML
//! 1.0, sections 2.3 to 2.8, 3.1 and 4.1, without declarations inside a doctype and with twenty entities
//! of our own; `Spells` of the crate `xml_definitions` is that grammar, and says which characters are which
//! item. Values of attributes read as 3.3.3 has it. Names and the text of sections are slices of the text.
//!
//! The layer above knows this crate by `BeginsWith text item rest` and `BeginsWithNone text`
//! (`specs/FirstItem`): the text begins with characters that spell this item, or that spell none. [`laws`]
//! says that no item begins another one.
//!
//! Long runs of characters, in content, values, comments and sections, are passed over by their bytes, with
//! `lane_class`; [`passing`] does it, and what is read is the same.
//!
//! `first_item(alloc, "<a b='1 &lt; 2'>x")` is a start tag `a` with one attribute `b`, whose value is
//! `1 < 2`, and the text `x`.
#![tactic(auto)]

mod attributes;
pub mod characters;
pub mod item;
pub mod laws;
mod markup;
pub mod passing;
mod references;
mod tags;
pub mod text;
pub mod token;
