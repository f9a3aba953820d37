//! Laws of what a sheet puts into a document. The functions do nothing: each contract is a law.

ghost use Rattle.bake_book.specs.Laws.{DocumentsStay, InsertionsAreLines, KeysDoNotMatter, NoneIsLost, SilentDocumentsBakeToThemselves, WalksGiveTheTags};

use baked_text::laws::bakes_to_itself;
use generated_texts::laws::{elements_have_entries, keys_do_not_matter};

/// What is put into a document are the texts of its dump that are not empty, in their order. So none is lost: each line
/// of the dump that has a text is one insertion, which has a place or is counted as left out.
pub fn insertions_are_lines()
    ensures lines { InsertionsAreLines }
    ensures none_lost { NoneIsLost }
{
    elements_have_entries();
}

/// Without what is put in the document is as it was.
pub fn documents_stay()
    ensures stay { DocumentsStay }
{}

/// Whichever distinct keys the nodes of a document have, the same is put into it.
pub fn dressing_keeps_no_keys()
    ensures keys { KeysDoNotMatter }
{
    keys_do_not_matter();
}

/// A walk over a document gives its tags, at which what is kept of its elements is put in.
pub fn walks_give_the_tags()
    ensures tags { WalksGiveTheTags }
{}

/// Under a silent sheet (`silent_sheets`) nothing is put into a document, and its text bakes to itself.
pub fn silent_documents_bake_to_themselves()
    ensures stays { SilentDocumentsBakeToThemselves }
{
    bakes_to_itself();
}
