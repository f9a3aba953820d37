//! Laws of edits and their merges. The functions do nothing: each contract is a law.

ghost use Rattle.edit_merge.specs.Laws.{EditsHaveLeaves, EditsLead, EditsMerge, EditsStop, InsertsOneTree};

use plain_types::edit::Edit;

/// What an edit inserts is one tree.
pub fn inserts_one_tree(edit: &Edit)
    ensures { InsertsOneTree edit.now }
{
    if let Edit::Insert { fragment, .. } = edit {
        // The contract of `len` says so.
        let _count = fragment.len();
    }
}

/// The merge of an edit has the document before it and the document after it, and its stops are those that the
/// edit's paths tell in the document before. Texts have no children in it, and its root isn't to be skipped.
pub fn edits_are_merged()
    ensures merges { EditsMerge }
    ensures stops { EditsStop }
    ensures leaves { EditsHaveLeaves }
    ensures lead { EditsLead }
{}
