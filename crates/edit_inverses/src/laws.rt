//! Laws of inverse edits. The functions do nothing: each contract is a law.

ghost use Rattle.edit_inverses.specs.Laws.{InsertsTree, InversesAreAllowed, InversesLeadBack, InversesUndo, InversesUndoSheets, KeptHavePlaces, NewestHavePlaces, NewestLeadBack, PrefixesHavePlaces, PrefixesLeadToPrefixes, SameVersionsHavePlaces, SameVersionsLeadToSame};

use plain_types::edit::Edit;

/// What an edit inserts is a tree.
pub fn edits_insert_trees(edit: &Edit)
    ensures { InsertsTree edit.now }
{
    if let Edit::Insert { fragment, .. } = edit {
        // The contract of `len` says so.
        let _count = fragment.len();
    }
}

/// What an edit makes of a document allows the edit's inverse.
pub fn inverses_are_allowed()
    ensures allowed { InversesAreAllowed }
{}

/// The inverse makes of the edited document the same document, and of its sheet the same sheet, as before the edit.
pub fn inverses_undo()
    ensures document { InversesUndo }
    ensures sheet { InversesUndoSheets }
{}

/// From same versions of a document the same edits have their places one after the other, and lead to same versions.
pub fn same_versions_lead_alike()
    ensures places { SameVersionsHavePlaces }
    ensures versions { SameVersionsLeadToSame }
{}

/// The inverse of an edit, put before the edits that are kept of the version before it, leads back to that version, and
/// these lead on as they did. None of them is refused for its place.
pub fn inverses_lead_back()
    ensures versions { InversesLeadBack }
    ensures places { KeptHavePlaces }
{}

/// A prefix of the edits that are kept leads to a prefix of the versions, as long, and has its places where all have.
pub fn prefixes_lead_to_prefixes()
    ensures versions { PrefixesLeadToPrefixes }
    ensures places { PrefixesHavePlaces }
{}

/// Where no more edits are kept than a depth allows, the oldest go: the others lead back to the newest versions, as many
/// as the depth allows, and none of them is refused for its place.
pub fn newest_lead_back()
    ensures versions { NewestLeadBack }
    ensures places { NewestHavePlaces }
{}
