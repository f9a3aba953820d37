//! Laws of same documents. The functions do nothing: each contract is a law.

ghost use Rattle.same_documents.specs.Laws.{SameAreEditedAlike, SameAreRefusedAlike, SameAsItself, SameAttrsArePermuted, SameBothWays, SameThroughAnother, SameWithPlacesAsKeys, SameWithoutKeys};

/// Each document is the same as itself; of two that are the same either is the same as the other; and two that are the
/// same as a third are the same.
pub fn same_is_an_equivalence()
    ensures itself { SameAsItself }
    ensures both { SameBothWays }
    ensures through { SameThroughAnother }
{}

/// Same attributes of an element are the same list but for the order: no two of one element have one name.
pub fn same_attributes_are_permuted()
    ensures permuted { SameAttrsArePermuted }
{}

/// Keys do not matter: same documents are the same with their places in tree order as keys, and without keys.
pub fn same_with_keys_and_without()
    ensures numbered { SameWithPlacesAsKeys }
    ensures bare { SameWithoutKeys }
{}

/// An edit is refused in both of two same documents for the same cause, or in neither, and makes same documents of them.
pub fn edits_do_the_same_to_same_documents()
    ensures refused { SameAreRefusedAlike }
    ensures edited { SameAreEditedAlike }
{}
