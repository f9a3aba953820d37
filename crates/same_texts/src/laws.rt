//! Laws of the generated texts of same documents. The functions do nothing: each contract is a law.

ghost use Rattle.same_texts.specs.Laws.{SameAreMatchedAlike, SameHaveSameAttrs, SameHaveSameDumps, SameHaveSameEntries, SameHaveSameHolders, SameHaveSameLines, SameHaveSameRecords, SameHaveSameSheets, SameHaveSameStyles, SameHaveSameStyleTexts};

/// Who asks two same documents for attributes by name sees the same: attributes have the same values, selectors match the
/// same elements, and an id names the same element.
pub fn same_documents_look_alike()
    ensures attributes { SameHaveSameAttrs }
    ensures selectors { SameAreMatchedAlike }
    ensures ids { SameHaveSameHolders }
{}

/// Two same documents have the same style elements and the same author's sheet, and under one sheet their elements have the
/// same styles.
pub fn same_documents_are_styled_alike()
    ensures elements { SameHaveSameStyleTexts }
    ensures sheets { SameHaveSameSheets }
    ensures styles { SameHaveSameStyles }
{}

/// The evaluation says the same of the elements of two same documents, and the same is kept of them.
pub fn same_documents_are_evaluated_alike()
    ensures records { SameHaveSameRecords }
    ensures entries { SameHaveSameEntries }
{}

/// Two same documents have the same lines and the same dump under the sheet of one text.
pub fn same_documents_have_same_texts()
    ensures lines { SameHaveSameLines }
    ensures dump { SameHaveSameDumps }
{}
