//! Laws of generated texts. The functions do nothing: each contract is a law.

ghost use Rattle.content_eval.specs.TargetLaws.{FlatTextsDependOnReferences, FlatTextsNeedNoFlatTexts, FullTextsDependOnReferences};

/// The flat text of a box is the same whatever the flat texts of targets are. So all flat texts are known before
/// any full text is, and no reference is circular.
pub fn no_reference_is_circular()
    ensures flat { FlatTextsNeedNoFlatTexts }
{}

/// The texts of a box depend on its pieces, the table of counter styles, and what is known of the ids to which
/// the pieces refer.
pub fn texts_depend_on_references()
    ensures flat { FlatTextsDependOnReferences }
    ensures full { FullTextsDependOnReferences }
{}
