//! Laws of merges with the styles of their elements. The functions do nothing: each contract is a law.

ghost use Rattle.styled_merge.specs.Laws.{AllIsLed, BoxStartsAreEnough, DocumentsStyleMerges, KeptAreOutside, KeptAreUntouched, KeptHaveSameStyles, NewForestsAreStyled, OldForestsAreStyled, OwnKeepsStyles, OwnReachesNothing, OwnStylesDocuments, OwnStylesMerges, ReachedKeepLevels, ReachedMerge, SheetsStyleMerges, StartsAreTheirOwn, StyledMergesKeepShape};
ghost use Rattle.styled_merge.specs.StopLaws.{ReachesAreWalkable, StyledReachesAreWalkable};

/// The old forest of a merge with styles is the old one with the old styles. Its new forest is the new one with the
/// new styles, where what stays has the same in both. A walk over it stops at the same places.
pub fn merges_are_styled()
    ensures old { OldForestsAreStyled }
    ensures new { NewForestsAreStyled }
    ensures shape { StyledMergesKeepShape }
{}

/// An element has the same starts where each of its boxes has, and where the starts are not other than before.
pub fn starts_stay()
    ensures boxes { BoxStartsAreEnough }
    ensures own { StartsAreTheirOwn }
{}

/// Where some trees of a merge go and come, its forests are the same, and a walk may still go over it. Nothing goes and
/// comes where an edit reaches no more than the edited trees, and all where it reaches everywhere.
pub fn reached_trees_go_and_come()
    ensures forests { ReachedMerge }
    ensures levels { ReachedKeepLevels }
    ensures own { OwnReachesNothing }
    ensures all { AllIsLed }
{}

/// A walk may go over the merge of an edit where what it reaches goes and comes, with styles or without: its stops are
/// told by the document before and the key of an inserted root, texts have no children in the new forest, and the root
/// isn't to be skipped.
pub fn reached_merges_are_walkable()
    ensures plain { ReachesAreWalkable }
    ensures styled { StyledReachesAreWalkable }
{}

/// What the merge of an edit keeps is untouched, once what the edit reaches goes and comes in it.
pub fn kept_elements_are_untouched()
    ensures untouched { KeptAreUntouched }
    ensures outside { KeptAreOutside }
{}

/// So it keeps its styles, and the merge with styles is that of the two documents with theirs, under any two sheets
/// and under those that the documents have.
pub fn kept_elements_keep_their_styles()
    ensures styles { KeptHaveSameStyles }
    ensures sheets { SheetsStyleMerges }
    ensures documents { DocumentsStyleMerges }
{}

/// Where the edit reaches no more than the edited trees, this holds of its own merge.
pub fn edits_without_reach_keep_styles()
    ensures styles { OwnKeepsStyles }
    ensures sheets { OwnStylesMerges }
    ensures documents { OwnStylesDocuments }
{}
