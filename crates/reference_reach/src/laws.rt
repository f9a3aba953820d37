//! Laws of references under an edit. The functions do nothing: each contract is a law.

ghost use Rattle.reference_reach.specs.ToldLaws.{ChangesAreTold, ChangesLead, PassedAreToldTheSame, UnstartedChangesAreTold};
ghost use Rattle.reference_reach.specs.ExchangedNodes.{OthersKeepTargets};
ghost use Rattle.reference_reach.specs.Laws.{EnteredAreLive, EnteredArePlaced, EntriesStay, FlatTextsStay, FullTextsStay, ReferringIsPaid, ReferringRestsOnElements, StopsTellEntered, TargetsAgree, TargetsAgreeBelow, TargetsStay, TreesUnderStay};

/// An id has the same target after an edit where no node that goes or comes has the id. A node that stays has the same
/// trees under it, and the same characters, where no place of the edit is under it. Of an edit, an id has the same target where
/// no node has it that the edit takes out, moves or puts in, nor the element whose attributes it changes. The stops of a
/// merge tell which elements it enters, and these stand in the new document.
pub fn targets_stay()
    ensures targets { TargetsStay }
    ensures under { TreesUnderStay }
    ensures others { OthersKeepTargets }
    ensures stops { StopsTellEntered }
    ensures live { EnteredAreLive }
{}

/// What is known of the target of an id is the same where the id has no changed target, and its flat texts are the same where
/// its target refers to no id that has one.
pub fn known_targets_agree()
    ensures below { TargetsAgreeBelow }
    ensures whole { TargetsAgree }
{}

/// The texts of a box stay where its pieces refer to no id with a changed target. Which elements refer to such ids rests on
/// which elements are changed, however these are listed.
pub fn texts_stay()
    ensures flat { FlatTextsStay }
    ensures full { FullTextsStay }
    ensures listed { ReferringRestsOnElements }
{}

/// What is kept of an element is as before, unless the element is visited, refers to an id with a changed target, or refers to
/// one whose target does.
pub fn entries_stay()
    ensures entries { EntriesStay }
{}

/// The elements that refer so weigh no more than an edit's work says, where each changed element falls under another point
/// of it. Those that the merge of an edit enters do, where the edit does not reach everywhere.
pub fn work_pays_for_references()
    ensures referring { ReferringIsPaid }
    ensures entered { EnteredArePlaced }
{}

/// What is told of an element is as before where a walk over the merge of an edit may pass it: the merge does not enter it,
/// and its inputs are the same.
pub fn passed_elements_stay()
    ensures passed { PassedAreToldTheSame }
{}

/// A walk that finds all changes leads from one document to the other. An element of which something else is told falls under
/// a point of the edit's work; so where a walk finds no more than such changes, the elements that refer to what these are the
/// targets of, and those that refer to such elements, weigh no more than the point of references.
pub fn walks_lead()
    ensures leads { ChangesLead }
    ensures own { ChangesAreTold }
    ensures unstarted { UnstartedChangesAreTold }
{}
