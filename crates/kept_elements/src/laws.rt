//! Laws of what is told of elements, and of texts that are made again. The functions do nothing: each contract is a law.

ghost use Rattle.kept_elements.specs.News.{NewsArePaid, PassedElementsStay, StyledMergesKeepTold};
ghost use Rattle.kept_elements.specs.RenewalSteps.{RenewalIsPaid};

/// An element that the merge of two documents does not enter is told the same of both, where it is handed the same in both, and so
/// is what comes behind its children.
pub fn elements_handed_the_same_are_told_the_same()
    ensures told { StyledMergesKeepTold }
{}

/// The work of an edit pays for the texts that are made again, where each element that a walk has told and each that its merge
/// enters falls under a point of it beside that of references. So it does for what a walk tells otherwise than before.
pub fn work_pays_for_renewals()
    ensures paid { RenewalIsPaid }
    ensures news { NewsArePaid }
{}

/// Of what a walk has told, what is of elements that its merge does not enter is no more than the elements that stay: an element that
/// was not there before is entered.
pub fn elements_that_are_not_entered_stay()
    ensures passed { PassedElementsStay }
{}
