//! Laws of an index that an edit brings from one document to the next. The functions do nothing: each contract is a law.

ghost use Rattle.touched_starts.specs.Laws.{GoneAreMoved, SecondMergesAreAsked, StartsAreAsked, StartsAreBrought, TurnedAreTold, UntouchedStartsStay};

/// A counter for whose start an element asks, before the edit and after it, has the start that it had where it is untouched. So an index that had the starts of the document before the edit is that of
/// the document after it, where the starts of touched elements are told again and exchanged.
pub fn untouched_starts_stay()
    ensures stay { UntouchedStartsStay }
    ensures brought { StartsAreBrought }
{}

/// Each element in a tree that goes with an edit is taken out, or it comes again; of a text nothing is kept.
pub fn gone_elements_are_moved()
    ensures gone { GoneAreMoved }
{}

/// Of the elements whose starts were exchanged for others, those that ask for some and do not come are those that are turned in the
/// second merge of the edit: each of them stays and has other inputs, and each element that is kept has the starts that it had.
pub fn turned_elements_are_told()
    ensures turned { TurnedAreTold }
{}

/// An evaluation that asks the index for starts is that with the document's own ones, though the index has none but those for which
/// boxes ask. And so is the second merge of an edit.
pub fn starts_are_asked()
    ensures styled { StartsAreAsked }
    ensures merges { SecondMergesAreAsked }
{}
