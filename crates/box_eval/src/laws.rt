//! Laws of the evaluation. The functions do nothing: each contract is a law, proved of every document.

ghost use Rattle.box_eval.specs.Laws.{ChangesAreThoseOfBoxes, DoesParentTell, EachSetIsScoped, NoStartMattersWhereNoneIsAsked, OfEachDocument, ParentsNeedNoPeers, SharedTreesAreToldByWhatTheyAreHanded, StartsAreOwn, StartsKeepBoxChanges, StartsKeepChanges};

/// Of the counters of a box, those that the set of its parent lacks are those that the box itself or a sibling
/// box before it created. So the parent's set tells which counter a new one of its name replaces, and then
/// nothing depends on the sibling boxes before.
pub fn parents_tell_scopes()
    ensures scoped { OfEachDocument EachSetIsScoped }
    ensures told { OfEachDocument DoesParentTell }
    ensures no_peers { ParentsNeedNoPeers }
{}

/// Of trees that two documents share, with the same styles and starts, the evaluation says the same in both where the
/// first of them is handed the same. So what is kept of them stays right, whatever else the documents differ in.
pub fn shared_trees_are_told_by_what_they_are_handed()
    ensures shared { SharedTreesAreToldByWhatTheyAreHanded }
{}

/// What each box does to counters is the same whatever the starts of reversed counters are, and so is what all boxes
/// of a document do. So a document's starts can be read off an evaluation in which all are 0.
pub fn starts_keep_changes()
    ensures boxes { StartsKeepBoxChanges }
    ensures together { ChangesAreThoseOfBoxes }
    ensures changes { StartsKeepChanges }
    ensures own { StartsAreOwn }
{}

/// Where no box creates a reversed counter without a number, no start matters. So one evaluation is enough there.
pub fn no_start_matters_where_none_is_asked()
    ensures unasked { NoStartMattersWhereNoneIsAsked }
{}
