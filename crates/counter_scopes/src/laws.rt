//! The law of scopes and values. The function does nothing: its contract is the law, proved of every document.

ghost use Rattle.box_eval.specs.Laws.{OfEachDocument};
ghost use Rattle.counter_scopes.specs.Laws.{AreChangesOfBoxes, CreatesWhereAlone, HasTheirValues, HasThoseInScope, OfEachBox};

/// A box creates a counter of a name exactly where it resets the name, or increments, sets or uses it and is in the
/// scope of no other counter of the name. The counters of a name in the set of a box are those in whose scope it
/// is, in the tree order of their creators. What the evaluation of a document tells of each box is what that box does
/// to its innermost counters of the names that it increments or sets, box by box in tree order. Each counter in the
/// set of a box has the value with which it was created, changed by its events up to and including that box.
pub fn scopes_and_values()
    ensures created { OfEachBox CreatesWhereAlone }
    ensures scopes { OfEachBox HasThoseInScope }
    ensures changes { OfEachDocument AreChangesOfBoxes }
    ensures values { OfEachBox HasTheirValues }
{}
