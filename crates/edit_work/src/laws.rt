//! Laws of work. The functions do nothing: each contract is a law, proved of every document, edit and sheet.

ghost use Rattle.edit_work.specs.Laws.{OwnReachIsPaid, TestTellsInputs, WholeReachIsPaid};
ghost use Rattle.edit_work.specs.ReachedLaws.{NodesReachedArePaid};

/// The test of inputs tells whether they are equal.
pub fn inputs_are_told_apart()
    ensures test { TestTellsInputs }
{}

/// Where an edit changes no other styles than those of the trees that it puts in, takes out, moves or addresses, its
/// work pays for the walk over its merge. Where it changes styles everywhere, its work pays for that of a whole document.
pub fn work_pays()
    ensures own { OwnReachIsPaid }
    ensures whole { WholeReachIsPaid }
{}

/// Where an edit does not change styles everywhere, its work pays for the walk over its merge in which what it reaches
/// goes and comes.
pub fn work_pays_for_reached_nodes()
    ensures reached { NodesReachedArePaid }
{}
