//! Laws of planned edits. The functions do nothing: each contract is a law, proved of every book.

ghost use Rattle.dirty_walk.specs.PlannedEntries.{PlansPutWhatDiffers};

/// Of each node of the edited document a fresh evaluation keeps what the plan puts under its key, and of the others what
/// it kept before the edit.
pub fn plans_put_what_differs()
    ensures puts { PlansPutWhatDiffers }
{}
