//! What holds of every history. The function does nothing: its contract is a law.

ghost use Rattle.undo_ring.specs.Histories.{IsHistory};

use crate::history::History;

/// No edit that a history keeps is ever refused for its place, and of those to be undone and those to be redone together it
/// keeps no more than its depth.
pub fn kept_edits_have_places(history: &History)
    ensures holds { IsHistory history.now }
{
    let _engine = &history.engine;
}
