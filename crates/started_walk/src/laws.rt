//! Laws of what is kept for both walks. The functions do nothing: each contract is a law.

ghost use Rattle.started_walk.specs.Laws.{UnaskedAreOwn};

/// Where no box of a document asks for the start of a reversed counter, a walk with all starts 0 tells what a walk with the
/// document's own tells: one walk is enough, and nothing is to be kept of it beside the board.
pub fn unasked_are_own()
    ensures same { UnaskedAreOwn }
{}
