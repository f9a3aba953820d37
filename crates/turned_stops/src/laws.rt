//! Laws of the elements that come with an edit. The functions do nothing: each contract is a law.

ghost use Rattle.turned_stops.specs.Laws.{StaysIsNotComing};

/// Each element of the new document of a merge stays, or comes at one of its stops, and not both. So an element may be turned
/// if, and only if, it does not come.
pub fn elements_stay_or_come()
    ensures stays { StaysIsNotComing }
{}
