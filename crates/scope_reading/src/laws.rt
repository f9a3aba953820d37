//! Laws of what is read of a counter's scope. The functions do nothing: each contract is a law.

ghost use Rattle.scope_reading.specs.Laws.{OwnSetsAreBehindChildren, ScopesTellEvents, ScopesTellStarts};

/// What is read of a document for a counter has all that boxes do to it. So it tells the start of the counter, where it is
/// reversed and has no number. Whether it reaches an element is told by what is handed on behind the element's children.
pub fn scopes_tell_starts()
    ensures events { ScopesTellEvents }
    ensures starts { ScopesTellStarts }
    ensures own { OwnSetsAreBehindChildren }
{}
