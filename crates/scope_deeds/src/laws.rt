//! Laws of what is kept of elements to tell the starts of reversed counters. The functions do nothing: each contract is a law.

ghost use Rattle.scope_deeds.specs.Laws.{ChangesAreKept, DeedsAreKept, KeptScopesTellStarts, OthersAreIdle, ReversedScopesTellStarts, ScopesAreKept};

/// What is kept of elements has all that boxes do to counters. What is read of it in the scope of a counter is what is done to
/// the counter there. So it tells the start of the counter, where it is reversed and has no number: by the keys of the document
/// alone, whatever its nodes are.
pub fn kept_scopes_tell_starts()
    ensures deeds { DeedsAreKept }
    ensures changes { ChangesAreKept }
    ensures scopes { ScopesAreKept }
    ensures starts { KeptScopesTellStarts }
{}

/// Of a reversed counter for whose start an element asks, it is enough to keep the elements that meet a reversed counter, by a box in
/// whose set there is one: each other element does nothing to it. Where one that has a box ends the row of siblings that are in the
/// scope, and nothing is kept of it, more is read, and none of that is an event of the counter.
pub fn reversed_scopes_tell_starts()
    ensures others { OthersAreIdle }
    ensures starts { ReversedScopesTellStarts }
{}
