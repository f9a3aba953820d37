//! Laws of the index. The functions do nothing: each contract is a law.

ghost use Rattle.counter_index.specs.Laws.{AskedAreOwn, AskedStartsAreKept, CaughtIsPutOver, DeedsAreTold, ExchangesArePutOver, ExchangesKeepDeeds, IndexKeepsReversed, IndexKeepsWhatIsAsked, IndexKeepsWhatIsDone, NewIndexesKeepDeeds, OtherStartsAreZero, ScopesTellStarts, ToldAreExchanged};

/// The index of a document has what tells the starts of the counters for which its elements ask, and so the scopes tell them. It has
/// all for which elements ask, and what they do to these counters. Each element asks for starts of counters that its own boxes create.
/// Of a counter for which an element asks the index has the start, and of others 0.
pub fn index_tells_starts()
    ensures counting { IndexKeepsReversed }
    ensures scopes { ScopesTellStarts }
    ensures all_asked { IndexKeepsWhatIsAsked }
    ensures done { IndexKeepsWhatIsDone }
    ensures own { AskedAreOwn }
    ensures asked { AskedStartsAreKept }
    ensures others { OtherStartsAreZero }
{}

/// To exchange what some keys have for nothing, and then puts under theirs, is to take the first out and to put the others in.
/// And where starts are told again and exchanged, their elements have these, and each other what it had.
pub fn exchanges_are_put_over()
    ensures over { ExchangesArePutOver }
    ensures told { ToldAreExchanged }
{}

/// What a walk with all starts 0 tells of elements gives what the index of their document keeps of them. So it is enough to tell
/// of a document that an edit made what a walk has caught: put over what was told before, where the elements that the document
/// has no more are taken out, that is all that is told; and exchanged in the index of the document before the edit, it leaves the
/// deeds of the document after it. An empty index has them once all that is told is exchanged.
pub fn indexes_follow_walks()
    ensures deeds { DeedsAreTold }
    ensures over { CaughtIsPutOver }
    ensures edits { ExchangesKeepDeeds }
    ensures whole { NewIndexesKeepDeeds }
{}
