//! Laws of the starts of reversed counters under an edit. The functions do nothing: each contract is a law.

ghost use Rattle.plain_types.specs.declared.node.Node.{Node};
ghost use Rattle.start_reach.specs.Laws.{AskedStartsAreEnough, BothWalksArePaid, ComparedIsLeftAlone, EditsKeepStarts, EventsStay, OtherStartsDiffer, PlacesArePaid, SecondMergesAreStarted, SecondMergesAreWalkable, SecondWalksAreFew, SkippedStartsStay, StartsStay, TurnedElementsStop, TurnedKeepForests, UnturnedAreEnough, WaysAreClimbed};

/// A counter has the start that it had, where no tree that goes or comes does anything to it, and each element into which
/// a walk with all starts 0 goes does the same to it as before. This can be told by comparing what is kept of each element,
/// by their keys. And so has each counter that is created under an element into which this walk does not go: it goes into
/// each element above one whose start is another.
pub fn starts_stay()
    ensures events { EventsStay }
    ensures compared { ComparedIsLeftAlone }
    ensures starts { StartsStay }
    ensures skipped { SkippedStartsStay }
    ensures edits { EditsKeepStarts }
{}

/// To turn elements of a merge changes none of its forests, and adds the stops on the way to each of them. The way to a node
/// is that to its parent, and the node.
pub fn elements_are_turned()
    ensures forests { TurnedKeepForests }
    ensures stops { TurnedElementsStop Node }
    ensures ways { WaysAreClimbed Node }
{}

/// Where the elements are turned that have other starts than before, the merge of an edit has the two documents with their
/// starts, and a walk may go over it. An element has other starts only where one is other that its boxes ask for. So it is
/// enough that each element of the document after the edit that is not turned asks for no start that is other.
pub fn second_merges_are_walkable()
    ensures started { SecondMergesAreStarted }
    ensures asked { AskedStartsAreEnough }
    ensures unturned { UnturnedAreEnough }
    ensures walkable { SecondMergesAreWalkable }
{}

/// An element that has other starts has other inputs. Where the edit does not reach everywhere, the second of two walks goes
/// into no more elements that stay than there are above its places and among those whose inputs differ. The work of the edit
/// pays for its places: for what a walk is led into there, and for what goes and comes. So it pays for both walks.
pub fn work_pays_for_both_walks()
    ensures differ { OtherStartsDiffer }
    ensures few { SecondWalksAreFew }
    ensures places { PlacesArePaid }
    ensures both { BothWalksArePaid }
{}
