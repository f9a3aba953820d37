//! Laws of an edit that is walked twice. The functions do nothing: each contract is a law.

ghost use Rattle.started_work.specs.Laws.{StartedChangesAreTold, StartedEditsArePaid, StartedNewsArePaid, TurnedEnterPoints};

/// Where the elements are turned that have other starts than before, the merge of an edit enters only elements that fall under a
/// point of its work, and only such elements are told otherwise than before. So the work pays for the texts that are made again.
pub fn work_pays_for_second_news()
    ensures entered { TurnedEnterPoints }
    ensures told { StartedChangesAreTold }
    ensures news { StartedNewsArePaid }
{}

/// And it pays for all steps of an edit that is walked twice. To read the scopes of touched counters takes none.
pub fn work_pays_for_started_edits()
    ensures paid { StartedEditsArePaid }
{}
