//! Laws of merges and of walks over them. The functions do nothing: each contract is a law. It is proved of every type
//! `L` of labels, and of whatever an evaluation keeps (`K`) and hands on (`H`).

ghost use Rattle.merged_walk.specs.Laws.{ChangesAreEnough, InsertionsArePaid, InsertionsMerge, InsertionsStop, MovesArePaid, MovesMerge, MovesStop, RelabellingsArePaid, RelabellingsMerge, RelabellingsStop, RemovalsArePaid, RemovalsMerge, RemovalsStop, TurnedNodesStop, TurnsLeaveLess, WalksFindAllChanges, WholeDocumentsCost};

/// The merge of an edit has the tree before the edit as its old forest, and the tree after it as its new one.
pub fn edits_are_merged<L>()
    ensures removals { RemovalsMerge L }
    ensures relabellings { RelabellingsMerge L }
    ensures insertions { InsertionsMerge L }
    ensures moves { MovesMerge L }
{}

/// The stops of an edit are those that the paths of the edit tell in the tree before it: the nodes above each
/// place, and the place itself. A node more that is turned adds the stops on the way to it.
pub fn paths_tell_stops<L>()
    ensures removals { RemovalsStop L }
    ensures relabellings { RelabellingsStop L }
    ensures insertions { InsertionsStop L }
    ensures moves { MovesStop L }
    ensures turned { TurnedNodesStop L }
{}

/// Whichever turns a walk takes, each leaves less to walk. What it has found at its end covers all that the new
/// evaluation tells and was not held, and it has spent at most its budget.
pub fn walks_find_all_changes<L, K, H>()
    ensures found { WalksFindAllChanges L K H }
    ensures less { TurnsLeaveLess L K H }
{}

/// Put over what was held, such changes give all that the new evaluation tells, and no more.
pub fn changes_are_enough<R>()
    ensures enough { ChangesAreEnough R }
{}

/// The work of an edit, which knows no merge, pays twice for the walk over the edit's merge. A walk over a whole
/// document that comes takes six steps for each element, and four.
pub fn work_pays_for_walks<L, K, H>()
    ensures removals { RemovalsArePaid L K H }
    ensures relabellings { RelabellingsArePaid L K H }
    ensures insertions { InsertionsArePaid L K H }
    ensures moves { MovesArePaid L K H }
    ensures whole { WholeDocumentsCost L K H }
{}
