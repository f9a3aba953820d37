//! Stops of edits that do not change styles everywhere.

use merged_walk::stop::Stop;
use style_reach::extent::Reach;

/// Where the walk for an edit goes: at the places of the edit, or where it can change other styles.
#[derive(Drop)]
pub(crate) struct LocalStops {
    /// Where the edit can change styles, which is not everywhere.
    pub(crate) extent: Reach,
    /// The stops of the walk, in tree order.
    pub(crate) stops: Vec<Stop>,
}
