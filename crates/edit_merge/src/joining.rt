//! Two lists of stops made one.

ghost use Rattle.std.specs.Prelude.{◌≡◌, ◌≤◌, ◌++◌, Bool, IfOk, drop, length, take};
ghost use Rattle.merged_walk.specs.EditStops.{is_common, joined};
ghost use Rattle.edit_merge.specs.Joining.{parted};

use merged_walk::stop::{Stop, Way};
use plain_types::memory::Memory;
use std::alloc::Global;

/// Whether two stops go into one node.
fn is_common(one: &Stop, other: &Stop) -> bool
    ensures common { result ≡ is_common one.now other.now }
{
    match (one.way, other.way) {
        (Way::Inside, Way::Inside) => one.link == other.link,
        _ => false,
    }
}

/// How many first stops two lists have in common.
fn common_count(stops: &[Stop], others: &[Stop]) -> usize
    ensures within { result ≤ length stops.now }
    ensures among { result ≤ length others.now }
    ensures joined { (is_first : Bool) → joined is_first stops.now others.now ≡ take result stops.now ++ parted is_first (drop result stops.now) (drop result others.now) }
{
    let mut count = 0;
    'common: while count < stops.len() && count < others.len() {
        if !is_common(&stops[count], &others[count]) {
            return count;
        }
        count += 1;
    }
    count
}

/// Two lists of stops in tree order, of which common first ones stand once, and then the rest of the first comes
/// before that of the second or behind it. Time and memory linear in their number.
pub(crate) fn joined(
    alloc: Global,
    is_first: bool,
    stops: &[Stop],
    others: &[Stop],
) -> Result<Vec<Stop>, Memory>
    ensures joined { IfOk result (λ all. all.items ≡ joined is_first stops.now others.now) }
{
    let count = common_count(stops, others);
    let mut all = Vec::from_slice(alloc, &stops[..count])?;
    if is_first {
        all.extend_from_slice(&stops[count..])?;
        all.extend_from_slice(&others[count..])?;
    } else {
        all.extend_from_slice(&others[count..])?;
        all.extend_from_slice(&stops[count..])?;
    }
    Ok(all)
}
