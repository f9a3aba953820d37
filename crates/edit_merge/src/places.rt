//! The two paths of a move.

ghost use Rattle.std.specs.Prelude.{◌≡◌, ◌++◌, ◌∷◌, [], ◌<◌, IfOk};
ghost use Rattle.merged_walk.specs.EditStops.{is_before, old_index};

use plain_types::memory::Memory;
use std::alloc::Global;

/// The path of a child, by the path of its parent and its index. Time linear in the path.
pub(crate) fn child_path(
    alloc: Global,
    parent: &[usize],
    index: usize,
) -> Result<Vec<usize>, Memory>
    ensures path { IfOk result (λ path. path.items ≡ parent.now ++ index ∷ []) }
{
    let mut path = Vec::from_slice(alloc, parent)?;
    path.push(index)?;
    Ok(path)
}

/// Whether a path leads to a node before the place that another names, and not to that place or into it. Time linear
/// in the shorter path.
pub(crate) fn is_before(path: &[usize], place: &[usize]) -> bool
    ensures before { result ≡ is_before path.now place.now }
{
    for index in 0..path.len().min(place.len()) {
        let step = path[index];
        let position = place[index];
        if step != position {
            return step < position;
        }
    }
    false
}

/// The index at which a moved node comes, counted among its siblings before the move: one more where the node goes
/// from before it. Time linear in the paths.
pub(crate) fn old_index(from: &[usize], parent: &[usize], index: usize) -> usize
    requires fits { index < usize.MAX }
    ensures index { result ≡ old_index from.now parent.now index }
{
    let Some((gone, above)) = from.split_last() else {
        return index;
    };
    if above != parent {
        return index;
    }
    if *gone < index {
        return index + 1;
    }
    index
}
