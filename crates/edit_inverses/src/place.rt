//! The places of nodes, told by their paths.

ghost use Rattle.std.specs.Prelude.{◌≡◌, ◌<◌, ℕ, IfOk, Some, slice_get};
ghost use Rattle.node_arena.specs.AtPaths.{once_out};
ghost use Rattle.edit_inverses.specs.Inverses.{last_position, once_in, parent_path};
ghost use Rattle.edit_inverses.specs.Places.{position_below};

use plain_types::memory::Memory;
use std::alloc::Global;

/// The path of a node's parent, and the node's index. Of the root's path it says nothing of use.
pub(crate) fn place_of(path: &[usize]) -> (&[usize], usize)
    ensures parent { result.0.now ≡ parent_path path.now }
    ensures index { result.1 ≡ last_position path.now }
{
    match path.split_last() {
        Some((index, parent)) => (parent, *index),
        None => (path, 0),
    }
}

/// The position that a path has among the children of the node at another, where it leads to one of these or under it.
fn position_below(parent: &[usize], path: &[usize]) -> Option<usize>
    ensures { result ≡ position_below parent.now path.now }
{
    if path.starts_with(parent) {
        return path.get(parent.len()).copied();
    }
    None
}

/// Where a path leads once a node has come to stand at another. Each position of the path has one behind it.
pub(crate) fn once_in(alloc: Global, come: &[usize], path: &[usize]) -> Result<Vec<usize>, Memory>
    requires { (level position : ℕ) → slice_get path.now level ≡ Some position → position < usize.MAX }
    ensures path { IfOk result (λ steps. steps.items ≡ once_in come.now path.now) }
{
    let mut steps = Vec::from_slice(alloc, path)?;
    let Some((index, parent)) = come.split_last() else {
        return Ok(steps);
    };
    let Some(position) = position_below(parent, path) else {
        return Ok(steps);
    };
    if position < *index {
        return Ok(steps);
    }
    steps[parent.len()] = position + 1;
    Ok(steps)
}

/// Where a path leads once the node at another is taken out.
pub(crate) fn once_out(alloc: Global, gone: &[usize], path: &[usize]) -> Result<Vec<usize>, Memory>
    ensures path { IfOk result (λ steps. steps.items ≡ once_out gone.now path.now) }
{
    let mut steps = Vec::from_slice(alloc, path)?;
    let Some((index, parent)) = gone.split_last() else {
        return Ok(steps);
    };
    let Some(position) = position_below(parent, path) else {
        return Ok(steps);
    };
    if position <= *index {
        return Ok(steps);
    }
    steps[parent.len()] = position - 1;
    Ok(steps)
}
