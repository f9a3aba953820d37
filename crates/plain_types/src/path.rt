//! Paths of nodes.

ghost use Rattle.std.specs.Prelude.{◌≡◌, IfOk};

use crate::duplicate::Duplicate;
use crate::memory::Memory;
use std::alloc::Global;
use std::marker::Model;

/// The way from the root element down to a node: at each step the position of a child among all
/// children of its parent, from 0. The root's path is empty. Contracts see the list of positions.
#[derive(Drop)]
pub struct Path {
    steps: Vec<usize>,
}

impl Model for Path {
    ghost use Rattle.std.specs.Prelude.{List, ℕ};

    ghost Value = { List ℕ };

    ghost view = { λ path. path.steps.items };
}

impl Path {
    /// The path of these positions, in time linear in their number.
    pub fn of(alloc: Global, steps: &[usize]) -> Result<Path, Memory>
        ensures steps { IfOk result (λ path. path ≡ steps.now) }
    {
        Ok(Path {
            steps: Vec::from_slice(alloc, steps)?,
        })
    }

    /// The positions as a slice.
    pub fn as_slice(&self) -> &[usize]
        ensures steps { result.now ≡ self.now }
    {
        self.steps.as_slice()
    }
}

impl Duplicate for Path {
    fn duplicate(&self, alloc: Global) -> Result<Path, Memory> {
        Path::of(alloc, self.as_slice())
    }
}
