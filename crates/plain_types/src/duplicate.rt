//! Copies that may want memory.

ghost use Rattle.std.specs.Prelude.{◌≡◌, IfOk};

use crate::memory::Memory;
use std::alloc::Global;

/// A value that can be copied.
pub trait Duplicate {
    /// A copy of its own, equal to its source as contracts see both. It takes memory of the size of
    /// the value, and time linear in it; `Memory` where that is wanting.
    fn duplicate(&self, alloc: Global) -> Result<Self, Memory>
    where
        Self: Sized,
        ensures same { IfOk result (λ copy. copy ≡ self.now) };
}
