//! What is kept of what an element is handed.

ghost use Rattle.std.specs.Prelude.{◌≡◌, ◌↔◌, IfOk, IsTrue};

use crate::surroundings::{Surroundings, is_handed_the_same, share_handed};
use plain_types::memory::Memory;
use std::alloc::Global;

/// What an element was handed, and what was handed on behind its children. In an element without a box nothing is
/// handed: there both are none, and `behind` is none for an element that has no box itself.
pub struct Walked {
    pub handed: Option<Surroundings>,
    pub behind: Option<Surroundings>,
}

impl Drop for Walked {
    fn drop(self) {
        let Walked {
            handed: _,
            behind: _,
        } = self;
    }
}

impl Walked {
    /// The same once more, as by [`Surroundings::share`].
    pub fn share(&self, alloc: Global) -> Result<Walked, Memory>
        ensures same { IfOk result (λ walked. walked ≡ self.now) }
    {
        Ok(Walked {
            handed: share_handed(alloc, self.handed.as_ref())?,
            behind: share_handed(alloc, self.behind.as_ref())?,
        })
    }

    /// Whether both are the same. It takes no memory, and time linear in the sets' lengths.
    pub fn is_same(&self, other: &Walked) -> bool
        ensures test { IsTrue result ↔ (self.now ≡ other.now) }
    {
        is_handed_the_same(self.handed.as_ref(), other.handed.as_ref())
            && is_handed_the_same(self.behind.as_ref(), other.behind.as_ref())
    }
}
