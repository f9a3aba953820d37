//! Counters by name.

ghost use Rattle.std.proofs.Common.{rules};
ghost use Rattle.std.specs.Hash as fed;
ghost use Rattle.std.specs.Prelude.{◌++◌};
ghost use Rattle.std.specs.Cmp.Rules.{hashing};

use plain_types::box_id::BoxId;
use std::hash::{Hash, Hasher};

/// A counter: the box that created it, and its name (CSS Lists 3, 4).
#[derive(Clone, Copy, PartialEq, Eq)]
pub struct CounterId<'a> {
    pub creator: BoxId,
    pub name: &'a str,
}

// Of the creator the element alone is hashed: it has few boxes.
impl<'a> Hash for CounterId<'a> {
    ghost hash_input = { λ counter. fed.usize counter.creator.key ++ fed.str counter.name.now };

    ghost respects_eq = { Prim.search (hashing, rules) };

    fn hash<H: Hasher>(&self, state: &mut H) {
        self.creator.key.hash(state);
        self.name.hash(state);
    }
}
