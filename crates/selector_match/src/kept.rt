//! What is kept for elements: counts of siblings, and what came of matching left parts of selectors.

ghost use Rattle.std.specs.Prelude.{◌≡◌, [], nat_eq, IfSome};
ghost use Rattle.std.specs.Map.{lookup};
ghost use Rattle.forest.specs.Spots.{IsLive};
ghost use Rattle.selector_match.specs.Machinery.Kept.{count_in, kept_on};
ghost use Rattle.selector_match.specs.Machinery.Lookups.{IsElement};
ghost use Rattle.selector_match.specs.Machinery.Sides.{is_later};

use crate::outcomes::Outcomes;
use crate::side::Side;
use indexmap::IndexMap;
use node_arena::arena::Arena;
use node_arena::laws::arena_holds_document;
use std::alloc::Global;
use std::cell::Cell;

/// So many counts may be missing before any is kept: an edit that touches few elements asks for few, and to keep the
/// counts of all children of an element takes longer than to count for some of them.
const FEW: usize = 16;

/// How many siblings on one side of an element count.
#[derive(Clone, Copy)]
pub(crate) struct Count {
    pub(crate) all: usize,
    /// Those of its name.
    pub(crate) of_type: usize,
}

impl Count {
    /// All, or those of the element's name.
    pub(crate) fn of(self, same_type: bool) -> usize
        ensures { result ≡ count_in self same_type }
    {
        if same_type { self.of_type } else { self.all }
    }
}

/// The counts that are kept, under the keys of the elements, and the side on which one was asked for that is not; and
/// the outcomes.
#[derive(Drop)]
pub(crate) struct Kept {
    pub(crate) earlier: IndexMap<usize, Count>,
    pub(crate) later: IndexMap<usize, Count>,
    missed: Cell<Option<Side>>,
    /// How often one was missing, up to `FEW`.
    misses: Cell<usize>,
    pub(crate) outcomes: Outcomes,
}

impl Kept {
    /// Nothing. It takes no memory.
    pub(crate) fn new(alloc: Global) -> Kept
        ensures earlier { result.earlier.entries ≡ [] }
        ensures later { result.later.entries ≡ [] }
        ensures outcomes { result.outcomes.parts.items ≡ [] }
    {
        Kept {
            earlier: IndexMap::new(alloc),
            later: IndexMap::new(alloc),
            missed: Cell::new(None),
            misses: Cell::new(0),
            outcomes: Outcomes::new(alloc),
        }
    }

    /// The count of an element on a side. One that is missing is noted.
    pub(crate) fn count(&self, key: usize, side: Side) -> Option<Count>
        ensures { result ≡ lookup (nat_eq key) (kept_on (is_later side) self.now) }
    {
        let count = self.on(side).get(&key);
        if count.is_none() {
            self.missed.set(Some(side));
        }
        count.copied()
    }

    /// What is kept on a side.
    fn on(&self, side: Side) -> &IndexMap<usize, Count>
        ensures { result.now.entries ≡ kept_on (is_later side) self.now }
    {
        match side {
            Side::Earlier => &self.earlier,
            Side::Later => &self.later,
        }
    }

    /// The side on which a count was missing, where one was since this was asked, and it is not among the first few.
    pub(crate) fn take_missed(&self) -> Option<Side> {
        let side = self.missed.take()?;
        let misses = self.misses.get();
        if misses < FEW {
            self.misses.set(misses + 1);
            return None;
        }
        Some(side)
    }

    /// The nearest element of which no count is kept on a side: this one or an ancestor.
    pub(crate) fn nearest_without(&self, arena: &Arena, key: usize, side: Side) -> Option<usize>
        requires { IsLive arena.now.tree key }
        ensures live { IfSome result (IsLive arena.now.tree) }
        ensures element { IfSome result (IsElement arena.now.tree) }
    {
        arena_holds_document(arena);
        arena.name(key)?;
        let mut at = key;
        'up: while self.on(side).contains_key(&at) {
            at = arena.parent(at)?;
        }
        Some(at)
    }
}
