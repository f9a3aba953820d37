//! Counting the siblings of all children of an element at once.

ghost use Rattle.std.specs.Prelude.{◌≡◌, ◌+◌, ◌<◌, ◌^◌, ℕ, List, [], OnOk, cond, not};
ghost use Rattle.std.specs.Borrow.{Bor};
ghost use Rattle.std.specs.Str.{bytes_eq};
ghost use Rattle.forest.specs.Spots.{IsLive};
ghost use Rattle.selector_match.specs.Positions.{siblings};
ghost use Rattle.selector_match.specs.Machinery.Kept.{AreCounts, times_passed};
ghost use Rattle.selector_match.specs.Machinery.Lookups.{IsElement, standing_at};
ghost use Rattle.selector_match.specs.Machinery.Sides.{is_later};

use crate::kept::Count;
use crate::neighbours::element_beside;
use crate::side::{Side, opposite};
use indexmap::IndexMap;
use node_arena::arena::Arena;
use node_arena::laws::arena_holds_document;
use plain_types::memory::Memory;
use std::alloc::Global;

/// The names of elements that were passed, each with how often.
#[derive(Drop)]
struct Passed<'a> {
    by_name: IndexMap<&'a str, usize>,
}

impl<'a> Passed<'a> {
    /// No names.
    fn new(alloc: Global) -> Passed<'a>
        ensures { result.by_name.entries ≡ [] }
    {
        Passed {
            by_name: IndexMap::new(alloc),
        }
    }

    /// How often this name was passed.
    fn times(&self, name: &'a str) -> usize
        ensures { result ≡ times_passed self.now.by_name.entries name.entry }
    {
        match self.by_name.get(&name) {
            Some(times) => *times,
            None => 0,
        }
    }

    /// Passes a name.
    fn pass(&mut self, name: &'a str) -> Result<(), Memory>
        requires few { times_passed self.old.by_name.entries name + 1 < 2 ^ 64 }
        ensures ok { OnOk result ((other : Bor (List ℕ)) → times_passed self.new.by_name.entries other ≡ times_passed self.old.by_name.entries other + cond (bytes_eq name.now other.now) 1 0) }
    {
        let times = self.times(name);
        self.by_name.insert(name, times + 1)?;
        Ok(())
    }
}

/// The last element on a side of this one among its siblings, or this one.
pub(crate) fn outermost(arena: &Arena, key: usize, side: Side) -> usize
    requires live { IsLive arena.now.tree key }
    requires element { IsElement arena.now.tree key }
    ensures live { IsLive arena.now.tree result }
    ensures element { IsElement arena.now.tree result }
    ensures outermost { siblings (is_later side) (standing_at arena.now.tree result).level ≡ [] }
{
    let mut at = key;
    'beside: while let Some(beside) = element_beside(arena, at, side) {
        at = beside;
    }
    at
}

/// Keeps the counts on a side of this element and of all its siblings. What was kept before memory was refused
/// stays. Time linear in the number of siblings.
pub(crate) fn keep_counts(
    alloc: Global,
    kept: &mut IndexMap<usize, Count>,
    arena: &Arena,
    key: usize,
    side: Side,
) -> Result<(), Memory>
    requires live { IsLive arena.now.tree key }
    requires element { IsElement arena.now.tree key }
    requires counts { AreCounts arena.now.tree (is_later side) kept.old.entries }
    ensures counts { AreCounts arena.now.tree (is_later side) kept.new.entries }
{
    arena_holds_document(arena);
    let mut passed = Passed::new(alloc);
    let mut all = 0;
    let mut at = outermost(arena, key, side);
    'along: while let Some(name) = arena.name(at) {
        let of_type = passed.times(name);
        kept.insert(at, Count { all, of_type })?;
        passed.pass(name)?;
        all += 1;
        match element_beside(arena, at, opposite(side)) {
            Some(next) => at = next,
            None => return Ok(()),
        }
    }
    Ok(())
}
