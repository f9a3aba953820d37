//! Keeping what came of matching the left parts of selectors.

ghost use Rattle.std.specs.Prelude.{IfOk, IfSome, slice_get};
ghost use Rattle.std.specs.List.{All};
ghost use Rattle.forest.specs.Spots.{IsLive};
ghost use Rattle.selector_match.specs.Machinery.Kept.{AreRight};
ghost use Rattle.selector_match.specs.Machinery.Lookups.{IsElement, IsElementThere, standing_at};
ghost use Rattle.selector_match.specs.Machinery.Outcomes.{IsOutcome};

use crate::counting::outermost;
use crate::element::Element;
use crate::kept::Kept;
use crate::matching::{is_in_row, outcome_before};
use crate::neighbours::element_beside;
use crate::outcomes::LeftPart;
use crate::side::Side;
use node_arena::arena::Arena;
use node_arena::laws::arena_holds_document;
use plain_types::memory::Memory;
use std::alloc::Global;

/// What comes of matching a left part before an element.
fn outcome_there(kept: &Kept, arena: &Arena, number: usize, key: usize) -> Option<Option<usize>>
    requires live { IsLive arena.now.tree key }
    requires right { AreRight arena.now.tree kept.now }
    ensures outcome { IfSome result (λ outcome. IfSome (slice_get kept.now.outcomes.parts.items number) (λ outcomes. IsOutcome outcomes.part.selector outcomes.part.place (standing_at arena.now.tree key) outcome)) }
{
    let element = Element::of(arena, kept, key)?;
    let outcomes = kept.outcomes.parts.get(number)?;
    outcome_before(&outcomes.part.selector, outcomes.part.place, &element)
}

/// Keeps the outcome for one element. It answers whether the walk to it found kept what it asked for.
fn keep_one(kept: &mut Kept, arena: &Arena, number: usize, key: usize) -> Result<bool, Memory>
    requires live { IsLive arena.now.tree key }
    requires right { AreRight arena.now.tree kept.old }
    ensures right { AreRight arena.now.tree kept.new }
{
    let Some(outcome) = outcome_there(kept, arena, number, key) else {
        return Ok(false);
    };
    kept.outcomes.put(number, key, outcome)?;
    Ok(!kept.outcomes.take_missed())
}

/// Keeps the outcomes for an element and all its siblings, from the first, as long as walks find kept what they ask for.
/// It answers whether all did.
fn keep_row(kept: &mut Kept, arena: &Arena, number: usize, key: usize) -> Result<bool, Memory>
    requires live { IsLive arena.now.tree key }
    requires element { IsElement arena.now.tree key }
    requires right { AreRight arena.now.tree kept.old }
    ensures right { AreRight arena.now.tree kept.new }
{
    let mut at = outermost(arena, key, Side::Earlier);
    'along: loop {
        if !keep_one(kept, arena, number, at)? {
            return Ok(false);
        }
        match element_beside(arena, at, Side::Later) {
            Some(next) => at = next,
            None => return Ok(true),
        }
    }
}

/// The nearest ancestors of an element, from itself, for which no outcome is kept, up to one for which one is.
fn lacking(
    alloc: Global,
    kept: &Kept,
    arena: &Arena,
    number: usize,
    key: usize,
) -> Result<Vec<usize>, Memory>
    requires live { IsLive arena.now.tree key }
    ensures elements { IfOk result (λ path. All (IsElementThere arena.now.tree) path.items) }
{
    arena_holds_document(arena);
    let mut path = Vec::new(alloc);
    let Some(_name) = arena.name(key) else {
        return Ok(path);
    };
    let mut at = key;
    'up: while !kept.outcomes.has(number, at) {
        path.push(at)?;
        match arena.parent(at) {
            Some(parent) => at = parent,
            None => return Ok(path),
        }
    }
    Ok(path)
}

/// Whether a left part is followed by `~`.
fn is_of_row(kept: &Kept, number: usize) -> bool {
    match kept.outcomes.parts.get(number) {
        Some(outcomes) => is_in_row(&outcomes.part.selector, outcomes.part.place),
        None => false,
    }
}

/// Keeps the outcomes of a left part for an element and its ancestors, and where `~` follows it for all their siblings.
/// From the topmost on each walk finds near what was kept just before; where one asks for an outcome of another left part
/// that is not kept, that is to be kept first, and nothing more is kept here. Nor is it once memory was refused.
fn keep_part(
    alloc: Global,
    kept: &mut Kept,
    arena: &Arena,
    part: LeftPart,
    key: usize,
) -> Result<(), Memory>
    requires live { IsLive arena.now.tree key }
    requires right { AreRight arena.now.tree kept.old }
    ensures right { AreRight arena.now.tree kept.new }
{
    let _before = kept.outcomes.take_missed();
    let number = kept.outcomes.place_of(part)?;
    let mut path = lacking(alloc, kept, arena, number, key)?;
    let in_row = is_of_row(kept, number);
    'down: while let Some(at) = path.pop() {
        let found = if in_row {
            keep_row(kept, arena, number, at)?
        } else {
            keep_one(kept, arena, number, at)?
        };
        if !found {
            return Ok(());
        }
    }
    Ok(())
}

/// Keeps the outcomes of these left parts, the last first, as far as there is memory. Where many are kept already, all are
/// let go.
pub(crate) fn keep_parts(
    alloc: Global,
    kept: &mut Kept,
    arena: &Arena,
    mut parts: Vec<LeftPart>,
    key: usize,
)
    requires live { IsLive arena.now.tree key }
    requires right { AreRight arena.now.tree kept.old }
    ensures right { AreRight arena.now.tree kept.new }
{
    if parts.is_empty() {
        return;
    }
    'parts: while let Some(part) = parts.pop() {
        if kept.outcomes.are_many() {
            kept.outcomes.let_go();
            return;
        }
        let _refused = keep_part(alloc, kept, arena, part, key);
    }
    kept.outcomes.settle();
}
