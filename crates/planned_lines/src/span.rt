//! The part of a document in which a planned edit changes lines.

ghost use Rattle.std.specs.Prelude.{◌≤◌, ℕ, IfNone, IfSome};
ghost use Rattle.forest.specs.Order.{place_of};
ghost use Rattle.forest.specs.Spots.{IsLive};
ghost use Rattle.dirty_walk.specs.Plans.{AreOfElements};
ghost use Rattle.kept_elements.specs.Changes.{puts_of};
ghost use Rattle.planned_lines.specs.Spans.{HasEnds, IsWithin, AreWithin, ShowNoOthers};

use kept_elements::kept_change::KeptChange;
use node_arena::arena::Arena;

/// The nodes of a document from one to another, in tree order.
#[derive(Clone, Copy)]
pub(crate) struct Span {
    pub(crate) first: usize,
    pub(crate) last: usize,
}

/// Of two nodes the one that comes first in tree order.
fn earlier(arena: &Arena, one: usize, other: usize) -> usize
    requires one { IsLive arena.now.tree one }
    requires other { IsLive arena.now.tree other }
    ensures live { IsLive arena.now.tree result }
    ensures one { place_of arena.now.tree result ≤ place_of arena.now.tree one }
    ensures other { place_of arena.now.tree result ≤ place_of arena.now.tree other }
{
    if arena.precedes(one, other) {
        one
    } else {
        other
    }
}

/// Of two nodes the one that comes last in tree order.
fn later(arena: &Arena, one: usize, other: usize) -> usize
    requires one { IsLive arena.now.tree one }
    requires other { IsLive arena.now.tree other }
    ensures live { IsLive arena.now.tree result }
    ensures one { place_of arena.now.tree one ≤ place_of arena.now.tree result }
    ensures other { place_of arena.now.tree other ≤ place_of arena.now.tree result }
{
    if arena.precedes(one, other) {
        other
    } else {
        one
    }
}

/// The least span with all nodes of this one and a node.
fn wider(arena: &Arena, span: Option<Span>, key: usize) -> Span
    requires live { IsLive arena.now.tree key }
    requires ends { IfSome span (HasEnds arena.now.tree) }
    ensures ends { HasEnds arena.now.tree result }
    ensures node { IsWithin arena.now.tree result key }
    ensures nodes { IfSome span (λ span. (other : ℕ) → IsWithin arena.now.tree span other → IsWithin arena.now.tree result other) }
{
    match span {
        Some(span) => {
            let first = earlier(arena, span.first, key);
            let last = later(arena, span.last, key);
            Span { first, last }
        }
        None => Span {
            first: key,
            last: key,
        },
    }
}

/// The least span with all elements that show another text by what is put; none where none does. It takes no memory, and for
/// each of them time linear in the greatest depth of any.
pub(crate) fn span_of(arena: &Arena, puts: &[(usize, KeptChange)]) -> Option<Span>
    requires elements { AreOfElements arena.now.tree (puts_of puts.now) }
    ensures ends { IfSome result (HasEnds arena.now.tree) }
    ensures puts { IfSome result (λ span. AreWithin arena.now.tree span puts.now) }
    ensures none { IfNone result (ShowNoOthers puts.now) }
{
    let mut span = None;
    for (key, change) in puts {
        if change.shows_other {
            span = Some(wider(arena, span, *key));
        }
    }
    span
}
