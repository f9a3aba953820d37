//! The elements of a document, as selectors see them (Selectors 4, 3.2).

ghost use Rattle.std.specs.Prelude.{◌≡◌, ◌∷◌, not, [], IfSome, IfNone, option_map, option_copied};
ghost use Rattle.std.specs.Str.{bytes_eq, chars};
ghost use Rattle.forest.specs.Spots.{IsLive};
ghost use Rattle.plain_types.specs.Attributes.{value_of};
ghost use Rattle.selector_match.specs.Elements.{ancestors, earlier_siblings, is_root, standing_of};
ghost use Rattle.selector_match.specs.Positions.{is_counted, sibling_count, siblings};
ghost use Rattle.selector_match.specs.Machinery.Kept.{AreRight};
ghost use Rattle.selector_match.specs.Machinery.Outcomes.{IsOutcome};
ghost use Rattle.selector_match.specs.Machinery.Sides.{is_later};

use crate::kept::Kept;
use crate::neighbours::{element_beside, is_empty};
use crate::side::Side;
use node_arena::arena::Arena;
use node_arena::laws::arena_holds_document;
use plain_types::selector::Selector;
use std::marker::Model;

/// An element of a document. A clause sees where it stands.
#[derive(Drop)]
pub(crate) struct Element<'a> {
    arena: &'a Arena,
    kept: &'a Kept,
    key: usize,
}

impl<'a> Model for Element<'a> {
    ghost use Rattle.std.specs.Prelude.{true, [], IsSome, unwrap_or};
    ghost use Rattle.forest.specs.Spots.{IsLive};
    ghost use Rattle.selector_match.specs.Elements.{Standing, standing_of};
    ghost use Rattle.selector_match.specs.Machinery.Kept.{AreRight};

    ghost Value = { Standing };

    ghost view = { λ e. unwrap_or (standing_of e.arena.now.tree e.key)
        (record { level = record { element = record { name = []; attrs = []; is_empty = true }; earlier = []; later = [] }; above = [] }) };

    ghost invariant = { λ e. IsLive e.arena.now.tree e.key × IsSome (standing_of e.arena.now.tree e.key) × AreRight e.arena.now.tree e.kept.now };
}

impl<'a> Element<'a> {
    /// The element of this key; a text is none.
    pub(crate) fn of(arena: &'a Arena, kept: &'a Kept, key: usize) -> Option<Element<'a>>
        requires live { IsLive arena.now.tree key }
        requires right { AreRight arena.now.tree kept.now }
        ensures { result ≡ standing_of arena.now.tree key }
    {
        arena_holds_document(arena);
        if arena.name(key).is_none() {
            return None;
        }
        Some(Element { arena, kept, key })
    }

    /// The same element once more.
    pub(crate) fn same(&self) -> Element<'a>
        ensures { result ≡ self.now }
    {
        Element {
            arena: self.arena,
            kept: self.kept,
            key: self.key,
        }
    }

    /// The parent; the root has none.
    pub(crate) fn parent(&self) -> Option<Element<'a>>
        ensures some { IfSome result (λ parent. ancestors self.now ≡ parent ∷ ancestors parent) }
        ensures none { IfNone result (ancestors self.now ≡ []) }
    {
        arena_holds_document(self.arena);
        let key = self.arena.parent(self.key)?;
        Some(Element {
            arena: self.arena,
            kept: self.kept,
            key,
        })
    }

    pub(crate) fn is_root(&self) -> bool
        ensures { result ≡ is_root self.now }
    {
        arena_holds_document(self.arena);
        self.arena.parent(self.key).is_none()
    }

    /// The nearest element among the siblings after it, or among those before it. Time linear in the number of
    /// texts between.
    fn sibling(&self, side: Side) -> Option<Element<'a>>
        ensures onward { IfSome result (λ other. siblings (is_later side) self.now.level ≡ other.level.element ∷ siblings (is_later side) other.level) }
        ensures back { IfSome result (λ other. siblings (not (is_later side)) other.level ≡ self.now.level.element ∷ siblings (not (is_later side)) self.now.level) }
        ensures above { IfSome result (λ other. other.above ≡ self.now.above) }
        ensures none { IfNone result (siblings (is_later side) self.now.level ≡ []) }
    {
        let key = element_beside(self.arena, self.key, side)?;
        Some(Element {
            arena: self.arena,
            kept: self.kept,
            key,
        })
    }

    /// The nearest element before it among its siblings. Time linear in the number of texts between.
    pub(crate) fn previous_sibling(&self) -> Option<Element<'a>>
        ensures some { IfSome result (λ other. earlier_siblings self.now ≡ other ∷ earlier_siblings other) }
        ensures above { IfSome result (λ other. other.above ≡ self.now.above) }
        ensures none { IfNone result (earlier_siblings self.now ≡ []) }
    {
        self.sibling(Side::Earlier)
    }

    /// Whether it has this name, compared as written.
    pub(crate) fn is_named(&self, name: &str) -> bool
        ensures { result ≡ bytes_eq self.now.level.element.name (chars name.now) }
    {
        arena_holds_document(self.arena);
        self.arena.name(self.key) == Some(name)
    }

    /// The value of the attribute of this name, compared as written.
    pub(crate) fn attr(&self, name: &str) -> Option<&'a str>
        ensures { option_map chars (option_copied result) ≡ value_of (chars name.now) self.now.level.element.attrs }
    {
        arena_holds_document(self.arena);
        self.arena.attr(self.key, name)
    }

    /// Whether it has neither a child element nor a text with characters. Time linear in the number of its
    /// children that are empty texts.
    pub(crate) fn is_empty(&self) -> bool
        ensures { result ≡ self.now.level.element.is_empty }
    {
        arena_holds_document(self.arena);
        is_empty(self.arena, self.key)
    }

    /// Whether a sibling counts: any does, or one of the same name. Time linear in the names.
    fn is_counted(&self, sibling: &Element<'a>, same_type: bool) -> bool
        ensures { result ≡ is_counted same_type self.now.level.element sibling.now.level.element }
    {
        arena_holds_document(self.arena);
        arena_holds_document(sibling.arena);
        !same_type || sibling.arena.name(sibling.key) == self.arena.name(self.key)
    }

    /// How many siblings after it, or before it, count: all, or those of its name. Constant time where the count is
    /// kept; else time linear in the number of siblings.
    pub(crate) fn count_siblings(&self, side: Side, same_type: bool) -> usize
        ensures { result ≡ sibling_count (is_later side) same_type self.now.level }
    {
        match self.kept.count(self.key, side) {
            Some(count) => count.of(same_type),
            None => self.count_along(side, same_type),
        }
    }

    /// What came of matching the compounds of a selector before a place, before this element, where that is kept: the
    /// place where the row of its siblings ends, or nothing where they are not matched. It is asked after so many nodes
    /// were passed by.
    pub(crate) fn outcome(
        &self,
        selector: &Selector,
        place: usize,
        passed: usize,
    ) -> Option<Option<usize>>
        ensures { IfSome result (IsOutcome selector.now place self.now) }
    {
        self.kept.outcomes.get(self.key, selector, place, passed)
    }

    /// How many siblings after it, or before it, count, from one to the next. Time linear in the number of siblings.
    fn count_along(&self, side: Side, same_type: bool) -> usize
        ensures { result ≡ sibling_count (is_later side) same_type self.now.level }
    {
        arena_holds_document(self.arena);
        let mut count = 0;
        let mut at = self.same();
        'beside: while let Some(sibling) = at.sibling(side) {
            if self.is_counted(&sibling, same_type) {
                count += 1;
            }
            at = sibling;
        }
        count
    }
}
