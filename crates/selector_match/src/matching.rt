//! Complex selectors (Selectors 4, 3.1 and 14).

ghost use Rattle.std.specs.Prelude.{◌≡◌, ◌≢◌, ◌&&◌, ◌+◌, ◌≤◌, Some, IfSome, IfNone, false, true, length};
ghost use Rattle.forest.specs.Spots.{IsLive};
ghost use Rattle.selector_match.specs.Matching.{matches, matches_compound};
ghost use Rattle.selector_match.specs.Machinery.Outcomes.{IsOutcome};
ghost use Rattle.selector_match.specs.Machinery.Walks.{EndsRow, IsNearestAncestor, IsNearestSibling, IsRowDone, IsStep, join_before, matched_before};

use crate::compounds::matches_compound;
use crate::element::Element;
use crate::siblings::Siblings;
use plain_types::selector::{Compound, Selector};
use plain_types::selector_parts::Join;

/// So many siblings or ancestors that do not match are passed by, one after the other, before it is asked what is kept.
const NEAR: usize = 16;

/// Whether it is asked what is kept, after so many were passed by: when they are so many, and as many as the selector has
/// compounds, and then each time that they are twice as many. To ask takes as long as the selector.
fn is_asked(selector: &Selector, passed: usize) -> bool {
    passed >= NEAR && passed >= selector.compounds.len() && passed.is_power_of_two()
}

/// What is kept of an element of which the compounds before this place are to be matched, where it is asked.
fn recalled(
    selector: &Selector,
    element: &Element<'_>,
    place: usize,
    passed: usize,
) -> Option<Option<usize>>
    ensures { IfSome result (IsOutcome selector.now place element.now) }
{
    if is_asked(selector, passed) {
        element.outcome(selector, place, passed)
    } else {
        None
    }
}

/// Whether the compounds before this place are matched before an element, all of them, where that is kept and asked.
fn recalled_whole(
    selector: &Selector,
    element: &Element<'_>,
    place: usize,
    passed: usize,
) -> Option<bool>
    ensures { IfSome result (λ matched. matched ≡ matched_before selector.now place element.now) }
{
    match recalled(selector, element, place, passed)? {
        None => Some(false),
        Some(0) => Some(true),
        Some(_) => None,
    }
}

/// The compound before that of this place, where this combinator stands between the two.
fn compound_before(selector: &Selector, place: usize, join: Join) -> Option<&Compound>
    requires place { place ≤ length selector.now.joins }
    requires whole { length selector.now.compounds ≡ length selector.now.joins + 1 }
    ensures some { IfSome result (λ compound. IsStep selector.now place join compound.now) }
    ensures none { IfNone result (join_before selector.now place ≢ Some join) }
{
    if place == 0 || selector.joins.as_slice()[place - 1] != join {
        return None;
    }
    Some(&selector.compounds.as_slice()[place - 1])
}

/// From an element that matches the compound of this place back over the `+` before it: the last element
/// and the place of its compound.
fn match_previous_siblings<'a>(
    selector: &Selector,
    element: &Element<'a>,
    place: usize,
) -> Option<(Element<'a>, usize)>
    requires place { place ≤ length selector.now.joins }
    requires whole { length selector.now.compounds ≡ length selector.now.joins + 1 }
    ensures some { IfSome result (IsNearestSibling selector.now place element.now) }
    ensures none { IfNone result (matched_before selector.now place element.now ≡ false) }
{
    let mut at = element.same();
    let mut left = place;
    'previous: while let Some(compound) = compound_before(selector, left, Join::Next) {
        at = at.previous_sibling()?;
        if !matches_compound(&at, compound) {
            return None;
        }
        left -= 1;
    }
    Some((at, left))
}

/// Whether the element matches the compound of this place, and back over the `+` before it so do its
/// siblings: the last element and the place of its compound.
fn match_from_sibling<'a>(
    selector: &Selector,
    element: &Element<'a>,
    place: usize,
    compound: &Compound,
) -> Option<(Element<'a>, usize)>
    requires place { place ≤ length selector.now.joins }
    requires whole { length selector.now.compounds ≡ length selector.now.joins + 1 }
    ensures some { IfSome result (IsNearestSibling selector.now place element.now) }
    ensures yes { IfSome result (λ _. matches_compound element.now compound.now ≡ true) }
    ensures none { IfNone result ((matches_compound element.now compound.now && matched_before selector.now place element.now) ≡ false) }
{
    if !matches_compound(element, compound) {
        return None;
    }
    match_previous_siblings(selector, element, place)
}

/// From an element that matches the compound of this place back over the `+` and `~` before it: the place
/// of the first compound of this row of siblings. At each `~` the nearest sibling is taken from which the
/// `+` before it hold; no other could do better.
fn match_earlier_siblings(selector: &Selector, element: &Element<'_>, place: usize) -> Option<usize>
    requires place { place ≤ length selector.now.joins }
    requires whole { length selector.now.compounds ≡ length selector.now.joins + 1 }
    ensures some { IfSome result (EndsRow selector.now place element.now) }
    ensures none { IfNone result (matched_before selector.now place element.now ≡ false) }
{
    let (mut at, mut left) = match_previous_siblings(selector, element, place)?;
    let mut passed: usize = 0;
    'earlier: while let Some(compound) = compound_before(selector, left, Join::Later) {
        at = at.previous_sibling()?;
        if let Some((end, rest)) = match_from_sibling(selector, &at, left - 1, compound) {
            at = end;
            left = rest;
            passed = 0;
            continue;
        }
        passed = passed.saturating_add(1);
        if let Some(outcome) = recalled(selector, &at, left, passed) {
            return outcome;
        }
    }
    Some(left)
}

/// Whether the element matches the compound of this place, and its siblings those before it in its row: the
/// place of the first compound of the row.
fn match_with_siblings(
    selector: &Selector,
    element: &Element<'_>,
    place: usize,
    compound: &Compound,
) -> Option<usize>
    requires place { place ≤ length selector.now.joins }
    requires whole { length selector.now.compounds ≡ length selector.now.joins + 1 }
    ensures some { IfSome result (EndsRow selector.now place element.now) }
    ensures yes { IfSome result (λ _. matches_compound element.now compound.now ≡ true) }
    ensures none { IfNone result ((matches_compound element.now compound.now && matched_before selector.now place element.now) ≡ false) }
{
    if !matches_compound(element, compound) {
        return None;
    }
    match_earlier_siblings(selector, element, place)
}

/// From an element whose row ends at this place up over the `>` before it, each with its row: the last
/// element and the place where its row ends.
fn match_parents<'a>(
    selector: &Selector,
    element: &Element<'a>,
    place: usize,
) -> Option<(Element<'a>, usize)>
    requires place { place ≤ length selector.now.joins }
    requires whole { length selector.now.compounds ≡ length selector.now.joins + 1 }
    requires row_done { IsRowDone selector.now place }
    ensures some { IfSome result (IsNearestAncestor selector.now place element.now) }
    ensures none { IfNone result (matched_before selector.now place element.now ≡ false) }
{
    let mut at = element.same();
    let mut left = place;
    'parents: while let Some(compound) = compound_before(selector, left, Join::Child) {
        at = at.parent()?;
        left = match_with_siblings(selector, &at, left - 1, compound)?;
    }
    Some((at, left))
}

/// Whether the element matches the compound of this place with its row, and up over the `>` before it so do
/// its ancestors: the last element and the place where its row ends.
fn match_from_ancestor<'a>(
    selector: &Selector,
    element: &Element<'a>,
    place: usize,
    compound: &Compound,
) -> Option<(Element<'a>, usize)>
    requires place { place ≤ length selector.now.joins }
    requires whole { length selector.now.compounds ≡ length selector.now.joins + 1 }
    ensures some { IfSome result (IsNearestAncestor selector.now place element.now) }
    ensures yes { IfSome result (λ _. matches_compound element.now compound.now ≡ true) }
    ensures none { IfNone result ((matches_compound element.now compound.now && matched_before selector.now place element.now) ≡ false) }
{
    let left = match_with_siblings(selector, element, place, compound)?;
    match_parents(selector, element, left)
}

/// Whether from an element whose row ends at this place the compounds before it are met by its ancestors.
/// At each descendant combinator the nearest ancestor is taken from which the `>` before it hold; no other
/// could do better.
fn match_ancestors(selector: &Selector, element: &Element<'_>, place: usize) -> bool
    requires place { place ≤ length selector.now.joins }
    requires whole { length selector.now.compounds ≡ length selector.now.joins + 1 }
    requires row_done { IsRowDone selector.now place }
    ensures { result ≡ matched_before selector.now place element.now }
{
    let Some((mut at, mut left)) = match_parents(selector, element, place) else {
        return false;
    };
    let mut passed: usize = 0;
    'ancestors: while let Some(compound) = compound_before(selector, left, Join::Descendant) {
        match at.parent() {
            Some(parent) => at = parent,
            None => return false,
        }
        if let Some((end, rest)) = match_from_ancestor(selector, &at, left - 1, compound) {
            at = end;
            left = rest;
            passed = 0;
            continue;
        }
        passed = passed.saturating_add(1);
        if let Some(matched) = recalled_whole(selector, &at, left, passed) {
            return matched;
        }
    }
    true
}

/// Whether `~` follows the compounds before this place.
pub(crate) fn is_in_row(selector: &Selector, place: usize) -> bool {
    match place.checked_sub(1) {
        Some(before) => selector.joins.as_slice().get(before) == Some(&Join::Later),
        None => false,
    }
}

/// What comes of matching the compounds before this place before the element: where `~` follows them the place where
/// its row ends, and else the beginning, where its ancestors are matched too; or nothing where they are not matched. A
/// selector of another shape has no such compounds.
pub(crate) fn outcome_before(
    selector: &Selector,
    place: usize,
    element: &Element<'_>,
) -> Option<Option<usize>>
    ensures { IfSome result (IsOutcome selector.now place element.now) }
{
    let joins = selector.joins.len();
    if place > joins || selector.compounds.len().checked_sub(1) != Some(joins) {
        return None;
    }
    let Some(left) = match_earlier_siblings(selector, element, place) else {
        return Some(None);
    };
    if is_in_row(selector, place) {
        return Some(Some(left));
    }
    if match_ancestors(selector, element, left) {
        Some(Some(0))
    } else {
        Some(None)
    }
}

/// Whether the selector matches the element, its pseudo-element aside. A text is matched by no selector,
/// and nothing by a selector without compounds or whose combinators are not one less.
///
/// It takes memory only to note what is missing, and does without where that is refused. Its time is at most that of the
/// tests of all compounds on all ancestors and, where there are `+` and `~`, on all earlier siblings of each of these.
/// Where [`Siblings::keep`] has kept what comes of matching before them, a chain of these is left after some dozens that
/// do not match, or a few times as many as the selector has compounds. A test of a position takes constant time where
/// `keep` has counted the siblings, and else their number; `*=` takes the product of the two lengths; every other test
/// takes the length of attribute and value.
pub fn matches(siblings: &Siblings<'_>, key: usize, selector: &Selector) -> bool
    requires { IsLive siblings.now key }
    ensures matches { result ≡ matches siblings.now key selector.now }
{
    let Some(element) = siblings.element(key) else {
        return false;
    };
    let Some(last) = selector.compounds.len().checked_sub(1) else {
        return false;
    };
    if selector.joins.len() != last {
        return false;
    }
    match match_with_siblings(
        selector,
        &element,
        last,
        &selector.compounds.as_slice()[last],
    ) {
        Some(left) => match_ancestors(selector, &element, left),
        None => false,
    }
}
