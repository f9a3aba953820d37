//! Selectors that are equal.

ghost use Rattle.std.specs.Prelude.{◌≡◌, IsTrue};

use plain_types::selector::{Compound, Selector, Simple};
use plain_types::selector_parts::{Join, PseudoElement};
use plain_types::text::Text;

/// Whether two texts are surely equal.
fn is_same_text(first: &Text, second: &Text) -> bool
    ensures { IsTrue result → first.now ≡ second.now }
{
    first.as_str() == second.as_str()
}

/// Whether two simple selectors are surely equal. It recurses on `:is()`, `:where()` and `:not()` alone.
#[cycle(same)]
fn is_same_simple(first: &Simple, second: &Simple) -> bool
    ensures { IsTrue result → first.now ≡ second.now }
{
    match first {
        Simple::Any => matches!(second, Simple::Any),
        Simple::Element(name) => {
            matches!(second, Simple::Element(other) if is_same_text(name, other))
        }
        Simple::Id(id) => matches!(second, Simple::Id(other) if is_same_text(id, other)),
        Simple::Class(class) =>
            matches!(second, Simple::Class(other) if is_same_text(class, other)),
        Simple::Root => matches!(second, Simple::Root),
        Simple::Empty => matches!(second, Simple::Empty),
        Simple::Never => matches!(second, Simple::Never),
        Simple::Attr {
            name,
            test,
            value,
            fold,
        } => {
            match second {
                Simple::Attr {
                    name: other_name,
                    test: other_test,
                    value: other_value,
                    fold: other_fold,
                } => {
                    *test == *other_test
                        && *fold == *other_fold
                        && is_same_text(name, other_name)
                        && is_same_text(value, other_value)
                }
                _ => false,
            }
        }
        Simple::Only { same_type } => {
            matches!(second, Simple::Only { same_type: other } if *same_type == *other)
        }
        Simple::Nth {
            a,
            b,
            from_end,
            same_type,
        } => {
            match second {
                Simple::Nth {
                    a: other_a,
                    b: other_b,
                    from_end: other_end,
                    same_type: other_type,
                } => {
                    *a == *other_a
                        && *b == *other_b
                        && *from_end == *other_end
                        && *same_type == *other_type
                }
                _ => false,
            }
        }
        Simple::Is(choices) => {
            matches!(second, Simple::Is(others) if are_same(choices.as_slice(), others.as_slice()))
        }
        Simple::Weightless(choices) => {
            matches!(second, Simple::Weightless(others) if are_same(choices.as_slice(), others.as_slice()))
        }
        Simple::Not(choices) => {
            matches!(second, Simple::Not(others) if are_same(choices.as_slice(), others.as_slice()))
        }
    }
}

/// Whether two compound selectors are surely equal.
#[cycle(same)]
fn is_same_compound(first: &Compound, second: &Compound) -> bool
    ensures { IsTrue result → first.now ≡ second.now }
{
    let others = second.simples.as_slice();
    if first.simples.len() != others.len() {
        return false;
    }
    let mut place = 0;
    for simple in first.simples.as_slice() {
        if !is_same_simple(simple, &others[place]) {
            return false;
        }
        place += 1;
    }
    true
}

/// Whether two lists of compound selectors are surely equal.
#[cycle(same)]
fn are_same(first: &[Compound], second: &[Compound]) -> bool
    ensures { IsTrue result → first.now ≡ second.now }
{
    if first.len() != second.len() {
        return false;
    }
    let mut place = 0;
    for compound in first {
        if !is_same_compound(compound, &second[place]) {
            return false;
        }
        place += 1;
    }
    true
}

/// Whether two combinators are surely equal.
fn is_same_join(first: Join, second: Join) -> bool
    ensures { IsTrue result → first ≡ second }
{
    first == second
}

/// Whether two lists of combinators are surely equal.
fn are_same_joins(first: &[Join], second: &[Join]) -> bool
    ensures { IsTrue result → first.now ≡ second.now }
{
    if first.len() != second.len() {
        return false;
    }
    let mut place = 0;
    for join in first {
        if !is_same_join(*join, second[place]) {
            return false;
        }
        place += 1;
    }
    true
}

/// Whether two pseudo-elements are surely equal.
fn is_same_pseudo(first: PseudoElement, second: PseudoElement) -> bool
    ensures { IsTrue result → first ≡ second }
{
    first == second
}

/// Whether two selectors are surely equal. Time linear in the shorter.
pub(crate) fn is_same(first: &Selector, second: &Selector) -> bool
    ensures { IsTrue result → first.now ≡ second.now }
{
    is_same_pseudo(first.pseudo, second.pseudo)
        && are_same_joins(first.joins.as_slice(), second.joins.as_slice())
        && are_same(first.compounds.as_slice(), second.compounds.as_slice())
}
