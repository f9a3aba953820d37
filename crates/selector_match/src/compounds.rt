//! Simple and compound selectors (Selectors 4, 3.1).

ghost use Rattle.std.specs.Prelude.{◌≡◌};
ghost use Rattle.std.specs.List.{list_any};
ghost use Rattle.std.specs.Str.{chars};
ghost use Rattle.selector_match.specs.Attributes.{passes_in_case};
ghost use Rattle.selector_match.specs.Machinery.Sides.{is_aside};
ghost use Rattle.selector_match.specs.Matching.{has_attr, matches_simple, matches_compound};

use crate::attributes::passes;
use crate::case::{Case, flagged, is_aside};
use crate::element::Element;
use crate::positions::is_nth;
use crate::side::{Side, counted_side};
use plain_types::selector::{Compound, Simple};
use plain_types::selector_parts::AttrTest;

/// Whether the element has an attribute of this name whose value passes the test.
fn has_attr(element: &Element<'_>, name: &str, test: AttrTest, value: &str, case: Case) -> bool
    ensures { result ≡ has_attr element.now.level.element (chars name.now) (λ text. passes_in_case (is_aside case) test text (chars value.now)) }
{
    match element.attr(name) {
        Some(text) => passes(test, text, value, is_aside(case)),
        None => false,
    }
}

/// Whether the element matches a compound selector. It recurses on `:is()`, `:where()` and `:not()` alone.
#[cycle(matches)]
pub(crate) fn matches_compound(element: &Element<'_>, compound: &Compound) -> bool
    ensures { result ≡ matches_compound element.now compound.now }
{
    for simple in compound.simples.as_slice() {
        if !matches_simple(element, simple) {
            return false;
        }
    }
    true
}

/// Whether the element matches one of the compound selectors.
#[cycle(matches)]
fn matches_one(element: &Element<'_>, choices: &[Compound]) -> bool
    ensures { result ≡ list_any (matches_compound element.now) choices.now }
{
    for choice in choices {
        if matches_compound(element, choice) {
            return true;
        }
    }
    false
}

/// Whether the element matches a simple selector.
#[cycle(matches)]
fn matches_simple(element: &Element<'_>, simple: &Simple) -> bool
    ensures { result ≡ matches_simple element.now simple.now }
{
    match simple {
        Simple::Any => true,
        Simple::Element(name) => element.is_named(name.as_str()),
        Simple::Id(id) => has_attr(element, "id", AttrTest::Equal, id.as_str(), Case::Counts),
        Simple::Class(class) => {
            has_attr(
                element,
                "class",
                AttrTest::Word,
                class.as_str(),
                Case::Counts,
            )
        }
        Simple::Root => element.is_root(),
        Simple::Empty => element.is_empty(),
        Simple::Never => false,
        Simple::Attr {
            name,
            test,
            value,
            fold,
        } => has_attr(
            element,
            name.as_str(),
            *test,
            value.as_str(),
            flagged(*fold),
        ),
        Simple::Only { same_type } => {
            element.count_siblings(Side::Earlier, *same_type) == 0
                && element.count_siblings(Side::Later, *same_type) == 0
        }
        Simple::Nth {
            a,
            b,
            from_end,
            same_type,
        } => {
            let step = *a;
            let offset = *b;
            is_nth(
                step,
                offset,
                element.count_siblings(counted_side(*from_end), *same_type),
            )
        }
        Simple::Is(choices) => matches_one(element, choices.as_slice()),
        Simple::Weightless(choices) => matches_one(element, choices.as_slice()),
        Simple::Not(choices) => !matches_one(element, choices.as_slice()),
    }
}
