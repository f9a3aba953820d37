//! The names of pseudo-classes (Selectors 4), in any ASCII case.

ghost use Rattle.std.specs.Prelude.{◌≡◌};
ghost use Rattle.std.specs.Str.{chars};
ghost use Rattle.css_definitions.specs.Words.{is_among};
ghost use Rattle.selectors.specs.Simples.{never_classes, siblings, nth, first_of, plain_class, nth_class};
ghost use Rattle.selectors.specs.Compounds.{nesting_class, nested};

use crate::an_plus_b::AnPlusB;
use css_tokens::words::is_word;
use plain_types::list::List;
use plain_types::selector::{Compound, Simple};

/// From which end siblings are counted, and whether only those of the type are.
#[derive(Clone, Copy)]
pub(crate) struct Siblings {
    pub from_end: bool,
    pub same_type: bool,
}

/// A pseudo-class with a list of compound selectors.
#[derive(Clone, Copy)]
pub(crate) enum Nesting {
    Is,
    Where,
    Not,
}

/// The pseudo-classes in which no element is ever.
fn is_never_class(name: &str) -> bool
    ensures { result ≡ is_among never_classes (chars name.now) }
{
    is_word(name, "hover")
        || is_word(name, "active")
        || is_word(name, "focus")
        || is_word(name, "focus-visible")
        || is_word(name, "focus-within")
        || is_word(name, "link")
        || is_word(name, "visited")
        || is_word(name, "any-link")
        || is_word(name, "target")
}

/// The element at these positions among its siblings.
pub(crate) fn nth(siblings: Siblings, value: AnPlusB) -> Simple
    ensures { result ≡ nth siblings value }
{
    Simple::Nth {
        a: value.a,
        b: value.b,
        from_end: siblings.from_end,
        same_type: siblings.same_type,
    }
}

fn first_of(from_end: bool, same_type: bool) -> Simple
    ensures { result ≡ first_of (siblings from_end same_type) }
{
    Simple::Nth {
        a: 0,
        b: 1,
        from_end,
        same_type,
    }
}

/// A pseudo-class without arguments.
#[tactic(auto, unfolding(crate::specs::Simples::plain_class))]
pub(crate) fn plain_class(name: &str) -> Option<Simple>
    ensures { result ≡ plain_class (chars name.now) }
{
    if is_word(name, "root") {
        Some(Simple::Root)
    } else if is_word(name, "empty") {
        Some(Simple::Empty)
    } else if is_word(name, "first-child") {
        Some(first_of(false, false))
    } else if is_word(name, "last-child") {
        Some(first_of(true, false))
    } else if is_word(name, "only-child") {
        Some(Simple::Only { same_type: false })
    } else if is_word(name, "first-of-type") {
        Some(first_of(false, true))
    } else if is_word(name, "last-of-type") {
        Some(first_of(true, true))
    } else if is_word(name, "only-of-type") {
        Some(Simple::Only { same_type: true })
    } else if is_never_class(name) {
        Some(Simple::Never)
    } else {
        None
    }
}

/// A pseudo-class with an argument in the An+B notation.
pub(crate) fn nth_class(name: &str) -> Option<Siblings>
    ensures { result ≡ nth_class (chars name.now) }
{
    if is_word(name, "nth-child") {
        Some(Siblings {
            from_end: false,
            same_type: false,
        })
    } else if is_word(name, "nth-last-child") {
        Some(Siblings {
            from_end: true,
            same_type: false,
        })
    } else if is_word(name, "nth-of-type") {
        Some(Siblings {
            from_end: false,
            same_type: true,
        })
    } else if is_word(name, "nth-last-of-type") {
        Some(Siblings {
            from_end: true,
            same_type: true,
        })
    } else {
        None
    }
}

/// A pseudo-class with a list of compound selectors.
pub(crate) fn nesting_class(name: &str) -> Option<Nesting>
    ensures { result ≡ nesting_class (chars name.now) }
{
    if is_word(name, "is") {
        Some(Nesting::Is)
    } else if is_word(name, "where") {
        Some(Nesting::Where)
    } else if is_word(name, "not") {
        Some(Nesting::Not)
    } else {
        None
    }
}

/// The pseudo-class with this list.
pub(crate) fn nested(nesting: Nesting, choices: List<Compound>) -> Simple
    ensures { result ≡ nested nesting choices }
{
    match nesting {
        Nesting::Is => Simple::Is(choices),
        Nesting::Where => Simple::Weightless(choices),
        Nesting::Not => Simple::Not(choices),
    }
}
