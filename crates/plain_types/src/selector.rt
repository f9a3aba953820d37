//! Selectors (Selectors 4, 3.1).

use crate::list::List;
use crate::selector_parts::{AttrTest, Join, PseudoElement};
use crate::text::Text;

/// A simple selector: a test of one element.
#[cycle(selector)]
#[derive(Drop)]
pub enum Simple {
    /// `*`.
    Any,
    /// A type selector.
    Element(Text),
    /// `#id`.
    Id(Text),
    /// `.class`.
    Class(Text),
    /// `:root`.
    Root,
    /// `:empty`.
    Empty,
    /// A pseudo-class that no element of ours is ever in, such as `:hover`.
    Never,
    /// An attribute selector; `fold` is its flag `i`, ASCII case not counting.
    Attr {
        name: Text,
        test: AttrTest,
        value: Text,
        fold: bool,
    },
    /// `:only-child`, or `:only-of-type` where the type counts.
    Only {
        same_type: bool,
    },
    /// `:nth-child(an+b)` and its kin: counted from the end, or among siblings of the type.
    Nth {
        a: i32,
        b: i32,
        from_end: bool,
        same_type: bool,
    },
    /// `:is()`.
    Is(List<Compound>),
    /// `:where()`, which adds nothing to the specificity.
    Weightless(List<Compound>),
    /// `:not()`.
    Not(List<Compound>),
}

/// A compound selector: simple selectors that one element meets all.
#[cycle(selector)]
#[derive(Drop)]
pub struct Compound {
    pub simples: List<Simple>,
}

/// A complex selector: compounds with the combinators between them, from the first to the last, and the
/// pseudo-element at its end.
pub struct Selector {
    pub compounds: List<Compound>,
    pub joins: List<Join>,
    pub pseudo: PseudoElement,
}

impl Drop for Selector {
    fn drop(self) {
        let Selector {
            compounds: _,
            joins: _,
            pseudo: _,
        } = self;
    }
}
