//! Specificities (Selectors 4, "Calculating a selector's specificity").

ghost use Rattle.std.specs.Prelude.{◌≡◌};
ghost use Rattle.selectors.specs.Specificity.{counts, plus, is_less, greater};

/// How specific a selector is: its ids; its classes, attribute tests and pseudo-classes; its types and
/// pseudo-elements. The counts are compared in this order, and each stops at the greatest number.
#[derive(Clone, Copy, Debug, PartialEq, Eq)]
pub struct Specificity {
    pub ids: u32,
    pub classes: u32,
    pub types: u32,
}

impl Specificity {
    pub(crate) fn of(ids: u32, classes: u32, types: u32) -> Specificity
        ensures { result ≡ counts ids classes types }
    {
        Specificity {
            ids,
            classes,
            types,
        }
    }

    pub(crate) fn plus(self, other: Specificity) -> Specificity
        ensures { result ≡ plus self other }
    {
        Specificity {
            ids: self.ids.saturating_add(other.ids),
            classes: self.classes.saturating_add(other.classes),
            types: self.types.saturating_add(other.types),
        }
    }

    /// Whether a declaration of this specificity gives way to one of the other.
    pub fn is_less(self, other: Specificity) -> bool
        ensures order { result ≡ is_less self other }
    {
        if self.ids != other.ids {
            return self.ids < other.ids;
        }
        if self.classes != other.classes {
            return self.classes < other.classes;
        }
        self.types < other.types
    }

    pub(crate) fn greater(self, other: Specificity) -> Specificity
        ensures { result ≡ greater self other }
    {
        if self.is_less(other) { other } else { self }
    }
}
