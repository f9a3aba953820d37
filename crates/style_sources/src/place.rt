//! Where declarations stand.

/// Whose sheet a rule is in (CSS Cascade 5, 6.2).
#[derive(Clone, Copy, Debug, PartialEq, Eq)]
pub enum SheetOrigin {
    UserAgent,
    Author,
}

/// Where a declaration stands.
#[derive(Clone, Copy, Debug, PartialEq, Eq)]
pub enum DeclarationPlace {
    /// In a rule: the sheet's origin, and how many style rules stand before it: in the user agent's sheet, or in the author's
    /// sheet and the `style` elements behind it, taken as one.
    Rule(SheetOrigin, usize),
    /// It is a presentational hint: an attribute of a list or of a list item says it.
    Hint,
    /// In the element's `style` attribute.
    StyleAttribute,
}
