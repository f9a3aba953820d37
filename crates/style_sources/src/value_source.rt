//! Where the value of a property comes from.

use crate::place::DeclarationPlace;

/// Where the value of a property of an element comes from.
#[derive(Clone, Copy, Debug, PartialEq, Eq)]
pub enum ValueSource {
    /// The greatest of the declarations that apply: where it stands, and whether it has `!important`.
    Declared {
        place: DeclarationPlace,
        important: bool,
    },
    /// None applies, and the property is inherited from the element's parent.
    Inherited,
    /// None applies, and the property has its initial value.
    Initial,
}
