//! The boxes of an element.

/// Which box of an element: its own, or that of its pseudo-element `::marker`, `::before` or `::after`.
#[derive(Clone, Copy, Debug, PartialEq, Eq)]
pub enum BoxKind {
    Element,
    Marker,
    Before,
    After,
}
