//! Boxes by name.

use crate::box_kind::BoxKind;

/// A box: the key of its element, and which of the element's boxes it is.
#[derive(Clone, Copy, Debug, PartialEq, Eq)]
pub struct BoxId {
    pub key: usize,
    pub kind: BoxKind,
}
