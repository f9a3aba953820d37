//! What a text is read as.

#[derive(Clone, Copy)]
pub(crate) enum Kind {
    Document,
    Fragment,
}
