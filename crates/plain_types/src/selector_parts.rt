//! The plain parts of selectors.

/// A combinator (Selectors 4, 14): descendant, child, next sibling or subsequent sibling.
#[derive(Clone, Copy, Debug, PartialEq, Eq)]
pub enum Join {
    Descendant,
    /// `>`.
    Child,
    /// `+`.
    Next,
    /// `~`.
    Later,
}

/// What a selector selects: the element itself, one of its pseudo-elements, or one that generates nothing.
#[derive(Clone, Copy, Debug, PartialEq, Eq)]
pub enum PseudoElement {
    Own,
    Marker,
    Before,
    After,
    Never,
}

/// An attribute selector's test (Selectors 4, 6): the attribute is there, or its value is equal to the given
/// one, has it as a word, is it or begins with it and a hyphen, begins with it, ends with it, or contains it.
#[derive(Clone, Copy, Debug, PartialEq, Eq)]
pub enum AttrTest {
    Present,
    /// `=`.
    Equal,
    /// `~=`.
    Word,
    /// `|=`.
    Dash,
    /// `^=`.
    Start,
    /// `$=`.
    End,
    /// `*=`.
    Inside,
}
