//! The two sides of an element among its siblings.

ghost use Rattle.std.specs.Prelude.{◌≡◌, not};
ghost use Rattle.selector_match.specs.Machinery.Sides.{is_later};

/// The siblings before an element, or those after it.
#[derive(Clone, Copy)]
pub(crate) enum Side {
    Earlier,
    Later,
}

/// The other side.
pub(crate) fn opposite(side: Side) -> Side
    ensures { is_later result ≡ not (is_later side) }
{
    match side {
        Side::Earlier => Side::Later,
        Side::Later => Side::Earlier,
    }
}

/// The side from which positions count: after the element where they count from the last sibling.
pub(crate) fn counted_side(from_end: bool) -> Side
    ensures { is_later result ≡ from_end }
{
    if from_end { Side::Later } else { Side::Earlier }
}
