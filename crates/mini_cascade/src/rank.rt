//! What decides between two declarations of a property.

ghost use Rattle.std.specs.Prelude.{◌≡◌};
ghost use Rattle.mini_cascade.specs.Ranks.{cascade_level, is_weaker, is_outranked};

use selectors::specificity::Specificity;

/// Whose style sheet a rule is of (CSS Cascade 5, 6.2).
#[derive(Clone, Copy, Debug, PartialEq, Eq)]
pub enum Origin {
    UserAgent,
    Author,
}

/// Origin and importance, from the weakest on (CSS Cascade 5, 6.1).
#[derive(Clone, Copy, Debug, PartialEq, Eq)]
pub enum Level {
    UserAgent,
    Author,
    /// `!important` of the author.
    Important,
}

/// How a declaration comes to its element (CSS Cascade 5, 6.1 "Element-Attached Styles").
#[derive(Clone, Copy, Debug, PartialEq, Eq)]
pub enum Attachment {
    /// By a rule that matches with this specificity, or as if by one.
    Rule(Specificity),
    /// By the element's own `style` attribute.
    Direct,
}

impl Attachment {
    /// Whether a declaration that comes so gives way to one of the same level that comes as the other.
    fn is_weaker(self, other: Attachment) -> bool
        ensures { result ≡ is_weaker self other }
    {
        match (self, other) {
            (Attachment::Rule(first), Attachment::Rule(second)) => first.is_less(second),
            (Attachment::Rule(_), Attachment::Direct) => true,
            (Attachment::Direct, _) => false,
        }
    }
}

/// What decides between two declarations of a property, before the order in which they appear.
#[derive(Clone, Copy, Debug, PartialEq, Eq)]
pub struct Rank {
    pub level: Level,
    pub attachment: Attachment,
}

/// The level of a declaration in a sheet of this origin.
pub(crate) fn cascade_level(origin: Origin, important: bool) -> Level
    ensures { result ≡ cascade_level origin important }
{
    match origin {
        Origin::UserAgent => Level::UserAgent,
        Origin::Author if important => Level::Important,
        Origin::Author => Level::Author,
    }
}

/// Whether the first rank is below the second.
pub(crate) fn is_outranked(first: &Rank, second: &Rank) -> bool
    ensures { result ≡ is_outranked first.now second.now }
{
    let (lower, higher) = (first.level as u8, second.level as u8);
    lower < higher || (lower == higher && first.attachment.is_weaker(second.attachment))
}
