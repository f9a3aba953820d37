//! Declarations that apply, with where they stand, and which of two gives way.

ghost use Rattle.std.specs.Prelude.{◌≡◌};
ghost use Rattle.mini_cascade.specs.Ranks.{strength};
ghost use Rattle.style_sources.specs.Sources.{gives_way, level_at, placed};

use crate::place::{DeclarationPlace, SheetOrigin};
use plain_types::declaration::Declaration;
use selectors::specificity::Specificity;

/// A declaration that applies, with where it stands. What stands in no rule has no specificity: its counts are 0.
#[derive(Clone, Copy)]
pub(crate) struct PlacedDeclaration<'a> {
    pub(crate) place: DeclarationPlace,
    pub(crate) important: bool,
    pub(crate) specificity: Specificity,
    pub(crate) what: &'a Declaration,
}

/// Origin and importance of what stands there, as a number, from the weakest on.
fn level(place: DeclarationPlace, important: bool) -> u8
    ensures { result ≡ strength (level_at place important) }
{
    match place {
        DeclarationPlace::Rule(SheetOrigin::UserAgent, _) => 0,
        DeclarationPlace::Hint => 1,
        _ if important => 2,
        _ => 1,
    }
}

impl PlacedDeclaration<'_> {
    /// Whether it gives way to another of its property, in whichever order they appear.
    pub(crate) fn gives_way(&self, other: &PlacedDeclaration<'_>) -> bool
        ensures { result ≡ gives_way (placed self.now.place self.now.important self.now.specificity self.now.what.now) (placed other.now.place other.now.important other.now.specificity other.now.what.now) }
    {
        let own = level(self.place, self.important);
        let others = level(other.place, other.important);
        if own != others {
            return own < others;
        }
        match (self.place, other.place) {
            (DeclarationPlace::StyleAttribute, _) => false,
            (_, DeclarationPlace::StyleAttribute) => true,
            _ => self.specificity.is_less(other.specificity),
        }
    }
}
