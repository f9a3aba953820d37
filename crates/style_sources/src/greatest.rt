//! The greatest of the declarations of a property.

ghost use Rattle.std.specs.Prelude.{◌≡◌, List, Some, map, option_map};
ghost use Rattle.mini_cascade.specs.Greatest.{greater};
ghost use Rattle.style_sources.specs.Sources.{gives_way, placed, winner};
ghost use Rattle.style_sources.specs.declared.placed.PlacedDeclaration.{PlacedDeclaration};

use crate::placed::PlacedDeclaration;
use crate::property::Property;

/// The greater of a declaration that may be missing and of one after it.
fn greater<'a>(
    held: Option<PlacedDeclaration<'a>>,
    later: PlacedDeclaration<'a>,
) -> PlacedDeclaration<'a>
    ensures { Some (placed result.place result.important result.specificity result.what.now) ≡ greater gives_way (option_map (λ (d : PlacedDeclaration). placed d.place d.important d.specificity d.what.now) held.entry) (Some (placed later.entry.place later.entry.important later.entry.specificity later.entry.what.now)) }
{
    match held {
        Some(held) if later.gives_way(&held) => held,
        _ => later,
    }
}

/// The greatest declaration of a property; of equals the last. Linear time.
pub(crate) fn winner<'a>(
    property: Property,
    declarations: &[PlacedDeclaration<'a>],
) -> Option<PlacedDeclaration<'a>>
    ensures { option_map (λ (d : PlacedDeclaration). placed d.place d.important d.specificity d.what.now) result ≡ winner property (map (λ (d : PlacedDeclaration). placed d.place d.important d.specificity d.what.now) declarations.now) }
{
    let mut best: Option<PlacedDeclaration<'a>> = None;
    for declaration in declarations {
        if property.is_declared_by(declaration.what) {
            best = Some(greater(best, *declaration));
        }
    }
    best
}
