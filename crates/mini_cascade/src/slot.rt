//! Under what a selector is filed.

ghost use Rattle.std.specs.Prelude.{◌≡◌, option_copied};
ghost use Rattle.std.specs.Option.{option_map_or};
ghost use Rattle.mini_cascade.specs.RuleTables.{Other, breadth, filed_under, narrower, narrowest_with, slot_of};

use plain_types::selector::{Selector, Simple};

/// The less, the fewer elements a simple selector is thought to match.
fn breadth(simple: &Simple) -> u8
    ensures { result ≡ breadth (slot_of simple.now) }
{
    match simple {
        Simple::Id(_) => 0,
        Simple::Class(_) => 1,
        Simple::Element(_) => 2,
        _ => 3,
    }
}

/// The narrower of a simple selector that may be missing and of another; of equals the first.
fn narrower<'a>(held: Option<&'a Simple>, other: &'a Simple) -> Option<&'a Simple>
    ensures { option_map_or slot_of (option_copied result) Other ≡ narrower (option_map_or slot_of (option_copied held.entry) Other) (slot_of other.entry.now) }
{
    match held {
        Some(held) if breadth(held) <= breadth(other) => Some(held),
        _ => Some(other),
    }
}

/// The narrowest of these.
fn narrowest(simples: &[Simple]) -> Option<&Simple>
    ensures { option_map_or slot_of (option_copied result) Other ≡ narrowest_with Other simples.now }
{
    let mut held = None;
    for simple in simples {
        held = narrower(held, simple);
    }
    held
}

/// The simple selector under which a selector is filed: the narrowest of its last compound, where there is one.
pub(crate) fn filed_under(selector: &Selector) -> Option<&Simple>
    ensures { option_map_or slot_of (option_copied result) Other ≡ filed_under selector.now }
{
    narrowest(selector.compounds.as_slice().last()?.simples.as_slice())
}
