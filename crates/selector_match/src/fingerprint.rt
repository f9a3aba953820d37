//! Numbers by which selectors are found again. Selectors that differ may have the same.

use plain_types::selector::{Compound, Selector, Simple};
use plain_types::selector_parts::Join;
use plain_types::text::Text;

/// The prime of the hash FNV-1a of 64 bits.
const PRIME: u64 = 1_099_511_628_211;

fn mixed(before: u64, more: u64) -> u64 {
    (before ^ more).wrapping_mul(PRIME)
}

fn with_text(before: u64, text: &Text) -> u64 {
    let mut mark = mixed(before, 256);
    for byte in text.as_str().as_bytes() {
        mark = mixed(mark, u64::from(*byte));
    }
    mark
}

fn with_join(before: u64, join: Join) -> u64 {
    let on_right = match join {
        Join::Descendant => b' ',
        Join::Child => b'>',
        Join::Next => b'+',
        Join::Later => b'~',
    };
    mixed(before, u64::from(on_right))
}

#[cycle(fingerprints)]
fn with_simple(before: u64, simple: &Simple) -> u64 {
    match simple {
        Simple::Any => mixed(before, u64::from(b'*')),
        Simple::Element(name) => with_text(before, name),
        Simple::Id(id) => with_text(mixed(before, u64::from(b'#')), id),
        Simple::Class(class) => with_text(mixed(before, u64::from(b'.')), class),
        Simple::Attr { name, value, .. } => with_text(with_text(before, name), value),
        Simple::Nth { a, b, .. } => {
            let step = mixed(before, u64::from(a.unsigned_abs()));
            mixed(step, u64::from(b.unsigned_abs()))
        }
        Simple::Is(choices) => with_compounds(before, choices.as_slice()),
        Simple::Weightless(choices) => with_compounds(before, choices.as_slice()),
        Simple::Not(choices) => with_compounds(mixed(before, u64::from(b'!')), choices.as_slice()),
        _ => mixed(before, u64::from(b':')),
    }
}

#[cycle(fingerprints)]
fn with_compound(before: u64, compound: &Compound) -> u64 {
    let mut mark = mixed(before, u64::from(b'('));
    for simple in compound.simples.as_slice() {
        mark = with_simple(mark, simple);
    }
    mark
}

#[cycle(fingerprints)]
fn with_compounds(before: u64, compounds: &[Compound]) -> u64 {
    let mut mark = before;
    for compound in compounds {
        mark = with_compound(mark, compound);
    }
    mark
}

/// The number of a selector and a place in it. Time linear in the selector.
pub(crate) fn fingerprint(selector: &Selector, place: usize) -> u64 {
    let mut mark = with_compounds(place as u64, selector.compounds.as_slice());
    for join in selector.joins.as_slice() {
        mark = with_join(mark, *join);
    }
    mark
}
