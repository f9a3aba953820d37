//! Sets of counters, as texts.

use counter_sets::counter_set::CounterSet;
use plain_types::memory::Memory;
use plain_types::text::Text;
use std::alloc::Global;

/// The counters of a set, as `(a 1, reversed b 2)`.
pub fn show_set(alloc: Global, set: &CounterSet, out: &mut Text) -> Result<(), Memory> {
    let mut between = "(";
    for counter in set.as_slice() {
        out.push_str(between)?;
        out.push_str(if counter.reversed { "reversed " } else { "" })?;
        out.push_str(counter.name.as_str())?;
        out.push_str(format!(in alloc; " {}", counter.value)?.as_str())?;
        between = ", ";
    }
    out.push_str(if set.as_slice().is_empty() {
        "() "
    } else {
        ") "
    })
}
