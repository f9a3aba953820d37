//! Counters as content uses and writes them (CSS Lists 3, 4.7).

ghost use Rattle.std.specs.Prelude.{◌≡◌, ◌++◌, IfOk, OnOk};
ghost use Rattle.std.specs.Str.{chars};
ghost use Rattle.counter_sets.specs.Sets.{is_missing_in, with_counter};
ghost use Rattle.content_eval.specs.Contents.{innermost_text, joined_text};

use crate::place::Place;
use counter_sets::counter_set::CounterSet;
use counter_sets::counters::is_named;
use plain_types::counter::Counter;
use plain_types::memory::Memory;
use plain_types::shared_text::SharedText;
use plain_types::style_ref::StyleRef;
use plain_types::table::Table;
use plain_types::text::Text;
use representation::represent::represent;
use std::alloc::Global;

/// The set with a counter of this name: where there is none, the box creates one with 0.
pub fn with_counter(
    alloc: Global,
    place: &Place,
    set: CounterSet,
    name: &Text,
) -> Result<CounterSet, Memory>
    ensures set { IfOk result (λ after. after ≡ with_counter (is_missing_in place.now.parent) place.now.creator set name.now) }
{
    if set.innermost(name.as_str()).is_some() {
        return Ok(set);
    }
    let counter = Counter {
        name: SharedText::from_str(alloc, name.as_str())?,
        creator: place.creator,
        reversed: false,
        value: 0,
    };
    set.instantiate(alloc, &place.parent, counter)
}

/// The text of `counter()`: that of the innermost counter of the name.
pub fn innermost_text(
    alloc: Global,
    table: &Table,
    set: &CounterSet,
    name: &str,
    style: &StyleRef,
) -> Result<Text, Memory>
    ensures text { IfOk result (λ text. text ≡ innermost_text table.now set.now (chars name.now) style.now) }
{
    let mut text = Text::new(alloc);
    if let Some(counter) = set.innermost(name) {
        represent(alloc, table, style, counter.value, &mut text)?;
    }
    Ok(text)
}

/// The text of `counters()`: those of all counters of the name, the outermost first, with a string between.
pub fn joined_text(
    alloc: Global,
    table: &Table,
    set: &CounterSet,
    name: &str,
    between: &str,
    style: &StyleRef,
) -> Result<Text, Memory>
    ensures text { IfOk result (λ text. text ≡ joined_text table.now set.now (chars name.now) (chars between.now) style.now) }
{
    let mut text = Text::new(alloc);
    let mut is_first = true;
    for counter in set.as_slice() {
        if is_named(name, counter) {
            if !is_first {
                text.push_str(between)?;
            }
            represent(alloc, table, style, counter.value, &mut text)?;
            is_first = false;
        }
    }
    Ok(text)
}
