//! The entries of a box's counter properties (CSS Lists 3, 4.1, 4.2 and 4.6).

ghost use Rattle.std.specs.Prelude.{◌≡◌, ℕ, List, IfOk, cond, pos, unwrap_or};
ghost use Rattle.std.specs.List.{list_any};
ghost use Rattle.std.specs.Str.{bytes_eq, chars};
ghost use Rattle.plain_types.specs.Counts.{count_sum};
ghost use Rattle.plain_types.specs.declared.style.ResetOp.{ResetOp};
ghost use Rattle.counter_sets.specs.ByNames.{value_of};
ghost use Rattle.counter_sets.specs.Sets.{last_place};
ghost use Rattle.box_eval.specs.Lookups.{first_place};
ghost use Rattle.box_eval.specs.Properties.{is_for, last_assigns, merged, number_for, sum_for};

use counter_sets::by_name::{ByName, MANY, is_at};
use plain_types::count::{Count, add_counts};
use plain_types::duplicate::Duplicate;
use plain_types::list::List;
use plain_types::memory::Memory;
use plain_types::style::{CounterOp, ResetOp};
use plain_types::text::Text;
use std::alloc::Global;

/// Whether the texts are equal.
pub fn is_same(text: &Text, other: &str) -> bool
    ensures test { result ≡ bytes_eq text.now (chars other.now) }
{
    text.as_str() == other
}

/// Whether an entry resets the counters of a name.
pub fn is_reset_in(ops: &[ResetOp], name: &str) -> bool
    ensures test { result ≡ list_any (λ (op : ResetOp). bytes_eq op.name (chars name.now)) ops.now }
{
    ops.iter().any(|op| is_same(&op.name, name))
}

/// Whether the entry is for the counters of a name.
fn is_for(op: &CounterOp, name: &str) -> bool
    ensures test { result ≡ is_for (chars name.now) op.now }
{
    is_same(&op.name, name)
}

/// Whether an entry is for the counters of a name.
pub fn is_named_in(ops: &[CounterOp], name: &str) -> bool
    ensures test { result ≡ list_any (is_for (chars name.now)) ops.now }
{
    ops.iter().any(|op| is_for(op, name))
}

/// The number that an entry for the counters of a name has.
pub fn number_for(ops: &[CounterOp], name: &str) -> Option<Count>
    ensures number { result ≡ number_for (chars name.now) ops.now }
{
    for op in ops {
        if is_for(op, name) {
            return Some(op.value);
        }
    }
    None
}

/// A sum, with the entry's number where it is for the counters of the name.
fn added(sum: Count, op: &CounterOp, name: &str) -> Count
    ensures sum { result ≡ cond (is_for (chars name.now) op.now) (count_sum sum op.now.value) sum }
{
    if is_for(op, name) {
        add_counts(sum, op.value)
    } else {
        sum
    }
}

/// The numbers of all entries for the counters of a name, added from left to right.
fn sum_for(ops: &[CounterOp], name: &str) -> Count
    ensures sum { result ≡ sum_for (chars name.now) ops.now }
{
    let mut sum = 0;
    for op in ops {
        sum = added(sum, op, name);
    }
    sum
}

/// The entry with the sum of all entries of its name.
fn with_sum(alloc: Global, op: &CounterOp, increments: &[CounterOp]) -> Result<CounterOp, Memory>
    ensures entry { IfOk result (λ entry. entry ≡ record { name = op.now.name; value = sum_for op.now.name increments.now }) }
{
    Ok(CounterOp {
        name: op.name.duplicate(alloc)?,
        value: sum_for(increments, op.name.as_str()),
    })
}

/// The entries of `counter-increment`, those of one name added, each at the place of the first.
pub fn merged(alloc: Global, increments: &[CounterOp]) -> Result<List<CounterOp>, Memory>
    ensures merged { IfOk result (λ all. all ≡ merged increments.now) }
{
    if increments.len() < MANY {
        merged_few(alloc, increments)
    } else {
        merged_many(alloc, increments)
    }
}

/// The same of a few entries, which are gone through for each of them.
fn merged_few(alloc: Global, increments: &[CounterOp]) -> Result<List<CounterOp>, Memory>
    ensures merged { IfOk result (λ all. all ≡ merged increments.now) }
{
    let mut all = List::new(alloc);
    for (place, op) in increments.iter().enumerate() {
        if !is_named_in(&increments[..place], op.name.as_str()) {
            all.push(with_sum(alloc, op, increments)?)?;
        }
    }
    Ok(all)
}

/// The same of many entries, with look-ups.
fn merged_many(alloc: Global, increments: &[CounterOp]) -> Result<List<CounterOp>, Memory>
    ensures merged { IfOk result (λ all. all ≡ merged increments.now) }
{
    let first = first_places(alloc, increments)?;
    let sums = sums_by_name(alloc, increments)?;
    let mut all = List::new(alloc);
    for (place, op) in increments.iter().enumerate() {
        if is_at(first.get(op.name.as_str()), place) {
            all.push(CounterOp {
                name: op.name.duplicate(alloc)?,
                value: sums.get(op.name.as_str()).unwrap_or(0),
            })?;
        }
    }
    Ok(all)
}

/// The place of the first entry of each name.
fn first_places(alloc: Global, ops: &[CounterOp]) -> Result<ByName<usize>, Memory>
    ensures places { IfOk result (λ places. (name : List ℕ) → value_of places name ≡ first_place (is_for name) ops.now) }
{
    let mut places = ByName::new(alloc);
    for (place, op) in ops.iter().enumerate() {
        places.put_first(alloc, op.name.as_str(), place)?;
    }
    Ok(places)
}

/// The sum of the entries of each name.
fn sums_by_name(alloc: Global, ops: &[CounterOp]) -> Result<ByName<Count>, Memory>
    ensures sums { IfOk result (λ sums. (name : List ℕ) → unwrap_or (value_of sums name) (pos 0) ≡ sum_for name ops.now) }
{
    let mut sums = ByName::new(alloc);
    for op in ops {
        let sum = sums.get(op.name.as_str()).unwrap_or(0);
        sums.put(alloc, op.name.as_str(), add_counts(sum, op.value))?;
    }
    Ok(sums)
}

/// The entries of `counter-set`, of each name the last.
pub fn last_assigns(alloc: Global, assigns: &[CounterOp]) -> Result<List<CounterOp>, Memory>
    ensures last { IfOk result (λ last. last ≡ last_assigns assigns.now) }
{
    if assigns.len() < MANY {
        last_of_few(alloc, assigns)
    } else {
        last_of_many(alloc, assigns)
    }
}

/// The same of a few entries, of which those behind are gone through for each.
fn last_of_few(alloc: Global, assigns: &[CounterOp]) -> Result<List<CounterOp>, Memory>
    ensures last { IfOk result (λ last. last ≡ last_assigns assigns.now) }
{
    let mut last = List::new(alloc);
    let mut rest = assigns;
    while let Some((op, later)) = rest.split_first() {
        if !is_named_in(later, op.name.as_str()) {
            last.push(op.duplicate(alloc)?)?;
        }
        rest = later;
    }
    Ok(last)
}

/// The same of many entries, with a look-up.
fn last_of_many(alloc: Global, assigns: &[CounterOp]) -> Result<List<CounterOp>, Memory>
    ensures last { IfOk result (λ last. last ≡ last_assigns assigns.now) }
{
    let places = last_places(alloc, assigns)?;
    let mut last = List::new(alloc);
    for (place, op) in assigns.iter().enumerate() {
        if is_at(places.get(op.name.as_str()), place) {
            last.push(op.duplicate(alloc)?)?;
        }
    }
    Ok(last)
}

/// The place of the last entry of each name.
fn last_places(alloc: Global, ops: &[CounterOp]) -> Result<ByName<usize>, Memory>
    ensures places { IfOk result (λ places. (name : List ℕ) → value_of places name ≡ last_place (is_for name) ops.now) }
{
    let mut places = ByName::new(alloc);
    for (place, op) in ops.iter().enumerate() {
        places.put(alloc, op.name.as_str(), place)?;
    }
    Ok(places)
}

/// The place of the last entry of `counter-reset` of each name.
pub fn last_resets(alloc: Global, ops: &[ResetOp]) -> Result<ByName<usize>, Memory>
    ensures places { IfOk result (λ places. (name : List ℕ) → value_of places name ≡ last_place (λ (op : ResetOp). bytes_eq op.name name) ops.now) }
{
    let mut places = ByName::new(alloc);
    for (place, op) in ops.iter().enumerate() {
        places.put(alloc, op.name.as_str(), place)?;
    }
    Ok(places)
}
