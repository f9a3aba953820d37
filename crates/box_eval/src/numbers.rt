//! The numbers of counter entries, looked up by name.

ghost use Rattle.std.specs.Prelude.{◌≡◌, ℕ, List, IfOk};
ghost use Rattle.std.specs.List.{list_any};
ghost use Rattle.std.specs.Str.{chars};
ghost use Rattle.counter_sets.specs.ByNames.{value_of};
ghost use Rattle.box_eval.specs.Properties.{is_for, number_for};

use crate::ops::number_for;
use counter_sets::by_name::{ByName, MANY};
use plain_types::count::Count;
use plain_types::memory::Memory;
use plain_types::style::CounterOp;
use std::alloc::Global;
use std::marker::Model;

/// The entries of `counter-increment` or `counter-set`, with a look-up of their numbers where they are many.
/// Contracts see the entries.
pub struct Numbers<'a> {
    ops: &'a [CounterOp],
    by_name: Option<ByName<Count>>,
}

impl<'a> Drop for Numbers<'a> {
    fn drop(self) {
        let Numbers { ops: _, by_name: _ } = self;
    }
}

impl<'a> Model for Numbers<'a> {
    ghost use Rattle.std.specs.Prelude.{List};
    ghost use Rattle.plain_types.specs.declared.style.CounterOp.{CounterOp};
    ghost use Rattle.box_eval.specs.Lookups.{HasNumbers};

    ghost Value = { List CounterOp };

    ghost view = { λ numbers. numbers.ops.now };

    ghost invariant = { λ numbers. HasNumbers numbers.by_name numbers.ops.now };
}

impl<'a> Numbers<'a> {
    /// Those of these entries, in time linear in them.
    pub fn of(alloc: Global, ops: &'a [CounterOp]) -> Result<Numbers<'a>, Memory>
        ensures entries { IfOk result (λ numbers. numbers ≡ ops.now) }
    {
        let by_name = if ops.len() < MANY {
            None
        } else {
            Some(numbers_by_name(alloc, ops)?)
        };
        Ok(Numbers { ops, by_name })
    }

    /// The number that an entry for the counters of a name has.
    pub fn get(&self, name: &str) -> Option<Count>
        ensures number { result ≡ number_for (chars name.now) self.now }
    {
        match &self.by_name {
            Some(by_name) => by_name.get(name),
            None => number_for(self.ops, name),
        }
    }

    /// Whether an entry is for the counters of a name.
    pub fn has(&self, name: &str) -> bool
        ensures test { result ≡ list_any (is_for (chars name.now)) self.now }
    {
        self.get(name).is_some()
    }
}

/// The number of the first entry of each name.
fn numbers_by_name(alloc: Global, ops: &[CounterOp]) -> Result<ByName<Count>, Memory>
    ensures numbers { IfOk result (λ numbers. (name : List ℕ) → value_of numbers name ≡ number_for name ops.now) }
{
    let mut numbers = ByName::new(alloc);
    for op in ops {
        numbers.put_first(alloc, op.name.as_str(), op.value)?;
    }
    Ok(numbers)
}
