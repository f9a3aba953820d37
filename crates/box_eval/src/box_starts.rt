//! The starts of the reversed counters of one box.

ghost use Rattle.std.specs.Prelude.{◌≡◌, ℕ, List, IfOk};
ghost use Rattle.std.specs.Str.{chars};
ghost use Rattle.counter_sets.specs.ByNames.{value_of};
ghost use Rattle.box_eval.specs.Lookups.{created, start_given};
ghost use Rattle.box_eval.specs.Properties.{first_value, start_in};

use crate::counting::start_in;
use crate::inputs::Start;
use crate::starts::Starts;
use counter_sets::by_name::ByName;
use plain_types::box_id::BoxId;
use plain_types::count::Count;
use plain_types::counter::Counter;
use plain_types::memory::Memory;
use plain_types::shared_text::SharedText;
use plain_types::style::ResetOp;
use std::alloc::Global;
use std::marker::Model;

/// The starts of an element's reversed counters, and one of its boxes, with a look-up of its own.
/// Contracts see the starts and the box.
pub struct BoxStarts<'a> {
    starts: &'a [Start],
    creator: BoxId,
    by_name: ByName<Count>,
}

impl<'a> Drop for BoxStarts<'a> {
    fn drop(self) {
        let BoxStarts {
            starts: _,
            creator: _,
            by_name: _,
        } = self;
    }
}

impl<'a> Model for BoxStarts<'a> {
    ghost use Rattle.std.specs.Prelude.{List};
    ghost use Rattle.plain_types.specs.declared.box_id.BoxId.{BoxId};
    ghost use Rattle.box_eval.specs.declared.inputs.Start.{Start};
    ghost use Rattle.box_eval.specs.Lookups.{HasStarts};

    ghost Value = { List Start × BoxId };

    ghost view = { λ own. (own.starts.now, own.creator) };

    ghost invariant = { λ own. HasStarts own.by_name own.starts.now own.creator };
}

impl<'a> BoxStarts<'a> {
    /// Those of a box, in time linear in the starts.
    pub fn of(alloc: Global, starts: &'a [Start], creator: BoxId) -> Result<BoxStarts<'a>, Memory>
        ensures own { IfOk result (λ own. own ≡ (starts.now, creator)) }
    {
        let by_name = starts_by_name(alloc, starts, creator)?;
        Ok(BoxStarts {
            starts,
            creator,
            by_name,
        })
    }

    /// The start of a reversed counter of the box; one that is not given is 0.
    fn own_start(&self, name: &str) -> Count
        ensures start { result ≡ start_in self.now.0 self.now.1 (chars name.now) }
    {
        self.by_name.get(name).unwrap_or(0)
    }

    /// The value with which an entry of `counter-reset` creates its counter.
    fn first_value(&self, op: &ResetOp) -> Count
        ensures value { result ≡ first_value self.now.0 self.now.1 op.now }
    {
        match op.value {
            Some(value) => value,
            None => {
                if op.reversed {
                    self.own_start(op.name.as_str())
                } else {
                    0
                }
            }
        }
    }

    /// The counter that an entry of the box's `counter-reset` creates.
    pub fn created(&self, alloc: Global, op: &ResetOp) -> Result<Counter, Memory>
        ensures counter { IfOk result (λ counter. counter ≡ created self.now.0 self.now.1 op.now) }
    {
        Ok(Counter {
            name: SharedText::from_str(alloc, op.name.as_str())?,
            creator: self.creator,
            reversed: op.reversed,
            value: self.first_value(op),
        })
    }
}

/// Those of the box come by the look-up.
impl<'a> Starts for BoxStarts<'a> {
    ghost starts = { λ own. start_in own.0 };

    fn start(&self, creator: BoxId, name: &str) -> Count {
        if creator == self.creator {
            self.own_start(name)
        } else {
            start_in(self.starts, creator, name)
        }
    }
}

/// The starts of a box's reversed counters.
fn starts_by_name(alloc: Global, starts: &[Start], creator: BoxId) -> Result<ByName<Count>, Memory>
    ensures starts { IfOk result (λ by_name. (name : List ℕ) → value_of by_name name ≡ start_given starts.now creator name) }
{
    let mut by_name = ByName::new(alloc);
    for start in starts {
        if start.creator == creator {
            by_name.put_first(alloc, start.name.as_str(), start.value)?;
        }
    }
    Ok(by_name)
}
