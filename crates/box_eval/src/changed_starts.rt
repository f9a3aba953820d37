//! The starts that a document's changes give (our own after CSS Lists 3, 4.4).

ghost use Rattle.std.specs.Prelude.{◌≡◌, ◌++◌, ◌∷◌, [], IfOk, OnOk, cond};
ghost use Rattle.std.specs.Str.{IsUtf8};
ghost use Rattle.box_eval.specs.declared.counter_id.CounterId.{CounterId};
ghost use Rattle.box_eval.specs.Groups.{events_under, is_change_of};

use crate::change::Change;
use crate::counter_id::CounterId;
use crate::starts::Starts;
use plain_types::box_id::BoxId;
use plain_types::count::Count;
use plain_types::list::List;
use plain_types::memory::Memory;
use reversed_start::event::Event;
use reversed_start::start_of;
use std::alloc::Global;
use std::collections::HashMap;
use std::marker::Model;

/// The starts of a document's reversed counters, by what its boxes do to counters. Contracts see the changes.
#[derive(Drop)]
pub struct ChangedStarts<'a> {
    changes: &'a [Change],
    groups: HashMap<CounterId<'a>, List<Event>>,
}

impl<'a> Model for ChangedStarts<'a> {
    ghost use Rattle.std.specs.Prelude.{List};
    ghost use Rattle.box_eval.specs.declared.change.Change.{Change};
    ghost use Rattle.box_eval.specs.Groups.{AreGrouped};

    ghost Value = { List Change };

    ghost view = { λ starts. starts.changes.now };

    ghost invariant = { λ starts. AreGrouped starts.changes.now starts.groups };
}

impl<'a> ChangedStarts<'a> {
    /// Groups the changes of a document, in tree order, by their counters: in time linear in the changes and
    /// their names, with memory linear in the changes.
    pub fn of(alloc: Global, changes: &'a [Change]) -> Result<ChangedStarts<'a>, Memory>
        ensures changes { IfOk result (λ starts. starts ≡ changes.now) }
    {
        let mut groups: HashMap<CounterId<'a>, List<Event>> = HashMap::new(alloc);
        for change in changes {
            add(alloc, &mut groups, change)?;
        }
        Ok(ChangedStarts { changes, groups })
    }
}

impl<'a> Starts for ChangedStarts<'a> {
    ghost use Rattle.box_eval.specs.Starts.{starts_by};

    ghost starts = { starts_by };

    /// It takes time linear in the name and in the counter's events.
    fn start(&self, creator: BoxId, name: &str) -> Count {
        match self.groups.get(&CounterId { creator, name }) {
            Some(events) => start_of(events.as_slice()),
            None => 0,
        }
    }
}

/// Puts an event behind those of its counter.
fn add<'a>(
    alloc: Global,
    groups: &mut HashMap<CounterId<'a>, List<Event>>,
    change: &'a Change,
) -> Result<(), Memory>
    ensures added { OnOk result ((counter : CounterId) → IsUtf8 counter.name.now → events_under groups.new counter ≡ cond (is_change_of counter change.now) (events_under groups.old counter ++ change.now.event ∷ []) (events_under groups.old counter)) }
{
    let counter = CounterId {
        creator: change.creator,
        name: change.name.as_str(),
    };
    let mut events = match groups.remove(&counter) {
        Some(events) => events,
        None => List::new(alloc),
    };
    events.push(change.event)?;
    groups.insert(counter, events)?;
    Ok(())
}
