//! What is kept under keys, and exchanges of it.

ghost use Rattle.std.specs.Prelude.{◌≡◌, ◌↔◌, ◌+◌, ◌<◌, ◌≤◌, ◌++◌, ℕ, IfSome, IsTrue, None, OnErr, OnOk, cond, length, option_copied, replicate, slice_index_or, slice_set};
ghost use Rattle.std.specs.FinMap.{empty, get};
ghost use Rattle.counter_index.specs.Machinery.Asking.{HasAsking, count_asking};
ghost use Rattle.counter_index.specs.Exchanges.{HasRoomFor, IsWayBack, after_exchange, exchanged, keys_in, restored};

use crate::asks::{Asks, is_asking};
use plain_types::memory::Memory;
use std::alloc::Global;
use std::marker::Model;
use std::mem;

/// What is kept under keys below a room, in a slot for each key, and of how many of these an element asks for starts.
/// Contracts see what is kept, and the room.
#[derive(Drop)]
pub(crate) struct Slots<T: Asks> {
    slots: Vec<Option<T>>,
    asking: usize,
}

impl<T: Asks> Model for Slots<T> {
    ghost use Rattle.std.specs.Prelude.{◌≡◌};
    ghost use Rattle.snapshot_board.specs.Records.{Records, records_code};
    ghost use Rattle.snapshot_board.specs.Slots.{records_in};
    ghost use Rattle.counter_index.specs.Machinery.Asking.{count_asking};

    ghost Value = { Records T };

    ghost coded = { records_code T.code };

    ghost view = { λ kept. records_in kept.slots.items };

    ghost invariant = { λ kept. kept.asking ≡ count_asking T.asks kept.slots.items };
}

#[tactic(auto, using(crate::proofs::ExchangeLemmas::exchange_rules))]
impl<T: Asks + Drop> Slots<T> {
    /// No slots.
    pub(crate) fn new(alloc: Global) -> Slots<T>
        ensures held { result.held ≡ empty }
        ensures room { result.room ≡ 0 }
    {
        Slots {
            slots: Vec::new(alloc),
            asking: 0,
        }
    }

    /// Makes room for the keys below this number, where there is less.
    pub(crate) fn reserve(&mut self, room: usize) -> Result<(), Memory>
        ensures held { self.new.held ≡ self.old.held }
        ensures room { OnOk result (room ≤ self.new.room) }
        ensures grown { self.old.room ≤ self.new.room }
        ensures err { OnErr result (self.new ≡ self.old) }
    {
        let now = self.slots.len();
        if room <= now {
            return Ok(());
        }
        grow(&mut self.slots, room - now)
    }

    /// What is kept under a key.
    pub(crate) fn get(&self, key: usize) -> Option<&T>
        ensures value { option_copied result ≡ get self.now.held key }
    {
        self.slots.get(key)?.as_ref()
    }

    /// Whether an element of those that are kept asks for starts.
    pub(crate) fn has_asking(&self) -> bool
        ensures test { IsTrue result ↔ HasAsking T.asks self.now.held }
    {
        self.asking != 0
    }

    /// Keeps each of these under its key, in their order, and leaves in its place what was kept there before.
    pub(crate) fn exchange(&mut self, entries: &mut [(usize, Option<T>)])
        requires room { HasRoomFor self.old.room entries.old }
        ensures held { (key : ℕ) → get self.new.held key ≡ after_exchange entries.old (get self.old.held) key }
        ensures back { IsWayBack entries.new (get self.new.held) (get self.old.held) }
        ensures keys { keys_in entries.new ≡ keys_in entries.old }
        ensures room { self.new.room ≡ self.old.room }
        ensures back_room { HasRoomFor self.new.room entries.new }
    {
        exchange_all(&mut self.slots, &mut self.asking, entries);
    }

    /// Keeps each of these under its key again, the last of them first: the way back of an exchange.
    pub(crate) fn restore(&mut self, former: &mut [(usize, Option<T>)])
        requires room { HasRoomFor self.old.room former.old }
        ensures held { (key : ℕ) → get self.new.held key ≡ restored former.old (get self.old.held) key }
        ensures room { self.new.room ≡ self.old.room }
    {
        former.reverse();
        exchange_all(&mut self.slots, &mut self.asking, former);
    }
}

/// Adds empty slots at the end.
fn grow<T: Drop>(slots: &mut Vec<Option<T>>, additional: usize) -> Result<(), Memory>
    ensures ok { OnOk result (slots.new.items ≡ slots.old.items ++ replicate additional None) }
    ensures err { OnErr result (slots.new.items ≡ slots.old.items) }
{
    slots.reserve(additional)?;
    for _slot in 0..additional {
        slots.push(None)?;
    }
    Ok(())
}

/// Exchanges what slots have for these, one after the other.
fn exchange_all<T: Asks + Drop>(
    slots: &mut Vec<Option<T>>,
    asking: &mut usize,
    entries: &mut [(usize, Option<T>)],
)
    requires room { HasRoomFor (length slots.old.items) entries.old }
    requires asking { asking.old ≡ count_asking T.asks slots.old.items }
    ensures slots { slots.new.items ≡ (exchanged entries.old slots.old.items).0 }
    ensures entries { entries.new ≡ (exchanged entries.old slots.old.items).1 }
    ensures asking { asking.new ≡ count_asking T.asks slots.new.items }
{
    for entry in entries.iter_mut() {
        exchange_one(slots, asking, entry);
    }
}

/// Exchanges what a slot has for this. Beyond the last slot nothing is, and nothing comes.
fn exchange_one<T: Asks + Drop>(
    slots: &mut Vec<Option<T>>,
    asking: &mut usize,
    entry: &mut (usize, Option<T>),
)
    requires room { IfSome entry.old.1 (λ _. entry.old.0 < length slots.old.items) }
    requires asking { asking.old ≡ count_asking T.asks slots.old.items }
    ensures slots { slots.new.items ≡ slice_set slots.old.items entry.old.0 entry.old.1 }
    ensures entry { entry.new ≡ (entry.old.0, slice_index_or slots.old.items entry.old.0 None) }
    ensures asking { asking.new ≡ count_asking T.asks slots.new.items }
{
    let came = is_asking(entry.1.as_ref());
    let room = slots.len();
    if room <= entry.0 {
        return;
    }
    let slot = &mut slots[entry.0];
    let went = is_asking(slot.as_ref());
    mem::swap(slot, &mut entry.1);
    *asking = counted(*asking, room, came, went);
}

/// How many there are once one came, or not, and one went, or not.
fn counted(count: usize, room: usize, came: bool, went: bool) -> usize
    requires few { count + cond came 1 0 ≤ room + cond went 1 0 }
    requires some { cond went 1 0 ≤ count }
    ensures count { result + cond went 1 0 ≡ count + cond came 1 0 }
{
    match (came, went) {
        (true, false) => count + 1,
        (false, true) => count - 1,
        _ => count,
    }
}
