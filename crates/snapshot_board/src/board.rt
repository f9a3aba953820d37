//! Records under keys.

ghost use Rattle.std.specs.Prelude.{◌≡◌, ◌+◌, ◌<◌, ◌≤◌, ◌++◌, None, OnErr, OnOk, option_copied, replicate};
ghost use Rattle.std.specs.FinMap.{empty, get, insert, remove};

use plain_types::memory::Memory;
use std::alloc::Global;
use std::marker::Model;
use std::mem;
use std::sync::ledger::Ledger;
use steps::Steps;

/// Records under keys below a room. There is a slot for each of these keys, so a board takes memory by its room, and
/// not by its records. Contracts see the records and the room.
#[derive(Drop)]
pub struct Board<R> {
    slots: Vec<Option<R>>,
}

impl<R> Model for Board<R> {
    ghost use Rattle.snapshot_board.specs.Records.{Records, records_code};
    ghost use Rattle.snapshot_board.specs.Slots.{records_in};

    ghost Value = { Records R };

    ghost coded = { records_code R.code };

    ghost view = { λ board. records_in board.slots.items };
}

#[tactic(auto, using(crate::proofs::SlotLemmas::held_rules))]
impl<R: Drop> Board<R> {
    /// A board without records and without room. It takes no memory.
    pub fn new(alloc: Global) -> Board<R>
        ensures held { result.held ≡ empty }
        ensures room { result.room ≡ 0 }
    {
        Board {
            slots: Vec::new(alloc),
        }
    }

    /// Makes room for the keys below this number, where there is less; in time linear in the room that comes. It is
    /// no step.
    pub fn reserve(&mut self, room: usize) -> Result<(), Memory>
        ensures held { self.new.held ≡ self.old.held }
        ensures room { OnOk result (room ≤ self.new.room) }
        ensures grown { self.old.room ≤ self.new.room }
        ensures err { OnErr result (self.new ≡ self.old) }
    {
        let now = self.slots.len();
        if room <= now {
            return Ok(());
        }
        grow(&mut self.slots, room - now)
    }

    /// The record of a key, in constant time. There is none past the room.
    pub fn get<L: Ledger>(&self, key: usize, steps: &mut Steps<L>) -> Option<&R>
        ensures value { option_copied result ≡ get self.now.held key }
        ensures step { steps.new ≡ steps.old + 1 }
    {
        steps.tick();
        self.slots.get(key)?.as_ref()
    }

    /// Keeps this record under the key, in constant time, and answers the one that it kept there before.
    pub fn put<L: Ledger>(&mut self, key: usize, value: R, steps: &mut Steps<L>) -> Option<R>
        requires room { key < self.old.room }
        ensures before { result ≡ get self.old.held key }
        ensures held { self.new.held ≡ insert self.old.held key value }
        ensures room { self.new.room ≡ self.old.room }
        ensures step { steps.new ≡ steps.old + 1 }
    {
        steps.tick();
        mem::replace(&mut self.slots[key], Some(value))
    }

    /// Takes the record of a key off the board, in constant time, and answers it. There is none past the room.
    pub fn take<L: Ledger>(&mut self, key: usize, steps: &mut Steps<L>) -> Option<R>
        ensures before { result ≡ get self.old.held key }
        ensures held { self.new.held ≡ remove self.old.held key }
        ensures room { self.new.room ≡ self.old.room }
        ensures step { steps.new ≡ steps.old + 1 }
    {
        steps.tick();
        self.slots.get_mut(key)?.take()
    }
}

/// Adds empty slots at the end.
fn grow<R: Drop>(slots: &mut Vec<Option<R>>, additional: usize) -> Result<(), Memory>
    ensures ok { OnOk result (slots.new.items ≡ slots.old.items ++ replicate additional None) }
    ensures err { OnErr result (slots.new.items ≡ slots.old.items) }
{
    slots.reserve(additional)?;
    for _slot in 0..additional {
        slots.push(None)?;
    }
    Ok(())
}
