//! The index of a document.

ghost use Rattle.std.specs.Prelude.{◌≡◌, ◌↔◌, ◌≤◌, ℕ, IsTrue, OnOk, option_copied};
ghost use Rattle.std.specs.FinMap.{empty, get};
ghost use Rattle.counter_index.specs.Exchanges.{HasRoomFor, IsWayBack, after_exchange, keys_in, restored};
ghost use Rattle.counter_index.specs.Indexes.{AsksForStarts, asked_at, deeds_at, starts_at, starts_by};

use crate::deeds::CounterDeeds;
use crate::slots::Slots;
use crate::values::value_in;
use box_eval::inputs::Start;
use box_eval::starts::Starts;
use plain_types::box_id::BoxId;
use plain_types::count::Count;
use plain_types::list::List;
use plain_types::memory::Memory;
use std::alloc::Global;

/// What the elements of a document do to counters, and the starts of the counters for which they ask. Elements are named
/// by their keys in an arena.
pub struct CounterIndex {
    pub(crate) deeds: Slots<CounterDeeds>,
    pub(crate) starts: Slots<List<Start>>,
}

impl Drop for CounterIndex {
    fn drop(self) {
        let CounterIndex {
            deeds: _,
            starts: _,
        } = self;
    }
}

/// The starts that are kept, and none where nothing is.
pub(crate) fn starts_by<'a>(starts: Option<&'a List<Start>>) -> &'a [Start]
    ensures starts { result.now ≡ starts_by (option_copied starts.entry) }
{
    match starts {
        Some(its) => its.as_slice(),
        None => &[],
    }
}

impl CounterIndex {
    /// The index of no elements. It takes no memory.
    pub fn new(alloc: Global) -> CounterIndex
        ensures deeds { result.deeds.held ≡ empty }
        ensures starts { result.starts.held ≡ empty }
    {
        CounterIndex {
            deeds: Slots::new(alloc),
            starts: Slots::new(alloc),
        }
    }

    /// Makes room for the keys below this number, where there is less; in time linear in the room that comes.
    pub fn reserve(&mut self, room: usize) -> Result<(), Memory>
        ensures deeds { self.new.deeds.held ≡ self.old.deeds.held }
        ensures starts { self.new.starts.held ≡ self.old.starts.held }
        ensures room { OnOk result (room ≤ self.new.deeds.room) }
        ensures starts_room { OnOk result (room ≤ self.new.starts.room) }
        ensures grown { self.old.deeds.room ≤ self.new.deeds.room }
        ensures starts_grown { self.old.starts.room ≤ self.new.starts.room }
    {
        self.deeds.reserve(room)?;
        self.starts.reserve(room)
    }

    /// What an element does to counters, in constant time.
    pub fn deeds(&self, key: usize) -> Option<&CounterDeeds>
        ensures deeds { option_copied result ≡ deeds_at self.now key }
    {
        self.deeds.get(key)
    }

    /// The starts for which an element asks, in constant time. Their values are not told.
    pub fn asked(&self, key: usize) -> &[Start]
        ensures asked { result.now ≡ asked_at self.now key }
    {
        match self.deeds.get(key) {
            Some(its) => its.asked.as_slice(),
            None => &[],
        }
    }

    /// The starts that are kept of an element, in constant time: those for which it asks, each with its value.
    pub fn starts(&self, key: usize) -> &[Start]
        ensures starts { result.now ≡ starts_at self.now key }
    {
        starts_by(self.starts.get(key))
    }

    /// Whether an element asks for starts. Constant time.
    pub fn asks(&self) -> bool
        ensures test { IsTrue result ↔ AsksForStarts self.now }
    {
        self.deeds.has_asking()
    }

    /// Keeps these deeds of elements, in their order, and leaves in their place what was kept of the elements before:
    /// the way back. An element that goes has none, and one of which nothing is kept needs no room. It takes no memory, and time
    /// linear in the elements.
    pub fn exchange(&mut self, entries: &mut [(usize, Option<CounterDeeds>)])
        requires room { HasRoomFor self.old.deeds.room entries.old }
        ensures deeds { (key : ℕ) → deeds_at self.new key ≡ after_exchange entries.old (deeds_at self.old) key }
        ensures back { IsWayBack entries.new (deeds_at self.new) (deeds_at self.old) }
        ensures keys { keys_in entries.new ≡ keys_in entries.old }
        ensures room { self.new.deeds.room ≡ self.old.deeds.room }
        ensures back_room { HasRoomFor self.new.deeds.room entries.new }
        ensures starts { self.new.starts ≡ self.old.starts }
    {
        self.deeds.exchange(entries);
    }

    /// Takes an exchange of deeds back. It takes no memory, and time linear in the elements.
    pub fn restore(&mut self, former: &mut [(usize, Option<CounterDeeds>)])
        requires room { HasRoomFor self.old.deeds.room former.old }
        ensures deeds { (key : ℕ) → deeds_at self.new key ≡ restored former.old (deeds_at self.old) key }
        ensures room { self.new.deeds.room ≡ self.old.deeds.room }
        ensures starts { self.new.starts ≡ self.old.starts }
    {
        self.deeds.restore(former);
    }

    /// The same of the starts for which elements ask, each with its value.
    pub fn exchange_starts(&mut self, entries: &mut [(usize, Option<List<Start>>)])
        requires room { HasRoomFor self.old.starts.room entries.old }
        ensures starts { (key : ℕ) → get self.new.starts.held key ≡ after_exchange entries.old (get self.old.starts.held) key }
        ensures back { IsWayBack entries.new (get self.new.starts.held) (get self.old.starts.held) }
        ensures keys { keys_in entries.new ≡ keys_in entries.old }
        ensures room { self.new.starts.room ≡ self.old.starts.room }
        ensures back_room { HasRoomFor self.new.starts.room entries.new }
        ensures deeds { self.new.deeds ≡ self.old.deeds }
    {
        self.starts.exchange(entries);
    }

    /// Takes an exchange of starts back.
    pub fn restore_starts(&mut self, former: &mut [(usize, Option<List<Start>>)])
        requires room { HasRoomFor self.old.starts.room former.old }
        ensures starts { (key : ℕ) → get self.new.starts.held key ≡ restored former.old (get self.old.starts.held) key }
        ensures room { self.new.starts.room ≡ self.old.starts.room }
        ensures deeds { self.new.deeds ≡ self.old.deeds }
    {
        self.starts.restore(former);
    }
}

/// The starts that are kept.
impl Starts for CounterIndex {
    ghost use Rattle.counter_index.specs.Indexes.{value_at};

    ghost starts = { value_at };

    /// It takes no memory, and time linear in the starts for which the element asks.
    fn start(&self, creator: BoxId, name: &str) -> Count {
        value_in(self.starts(creator.key), creator, name)
    }

    /// Those of all boxes of the element, in constant time.
    fn listed(&self, creator: BoxId) -> Option<&[Start]> {
        Some(self.starts(creator.key))
    }
}
