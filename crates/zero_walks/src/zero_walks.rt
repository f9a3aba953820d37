//! What a walk with all starts 0 keeps of elements.

ghost use Rattle.std.specs.Prelude.{◌≡◌, ◌<◌, ◌≤◌, ◌++◌, ℕ, IfOk, None, OnErr, OnOk, option_copied, replicate};
ghost use Rattle.std.specs.FinMap.{empty, get, insert, remove};
ghost use Rattle.std.specs.List.{AllByRecursion};
ghost use Rattle.surroundings.specs.declared.walked.Walked.{Walked};
ghost use Rattle.snapshot_board.specs.Records.{put_all, take_all};
ghost use Rattle.zero_walks.specs.Missing.{put_missing};
ghost use Rattle.zero_walks.specs.Told.{walked_of};

use document_walk::snapshot::Snapshots;
use plain_types::memory::Memory;
use std::alloc::Global;
use std::marker::Model;
use std::sync::ledger::Ledger;
use steps::Steps;
use surroundings::told::Told;
use surroundings::walked::Walked;

/// What elements are handed, and what is handed on behind their children, where all starts are 0; under the elements' keys,
/// which are below a room. There is a slot for each key below it, so it takes memory by its room, and not by its elements.
/// Contracts see what is kept and the room.
#[derive(Drop)]
pub struct ZeroWalks {
    slots: Vec<Option<Walked>>,
}

impl Model for ZeroWalks {
    ghost use Rattle.surroundings.specs.declared.walked.Walked.{Walked};
    ghost use Rattle.surroundings.specs.contracts.walked.Walked as walked;
    ghost use Rattle.snapshot_board.specs.Records.{Records, records_code};
    ghost use Rattle.snapshot_board.specs.Slots.{records_in};

    ghost Value = { Records Walked };

    ghost coded = { records_code walked.the_row.coded };

    ghost view = { λ zeros. records_in zeros.slots.items };
}

#[tactic(auto, using(snapshot_board::proofs::SlotLemmas::held_rules))]
impl ZeroWalks {
    /// Of no element, and without room. It takes no memory.
    pub fn new(alloc: Global) -> ZeroWalks
        ensures held { result.held ≡ empty }
        ensures room { result.room ≡ 0 }
    {
        ZeroWalks {
            slots: Vec::new(alloc),
        }
    }

    /// Makes room for the keys below this number, where there is less; in time linear in the room that comes.
    pub fn reserve(&mut self, room: usize) -> Result<(), Memory>
        ensures held { self.new.held ≡ self.old.held }
        ensures room { OnOk result (room ≤ self.new.room) }
        ensures grown { self.old.room ≤ self.new.room }
        ensures err { OnErr result (self.new ≡ self.old) }
    {
        let now = self.slots.len();
        if room <= now {
            return Ok(());
        }
        grow(&mut self.slots, room - now)
    }

    /// Keeps this of the element of a key, in constant time and without memory. It is no step.
    pub fn put(&mut self, key: usize, walked: Walked)
        requires room { key < self.old.room }
        ensures held { self.new.held ≡ insert self.old.held key walked }
        ensures room { self.new.room ≡ self.old.room }
    {
        self.slots[key] = Some(walked);
    }

    /// Keeps this of the element of a key, where something is given, nothing is kept of the element and there is room for it; in
    /// constant time and without memory. It is no step.
    pub fn put_missing(&mut self, key: usize, walked: Option<Walked>)
        ensures held { self.new.held ≡ put_missing self.old.room key walked self.old.held }
        ensures room { self.new.room ≡ self.old.room }
    {
        let Some(walked) = walked else {
            return;
        };
        if key < self.slots.len() && self.get(key).is_none() {
            self.put(key, walked);
        }
    }

    /// What is kept of the element of a key, in constant time. It is no step.
    pub fn get(&self, key: usize) -> Option<&Walked>
        ensures kept { option_copied result ≡ get self.now.held key }
    {
        self.slots.get(key)?.as_ref()
    }

    /// Keeps nothing of the element of a key any more, in constant time. It is no step.
    pub fn take(&mut self, key: usize)
        ensures held { self.new.held ≡ remove self.old.held key }
        ensures room { self.new.room ≡ self.old.room }
    {
        if let Some(slot) = self.slots.get_mut(key) {
            *slot = None;
        }
    }

    /// These elements go, and then these come, or are handed something else than before; in time linear in their number and
    /// without memory. It is no step.
    pub fn bring(&mut self, takes: &[usize], walked: Vec<(usize, Walked)>)
        requires room { AllByRecursion (λ (element : ℕ × Walked). element.0 < self.old.room) walked.items }
        ensures held { self.new.held ≡ put_all walked.items (take_all takes.now self.old.held) }
        ensures room { self.new.room ≡ self.old.room }
    {
        self.take_all(takes);
        self.put_all(walked);
    }

    fn take_all(&mut self, keys: &[usize])
        ensures held { self.new.held ≡ take_all keys.now self.old.held }
        ensures room { self.new.room ≡ self.old.room }
    {
        for key in keys {
            self.take(*key);
        }
    }

    fn put_all(&mut self, walked: Vec<(usize, Walked)>)
        requires room { AllByRecursion (λ (element : ℕ × Walked). element.0 < self.old.room) walked.items }
        ensures held { self.new.held ≡ put_all walked.items self.old.held }
        ensures room { self.new.room ≡ self.old.room }
    {
        for (key, walked) in walked {
            self.put(key, walked);
        }
    }
}

#[tactic(auto, using(snapshot_board::proofs::SlotLemmas::held_rules))]
impl Snapshots for ZeroWalks {
    ghost use Rattle.std.specs.FinMap.{get};

    ghost kept = { λ zeros key. get zeros.held key };

    fn walked<L: Ledger>(&self, key: usize, steps: &mut Steps<L>) -> Option<&Walked> {
        steps.tick();
        self.get(key)
    }
}

/// What is kept of the elements of which this is told, as by [`Walked::share`].
pub fn walked_of(alloc: Global, told: &[(usize, Told)]) -> Result<Vec<(usize, Walked)>, Memory>
    ensures walked { IfOk result (λ walked. walked.items ≡ walked_of told.now) }
{
    let mut walked = Vec::new(alloc);
    for (key, told) in told {
        walked.push((*key, told.walked.share(alloc)?))?;
    }
    Ok(walked)
}

/// Adds empty slots at the end.
fn grow(slots: &mut Vec<Option<Walked>>, additional: usize) -> Result<(), Memory>
    ensures ok { OnOk result (slots.new.items ≡ slots.old.items ++ replicate additional None) }
    ensures err { OnErr result (slots.new.items ≡ slots.old.items) }
{
    slots.reserve(additional)?;
    for _slot in 0..additional {
        slots.push(None)?;
    }
    Ok(())
}
