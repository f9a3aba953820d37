//! What a board holds of elements, each read once.

ghost use Rattle.std.specs.Prelude.{◌≡◌, ◌==◌, ◌≤◌, ◌+◌, ◌||◌, ℕ, nat_eq, [], true, length, None, OnOk};
ghost use Rattle.std.specs.List.{IsDistinct};
ghost use Rattle.edit_work.specs.KeyedSources.{is_among};
ghost use Rattle.kept_elements.specs.Machinery.Renewals.{AreRead, read_in};

use crate::kept::Kept;
use indexmap::IndexSet;
use plain_types::memory::Memory;
use snapshot_board::board::Board;
use std::alloc::Global;
use std::collections::HashMap;
use std::sync::ledger::Ledger;
use steps::Steps;

/// Elements that were looked up on a board, and what it holds of those of which it holds something.
#[derive(Drop)]
pub struct HeldElements<'a> {
    pub keys: IndexSet<usize>,
    pub kept: HashMap<usize, &'a Kept>,
}

impl<'a> HeldElements<'a> {
    /// No elements. It takes no memory.
    pub fn new(alloc: Global) -> HeldElements<'a>
        ensures none { result.keys.keys ≡ [] }
        ensures nothing { (key : ℕ) → read_in result.kept key ≡ None }
    {
        HeldElements {
            keys: IndexSet::new(alloc),
            kept: HashMap::new(alloc),
        }
    }

    /// Looks an element up, where it was not before. Then it is a step.
    pub fn add<L: Ledger>(
        &mut self,
        board: &'a Board<Kept>,
        key: usize,
        steps: &mut Steps<L>,
    ) -> Result<(), Memory>
        requires read { AreRead self.old.keys.keys (read_in self.old.kept) board.now.held }
        ensures read { OnOk result (AreRead self.new.keys.keys (read_in self.new.kept) board.now.held) }
        ensures keys { OnOk result ((other : ℕ) → is_among self.new.keys.keys other ≡ (is_among self.old.keys.keys other || key == other)) }
        ensures only { (other : ℕ) → is_among self.new.keys.keys other ≡ true → (is_among self.old.keys.keys other || key == other) ≡ true }
        ensures unique { IsDistinct nat_eq self.new.keys.keys }
        ensures once { steps.new + length self.old.keys.keys ≡ steps.old + length self.new.keys.keys }
        ensures step { steps.new ≤ steps.old + 1 }
    {
        if self.keys.insert(key)? {
            if let Some(kept) = board.get(key, steps) {
                self.kept.insert(key, kept)?;
            }
        }
        Ok(())
    }

    /// Looks these elements up, those of them that were not before. It is a step for each of those.
    pub fn add_all<L: Ledger>(
        &mut self,
        board: &'a Board<Kept>,
        keys: &[usize],
        steps: &mut Steps<L>,
    ) -> Result<(), Memory>
        requires unique { IsDistinct nat_eq self.old.keys.keys }
        requires read { AreRead self.old.keys.keys (read_in self.old.kept) board.now.held }
        ensures read { OnOk result (AreRead self.new.keys.keys (read_in self.new.kept) board.now.held) }
        ensures keys { OnOk result ((other : ℕ) → is_among self.new.keys.keys other ≡ (is_among self.old.keys.keys other || is_among keys.now other)) }
        ensures only { (other : ℕ) → is_among self.new.keys.keys other ≡ true → (is_among self.old.keys.keys other || is_among keys.now other) ≡ true }
        ensures unique { IsDistinct nat_eq self.new.keys.keys }
        ensures once { steps.new + length self.old.keys.keys ≡ steps.old + length self.new.keys.keys }
        ensures steps { steps.new ≤ steps.old + length keys.now }
    {
        for key in keys {
            self.add(board, *key, steps)?;
        }
        Ok(())
    }
}
