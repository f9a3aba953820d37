//! What is kept of a document for both walks of an edit.

ghost use Rattle.std.specs.Prelude.{◌≡◌, [], ℕ, List, IfOk};
ghost use Rattle.std.specs.FinMap.{empty};
ghost use Rattle.box_eval.specs.Starts.{no_starts};
ghost use Rattle.counter_index.specs.declared.index.CounterIndex.{CounterIndex};
ghost use Rattle.counter_index.specs.Indexes.{AsksForStarts};
ghost use Rattle.edit_work.specs.KeyedSources.{KeyedSource};
ghost use Rattle.kept_elements.specs.Changes.{AreBelow};
ghost use Rattle.reference_reach.specs.ToldLaws.{told_with};
ghost use Rattle.snapshot_board.specs.Records.{put_all, take_all};
ghost use Rattle.started_walk.specs.Countings.{Counts, KeepsTheSame};
ghost use Rattle.started_walk.specs.Exchanges.{TakesBack};
ghost use Rattle.started_walk.specs.Settled.{IsWalked, saved, without_were};

use crate::bring::{Brought, WayBack, bring_index, take_back};
use crate::saved::save;
use crate::zeros::zeros_told;
use counter_index::deeds::told_exchange;
use counter_index::index::CounterIndex;
use kept_elements::kept_change::KeptChange;
use node_arena::arena::Arena;
use node_arena::laws::arena_holds_document;
use plain_types::memory::Memory;
use std::alloc::Global;
use surroundings::told::Told;
use surroundings::walked::Walked;
use zero_walks::zero_walks::ZeroWalks;

/// What is kept of a document for the two walks of an edit, beside its board: the index of what its elements do to reversed counters,
/// with the starts for which they ask; and, where they ask for any, what a walk with all starts 0 hands those elements that it hands
/// something else than a walk with these starts does. Of others it may be kept too.
pub struct Counting {
    pub zeros: ZeroWalks,
    pub index: CounterIndex,
}

impl Drop for Counting {
    fn drop(self) {
        let Counting { zeros: _, index: _ } = self;
    }
}

impl Counting {
    /// What is to be kept of a document, of whose elements this is told by a walk with all starts 0.
    pub fn of(alloc: Global, arena: &Arena, told: &[(usize, Told)]) -> Result<Counting, Memory>
        requires told { (source : KeyedSource) × ((source.tree ≡ arena.now.tree) × (told.now ≡ told_with source no_starts)) }
        ensures counts { IfOk result (λ counting. (source : KeyedSource) → source.tree ≡ arena.now.tree → told.now ≡ told_with source no_starts → Counts source counting) }
        ensures none { IfOk result (λ counting. (AsksForStarts counting.index → ⊥) → counting.zeros.held ≡ empty) }
    {
        arena_holds_document(arena);
        let deeds = told_exchange(alloc, &[], told)?;
        let mut index = CounterIndex::new(alloc);
        let Brought { back: _, other: _ } = bring_index(alloc, arena, &mut index, deeds, &[])?;
        if !index.asks() {
            return Ok(Counting {
                zeros: ZeroWalks::new(alloc),
                index,
            });
        }
        let zeros = zeros_told(alloc, told)?;
        Ok(Counting { zeros, index })
    }

    /// Brings what the first walk of an edit compares with to the edited document, whose index this has already: these elements go,
    /// these come or are handed something else with all starts 0, and these changes come to the board. What an element was handed
    /// before its change is moved out of these. Where no box asks for a start nothing is kept. It takes no memory.
    pub fn settle(
        &mut self,
        alloc: Global,
        takes: &[usize],
        zeros: Vec<(usize, Walked)>,
        changes: &mut [(usize, KeptChange)],
    )
        requires room { AreBelow self.old.zeros.room zeros.items }
        ensures counts { (before after : KeyedSource) → IsWalked before after self.old takes.now zeros.items changes.old → Counts after self.new }
        ensures zeros { AsksForStarts self.old.index → self.new.zeros.held ≡ saved self.old.zeros.room changes.old (put_all zeros.items (take_all takes.now self.old.zeros.held)) }
        ensures none { (AsksForStarts self.old.index → ⊥) → self.new.zeros.held ≡ empty }
        ensures index { self.new.index ≡ self.old.index }
        ensures changes { changes.new ≡ without_were changes.old }
    {
        self.zeros.bring(takes, zeros);
        save(&mut self.zeros, changes);
        if !self.index.asks() {
            self.zeros = ZeroWalks::new(alloc);
        }
    }

    /// Takes the index back to what it kept before an edit. It takes no memory.
    pub fn restore(&mut self, back: WayBack)
        requires back { (was : CounterIndex) × TakesBack back self.old.index was }
        ensures back { (was : CounterIndex) → TakesBack back self.old.index was → KeepsTheSame self.new.index was }
        ensures zeros { self.new.zeros ≡ self.old.zeros }
    {
        take_back(&mut self.index, back);
    }
}
