//! The index of a document.

ghost use Rattle.std.specs.Prelude.{◌≡◌, ◌∷◌, ◌++◌, ℕ, nat_eq, List, [], true, IfNone, IfSome, OnOk};
ghost use Rattle.std.specs.List.{IsDistinct};
ghost use Rattle.std.specs.Str.{chars};
ghost use Rattle.forest.specs.Spots.{IsLive};
ghost use Rattle.target_index.specs.Changes.{AreReserved, holds_after, holds_after_all, refers_after, refers_after_all};
ghost use Rattle.target_index.specs.Holders.{IsFirstHolder, holders_of, is_holder, is_reference, references_of};

use crate::change::{IndexChange, Relation};
use crate::counts::count_added;
use crate::pairs::Pairs;
use node_arena::arena::Arena;
use plain_types::list::List;
use plain_types::memory::Memory;
use std::alloc::Global;

/// Which elements hold an id, and which refer to one. Elements are named by their keys in an arena.
pub struct Index {
    holders: Pairs,
    references: Pairs,
}

impl Drop for Index {
    fn drop(self) {
        let Index {
            holders: _,
            references: _,
        } = self;
    }
}

impl Index {
    /// The index without pairs. It takes no memory.
    pub fn new(alloc: Global) -> Index
        ensures holders { (id : List ℕ) → holders_of result id ≡ [] }
        ensures references { (id : List ℕ) → references_of result id ≡ [] }
    {
        Index {
            holders: Pairs::new(alloc),
            references: Pairs::new(alloc),
        }
    }

    /// Takes the memory that these changes need. What was reserved before stays reserved. It may enter ids that have no
    /// pair yet, also where it answers `Memory`. It takes time linear in the changes and their ids, amortized.
    pub fn reserve_for(&mut self, alloc: Global, changes: &[IndexChange]) -> Result<(), Memory>
        ensures holders { (id : List ℕ) → holders_of self.new id ≡ holders_of self.old id }
        ensures references { (id : List ℕ) → references_of self.new id ≡ references_of self.old id }
        ensures reserved { OnOk result (AreReserved self.new changes.now) }
        ensures stay { (before : List IndexChange) → AreReserved self.old before → AreReserved self.new before }
    {
        let held = count_added(alloc, changes, Relation::Holder)?;
        let referred = count_added(alloc, changes, Relation::Reference)?;
        self.holders.reserve_all(alloc, &held)?;
        self.references.reserve_all(alloc, &referred)?;
        Ok(())
    }

    /// Makes the changes, in their order. What was reserved after them stays reserved, so changes and their way back
    /// can be reserved together. It takes no memory, and time linear in the changes and their ids.
    pub fn commit(&mut self, changes: List<IndexChange>)
        requires reserved { AreReserved self.old changes }
        ensures holders { (id : List ℕ) (key : ℕ) → is_holder self.new id key ≡ holds_after_all changes id key (is_holder self.old id key) }
        ensures references { (id : List ℕ) (key : ℕ) → is_reference self.new id key ≡ refers_after_all changes id key (is_reference self.old id key) }
        ensures reserved { (more : List IndexChange) → AreReserved self.old (changes ++ more) → AreReserved self.new more }
    {
        for change in changes.as_slice() {
            self.apply(change);
        }
    }

    /// Makes a change. What was reserved after it stays reserved.
    fn apply(&mut self, change: &IndexChange)
        requires reserved { AreReserved self.old (change.now ∷ []) }
        ensures holders { (id : List ℕ) (key : ℕ) → is_holder self.new id key ≡ holds_after change.now id key (is_holder self.old id key) }
        ensures references { (id : List ℕ) (key : ℕ) → is_reference self.new id key ≡ refers_after change.now id key (is_reference self.old id key) }
        ensures reserved { (changes : List IndexChange) → AreReserved self.old (change.now ∷ changes) → AreReserved self.new changes }
    {
        match change {
            IndexChange::Hold { id, key } => self.holders.insert(id.as_str(), *key),
            IndexChange::Unhold { id, key } => self.holders.remove(id.as_str(), *key),
            IndexChange::Refer { id, key } => self.references.insert(id.as_str(), *key),
            IndexChange::Unrefer { id, key } => self.references.remove(id.as_str(), *key),
        }
    }

    /// The elements that hold the id, each once, in no stated order. They need not be live. It takes no memory,
    /// and time linear in the id.
    pub fn holders(&self, id: &str) -> &[usize]
        ensures holders { result.now ≡ holders_of self.now (chars id.now) }
        ensures once { IsDistinct nat_eq result.now }
    {
        self.holders.keys(id)
    }

    /// The elements that refer to the id, each once, in no stated order. It takes no memory, and time linear in
    /// the id.
    pub fn references(&self, id: &str) -> &[usize]
        ensures references { result.now ≡ references_of self.now (chars id.now) }
        ensures once { IsDistinct nat_eq result.now }
    {
        self.references.keys(id)
    }

    /// The first element in tree order that holds the id, None exactly where none does. It takes no memory. It
    /// does not walk the document: it takes time in the number of elements that hold the id, for each of them
    /// linear in how deep they are.
    pub fn first(&self, arena: &Arena, id: &str) -> Option<usize>
        requires live { (key : ℕ) → is_holder self.now (chars id.now) key ≡ true → IsLive arena.now.tree key }
        ensures first { IfSome result (IsFirstHolder arena.now.tree self.now (chars id.now)) }
        ensures none { IfNone result (holders_of self.now (chars id.now) ≡ []) }
    {
        let mut first = None;
        for key in self.holders(id) {
            first = match first {
                Some(best) if !arena.precedes(*key, best) => Some(best),
                _ => Some(*key),
            };
        }
        first
    }
}
