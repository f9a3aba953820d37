//! Elements that are paired with ids.

ghost use Rattle.std.specs.Prelude.{◌≡◌, ◌+◌, ◌≤◌, ◌<◌, ℕ, nat_eq, List, [], true, false, cond, OnOk};
ghost use Rattle.std.specs.List.{IsDistinct};
ghost use Rattle.std.specs.Str.{bytes_eq, chars};
ghost use Rattle.target_index.specs.Changes.{is_that};
ghost use Rattle.target_index.specs.Counts.{count_of};
ghost use Rattle.target_index.specs.Pairs.{IsEntered, is_pair, keys_of, room_of};

use crate::counts::Counts;
use indexmap::{IndexMap, IndexSet};
use plain_types::memory::Memory;
use std::alloc::Global;
use std::marker::Model;

/// Pairs of an id and the key of an element, each pair once. An id stays entered once it was.
#[derive(Drop)]
pub(crate) struct Pairs {
    by_id: IndexMap<String, IndexSet<usize>>,
}

impl Model for Pairs {
    ghost use Rattle.std.specs.String.{string_bytes};
    ghost use Rattle.target_index.specs.Pairs.{Pairs as ByIds};
    ghost use Rattle.target_index.specs.Views.{pairs_of};

    ghost Value = { ByIds };

    ghost view = { λ pairs. pairs_of string_bytes pairs.by_id.entries };
}

impl Pairs {
    /// No pairs.
    pub(crate) fn new(alloc: Global) -> Pairs
        ensures empty { result ≡ [] }
    {
        Pairs {
            by_id: IndexMap::new(alloc),
        }
    }

    /// The keys that are paired with an id, each once.
    pub(crate) fn keys(&self, id: &str) -> &[usize]
        ensures keys { result.now ≡ keys_of self.now (chars id.now) }
        ensures once { IsDistinct nat_eq result.now }
    {
        match self.by_id.get(id) {
            Some(keys) => keys.as_slice(),
            None => &[],
        }
    }

    /// Makes room for so many more keys of an id, which is entered where it is not.
    pub(crate) fn reserve(
        &mut self,
        alloc: Global,
        id: &str,
        additional: usize,
    ) -> Result<(), Memory>
        ensures keys { (other : List ℕ) → keys_of self.new other ≡ keys_of self.old other }
        ensures kept { (other : List ℕ) → room_of self.old other ≤ room_of self.new other }
        ensures room { OnOk result (additional ≤ room_of self.new (chars id.now)) }
    {
        self.enter(alloc, id)?;
        self.widen(id, additional)
    }

    /// Makes room for as many more keys of each id as it is counted.
    pub(crate) fn reserve_all(&mut self, alloc: Global, counts: &Counts) -> Result<(), Memory>
        ensures keys { (other : List ℕ) → keys_of self.new other ≡ keys_of self.old other }
        ensures kept { (other : List ℕ) → room_of self.old other ≤ room_of self.new other }
        ensures room { OnOk result ((other : List ℕ) → count_of counts.now other ≤ room_of self.new other) }
    {
        for place in 0..counts.len() {
            let (id, count) = counts.at(place);
            self.reserve(alloc, id, count)?;
        }
        Ok(())
    }

    /// Enters an id.
    fn enter(&mut self, alloc: Global, id: &str) -> Result<(), Memory>
        ensures keys { (other : List ℕ) → keys_of self.new other ≡ keys_of self.old other }
        ensures kept { (other : List ℕ) → room_of self.old other ≤ room_of self.new other }
        ensures entered { OnOk result (IsEntered self.new (chars id.now)) }
    {
        if self.by_id.contains_key(id) {
            return Ok(());
        }
        let name = String::from_str(alloc, id)?;
        self.by_id.insert(name, IndexSet::new(alloc))?;
        Ok(())
    }

    /// Makes room for so many more keys of an id that is entered.
    fn widen(&mut self, id: &str, additional: usize) -> Result<(), Memory>
        requires entered { IsEntered self.old (chars id.now) }
        ensures keys { (other : List ℕ) → keys_of self.new other ≡ keys_of self.old other }
        ensures kept { (other : List ℕ) → room_of self.old other ≤ room_of self.new other }
        ensures room { OnOk result (additional ≤ room_of self.new (chars id.now)) }
    {
        let Some(keys) = self.by_id.get_mut(id) else {
            return Ok(());
        };
        keys.reserve(additional)?;
        Ok(())
    }

    /// Adds a pair for which there is room.
    pub(crate) fn insert(&mut self, id: &str, key: usize)
        requires room { 0 < room_of self.old (chars id.now) }
        ensures pair { (other : List ℕ) (element : ℕ) → is_pair self.new other element ≡ cond (is_that (chars id.now) key other element) true (is_pair self.old other element) }
        ensures room { (other : List ℕ) → room_of self.old other ≤ room_of self.new other + cond (bytes_eq other (chars id.now)) 1 0 }
    {
        let Some(keys) = self.by_id.get_mut(id) else {
            return;
        };
        keys.insert(key).unwrap();
    }

    /// Takes a pair away.
    pub(crate) fn remove(&mut self, id: &str, key: usize)
        ensures pair { (other : List ℕ) (element : ℕ) → is_pair self.new other element ≡ cond (is_that (chars id.now) key other element) false (is_pair self.old other element) }
        ensures room { (other : List ℕ) → room_of self.old other ≤ room_of self.new other }
    {
        let Some(keys) = self.by_id.get_mut(id) else {
            return;
        };
        keys.swap_remove(&key);
    }
}
