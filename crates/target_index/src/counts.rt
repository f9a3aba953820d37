//! How often ids come.

ghost use Rattle.std.specs.Prelude.{◌≡◌, ◌+◌, ◌<◌, ◌^◌, ℕ, List, [], Some, IfOk, OnOk, cond, count_by, length, slice_get};
ghost use Rattle.std.specs.Str.{bytes_eq, chars};
ghost use Rattle.target_index.specs.Changes.{added_ids};
ghost use Rattle.target_index.specs.Counts.{count_of};

use crate::change::{IndexChange, Relation};
use indexmap::IndexMap;
use plain_types::memory::Memory;
use std::alloc::Global;
use std::marker::Model;

/// How often each of some ids comes.
#[derive(Drop)]
pub(crate) struct Counts {
    by_id: IndexMap<String, usize>,
}

impl Model for Counts {
    ghost use Rattle.std.specs.Prelude.{ℕ, List};
    ghost use Rattle.std.specs.String.{string_bytes};
    ghost use Rattle.target_index.specs.Counts.{counts_of};

    ghost Value = { List (List ℕ × ℕ) };

    ghost view = { λ counts. counts_of string_bytes counts.by_id.entries };
}

impl Counts {
    /// No ids.
    fn new(alloc: Global) -> Counts
        ensures empty { result ≡ [] }
    {
        Counts {
            by_id: IndexMap::new(alloc),
        }
    }

    /// How many ids there are.
    pub(crate) fn len(&self) -> usize
        ensures length { result ≡ length self.now }
    {
        self.by_id.len()
    }

    /// The id at a place, and how often it comes.
    pub(crate) fn at(&self, place: usize) -> (&str, usize)
        requires within { place < length self.now }
        ensures entry { slice_get self.now place ≡ Some (chars result.0.now, result.1) }
    {
        let (id, count) = self.by_id.get_index(place).unwrap();
        (id.as_str(), *count)
    }

    /// Counts an id once more.
    fn add(&mut self, alloc: Global, id: &str) -> Result<(), Memory>
        requires few { count_of self.old (chars id.now) < 2 ^ 63 }
        ensures ok { OnOk result ((other : List ℕ) → count_of self.new other ≡ count_of self.old other + cond (bytes_eq other (chars id.now)) 1 0) }
    {
        if let Some(count) = self.by_id.get_mut(id) {
            *count += 1;
            return Ok(());
        }
        self.by_id.insert(String::from_str(alloc, id)?, 1)?;
        Ok(())
    }
}

/// How often changes add a pair of this relation to each id.
pub(crate) fn count_added(
    alloc: Global,
    changes: &[IndexChange],
    relation: Relation,
) -> Result<Counts, Memory>
    ensures counts { IfOk result (λ counts. (id : List ℕ) → count_of counts id ≡ count_by (bytes_eq id) (added_ids relation changes.now)) }
{
    let mut counts = Counts::new(alloc);
    for change in changes {
        if let Some(id) = change.added_id(relation) {
            counts.add(alloc, id)?;
        }
    }
    Ok(counts)
}
