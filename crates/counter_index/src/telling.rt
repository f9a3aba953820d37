//! Starts that are told again.

ghost use Rattle.std.specs.Prelude.{◌≡◌, ◌++◌, ℕ, List, All, IfOk, OnOk, Option};
ghost use Rattle.forest.specs.Spots.{IsLive};
ghost use Rattle.plain_types.specs.declared.counter_style.CounterStyle.{CounterStyle};
ghost use Rattle.plain_types.specs.declared.style.ElementStyle.{ElementStyle};
ghost use Rattle.plain_types.specs.declared.style.Style.{Style};
ghost use Rattle.box_eval.specs.declared.inputs.Start.{Start};
ghost use Rattle.box_eval.specs.Starts.{document_starts};
ghost use Rattle.counter_index.specs.Documents.{KeepsDeeds};
ghost use Rattle.counter_index.specs.Indexes.{asked_at, counting_at, told_by_scope, with_values};
ghost use Rattle.counter_index.specs.Retold.{other_key, other_keys, told_entries};

use crate::index::{CounterIndex, starts_by};
use crate::scope::starts_told;
use crate::touched::are_same_starts;
use box_eval::inputs::Start;
use node_arena::arena::Arena;
use node_arena::laws::arena_holds_document;
use plain_types::list::List;
use plain_types::memory::Memory;
use std::alloc::Global;

impl CounterIndex {
    /// The starts for which an element asks, each told again by what is kept of the elements in its scope. It takes time in the
    /// nodes of these scopes and what they do to counters.
    pub fn starts_again(
        &self,
        alloc: Global,
        arena: &Arena,
        key: usize,
    ) -> Result<List<Start>, Memory>
        requires live { All (λ (asked : Start). IsLive arena.now.tree asked.creator.key) (asked_at self.now key) }
        ensures told { IfOk result (λ told. told ≡ with_values (told_by_scope (counting_at self.now) arena.now.tree) (asked_at self.now key)) }
    {
        starts_told(alloc, &self.deeds, arena, self.asked(key))
    }

    /// The starts for which elements ask, each told again by what is kept of the elements in its scope, as they are exchanged.
    /// It takes time in the nodes of these scopes and what they do to counters.
    pub fn tell(
        &self,
        alloc: Global,
        arena: &Arena,
        keys: &[usize],
    ) -> Result<Vec<(usize, Option<List<Start>>)>, Memory>
        requires live { All (λ (key : ℕ). All (λ (asked : Start). IsLive arena.now.tree asked.creator.key) (asked_at self.now key)) keys.now }
        ensures starts { IfOk result (λ told. (table : List CounterStyle) (style : ℕ → Option Style → ElementStyle) → KeepsDeeds table style arena.now.tree self.now → told.items ≡ told_entries (document_starts table style arena.now.tree) self.now keys.now) }
    {
        arena_holds_document(arena);
        let told = self.told_again(alloc, arena, keys)?;
        Ok(told)
    }

    /// These, as the scopes tell them.
    fn told_again(
        &self,
        alloc: Global,
        arena: &Arena,
        keys: &[usize],
    ) -> Result<Vec<(usize, Option<List<Start>>)>, Memory>
        requires live { All (λ (key : ℕ). All (λ (asked : Start). IsLive arena.now.tree asked.creator.key) (asked_at self.now key)) keys.now }
        ensures told { IfOk result (λ told. told.items ≡ told_entries (told_by_scope (counting_at self.now) arena.now.tree) self.now keys.now) }
    {
        let mut told = Vec::new(alloc);
        for key in keys {
            told.push((*key, Some(self.starts_again(alloc, arena, *key)?)))?;
        }
        Ok(told)
    }

    /// Of elements whose starts were exchanged, and had these before, those that have others now.
    pub fn with_other_starts(
        &self,
        alloc: Global,
        former: &[(usize, Option<List<Start>>)],
    ) -> Result<List<usize>, Memory>
        ensures keys { IfOk result (λ keys. keys ≡ other_keys self.now former.now) }
    {
        let mut keys = List::new(alloc);
        for entry in former {
            put_other(self, entry, &mut keys)?;
        }
        Ok(keys)
    }
}

/// Appends an element, where it has other starts than these.
fn put_other(
    index: &CounterIndex,
    entry: &(usize, Option<List<Start>>),
    keys: &mut List<usize>,
) -> Result<(), Memory>
    ensures ok { OnOk result (keys.new ≡ keys.old ++ other_key index.now entry.now) }
{
    if !are_same_starts(index.starts(entry.0), starts_by(entry.1.as_ref())) {
        keys.push(entry.0)?;
    }
    Ok(())
}
