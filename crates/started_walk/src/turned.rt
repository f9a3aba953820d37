//! The elements that are turned.

ghost use Rattle.std.specs.Prelude.{◌≡◌, ℕ, IfOk, OnErr, filter};
ghost use Rattle.counter_index.specs.declared.index.CounterIndex.{CounterIndex};
ghost use Rattle.counter_index.specs.Exchanges.{after_exchange};
ghost use Rattle.counter_index.specs.Indexes.{deeds_at};
ghost use Rattle.counter_index.specs.Retold.{other_keys};
ghost use Rattle.started_walk.specs.Countings.{HasSomeDeeds, KeepsTheSame};
ghost use Rattle.started_walk.specs.Exchanges.{IsBroughtTo, TakesBack, asks_and_stays};

use crate::bring::{Brought, WayBack, bring_index, take_back};
use counter_index::deeds::CounterDeeds;
use counter_index::index::CounterIndex;
use merged_walk::stop::Stop;
use node_arena::arena::Arena;
use plain_types::list::List;
use plain_types::memory::Memory;
use std::alloc::Global;
use turned_stops::coming::is_coming;

/// What becomes of an index by an edit.
#[derive(Drop)]
pub struct Turned {
    pub back: WayBack,
    /// The elements that are turned: those that stay, and have other starts than before.
    pub keys: List<usize>,
}

/// Whether an element asks for starts, and does not come at these stops. One that is gone asks for none.
fn asks_and_stays(arena: &Arena, index: &CounterIndex, stops: &[Stop], key: usize) -> bool
    requires deeds { HasSomeDeeds arena.now.tree index.now }
    ensures test { result ≡ asks_and_stays arena.now.tree index.now stops.now key }
{
    !index.asked(key).is_empty() && !is_coming(arena, stops, key)
}

/// Of elements that have other starts than before, those that stay in the document: they are turned.
fn turned_keys(
    alloc: Global,
    arena: &Arena,
    index: &CounterIndex,
    stops: &[Stop],
    other: &[usize],
) -> Result<List<usize>, Memory>
    requires deeds { HasSomeDeeds arena.now.tree index.now }
    ensures keys { IfOk result (λ turned. turned ≡ filter (asks_and_stays arena.now.tree index.now stops.now) other.now) }
{
    let mut turned = List::new(alloc);
    for key in other {
        if asks_and_stays(arena, index, stops, *key) {
            turned.push(*key)?;
        }
    }
    Ok(turned)
}

/// Brings an index from a document to the one that an edit made of it, and tells which elements are turned. After `Memory` the
/// index keeps what it kept.
///
/// It takes time in what is exchanged, in the scopes of all counters for which the elements ask that can have another start, and,
/// for each element that has one, in its depth and the stops.
pub fn turn(
    alloc: Global,
    arena: &Arena,
    index: &mut CounterIndex,
    deeds: Vec<(usize, Option<CounterDeeds>)>,
    moved: &[usize],
    stops: &[Stop],
) -> Result<Turned, Memory>
    requires deeds { (now : CounterIndex) → ((key : ℕ) → deeds_at now key ≡ after_exchange deeds.items (deeds_at index.old) key) → HasSomeDeeds arena.now.tree now }
    ensures brought { IfOk result (λ turned. IsBroughtTo arena.now.tree deeds.items moved.now index.old index.new turned.back) }
    ensures back { IfOk result (λ turned. TakesBack turned.back index.new index.old) }
    ensures keys { IfOk result (λ turned. turned.keys ≡ filter (asks_and_stays arena.now.tree index.new stops.now) (other_keys index.new turned.back.starts.items)) }
    ensures err { OnErr result (KeepsTheSame index.new index.old) }
{
    let Brought { back, other } = bring_index(alloc, arena, index, deeds, moved)?;
    match turned_keys(alloc, arena, index, stops, other.as_slice()) {
        Ok(keys) => Ok(Turned { back, keys }),
        Err(memory) => {
            take_back(index, back);
            Err(memory)
        }
    }
}
