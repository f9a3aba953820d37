//! An index that is brought from a document to the one that an edit makes of it.

ghost use Rattle.std.specs.Prelude.{◌≡◌, ◌≤◌, ℕ, IfOk, OnErr};
ghost use Rattle.std.specs.FinMap.{get};
ghost use Rattle.counter_index.specs.declared.index.CounterIndex.{CounterIndex};
ghost use Rattle.counter_index.specs.Exchanges.{HasRoomFor, IsWayBack, after_exchange};
ghost use Rattle.counter_index.specs.Indexes.{deeds_at};
ghost use Rattle.counter_index.specs.Retold.{other_keys};
ghost use Rattle.started_walk.specs.Countings.{HasSomeDeeds, KeepsTheSame};
ghost use Rattle.started_walk.specs.Exchanges.{BringsStarts, IsBroughtTo, TakesBack};

use crate::room::room_kept;
use crate::starts::{exchange_starts, starts_again};
use box_eval::inputs::Start;
use counter_index::deeds::CounterDeeds;
use counter_index::index::CounterIndex;
use node_arena::arena::Arena;
use plain_types::list::List;
use plain_types::memory::Memory;
use std::alloc::Global;

/// What an index kept before it was brought to another document: its way back, which takes no memory.
#[derive(Drop)]
pub struct WayBack {
    pub(crate) deeds: Vec<(usize, Option<CounterDeeds>)>,
    pub(crate) starts: Vec<(usize, Option<List<Start>>)>,
}

/// What became of an index.
#[derive(Drop)]
pub struct Brought {
    pub back: WayBack,
    /// The elements that have other starts than before.
    pub other: List<usize>,
}

/// What became of its starts.
#[derive(Drop)]
struct StartsBrought {
    former: Vec<(usize, Option<List<Start>>)>,
    other: List<usize>,
}

/// Brings the starts of an index to those of a document, whose deeds it has already; this was kept before of the elements that
/// were exchanged. After `Memory` it keeps what it kept.
fn bring_starts(
    alloc: Global,
    arena: &Arena,
    index: &mut CounterIndex,
    former: &[(usize, Option<CounterDeeds>)],
    moved: &[usize],
) -> Result<StartsBrought, Memory>
    requires deeds { HasSomeDeeds arena.now.tree index.old }
    ensures brought { IfOk result (λ brought. BringsStarts former.now moved.now arena.now.tree index.old index.new brought.former.items) }
    ensures other { IfOk result (λ brought. brought.other ≡ other_keys index.new brought.former.items) }
    ensures err { OnErr result ((key : ℕ) → get index.new.starts.held key ≡ get index.old.starts.held key) }
    ensures deeds { index.new.deeds.held ≡ index.old.deeds.held }
    ensures grown { index.old.deeds.room ≤ index.new.deeds.room }
{
    let mut starts = starts_again(alloc, arena, index, former, moved)?;
    let other = exchange_starts(alloc, index, starts.as_mut_slice())?;
    Ok(StartsBrought {
        former: starts,
        other,
    })
}

/// Brings an index from a document to the one that an edit made of it, where this is exchanged of what elements do, and these
/// elements go or come. It answers the way back. After `Memory` the index keeps what it kept.
///
/// It takes time in what is exchanged, and in the scopes of all counters for which the elements ask that can have another start.
pub fn bring_index(
    alloc: Global,
    arena: &Arena,
    index: &mut CounterIndex,
    deeds: Vec<(usize, Option<CounterDeeds>)>,
    moved: &[usize],
) -> Result<Brought, Memory>
    requires deeds { (now : CounterIndex) → ((key : ℕ) → deeds_at now key ≡ after_exchange deeds.items (deeds_at index.old) key) → HasSomeDeeds arena.now.tree now }
    ensures brought { IfOk result (λ brought. IsBroughtTo arena.now.tree deeds.items moved.now index.old index.new brought.back) }
    ensures back { IfOk result (λ brought. TakesBack brought.back index.new index.old) }
    ensures other { IfOk result (λ brought. brought.other ≡ other_keys index.new brought.back.starts.items) }
    ensures err { OnErr result (KeepsTheSame index.new index.old) }
{
    let mut former = deeds;
    let room = room_kept(former.as_slice())?;
    index.reserve(room)?;
    index.exchange(former.as_mut_slice());
    match bring_starts(alloc, arena, index, former.as_slice(), moved) {
        Ok(starts) => Ok(Brought {
            back: WayBack {
                deeds: former,
                starts: starts.former,
            },
            other: starts.other,
        }),
        Err(memory) => {
            index.restore(former.as_mut_slice());
            Err(memory)
        }
    }
}

/// Takes an index back to what it kept before it was brought to another document. It takes no memory, and time linear in what was
/// exchanged.
pub fn take_back(index: &mut CounterIndex, back: WayBack)
    requires back { (was : CounterIndex) × TakesBack back index.old was }
    ensures back { (was : CounterIndex) → TakesBack back index.old was → KeepsTheSame index.new was }
{
    let WayBack {
        mut deeds,
        mut starts,
    } = back;
    index.restore_starts(starts.as_mut_slice());
    index.restore(deeds.as_mut_slice());
}
