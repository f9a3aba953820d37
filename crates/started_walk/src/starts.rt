//! Starts that are told again and exchanged.

ghost use Rattle.std.specs.Prelude.{◌≡◌, ◌≤◌, ℕ, IfOk, OnErr, OnOk};
ghost use Rattle.std.specs.FinMap.{get};
ghost use Rattle.counter_index.specs.Exchanges.{HasRoomFor, IsWayBack, after_exchange, keys_in};
ghost use Rattle.counter_index.specs.Retold.{other_keys};
ghost use Rattle.started_walk.specs.Countings.{HasSomeDeeds};
ghost use Rattle.started_walk.specs.Exchanges.{AreToldAgain};

use crate::room::room_for;
use box_eval::inputs::Start;
use counter_index::deeds::CounterDeeds;
use counter_index::index::CounterIndex;
use node_arena::arena::Arena;
use plain_types::list::List;
use plain_types::memory::Memory;
use std::alloc::Global;

/// The starts that can be other than before, once deeds were exchanged, and this was kept before: those of the elements that are
/// touched, told again. The moved elements are those that go and those that come.
pub(crate) fn starts_again(
    alloc: Global,
    arena: &Arena,
    index: &CounterIndex,
    former: &[(usize, Option<CounterDeeds>)],
    moved: &[usize],
) -> Result<Vec<(usize, Option<List<Start>>)>, Memory>
    requires deeds { HasSomeDeeds arena.now.tree index.now }
    ensures told { IfOk result (λ starts. AreToldAgain former.now moved.now index.now arena.now.tree starts.items) }
{
    let keys = index.touched(alloc, former, moved)?;
    index.tell(alloc, arena, keys.as_slice())
}

/// Exchanges starts, and tells which of these elements have other ones then. After `Memory` the index keeps what it kept.
pub(crate) fn exchange_starts(
    alloc: Global,
    index: &mut CounterIndex,
    starts: &mut [(usize, Option<List<Start>>)],
) -> Result<List<usize>, Memory>
    ensures starts { OnOk result ((key : ℕ) → get index.new.starts.held key ≡ after_exchange starts.old (get index.old.starts.held) key) }
    ensures keys { OnOk result (keys_in starts.new ≡ keys_in starts.old) }
    ensures back { OnOk result (IsWayBack starts.new (get index.new.starts.held) (get index.old.starts.held)) }
    ensures room { OnOk result (HasRoomFor index.new.starts.room starts.new) }
    ensures other { IfOk result (λ keys. keys ≡ other_keys index.new starts.new) }
    ensures err { OnErr result ((key : ℕ) → get index.new.starts.held key ≡ get index.old.starts.held key) }
    ensures deeds { index.new.deeds.held ≡ index.old.deeds.held }
    ensures grown { index.old.deeds.room ≤ index.new.deeds.room }
{
    let room = room_for(starts)?;
    index.reserve(room)?;
    index.exchange_starts(starts);
    match index.with_other_starts(alloc, starts) {
        Ok(keys) => Ok(keys),
        Err(memory) => {
            index.restore_starts(starts);
            Err(memory)
        }
    }
}
