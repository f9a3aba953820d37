//! The elements that go with an edit, and those that come.

ghost use Rattle.std.specs.Prelude.{◌≡◌, ◌++◌, All, IfOk, OnOk};
ghost use Rattle.forest.specs.Spots.{IsLink};
ghost use Rattle.merged_walk.specs.declared.stop.Stop.{Stop};
ghost use Rattle.turned_stops.specs.Coming.{coming_at_stops};

use merged_walk::stop::Stop;
use node_arena::arena::Arena;
use plain_types::list::List;
use plain_types::memory::Memory;
use std::alloc::Global;
use turned_stops::coming::coming_keys;

/// Appends keys.
fn put_keys(more: &[usize], keys: &mut List<usize>) -> Result<(), Memory>
    ensures ok { OnOk result (keys.new ≡ keys.old ++ more.now) }
{
    for key in more {
        keys.push(*key)?;
    }
    Ok(())
}

/// The elements that an edit takes out, and those that come at its stops. One that goes and comes again is among the second.
pub fn moved_keys(
    alloc: Global,
    arena: &Arena,
    takes: &[usize],
    stops: &[Stop],
) -> Result<List<usize>, Memory>
    requires links { All (λ (stop : Stop). IsLink arena.now.tree stop.link) stops.now }
    ensures moved { IfOk result (λ moved. moved ≡ takes.now ++ coming_at_stops arena.now.tree stops.now) }
{
    let coming = coming_keys(alloc, arena, stops)?;
    let mut moved = List::new(alloc);
    put_keys(takes, &mut moved)?;
    put_keys(coming.as_slice(), &mut moved)?;
    Ok(moved)
}
