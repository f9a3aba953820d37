//! Rooms for what is kept under keys.

ghost use Rattle.std.specs.Prelude.{◌<◌, IfOk, IfSome};
ghost use Rattle.counter_index.specs.Exchanges.{HasRoomFor};
ghost use Rattle.kept_elements.specs.Changes.{AreBelow};

use plain_types::memory::Memory;

/// A room that has room for these keys; `Memory` where one is the greatest number, since no room is above it. Linear time.
pub(crate) fn room_for<V>(entries: &[(usize, V)]) -> Result<usize, Memory>
    ensures room { IfOk result (λ room. AreBelow room entries.now) }
{
    let mut room = 0usize;
    for (key, _value) in entries {
        room = room.max(key.checked_add(1).ok_or(Memory)?);
    }
    Ok(room)
}

/// A room that has room for a key, where something is to be kept under it.
fn room_of<V>(key: usize, kept: &Option<V>) -> Result<usize, Memory>
    ensures room { IfOk result (λ room. IfSome kept.now (λ _. key < room)) }
{
    match kept {
        Some(_) => key.checked_add(1).ok_or(Memory),
        None => Ok(0),
    }
}

/// A room that has room for those of these keys under which something is to be kept; `Memory` where one is the greatest number.
/// Linear time.
pub(crate) fn room_kept<V>(entries: &[(usize, Option<V>)]) -> Result<usize, Memory>
    ensures room { IfOk result (λ room. HasRoomFor room entries.now) }
{
    let mut room = 0usize;
    for (key, kept) in entries {
        let own = room_of(*key, kept)?;
        room = room.max(own);
    }
    Ok(room)
}
