//! Bytes in a room of fixed size.

ghost use Rattle.std.specs.Prelude.{◌≡◌, ◌++◌, ◌-◌, ◌≤◌, [], length, take, min, IfOk};

use plain_types::memory::Memory;
use std::alloc::Global;
use std::marker::Model;

/// Bytes in a room of fixed size, which is taken when it is made.
#[derive(Drop)]
pub(crate) struct Room {
    bytes: Vec<u8>,
    used: usize,
}

impl Model for Room {
    ghost use Rattle.std.specs.Prelude.{◌≤◌, length, take};
    ghost use Rattle.ports.specs.Devices.{RoomBytes};

    ghost Value = { RoomBytes };

    ghost view = { λ room. record { bytes = take room.used room.bytes.items; size = length room.bytes.items } };

    ghost invariant = { λ room. room.used ≤ length room.bytes.items };
}

impl Room {
    /// A room for so many bytes that holds none yet. It takes memory of that size.
    pub(crate) fn new(alloc: Global, size: usize) -> Result<Room, Memory>
        ensures empty { IfOk result (λ room. room.bytes ≡ []) }
        ensures size { IfOk result (λ room. room.size ≡ size) }
    {
        Ok(Room {
            bytes: vec![in alloc; 0u8; size]?,
            used: 0,
        })
    }

    /// What it holds.
    pub(crate) fn bytes(&self) -> &[u8]
        ensures bytes { result.now ≡ self.now.bytes }
        ensures fit { length result.now ≤ self.now.size }
    {
        &self.bytes[..self.used]
    }

    /// Appends a front of the bytes, as long as fits, and answers its length.
    pub(crate) fn append(&mut self, bytes: &[u8]) -> usize
        ensures count { result ≡ min (length bytes.now) (self.old.size - length self.old.bytes) }
        ensures bytes { self.new.bytes ≡ self.old.bytes ++ take result bytes.now }
        ensures size { self.new.size ≡ self.old.size }
    {
        let count = bytes.len().min(self.bytes.len() - self.used);
        let end = self.used + count;
        self.bytes[self.used..end].copy_from_slice(&bytes[..count]);
        self.used = end;
        count
    }
}
