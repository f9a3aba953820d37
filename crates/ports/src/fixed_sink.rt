//! Bytes in memory.

ghost use Rattle.std.specs.Prelude.{◌≡◌, ◌++◌, ◌↔◌, ◌-◌, ◌≤◌, ◌<◌, [], length, take, min, IfOk, IsOk, OnOk, IsErr, OnErr};
ghost use Rattle.ports.specs.Causes.{HasCause, one_more};

use crate::failed::Failed;
use crate::room::Room;
use crate::sink::Sink;
use plain_types::memory::Memory;
use std::alloc::Global;
use std::marker::Model;

/// Bytes in memory, at most as many as there is room for. A piece that isn't empty and finds no room
/// left fails, and nothing else does.
#[derive(Drop)]
pub struct FixedSink {
    room: Room,
    faults: u64,
}

impl Model for FixedSink {
    ghost use Rattle.ports.specs.Devices.{FixedBytes};

    ghost Value = { FixedBytes };

    ghost view = { λ s. record { bytes = s.room.bytes; room = s.room.size; faults = s.faults } };
}

impl FixedSink {
    /// A sink that holds nothing yet. It takes memory for so many bytes, and none later.
    pub fn new(alloc: Global, room: usize) -> Result<FixedSink, Memory>
        ensures empty { IfOk result (λ sink. sink.bytes ≡ []) }
        ensures room { IfOk result (λ sink. sink.room ≡ room) }
        ensures faults { IfOk result (λ sink. sink.faults ≡ 0) }
    {
        Ok(FixedSink {
            room: Room::new(alloc, room)?,
            faults: 0,
        })
    }

    /// What it holds.
    pub fn bytes(&self) -> &[u8]
        ensures bytes { result.now ≡ self.now.bytes }
        ensures fit { length result.now ≤ self.now.room }
    {
        self.room.bytes()
    }
}

impl Sink for FixedSink {
    ghost use Rattle.std.specs.Prelude.{Some, false};

    ghost out = { λ sink. Some sink.bytes };

    ghost faults = { λ sink. sink.faults };

    ghost kept = { λ sink. false };

    fn put(&mut self, bytes: &[u8]) -> Result<usize, Failed>
        ensures bound { IfOk result (λ count. count ≤ length bytes.now) }
        ensures taken { IfOk result (λ count. self.new.bytes ≡ self.old.bytes ++ take count bytes.now) }
        ensures kept { OnErr result (self.new.bytes ≡ self.old.bytes) }
        ensures cause { HasCause self.old.faults self.new.faults result }

        // Beyond the trait: when a call fails, how much it takes, and what of the sink changes.
        ensures fails { IsErr result ↔ ((0 < length bytes.now) × (self.old.room ≤ length self.old.bytes)) }
        ensures count { IfOk result (λ count. count ≡ min (length bytes.now) (self.old.room - length self.old.bytes)) }
        ensures no_fault { OnOk result (self.new.faults ≡ self.old.faults) }
        ensures fault { OnErr result (self.new.faults ≡ one_more self.old.faults) }
        ensures room { self.new.room ≡ self.old.room }
    {
        let count = self.room.append(bytes);
        if count == 0 && !bytes.is_empty() {
            self.faults = self.faults.saturating_add(1);
            return Err(Failed);
        }
        Ok(count)
    }

    fn flush(&mut self) -> Result<(), Failed>
        ensures same { self.new ≡ self.old }
        ensures ok { IsOk result }
    {
        Ok(())
    }
}
