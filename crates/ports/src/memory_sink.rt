//! Bytes in memory, where some calls fail.

ghost use Rattle.std.specs.Prelude.{◌≡◌, ◌++◌, ◌⊎◌, ◌↔◌, ◌-◌, ◌≤◌, ◌<◌, [], length, take, min, IfOk, IsOk, OnOk, IsErr, OnErr, Contains};
ghost use Rattle.ports.specs.Causes.{HasCause, one_more};

use crate::failed::Failed;
use crate::room::Room;
use crate::sink::Sink;
use plain_types::list::List;
use plain_types::memory::Memory;
use std::alloc::Global;
use std::marker::Model;

/// Bytes in memory, at most as many as there is room for, where the calls of given numbers fail. The
/// first call has the number 0. A piece that isn't empty and finds no room left fails too.
#[derive(Drop)]
pub struct MemorySink {
    room: Room,
    failing: List<u64>,
    calls: u64,
    faults: u64,
}

impl Model for MemorySink {
    ghost use Rattle.ports.specs.Devices.{MemoryBytes};

    ghost Value = { MemoryBytes };

    ghost view = { λ s. record { bytes = s.room.bytes; room = s.room.size; failing = s.failing; calls = s.calls; faults = s.faults } };
}

impl MemorySink {
    /// A sink that holds nothing yet. It takes memory for so many bytes, and none later. The call whose
    /// number is in `failing` fails, counted from 0.
    pub fn new(alloc: Global, room: usize, failing: List<u64>) -> Result<MemorySink, Memory>
        ensures empty { IfOk result (λ sink. sink.bytes ≡ []) }
        ensures room { IfOk result (λ sink. sink.room ≡ room) }
        ensures failing { IfOk result (λ sink. sink.failing ≡ failing) }
        ensures calls { IfOk result (λ sink. sink.calls ≡ 0) }
        ensures faults { IfOk result (λ sink. sink.faults ≡ 0) }
    {
        Ok(MemorySink {
            room: Room::new(alloc, room)?,
            failing,
            calls: 0,
            faults: 0,
        })
    }

    /// What it holds.
    pub fn bytes(&self) -> &[u8]
        ensures bytes { result.now ≡ self.now.bytes }
        ensures fit { length result.now ≤ self.now.room }
    {
        self.room.bytes()
    }
}

impl Sink for MemorySink {
    ghost use Rattle.std.specs.Prelude.{Some, false};

    ghost out = { λ sink. Some sink.bytes };

    ghost faults = { λ sink. sink.faults };

    ghost kept = { λ sink. false };

    fn put(&mut self, bytes: &[u8]) -> Result<usize, Failed>
        ensures bound { IfOk result (λ count. count ≤ length bytes.now) }
        ensures taken { IfOk result (λ count. self.new.bytes ≡ self.old.bytes ++ take count bytes.now) }
        ensures kept { OnErr result (self.new.bytes ≡ self.old.bytes) }
        ensures cause { HasCause self.old.faults self.new.faults result }

        // Beyond the trait: when a call fails, how much it takes, and what of the sink changes.
        ensures fails { IsErr result
            ↔ (Contains self.old.failing self.old.calls ⊎ ((0 < length bytes.now) × (self.old.room ≤ length self.old.bytes))) }
        ensures count { IfOk result (λ count. count ≡ min (length bytes.now) (self.old.room - length self.old.bytes)) }
        ensures calls { self.new.calls ≡ one_more self.old.calls }
        ensures no_fault { OnOk result (self.new.faults ≡ self.old.faults) }
        ensures fault { OnErr result (self.new.faults ≡ one_more self.old.faults) }
        ensures room { self.new.room ≡ self.old.room }
        ensures failing { self.new.failing ≡ self.old.failing }
    {
        let fails = self.failing.as_slice().contains(&self.calls);
        self.calls = self.calls.saturating_add(1);
        if !fails {
            let count = self.room.append(bytes);
            if count > 0 || bytes.is_empty() {
                return Ok(count);
            }
        }
        self.faults = self.faults.saturating_add(1);
        Err(Failed)
    }

    // A flush has no number.
    fn flush(&mut self) -> Result<(), Failed>
        ensures same { self.new ≡ self.old }
        ensures ok { IsOk result }
    {
        Ok(())
    }
}
