//! Bytes in memory that go out in small pieces.

ghost use Rattle.std.specs.Prelude.{◌≡◌, ◌++◌, ◌⊎◌, ◌↔◌, ◌-◌, ◌≤◌, ◌<◌, [], length, take, min, IfOk, IsOk, OnOk, IsErr, OnErr, Contains};
ghost use Rattle.ports.specs.Causes.{HasCause, one_more};

use crate::failed::Failed;
use crate::memory_sink::MemorySink;
use crate::sink::Sink;
use plain_types::list::List;
use plain_types::memory::Memory;
use std::alloc::Global;
use std::marker::Model;

/// A `MemorySink` whose calls take at most so many bytes, as a slow line does.
#[derive(Drop)]
pub struct TrickleSink {
    inner: MemorySink,
    step: usize,
}

impl Model for TrickleSink {
    ghost use Rattle.std.specs.Prelude.{◌<◌};
    ghost use Rattle.ports.specs.Devices.{TrickleBytes};

    ghost Value = { TrickleBytes };

    ghost view = { λ s. record {
      bytes = s.inner.bytes;
      room = s.inner.room;
      step = s.step;
      failing = s.inner.failing;
      calls = s.inner.calls;
      faults = s.inner.faults;
    } };

    ghost invariant = { λ s. 0 < s.step };
}

impl TrickleSink {
    /// A sink that holds nothing yet. It takes memory for `room` bytes, and none later. A call takes at
    /// most `step` bytes, and the one whose number is in `failing` fails, counted from 0.
    pub fn new(
        alloc: Global,
        room: usize,
        step: usize,
        failing: List<u64>,
    ) -> Result<TrickleSink, Memory>
        requires step { 0 < step }
        ensures empty { IfOk result (λ sink. sink.bytes ≡ []) }
        ensures room { IfOk result (λ sink. sink.room ≡ room) }
        ensures step { IfOk result (λ sink. sink.step ≡ step) }
        ensures failing { IfOk result (λ sink. sink.failing ≡ failing) }
        ensures calls { IfOk result (λ sink. sink.calls ≡ 0) }
        ensures faults { IfOk result (λ sink. sink.faults ≡ 0) }
    {
        Ok(TrickleSink {
            inner: MemorySink::new(alloc, room, failing)?,
            step,
        })
    }

    /// What it holds.
    pub fn bytes(&self) -> &[u8]
        ensures bytes { result.now ≡ self.now.bytes }
        ensures fit { length result.now ≤ self.now.room }
    {
        self.inner.bytes()
    }
}

impl Sink for TrickleSink {
    ghost use Rattle.std.specs.Prelude.{Some, false};

    ghost out = { λ sink. Some sink.bytes };

    ghost faults = { λ sink. sink.faults };

    ghost kept = { λ sink. false };

    fn put(&mut self, bytes: &[u8]) -> Result<usize, Failed>
        ensures bound { IfOk result (λ count. count ≤ length bytes.now) }
        ensures taken { IfOk result (λ count. self.new.bytes ≡ self.old.bytes ++ take count bytes.now) }
        ensures kept { OnErr result (self.new.bytes ≡ self.old.bytes) }
        ensures cause { HasCause self.old.faults self.new.faults result }

        // Beyond the trait: when a call fails, how much it takes, and what of the sink changes.
        ensures fails { IsErr result
            ↔ (Contains self.old.failing self.old.calls ⊎ ((0 < length bytes.now) × (self.old.room ≤ length self.old.bytes))) }
        ensures count { IfOk result (λ count. count ≡ min (min (length bytes.now) self.old.step) (self.old.room - length self.old.bytes)) }
        ensures some { IfOk result (λ count. 0 < length bytes.now → 0 < count) }
        ensures calls { self.new.calls ≡ one_more self.old.calls }
        ensures no_fault { OnOk result (self.new.faults ≡ self.old.faults) }
        ensures fault { OnErr result (self.new.faults ≡ one_more self.old.faults) }
        ensures room { self.new.room ≡ self.old.room }
        ensures step { self.new.step ≡ self.old.step }
        ensures failing { self.new.failing ≡ self.old.failing }
    {
        let most = bytes.len().min(self.step);
        self.inner.put(&bytes[..most])
    }

    // A flush has no number.
    fn flush(&mut self) -> Result<(), Failed>
        ensures same { self.new ≡ self.old }
        ensures ok { IsOk result }
    {
        Ok(())
    }
}
