//! Bytes in memory that has no end.

ghost use Rattle.std.specs.Prelude.{◌≡◌, []};

use ports::failed::Failed;
use ports::sink::Sink;
use std::alloc::Global;

/// Bytes in memory. A piece for which memory is wanting fails, and nothing else does.
#[derive(Drop)]
pub(crate) struct HeapSink {
    pub(crate) bytes: Vec<u8>,
    faults: u64,
}

impl HeapSink {
    /// A sink that holds nothing yet. It takes no memory.
    pub(crate) fn new(alloc: Global) -> HeapSink
        ensures empty { result.bytes.items ≡ [] }
    {
        HeapSink {
            bytes: Vec::new(alloc),
            faults: 0,
        }
    }
}

impl Sink for HeapSink {
    ghost use Rattle.std.specs.Prelude.{Some, false};

    ghost out = { λ sink. Some sink.bytes.items };

    ghost faults = { λ sink. sink.faults };

    ghost kept = { λ sink. false };

    fn put(&mut self, bytes: &[u8]) -> Result<usize, Failed> {
        match self.bytes.extend_from_slice(bytes) {
            Ok(()) => Ok(bytes.len()),
            Err(_) => {
                self.faults = self.faults.saturating_add(1);
                Err(Failed)
            }
        }
    }

    fn flush(&mut self) -> Result<(), Failed> {
        Ok(())
    }
}
