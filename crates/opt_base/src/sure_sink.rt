ghost use Rattle.std.specs.Prelude.{◌≡◌, Some, []};

use crate::outside::{Sink, SinkFault};
use std::alloc::Global;

/// A sink in memory that never fails.
#[derive(Debug, Drop)]
pub struct SureSink {
    bytes: Vec<u8>,
}

impl SureSink {
    /// A sink to which nothing was written yet, and which uses this allocator.
    pub fn new(alloc: Global) -> SureSink
        ensures { ⟦<SureSink as Sink>⟧.stream result ≡ Some [] }
    {
        SureSink {
            bytes: Vec::new(alloc),
        }
    }

    /// The bytes that were written.
    pub fn written(&self) -> &[u8]
        ensures { Some result.now ≡ ⟦<SureSink as Sink>⟧.stream self.now }
    {
        self.bytes.as_slice()
    }
}

impl Sink for SureSink {
    ghost stream = { λ sink. Some sink.bytes.items };

    ghost count = { λ _. 0 };

    fn faults(&self) -> u64 {
        0
    }

    fn put(&mut self, bytes: &[u8]) -> Result<(), SinkFault> {
        self.bytes.extend_from_slice(bytes)?;
        Ok(())
    }
}
