ghost use Rattle.std.specs.Prelude.{◌≡◌, Some, [], IfOk, OnOk, option_map};
ghost use Rattle.opt_base.specs.Outside.{appended, AppendsSome, HasCause};
ghost use Rattle.opt_base.specs.Calls.{calls_of_sink, IsScripted};

use crate::calls::Calls;
use crate::out_of_memory::OutOfMemory;
use crate::outside::{Sink, SinkFault};
use crate::sure_sink::SureSink;
use std::alloc::Global;

/// A sink in memory whose calls fail by a script.
#[derive(Debug, Drop)]
pub struct MemSink {
    sink: SureSink,
    calls: Calls,
}

impl MemSink {
    /// A sink to which nothing was written yet. Its calls of `put` are counted from 1, and those in `fails` fail.
    pub fn new(alloc: Global, fails: &[u64]) -> Result<MemSink, OutOfMemory>
        ensures empty { IfOk result (λ sink. ⟦<MemSink as Sink>⟧.stream sink ≡ Some []) }
        ensures faults { IfOk result (λ sink. ⟦<MemSink as Sink>⟧.count sink ≡ 0) }
        ensures fails { IfOk result (λ sink. (calls_of_sink sink).fails.items ≡ fails.now) }
        ensures made { IfOk result (λ sink. (calls_of_sink sink).made ≡ 0) }
    {
        let calls = Calls::new(alloc, fails)?;
        Ok(MemSink {
            sink: SureSink::new(alloc),
            calls,
        })
    }

    /// The bytes that were written.
    pub fn written(&self) -> &[u8]
        ensures { Some result.now ≡ ⟦<MemSink as Sink>⟧.stream self.now }
    {
        self.sink.written()
    }
}

impl Sink for MemSink {
    ghost stream = { λ sink. ⟦<SureSink as Sink>⟧.stream sink.sink };

    ghost count = { λ sink. sink.calls.failed };

    fn faults(&self) -> u64 {
        self.calls.failed()
    }

    fn put(&mut self, bytes: &[u8]) -> Result<(), SinkFault>
        ensures ok { OnOk result (⟦<MemSink as Sink>⟧.stream self.new
            ≡ option_map (appended bytes.now) (⟦<MemSink as Sink>⟧.stream self.old)) }
        ensures some { AppendsSome bytes.now
            (⟦<MemSink as Sink>⟧.stream self.old) (⟦<MemSink as Sink>⟧.stream self.new) }
        ensures cause { HasCause SinkFault.Failed
            (⟦<MemSink as Sink>⟧.count self.old) (⟦<MemSink as Sink>⟧.count self.new) result }
        ensures script { IsScripted SinkFault.Failed (calls_of_sink self.old) (calls_of_sink self.new) result }
    {
        if self.calls.next_fails() {
            return Err(SinkFault::Failed);
        }
        self.sink.put(bytes)
    }
}
