ghost use Rattle.std.specs.Prelude.{◌≡◌, None};

use opt_base::{Sink, SinkFault};
use std::io::{ErrorKind, Write};

/// A stream of the system, as standard output. What was written to it is not told.
#[derive(Drop)]
pub struct StdSink<W: Write + Drop> {
    to: W,
    faults: u64,
}

impl<W: Write + Drop> StdSink<W> {
    /// Writes to this writer, and flushes it after each call.
    pub fn new(to: W) -> StdSink<W>
        ensures { ⟦<StdSink<W> as Sink>⟧.count result ≡ 0 }
    {
        StdSink { to, faults: 0 }
    }
}

impl<W: Write + Drop> Sink for StdSink<W> {
    ghost stream = { λ _. None };

    ghost count = { λ sink. sink.faults };

    fn faults(&self) -> u64 {
        self.faults
    }

    fn put(&mut self, bytes: &[u8]) -> Result<(), SinkFault> {
        let wrote = self.to.write_all(bytes).and_then(|_| self.to.flush());
        match wrote {
            Ok(()) => Ok(()),
            Err(error) if error.kind() == ErrorKind::OutOfMemory => Err(SinkFault::OutOfMemory),
            Err(_) => {
                self.faults = self.faults.saturating_add(1);
                Err(SinkFault::Failed)
            }
        }
    }
}

#[cfg(test)]
mod tests {
    use super::*;
    use std::io;
    use std::test::Fail;

    /// A writer with room for four bytes.
    #[derive(Drop)]
    struct Small {
        bytes: Vec<u8>,
    }

    impl Write for Small {
        fn write(&mut self, bytes: &[u8]) -> io::Result<usize> {
            if self.bytes.len() >= 4 {
                return Err(io::Error::from(ErrorKind::StorageFull));
            }
            let count = bytes.len().min(4 - self.bytes.len());
            self.bytes.extend_from_slice(&bytes[..count])?;
            Ok(count)
        }

        fn flush(&mut self) -> io::Result<()> {
            Ok(())
        }
    }

    #[test]
    fn a_writer_that_fills_up(rt: HostRuntime) -> Result<(), Fail> {
        let bytes = Vec::new(rt.alloc());
        let mut sink = StdSink::new(Small { bytes });
        sink.put(b"ri")?;
        sink.put(b"")?;
        assert_eq!(rt; sink.faults(), 0);
        assert_eq!(rt; sink.put(b"ce\n"), Err(SinkFault::Failed));
        assert_eq!(rt; sink.faults(), 1);
        assert_eq!(rt; sink.to.bytes.as_slice(), b"rice".as_slice());
        Ok(())
    }
}
