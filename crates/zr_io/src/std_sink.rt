ghost use Rattle.std.specs.Prelude.{◌≡◌, ◌≤◌, None, IfOk, length};

use crate::sink::{Sink, SinkError};
use std::io;
use std::io::{ErrorKind, Write};

/// A sink over a writer. It tells nothing of what was written, and never flushes the writer.
#[derive(Drop)]
pub struct StdSink<W> {
    to: W,
    faults: u64,
}

impl<W: Write + Drop> StdSink<W> {
    /// A sink over the writer `to`.
    pub fn new(to: W) -> StdSink<W>
        ensures { ⟦<StdSink<W> as Sink>⟧.faults_of result ≡ 0 }
    {
        StdSink { to, faults: 0 }
    }
}

// One write, tried again where it was interrupted.
fn write_once<W: Write>(to: &mut W, bytes: &[u8]) -> io::Result<usize>
    ensures { IfOk result (λ n. n ≤ length bytes.now) }
{
    for _ in 0..u64::MAX {
        match to.write(bytes) {
            Err(e) if e.kind() == ErrorKind::Interrupted => {}
            written => return written,
        }
    }
    Err(io::Error::from(ErrorKind::Interrupted))
}

impl<W: Write + Drop> Sink for StdSink<W> {
    ghost written = { λ _. None };

    ghost faults_of = { λ sink. sink.faults };

    /// Tries again where the writer was interrupted. A writer that takes nothing of a piece that
    /// isn't empty is at fault.
    fn put(&mut self, bytes: &[u8]) -> Result<usize, SinkError> {
        if bytes.is_empty() {
            return Ok(0);
        }
        match write_once(&mut self.to, bytes) {
            Ok(n) if n > 0 => Ok(n),
            Err(e) if e.kind() == ErrorKind::OutOfMemory => Err(SinkError::NoMemory),
            _ => {
                self.faults = self.faults.saturating_add(1);
                Err(SinkError::Failed)
            }
        }
    }

    fn faults(&self) -> u64 {
        self.faults
    }
}

#[cfg(test)]
mod tests {
    use super::*;
    use crate::put_all;
    use std::test::Fail;

    // Takes at most two bytes of a piece. Write number 1 is interrupted, and write number 4 fails.
    #[derive(Drop)]
    struct Slow {
        bytes: Vec<u8>,
        writes: u8,
    }

    impl Write for Slow {
        fn write(&mut self, buf: &[u8]) -> io::Result<usize> {
            let number = self.writes;
            self.writes = self.writes.saturating_add(1);
            match number {
                1 => Err(io::Error::from(ErrorKind::Interrupted)),
                4 => Err(io::Error::from(ErrorKind::Other)),
                _ => {
                    let n = buf.len().min(2);
                    self.bytes.extend_from_slice(&buf[..n])?;
                    Ok(n)
                }
            }
        }

        fn flush(&mut self) -> io::Result<()> {
            Ok(())
        }
    }

    #[test]
    fn pieces_go_to_the_writer(rt: HostRuntime) -> Result<(), Fail> {
        let mut sink = StdSink::new(Slow {
            bytes: Vec::new(rt.alloc()),
            writes: 0,
        });
        assert_eq!(rt; put_all(&mut sink, b"abc"), Ok(()));
        assert_eq!(rt; sink.faults(), 0);
        assert_eq!(rt; put_all(&mut sink, b"defg"), Err(SinkError::Failed));
        assert_eq!(rt; sink.faults(), 1);
        assert_eq!(rt; sink.to.bytes.as_slice(), b"abcde".as_slice());
        assert_eq!(rt; put_all(&mut StdSink::new(rt.stdout()), b"out"), Ok(()));
        Ok(())
    }
}
