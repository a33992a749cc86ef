ghost use Rattle.std.specs.Prelude.{◌≡◌, ◌≢◌, ◌<◌, ◌≤◌, None, Err, IfOk, IfSome, length};

use crate::shelf::{Shelf, ShelfError};
use std::alloc::Global;
use std::fs;
use std::io::{Error, ErrorKind, Input, Read};
use std::rt::Files;

/// Files by name, and standard input by the name `-`. It tells nothing of their contents.
#[derive(Drop)]
pub struct FileShelf<'a, R> {
    alloc: Global,
    rt: &'a R,
    faults: u64,
    takes: u64,
}

impl<'a, R: Files + Input> FileShelf<'a, R> {
    /// A shelf over the files and the standard input of `rt`.
    pub fn new(alloc: Global, rt: &'a R) -> FileShelf<'a, R>
        ensures faults { ⟦<FileShelf<'a, R> as Shelf>⟧.faults_of result ≡ 0 }
        ensures takes { ⟦<FileShelf<'a, R> as Shelf>⟧.takes_of result ≡ 0 }
    {
        FileShelf {
            alloc,
            rt,
            faults: 0,
            takes: 0,
        }
    }
}

fn error_of(e: &Error) -> ShelfError
    ensures { result ≢ ShelfError.TooLong }
{
    match e.kind() {
        ErrorKind::OutOfMemory => ShelfError::NoMemory,
        _ => ShelfError::Failed,
    }
}

// Reads to the end by a buffer of 4096 bytes. Bytes that would pass the limit are not kept, so at
// most `limit` bytes are held beside the buffer. An interrupted read is tried again. Where it is
// known what the reader gives, that is read whole.
fn read_to_end<I: Read>(alloc: Global, reader: &mut I, limit: usize) -> Result<Vec<u8>, ShelfError>
    ensures within { IfOk result (λ v. length v.items ≤ limit) }
    ensures whole { IfOk result (λ v. IfSome (I.remaining reader.old) (λ xs. v.items ≡ xs)) }
    ensures too_long { result ≡ Err ShelfError.TooLong
        → IfSome (I.remaining reader.old) (λ xs. limit < length xs) }
{
    let mut bytes = Vec::new(alloc);
    let mut buffer = [0u8; 4096];
    for _ in 0..u64::MAX {
        match reader.read(&mut buffer) {
            Ok(0) => return Ok(bytes),
            Ok(n) => {
                if n > limit - bytes.len() {
                    return Err(ShelfError::TooLong);
                }
                if bytes.extend_from_slice(&buffer[..n]).is_err() {
                    return Err(ShelfError::NoMemory);
                }
            }
            Err(e) => if e.kind() != ErrorKind::Interrupted {
                return Err(error_of(&e));
            },
        }
    }
    Err(ShelfError::Failed)
}

impl<'a, R: Files + Input> Shelf for FileShelf<'a, R> {
    ghost contents = { λ _. None };

    ghost faults_of = { λ shelf. shelf.faults };

    ghost takes_of = { λ shelf. shelf.takes };

    /// Reads by a buffer of 4096 bytes, and never holds more than `limit` bytes of the content
    /// beside it: the room that is left is checked before bytes are kept. The vector may reserve
    /// more room than it fills.
    fn take(&mut self, name: &str, limit: usize) -> Result<Vec<u8>, ShelfError> {
        self.takes = self.takes.saturating_add(1);
        let taken = if name == "-" {
            read_to_end(self.alloc, &mut self.rt.reader(), limit)
        } else {
            match fs::open(self.rt, name) {
                Ok(mut file) => read_to_end(self.alloc, &mut file, limit),
                Err(e) => Err(error_of(&e)),
            }
        };
        if let Err(ShelfError::Failed) = taken {
            self.faults = self.faults.saturating_add(1);
        }
        taken
    }

    fn faults(&self) -> u64 {
        self.faults
    }
}

#[cfg(test)]
mod tests {
    use super::*;
    use std::test::Fail;
    use std::{env, io};

    #[test]
    fn files_are_taken(rt: HostRuntime) -> Result<(), Fail> {
        let alloc = rt.alloc();
        let path = env::temp_dir(&rt)?.join(alloc, "zr_io_three_bytes")?;
        fs::write(&rt, path.as_path(), "abc")?;
        let mut shelf = FileShelf::new(alloc, &rt);
        let bytes = shelf.take(path.as_str(), 3)?;
        assert_eq!(rt; bytes.as_slice(), b"abc".as_slice());
        assert_eq!(rt;
            shelf.take(path.as_str(), 2).err(),
            Some(ShelfError::TooLong)
        );
        assert_eq!(rt; shelf.faults(), 0);
        fs::remove_file(&rt, path.as_path())?;
        assert_eq!(rt;
            shelf.take(path.as_str(), 3).err(),
            Some(ShelfError::Failed)
        );
        assert_eq!(rt; shelf.faults(), 1);
        Ok(())
    }

    // Is interrupted, then gives one byte, and then fails or ends.
    #[derive(Drop)]
    struct Short {
        reads: u8,
        fails: bool,
    }

    impl Read for Short {
        fn read(&mut self, buf: &mut [u8]) -> io::Result<usize> {
            self.reads = self.reads.saturating_add(1);
            match self.reads {
                1 => Err(Error::from(ErrorKind::Interrupted)),
                2 if !buf.is_empty() => {
                    buf[0] = 7;
                    Ok(1)
                }
                _ if self.fails => Err(Error::from(ErrorKind::Other)),
                _ => Ok(0),
            }
        }
    }

    #[test]
    fn a_read_fails_in_mid_stream(rt: HostRuntime) {
        for (fails, limit, want) in [
            (false, 1, None),
            (false, 0, Some(ShelfError::TooLong)),
            (true, 1, Some(ShelfError::Failed)),
        ] {
            let mut reader = Short { reads: 0, fails };
            let read = read_to_end(rt.alloc(), &mut reader, limit);
            assert_eq!(rt; read.err(), want, "{fails} {limit}");
        }
    }
}
