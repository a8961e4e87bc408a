//! What bytes are written to: it tells what was written, and how many writes failed.

ghost use Rattle.streams.specs.Streams.{CanCount, Puts, in_memory};
ghost use Rattle.streams.specs.Watching.{watched};

use crate::failure_counted::FailureCounted;
use crate::stream_fault::StreamFault;
use std::io::{self, Write};

/// What bytes are written to.
pub trait Sink {
    ghost use Rattle.streams.specs.Streams.{Stream};

    /// The bytes that writes put, where they are known; how many writes failed; and whether a
    /// write may lack memory.
    ghost sink: { Self → Stream };

    /// Writes all of the bytes.
    ///
    /// Errors: `Write` where a write failed or took no byte; then a front of the bytes was written.
    /// `Memory` where memory ran out; then none was.
    fn put(&mut self, bytes: &[u8]) -> Result<(), StreamFault>
        requires { CanCount (sink self.old) }
        ensures { Puts (sink self.old) (sink self.new) bytes.now result };

    /// The system's reason for the last write that failed, if it gave one.
    fn last_error(&self) -> Option<io::Error> {
        None
    }
}

impl Sink for Vec<u8> {
    ghost sink = { λ v. in_memory v.items };

    fn put(&mut self, bytes: &[u8]) -> Result<(), StreamFault> {
        match self.write(bytes) {
            Ok(_) => Ok(()),
            Err(_) => Err(StreamFault::Memory),
        }
    }
}

impl<W: Write> Sink for FailureCounted<W> {
    ghost sink = { λ w. watched W.contents w };

    fn put(&mut self, bytes: &[u8]) -> Result<(), StreamFault> {
        let mut rest = bytes;
        while !rest.is_empty() {
            match self.write(rest) {
                Ok(count) => rest = rest.split_at(count).1,
                Err(_) => return Err(StreamFault::Write),
            }
        }
        Ok(())
    }

    fn last_error(&self) -> Option<io::Error> {
        self.last_error()
    }
}
