//! What bytes are read from: it tells what was read, and how many reads failed.

ghost use Rattle.std.specs.Io.KnownBytes.{ReadConsumes};
ghost use Rattle.std.specs.Io.{ReadsAtMost};
ghost use Rattle.streams.specs.Streams.{CanCount, CountsFailure, in_memory};
ghost use Rattle.streams.specs.Watching.{watched};

use crate::failure_counted::{FailureCounted, ReadFailed};
use std::io::{self, Read};

/// What bytes are read from.
pub trait Source {
    ghost use Rattle.streams.specs.Streams.{Stream};

    /// The bytes that reads will give from here on, where they are known, and how many reads
    /// failed.
    ghost source: { Self → Stream };

    /// Reads some bytes into the front of `buf`, and tells how many: none only at the end, or where
    /// `buf` has no room. An interrupted read has failed.
    fn read_some(&mut self, buf: &mut [u8]) -> Result<usize, ReadFailed>
        requires { CanCount (source self.old) }
        ensures bound { ReadsAtMost result buf.new }
        ensures bytes { ReadConsumes (source self.old).bytes
            (source self.new).bytes result buf.new }
        ensures failures { CountsFailure (source self.old) (source self.new) result };

    /// True if a read now does not wait: there are bytes, or the end. A source in memory never
    /// waits.
    fn is_ready(&self) -> bool {
        true
    }

    /// The system's reason for the last read that failed, if it gave one.
    fn last_error(&self) -> Option<io::Error> {
        None
    }
}

impl Source for &[u8] {
    ghost source = { λ s. in_memory s.now };

    fn read_some(&mut self, buf: &mut [u8]) -> Result<usize, ReadFailed> {
        Read::read(self, buf).map_err(|_| ReadFailed)
    }
}

impl<R: Read> Source for FailureCounted<R> {
    ghost source = { λ w. watched R.remaining w };

    fn read_some(&mut self, buf: &mut [u8]) -> Result<usize, ReadFailed> {
        self.read(buf)
    }

    fn is_ready(&self) -> bool {
        self.is_ready()
    }

    fn last_error(&self) -> Option<io::Error> {
        self.last_error()
    }
}
