//! A reader or writer of the system with a count of its failures and the reason for the last one.
//! Only the methods of this file can count.

ghost use Rattle.std.specs.Prelude.{◌≡◌, ◌<◌, IfOk, length};
ghost use Rattle.std.specs.Io.KnownBytes.{ReadConsumes, WriteAppends};
ghost use Rattle.std.specs.Io.{ReadsAtMost, WritesAtMost};
ghost use Rattle.streams.specs.Streams.{CanCount, CountsFailure};
ghost use Rattle.streams.specs.Watching.{watched};

use libc::net::{POLLIN, poll};
use libc::types::pollfd;
use std::io::{self, Read, Write};
use std::marker::Model;
use std::os::fd::{AsRawFd, RawFd};

/// A read failed.
#[derive(Clone, Copy, Debug, PartialEq, Eq)]
pub struct ReadFailed;

/// A write failed, or took no byte.
#[derive(Clone, Copy, Debug, PartialEq, Eq)]
pub struct WriteFailed;

/// A reader or writer of the system, with the number of its reads or writes that failed. Contracts
/// see the two, and neither the reason for the last failure nor the descriptor.
#[derive(Drop)]
pub struct FailureCounted<S> {
    stream: S,
    failures: u64,
    last_error: Option<io::Error>,
    // The stream's, if it is to be polled.
    descriptor: Option<RawFd>,
}

impl<S> Model for FailureCounted<S> {
    ghost use Rattle.streams.specs.Watching.{Watching};

    ghost Value = { Watching S };

    ghost view = { λ w. record { stream = w.stream; failures = w.failures } };
}

impl<S> FailureCounted<S> {
    /// Wraps a stream of which nothing has failed yet.
    pub fn new(stream: S) -> FailureCounted<S>
        ensures { result ≡ record { stream = stream; failures = 0 } }
    {
        FailureCounted {
            stream,
            failures: 0,
            last_error: None,
            descriptor: None,
        }
    }

    /// True if a read now does not wait: there are bytes, the end, or an error. Always true of a
    /// stream without a descriptor to poll. Never true if the poll itself fails, as a signal can
    /// make it (the manual page poll(2)).
    pub fn is_ready(&self) -> bool {
        let Some(fd) = self.descriptor else {
            return true;
        };
        let mut asked = [pollfd {
            fd,
            events: POLLIN,
            revents: 0,
        }];
        poll(&mut asked, 0) > 0
    }

    /// The system's reason for the last read or write that failed. None if nothing failed, or if a
    /// write took no byte.
    pub fn last_error(&self) -> Option<io::Error> {
        self.last_error
    }
}

impl<S: AsRawFd> FailureCounted<S> {
    /// Wraps a stream of which nothing has failed yet. [`FailureCounted::is_ready`] polls its
    /// descriptor.
    pub fn with_descriptor(stream: S) -> FailureCounted<S>
        ensures { result ≡ record { stream = stream; failures = 0 } }
    {
        let descriptor = Some(stream.as_raw_fd());
        FailureCounted {
            stream,
            failures: 0,
            last_error: None,
            descriptor,
        }
    }
}

impl<R: Read> FailureCounted<R> {
    /// Reads some bytes into the front of `buf`, and tells how many.
    pub fn read(&mut self, buf: &mut [u8]) -> Result<usize, ReadFailed>
        requires { CanCount (watched R.remaining self.old) }
        ensures bound { ReadsAtMost result buf.new }
        ensures bytes { ReadConsumes (R.remaining self.old.stream)
            (R.remaining self.new.stream) result buf.new }
        ensures failures { CountsFailure (watched R.remaining self.old)
            (watched R.remaining self.new) result }
    {
        match self.stream.read(buf) {
            Ok(count) => Ok(count),
            Err(error) => {
                self.failures += 1;
                self.last_error = Some(error);
                Err(ReadFailed)
            }
        }
    }
}

impl<W: Write> FailureCounted<W> {
    /// Writes some of the bytes, and tells how many. There is one to write: to write none of none
    /// is no failure.
    pub fn write(&mut self, bytes: &[u8]) -> Result<usize, WriteFailed>
        requires room { CanCount (watched W.contents self.old) }
        requires bytes { 0 < length bytes.now }
        ensures bound { WritesAtMost result bytes.now }
        ensures some { IfOk result (λ count. 0 < count) }
        ensures bytes { WriteAppends (W.contents self.old.stream)
            (W.contents self.new.stream) result bytes.now }
        ensures failures { CountsFailure (watched W.contents self.old)
            (watched W.contents self.new) result }
    {
        match self.stream.write(bytes) {
            Ok(0) => {
                self.failures += 1;
                Err(WriteFailed)
            }
            Ok(count) => Ok(count),
            Err(error) => {
                self.failures += 1;
                self.last_error = Some(error);
                Err(WriteFailed)
            }
        }
    }
}
