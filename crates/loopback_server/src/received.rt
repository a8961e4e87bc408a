//! The bytes that a peer has sent and that were not answered yet.

ghost use Rattle.std.specs.Prelude.{◌≡◌, ◌≤◌, [], length, drop, IfOk, OnErr};
ghost use Rattle.loopback_server.specs.Reading.{AddsRead};

use std::alloc::{AllocError, Global};
use std::io;
use std::marker::Model;

/// How many bytes there is room for, which is the most that a head may have.
const MOST_BYTES: usize = 16_384;

/// The bytes that have come and were not answered yet, in memory that is taken once.
#[derive(Drop)]
pub(crate) struct Received {
    bytes: Vec<u8>,
    start: usize,
    end: usize,
}

impl Model for Received {
    ghost use Rattle.std.specs.Prelude.{◌≤◌, ℕ, List, length, slice_range};

    ghost Value = { List ℕ };

    ghost view = { λ received. slice_range received.bytes.items received.start received.end };

    ghost invariant = { λ received. (received.start ≤ received.end)
        × (received.end ≤ length received.bytes.items) };
}

impl Received {
    /// No bytes.
    ///
    /// # Errors
    ///
    /// There is no memory for them.
    pub(crate) fn new(alloc: Global) -> Result<Received, AllocError>
        ensures { IfOk result (λ received. received ≡ []) }
    {
        Ok(Received {
            bytes: vec![in alloc; 0; MOST_BYTES]?,
            start: 0,
            end: 0,
        })
    }

    /// The bytes.
    pub(crate) fn as_slice(&self) -> &[u8]
        ensures { result.now ≡ self.now }
    {
        &self.bytes[self.start..self.end]
    }

    /// Drops the first bytes.
    pub(crate) fn drop_front(&mut self, count: usize)
        requires { count ≤ length self.old }
        ensures { self.new ≡ drop count self.old }
    {
        self.start += count;
    }

    /// Reads more from the stream, and tells how many bytes. There are none where the stream ends,
    /// and where 16,384 bytes have come already.
    ///
    /// # Errors
    ///
    /// The stream has none now, or fails. The bytes are the same then.
    pub(crate) fn read_from<S: io::Read>(&mut self, stream: &mut S) -> io::Result<usize>
        ensures read { IfOk result (λ count. AddsRead (S.remaining stream.old)
            (S.remaining stream.new) count self.old self.new) }
        ensures unchanged { OnErr result (self.new ≡ self.old) }
    {
        self.bytes.copy_within(self.start..self.end, 0);
        self.end -= self.start;
        self.start = 0;
        let count = stream.read(&mut self.bytes[self.end..])?;
        self.end += count;
        Ok(count)
    }
}
