//! A connection in memory.

ghost use Rattle.std.specs.Prelude.{◌≡◌, ◌+◌, ◌<◌, ◌≤◌, ℕ, length, max, IfOk};
ghost use Rattle.streams.specs.RisingCounts.{Rises};

use crate::calls::{Calls, Halt, NEVER};
use exchange::{Read, Reason, Wire, Written};
use futures::task::Source;
use std::alloc::{AllocError, Global};

/// A connection in memory: its peer answers the bytes of a script, whatever it is sent, and then
/// ends the connection. It keeps what was sent. Once a call has failed, it says that the peer reset
/// it.
#[derive(Drop)]
pub struct MemoryWire {
    response: Vec<u8>,
    // How many bytes of the response were read.
    place: usize,
    most_read: usize,
    reads: Calls<Halt>,
    sent: Vec<u8>,
    most_written: usize,
    writes: Calls<Halt>,
    failures: u64,
    source: Source,
    ghost in_range: { place ≤ length response.items },
    ghost reads_some: { 0 < most_read },
}

impl MemoryWire {
    ghost use Rattle.exchange_memory.specs.Memory.{IsUntouched, IsSameButForReads};

    /// A wire whose peer answers these bytes. It has room for so many bytes that are sent: a write
    /// that has none left is a fault.
    ///
    /// # Errors
    ///
    /// There is no memory for it.
    pub fn new(alloc: Global, response: &[u8], room: usize) -> Result<MemoryWire, AllocError>
        ensures untouched { IfOk result IsUntouched }
        ensures response { IfOk result (λ wire. wire.response.items ≡ response.now) }
    {
        let response = response.to_vec(alloc)?;
        let sent = Vec::with_capacity(alloc, room)?;
        Ok(MemoryWire {
            response,
            place: 0,
            most_read: usize::MAX,
            reads: Calls::with_halt(NEVER, Halt::Fault),
            sent,
            most_written: usize::MAX,
            writes: Calls::with_halt(NEVER, Halt::Fault),
            failures: 0,
            source: Source::new(),
        })
    }

    /// Each read gives at most so many bytes; 0 counts as one.
    pub fn set_most_read(&mut self, most: usize)
        ensures most { self.new.most_read ≡ max most 1 }
        ensures rest { IsSameButForReads self.old self.new }
    {
        self.most_read = most.max(1);
    }

    /// Each write takes at most so many bytes; 0 counts as one.
    pub fn set_most_written(&mut self, most: usize)
        ensures { self.new ≡ record self.old { most_written = max most 1 } }
    {
        self.most_written = most.max(1);
    }

    /// At that read, counted from one, this happens.
    pub fn halt_read(&mut self, nth: u64, halt: Halt)
        ensures { self.new ≡ record self.old {
          reads = record { count = 0; halts_at = nth; halt = halt };
        } }
    {
        self.reads = Calls::with_halt(nth, halt);
    }

    /// At that write, counted from one, this happens.
    pub fn halt_write(&mut self, nth: u64, halt: Halt)
        ensures { self.new ≡ record self.old {
          writes = record { count = 0; halts_at = nth; halt = halt };
        } }
    {
        self.writes = Calls::with_halt(nth, halt);
    }

    /// The bytes that were sent on it since it was dialled.
    pub fn sent(&self) -> &[u8]
        ensures { result.now ≡ self.now.sent.items }
    {
        &self.sent
    }

    /// How many bytes its peer has still to answer.
    pub fn unread(&self) -> usize
        ensures { self.now.place + result ≡ length self.now.response.items }
    {
        self.response.len() - self.place
    }

    /// How often a read or a write failed; the count stays at the greatest `u64`.
    pub fn failures(&self) -> u64
        ensures { result ≡ self.now.failures }
    {
        self.failures
    }

    // Nothing has happened on it yet.
    pub(crate) fn begin(&mut self)
        ensures { IsUntouched self.new }
    {
        self.sent.clear();
        self.place = 0;
    }

    // Counts a failure.
    fn fail(&mut self)
        ensures { (failures : ℕ) × (self.new ≡ record self.old { failures = failures })
            × Rises self.old.failures failures }
    {
        self.failures = self.failures.saturating_add(1);
    }
}

impl Wire for MemoryWire {
    ghost use Rattle.exchange_memory.specs.Memory.{IsUntouched, HappenedTo};

    ghost untouched = { λ wire site transfer. IsUntouched wire };

    ghost happened = { HappenedTo };

    ghost failures = { λ wire. wire.failures };

    ghost source_name = { λ wire. wire.source.id };

    fn read(&mut self, buffer: &mut [u8]) -> Read {
        match self.reads.next() {
            Some(Halt::NotYet) => return Read::NotYet,
            Some(Halt::End) => return Read::End,
            Some(Halt::Fault) => {
                self.fail();
                return Read::Fault;
            }
            None => {}
        }
        let unread = self.unread();
        if unread == 0 {
            return Read::End;
        }
        let count = unread.min(self.most_read).min(buffer.len());
        let end = self.place + count;
        buffer[..count].copy_from_slice(&self.response[self.place..end]);
        self.place = end;
        Read::Bytes(count)
    }

    fn write(&mut self, bytes: &[u8]) -> Written {
        match self.writes.next() {
            Some(Halt::NotYet) => return Written::NotYet,
            Some(_) => {
                self.fail();
                return Written::Fault;
            }
            None => {}
        }
        let room = self.sent.capacity() - self.sent.len();
        let count = room.min(self.most_written).min(bytes.len());
        if count == 0 {
            self.fail();
            return Written::Fault;
        }
        if self.sent.extend_from_slice(&bytes[..count]).is_err() {
            self.fail();
            return Written::Fault;
        }
        Written::Took(count)
    }

    fn reason(&self) -> Option<Reason> {
        (self.failures > 0).then_some(Reason::Reset)
    }

    fn source(&self) -> &Source {
        &self.source
    }
}
