//! What is known of a connection over a socket, and how its socket is read, written and looked at.

ghost use Rattle.std.specs.Prelude.{◌≡◌, ◌≢◌, ◌<◌, length, true, false};
ghost use Rattle.exchange.specs.Wires.{Reads, Writes};
ghost use Rattle.exchange.specs.Wires.Happening.{is_adopted};
ghost use Rattle.exchange.specs.Dialling.{OnReadFault, OnWriteFault};
ghost use Rattle.streams.specs.RisingCounts.{Rises};
ghost use Rattle.socket.specs.Sockets.{IsUntouched, IsDialledTo, HappensTo, Fails, Judges};
ghost use Rattle.socket.specs.declared.connection.Condition.TheVariants.{Unfit};
ghost use Rattle.socket.specs.Streams.{HappensOver, KeepsUnwritten};
ghost use Rattle.socket.specs.SystemAnswers.{
  IsTemporary,
  TellsRead,
  TellsWrite,
  NotesRead,
  NotesWrite,
};

use crate::reasons::reason_of;
use exchange::{Read, Reason, Written};
use libc::net::{POLLIN, POLLRDHUP, poll};
use libc::types::pollfd;
use std::io;
use std::io::ErrorKind;
use std::net::SocketAddr;
use std::os::fd::AsRawFd;

/// What has happened on a connection.
#[derive(Clone, Copy, Debug, PartialEq, Eq)]
pub(crate) enum Condition {
    /// Nothing yet.
    Untouched,
    /// Its socket was used.
    Used,
    /// Its peer said something that no request asked for, or has gone: it is not used again.
    Unfit,
}

/// What is known of a connection: to which site's host and to which address it was dialled, for
/// which transfer, what has happened on it, how often a read or a write failed, counted up to the
/// greatest `u64`, and why the last one of these failed, if the system said so.
#[derive(Clone, Copy, Debug)]
pub(crate) struct Connection {
    site: u32,
    transfer: u64,
    address: SocketAddr,
    condition: Condition,
    failures: u64,
    reason: Option<Reason>,
}

impl Connection {
    /// A connection to the host of that site at that address, for that transfer.
    pub(crate) fn new(address: SocketAddr, site: u32, transfer: u64) -> Connection
        ensures untouched { IsUntouched result site transfer }
        ensures address { result.address ≡ address }
    {
        Connection {
            site,
            transfer,
            address,
            condition: Condition::Untouched,
            failures: 0,
            reason: None,
        }
    }

    /// Whether it was dialled for that transfer to the host of that site, to one of these addresses
    /// of the host, and nothing has happened on it yet.
    pub(crate) fn is_for(&self, addresses: &[SocketAddr], site: u32, transfer: u64) -> bool
        ensures { result ≡ true → IsDialledTo addresses.now self.now site transfer }
    {
        self.site == site
            && self.transfer == transfer
            && self.condition == Condition::Untouched
            && addresses.contains(&self.address)
    }

    /// Whether it was not found unfit.
    pub(crate) fn is_fit(&self) -> bool
        ensures fit { result ≡ true → self.now.condition ≢ Unfit }
        ensures unfit { result ≡ false → self.now.condition ≡ Unfit }
    {
        self.condition != Condition::Unfit
    }

    /// Why the last read or write that failed did, if the system said so.
    pub(crate) fn reason(&self) -> Option<Reason> {
        self.reason
    }

    /// Reads from its stream into the buffer, which must have room.
    pub(crate) fn read<S: io::Read + io::Write>(
        &mut self,
        stream: &mut S,
        buffer: &mut [u8],
    ) -> Read
        requires { 0 < length buffer.old }
        ensures reads { Reads buffer.new (HappensOver S.contents S.remaining self.old self.new
            stream.old stream.new) result }
        ensures fault { OnReadFault result (Rises self.old.failures self.new.failures) }
    {
        if self.condition == Condition::Unfit {
            self.fail(None);
            return Read::Fault;
        }
        let answered = stream.read(buffer);
        self.note_read(answered)
    }

    /// Writes a front of the bytes to its stream, of which there must be one.
    pub(crate) fn write<S: io::Read + io::Write>(&mut self, stream: &mut S, bytes: &[u8]) -> Written
        requires { 0 < length bytes.now }
        ensures writes { Writes bytes.now (HappensOver S.contents S.remaining self.old self.new
            stream.old stream.new) result }
        ensures fault { OnWriteFault result (Rises self.old.failures self.new.failures) }
        ensures keeps { KeepsUnwritten S.contents stream.old stream.new result }
    {
        if self.condition == Condition::Unfit {
            self.fail(None);
            return Written::Fault;
        }
        let answered = stream.write(bytes);
        self.note_write(answered)
    }

    // Notes what the system answered to a read, and tells it.
    fn note_read(&mut self, answered: io::Result<usize>) -> Read
        ensures told { TellsRead answered result }
        ensures noted { NotesRead result self.old self.new }
    {
        match answered {
            Ok(0) => {
                self.condition = Condition::Used;
                Read::End
            }
            Ok(count) => {
                self.condition = Condition::Used;
                Read::Bytes(count)
            }
            Err(error) => {
                if is_temporary(error.kind()) {
                    return Read::NotYet;
                }
                self.fail(reason_of(error.kind()));
                Read::Fault
            }
        }
    }

    // Notes what the system answered to a write, and tells it.
    fn note_write(&mut self, answered: io::Result<usize>) -> Written
        ensures told { TellsWrite answered result }
        ensures noted { NotesWrite result self.old self.new }
    {
        match answered {
            Ok(0) => {
                self.fail(None);
                Written::Fault
            }
            Ok(count) => {
                self.condition = Condition::Used;
                Written::Took(count)
            }
            Err(error) => {
                if is_temporary(error.kind()) {
                    return Written::NotYet;
                }
                self.fail(reason_of(error.kind()));
                Written::Fault
            }
        }
    }

    /// Another transfer is about to use it. If its socket was found readable, its peer said
    /// something that no request asked for, or has gone, and it is unfit for use from then on.
    pub(crate) fn check_idle(&mut self, is_readable: bool)
        ensures judged { Judges is_readable self.old self.new }
        ensures adopted { HappensTo self.old self.new is_adopted }
    {
        if is_readable || self.condition == Condition::Unfit {
            self.condition = Condition::Unfit;
        } else {
            self.condition = Condition::Used;
        }
    }

    /// Counts a failure, and keeps why, if the system said so.
    pub(crate) fn fail(&mut self, reason: Option<Reason>)
        ensures { Fails self.old self.new }
    {
        self.failures = self.failures.saturating_add(1);
        self.reason = reason;
        if self.condition == Condition::Untouched {
            self.condition = Condition::Used;
        }
    }
}

/// Whether a call that failed so has only to be made again: it would wait, or its time is up, which
/// the system tells as one error (the manual page socket(7), at SO_RCVTIMEO), or a signal came.
fn is_temporary(kind: ErrorKind) -> bool
    ensures again { result ≡ true → IsTemporary kind }
    ensures fails { IsTemporary kind → result ≡ true }
{
    matches!(kind, ErrorKind::WouldBlock | ErrorKind::Interrupted)
}

/// How often a look is tried that a signal may have interrupted.
const MOST_LOOKS: u32 = 3;

/// Whether bytes, the peer's end or an error can be read from a socket, asked without waiting (the
/// manual page poll(2)). One that cannot be asked counts as readable.
pub(crate) fn is_readable<S: AsRawFd>(socket: &S) -> bool {
    for _ in 0..MOST_LOOKS {
        let mut asked = [pollfd {
            fd: socket.as_raw_fd(),
            events: POLLIN | POLLRDHUP,
            revents: 0,
        }];
        let ready = poll(&mut asked, 0);
        if ready >= 0 {
            return ready > 0;
        }
    }
    true
}
