//! Connections, how they are dialled, and the time.

ghost use Rattle.std.specs.Prelude.{◌≡◌, ℕ, ◌<◌, length};
ghost use Rattle.streams.specs.RisingCounts.{Rises};

use crate::ready::{Place, Ready};
use crate::reason::Reason;
use bundle::Lease;
use futures::task::Source;
use std::time::Duration;

/// What a read answers.
#[derive(Clone, Copy, Debug, PartialEq, Eq)]
pub enum Read {
    /// So many bytes came, at least one: they stand at the buffer's front.
    Bytes(usize),
    /// None have come yet.
    NotYet,
    /// The peer has ended the connection.
    End,
    /// The read failed.
    Fault,
}

/// What a write answers.
#[derive(Clone, Copy, Debug, PartialEq, Eq)]
pub enum Written {
    /// So many bytes were taken, from the front, at least one.
    Took(usize),
    /// None can be taken yet.
    NotYet,
    /// The write failed.
    Fault,
}

/// What dialling answers.
#[derive(Drop)]
pub enum Dialled<W: Drop> {
    /// The connection is open.
    Up(W),
    /// It is not open yet.
    NotYet,
    /// It cannot be opened.
    Fault,
}

/// What a turn of a dial's event loop answers.
#[derive(Clone, Copy, Debug, PartialEq, Eq)]
pub enum Turned {
    /// It was taken.
    Done,
    /// It failed.
    Fault,
}

/// A connection that bytes go over. Each call waits at most ten milliseconds. What comes on it
/// after a whole response is read as the next one: a wire that can look for it before a request is
/// written should fail.
///
/// The ghost members tell contracts to which site's host it was dialled and for which transfer,
/// where nothing has happened on it yet, what happened on it from one time to another, how often it
/// failed, and the name of its source. The count of failures stays at the greatest `u64`.
pub trait Wire: Drop {
    ghost use Rattle.exchange.specs.Wires.{Happening, Reads, Writes};
    ghost use Rattle.exchange.specs.Dialling.{OnReadFault, OnWriteFault};

    /// It was dialled to the host of that site for that transfer, and nothing has happened on it
    /// yet.
    ghost untouched: { Self → ℕ → ℕ → Type 0 };

    /// From the one time to the other this happened, and nothing else.
    ghost happened: { Self → Self → Happening → Type 0 };

    /// How often a read or a write failed.
    ghost failures: { Self → ℕ };

    /// The name of its source.
    ghost source_name: { Self → ℕ };

    /// Reads into the buffer, which must have room.
    fn read(&mut self, buffer: &mut [u8]) -> Read
        requires { 0 < length buffer.old }
        ensures reads { Reads buffer.new (happened self.old self.new) result }
        ensures fault { OnReadFault result (Rises (failures self.old) (failures self.new)) };

    /// Writes a front of the bytes, of which there must be one.
    fn write(&mut self, bytes: &[u8]) -> Written
        requires { 0 < length bytes.now }
        ensures writes { Writes bytes.now (happened self.old self.new) result }
        ensures fault { OnWriteFault result (Rises (failures self.old) (failures self.new)) };

    /// Why its last read or write failed, if it did and the system said why. No contract speaks of
    /// it.
    fn reason(&self) -> Option<Reason> {
        None
    }

    /// What a task registers with that waits until it can read or write.
    fn source(&self) -> &Source
        ensures { result.now.id ≡ source_name self.now };
}

/// What opens connections, and sees when they are ready. Many may be begun at once, each for a
/// transfer of its own: a transfer keeps to one dial. It is asked by lease, which no code but a
/// cache's can make.
///
/// The ghost members tell contracts what it shows, and what a turn does. Its counts stay at the
/// greatest `u64`.
pub trait Dial<W: Wire> {
    ghost use Rattle.std.specs.Prelude.{None};
    ghost use Rattle.exchange.specs.Wires.Happening.{is_adopted};
    ghost use Rattle.exchange.specs.Dialling.{DialShown, IfUp, DialsFor, GivesUpFor};
    ghost use Rattle.exchange.specs.Dialling.{KeepsDial, TakesTurn};

    /// How often a dial failed, how many connections it has opened, how often a turn failed, for
    /// which transfers a connection may be begun that is not open yet, and the name of its source.
    ghost shown: { Self → DialShown };

    /// From the one time to the other it took a turn, and did nothing else.
    ghost turned: { Self → Self → Type 0 };

    /// Opens the connection of a lease that has none yet, to the host of the lease's site, or goes
    /// on with the one that it began for the lease's transfer.
    fn dial(&mut self, lease: &Lease<W>) -> Dialled<W>
        requires no_stream { lease.now.stream ≡ None }
        ensures up { IfUp result (λ wire.
            W.untouched wire lease.now.site lease.now.start.want.transfer) }
        ensures dials { DialsFor result lease.now.start.want.transfer (shown self.old)
            (shown self.new) };

    /// Why the last dial failed, if it did and the system said why. No contract speaks of it.
    fn reason(&self) -> Option<Reason> {
        None
    }

    /// Ends what it began for the lease's transfer.
    fn give_up(&mut self, lease: &Lease<W>)
        ensures { GivesUpFor lease.now.start.want.transfer (shown self.old) (shown self.new) };

    /// Takes a wire over, which another dial may have made, so that its readiness is seen here.
    fn adopt(&mut self, wire: &mut W)
        ensures adopted { W.happened wire.old wire.new is_adopted }
        ensures same { KeepsDial (shown self.old) (shown self.new) };

    /// Takes a turn of its event loop, which waits at most that long, and at most ten milliseconds.
    fn turn(&mut self, most: Duration) -> Turned
        ensures turn { TakesTurn result (shown self.old) (shown self.new) }
        ensures turned { turned self.old self.new };

    /// Notes a place of a slab: what is dialled or adopted from now on belongs to the transfer
    /// there.
    fn set_place(&mut self, _place: Place)
        ensures same { KeepsDial (shown self.old) (shown self.new) }
    {}

    /// Tells one of the places whose transfers may go on after the last turn, each once, or that
    /// it can't tell.
    fn next_ready(&mut self) -> Ready
        ensures same { KeepsDial (shown self.old) (shown self.new) }
    {
        Ready::All
    }

    /// What a task registers with that waits until a connection is open.
    fn source(&self) -> &Source
        ensures { result.now.id ≡ (shown self.now).source_name };
}

/// What tells the time. The ghost member tells contracts which moments it tells.
pub trait Clock {
    ghost tells: { Self → ℕ → Type 0 };

    /// The seconds since some moment that stays the same.
    fn now(&self) -> u64
        ensures { tells self.now result };

    /// The microseconds since some moment that stays the same. No contract speaks of them.
    fn micros(&self) -> u64;
}
