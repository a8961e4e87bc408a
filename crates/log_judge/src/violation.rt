use conn_log::Cause;
use std::alloc::{AllocError, AllocFailed};
use thiserror::Error;

/// The rule that an entry breaks, with the numbers that show it. The entry itself has the others:
/// its moment, its transfer, its connection. Moments and ages are in seconds.
#[derive(Clone, Copy, Debug, PartialEq, Eq)]
pub enum Violation {
    /// The entry comes before the last one.
    Earlier {
        /// The moment of the last entry.
        last: u64,
    },
    /// A response ended the use of a connection, and the entry is not the close that follows.
    CloseOwed {
        /// The connection's number.
        connection: u32,
        /// Why it has to be closed.
        cause: Cause,
    },
    /// The new connection does not have the next number.
    NotNext {
        /// The next number.
        next: u64,
    },
    /// The host is at its limit.
    Full {
        /// How many connections are open.
        count: u64,
        /// How many may be.
        limit: u32,
    },
    /// Another transfer is the first waiter, or the first waiter waits with another want.
    NotFirst {
        /// The first waiter.
        first: u64,
    },
    /// The transfer holds a connection already.
    Holds {
        /// That connection's number.
        connection: u32,
    },
    /// The connection is not open.
    NotOpen,
    /// The connection is not idle.
    InUse {
        /// The transfer that holds it.
        holder: u64,
    },
    /// The connection is of another lane.
    OtherLane {
        /// The connection's lane.
        lane: u32,
    },
    /// The transfer wants a new connection.
    WantsNew,
    /// The connection was idle for longer than the transfer accepts.
    IdleTooLong {
        /// How long.
        idle: u64,
    },
    /// The connection was open for longer than the transfer accepts.
    OpenTooLong {
        /// How long.
        age: u64,
    },
    /// No transfer holds the connection.
    NotHeld,
    /// No response ended the use of the connection.
    NotOwed,
    /// The transfer waits already.
    WaitsAlready,
    /// A connection is idle.
    BesideIdle {
        /// How many are idle.
        count: u64,
    },
    /// The transfer does not wait.
    NotWaiting,
    /// The limit is below what is open.
    BelowOpen {
        /// How many connections are open.
        count: u64,
    },
}

/// Why an entry was not taken.
#[derive(Clone, Copy, Debug, PartialEq, Eq, Error)]
pub enum Fault {
    /// The entry breaks a rule.
    #[error("a rule is broken")]
    Broken(Violation),
    /// Memory ran out; the entry is lawful.
    #[error("out of memory")]
    Memory,
}
