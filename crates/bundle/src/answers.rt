ghost use Rattle.std.specs.Prelude.{◌≡◌};
ghost use Rattle.bundle.specs.Replies.{is_halfway};

use crate::booking::Booking;
use crate::lease::{Lease, Stray};
use crate::shortage::{NoKeep, NoRoom, Shortage};
use crate::ticket::Ticket;

/// What an acquire gives, or another try of one.
pub enum Got<S> {
    /// A connection.
    Lease(Lease<S>),
    /// A ticket: the transfer waits at the host.
    Wait(Ticket),
    /// The budget answered that it has no room. The acquire is halfway: it is tried again.
    NoRoom(NoRoom),
    /// The budget has to be asked again. The acquire is halfway: it is tried again.
    Again(Booking),
}

impl<S> Got<S> {
    // Whether the acquire is halfway.
    pub(crate) fn is_halfway(&self) -> bool
        ensures { result ≡ is_halfway self.now }
    {
        match self {
            Got::Lease(_) | Got::Wait(_) => false,
            Got::NoRoom(_) | Got::Again(_) => true,
        }
    }
}

/// What an acquire comes to that has been tried to its end.
pub enum Acquired<S> {
    /// A connection.
    Lease(Lease<S>),
    /// A ticket: the transfer waits at its host.
    Wait(Ticket),
}

/// What a claim gives.
pub enum Claimed<S> {
    /// The connection that the transfer was granted.
    Lease(Lease<S>),
    /// The ticket: its transfer still waits.
    Still(Ticket),
}

/// What a give back comes to. All but `Spent` leave the bundle as it was.
pub enum Back<S> {
    /// The lease is spent.
    Spent {
        /// Fewer connections are open than before.
        freed: bool,
    },
    /// The budget answered that as many connections are kept as may be.
    NoKeep(NoKeep<S>),
    /// The budget has to be asked again.
    Again(Lease<S>),
    /// The host's log does not show the lease. No bundle answers this: a lease that was made there
    /// is always known.
    Strange(Stray<Lease<S>>),
}

/// What a turn of a queued host comes to.
#[derive(Drop)]
pub enum Served {
    /// A connection was opened for the first transfer that waits.
    Given,
    /// The budget answered that it has no room. Nothing changed.
    Full(Shortage),
    /// The budget has to be asked again. Nothing changed.
    Contended,
}

/// What a change of the host's limit comes to.
#[derive(Clone, Copy, Debug, PartialEq, Eq)]
pub enum Changed {
    /// The limit is changed.
    Done {
        /// Fewer connections are open than before.
        freed: bool,
    },
    /// The budget has to be asked again. Nothing changed.
    Again,
}
