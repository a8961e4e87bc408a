//! Where a transfer stands, and what it waits for.

ghost use Rattle.std.specs.Prelude.{◌≡◌, false};
ghost use Rattle.exchange.specs.Stepping.{has_lease};
ghost use Rattle.exchange.specs.Waiting.{stage_at};

use crate::done::Done;
use bundle::{Lease, Ticket};

/// What a pending transfer waits for.
#[derive(Clone, Copy, Debug, PartialEq, Eq)]
pub enum Stage {
    /// That a connection is granted to it.
    Grant,
    /// That its new connection is open.
    Dialling,
    /// That its wire takes bytes of the request.
    Sending,
    /// That its wire has bytes of the response.
    Reading,
    /// Its next turn: it has asked to be polled again.
    Turn,
}

/// Where a transfer stands, with the lease or the ticket that it has there.
pub(crate) enum State<W> {
    /// It will ask for a connection.
    Asking,
    /// It waits for one.
    Waiting(Ticket),
    /// It opens its connection.
    Dialling(Lease<W>),
    /// It has sent so many bytes of its request.
    Sending(Lease<W>, usize),
    /// It has sent its request, and reads the response.
    Reading(Lease<W>),
    /// It has ended.
    Finished(Done),
}

impl<W> State<W> {
    /// Whether it has a lease there.
    pub(crate) fn has_lease(&self) -> bool
        ensures { result ≡ has_lease self.now }
    {
        matches!(
            self,
            State::Dialling(_) | State::Sending(_, _) | State::Reading(_)
        )
    }

    /// What it waits for there, if it has to wait.
    pub(crate) fn stage(&self) -> Stage
        ensures { result ≡ stage_at false self.now }
    {
        match self {
            State::Waiting(_) => Stage::Grant,
            State::Dialling(_) => Stage::Dialling,
            State::Sending(_, _) => Stage::Sending,
            State::Reading(_) => Stage::Reading,
            State::Asking | State::Finished(_) => Stage::Turn,
        }
    }
}

/// What a step comes to.
pub(crate) enum Step<W> {
    /// It stands there now.
    Goes(State<W>),
    /// It stands there, and has to wait.
    Waits(State<W>),
}
