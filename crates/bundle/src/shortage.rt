//! The proof that a budget had no room, without which no call closes the oldest connection of all.

ghost use Rattle.std.specs.Prelude.{◌≡◌, ◌==◌, true};
ghost use Rattle.budget.specs.Plain.{alive_in};
ghost use Rattle.conn_log.specs.declared.entry.Cause.TheVariants.{TotalRoom, CacheFull};
ghost use Rattle.host_state.specs.Calls.{makes_room_for_others};

use crate::booking::Booking;
use crate::lease::Lease;
use budget::PlainBudget;
use conn_log::Cause;
use std::marker::Model;

/// Says that a budget had no room, and for which cause one idle connection may therefore be closed:
/// [`Cause::TotalRoom`] or [`Cause::CacheFull`]. Each answer that tells of no room makes one, and
/// `Bundle::evict_oldest` spends it. It cannot be copied.
#[derive(Drop)]
pub struct Shortage {
    cause: Cause,
}

impl Model for Shortage {
    ghost use Rattle.std.specs.Prelude.{◌≡◌, true};
    ghost use Rattle.conn_log.specs.declared.entry.Cause.{Cause};
    ghost use Rattle.host_state.specs.Calls.{makes_room_for_others};

    ghost Value = { Cause };

    ghost view = { λ short. short.cause };

    ghost invariant = { λ short. makes_room_for_others short.cause ≡ true };
}

impl Shortage {
    // A shortage of the total.
    pub(crate) fn of_total() -> Self
        ensures { result ≡ TotalRoom }
    {
        Shortage {
            cause: Cause::TotalRoom,
        }
    }

    // A shortage of what may be kept.
    pub(crate) fn of_kept() -> Self
        ensures { result ≡ CacheFull }
    {
        Shortage {
            cause: Cause::CacheFull,
        }
    }

    // Spends it, and says for which cause a connection is closed.
    pub(crate) fn spend(self) -> Cause
        ensures cause { result ≡ self }
        ensures makes_room { makes_room_for_others result ≡ true }
    {
        let Shortage { cause } = self;
        cause
    }
}

/// Makes the shortage of a one-thread budget whose total is full.
///
/// Asked of the caller: [`PlainBudget::is_full`] is true of it.
pub fn short_of_total(budget: &PlainBudget) -> Shortage
    requires { (alive_in budget.now.hosts == budget.now.limits.total) ≡ true }
    ensures { result ≡ TotalRoom }
{
    let _budget = budget;
    Shortage::of_total()
}

/// The booking of an acquire for which the total has no room, with the [`Shortage`] that tells so.
pub struct NoRoom {
    booking: Booking,
}

impl Model for NoRoom {
    ghost use Rattle.bundle.specs.Lease.{Booked};

    ghost Value = { Booked };

    ghost view = { λ no_room. no_room.booking };
}

impl NoRoom {
    // The answer for a booking.
    pub(crate) fn of(booking: Booking) -> Self
        ensures { result ≡ booking }
    {
        NoRoom { booking }
    }

    /// Parts it into the booking, which is tried again, and the shortage, which lets one connection
    /// be closed before.
    pub fn part(self) -> (Booking, Shortage)
        ensures booking { result.0 ≡ self }
        ensures short { result.1 ≡ TotalRoom }
    {
        let NoRoom { booking } = self;
        (booking, Shortage::of_total())
    }
}

/// A lease whose connection the budget does not keep, with the [`Shortage`] that tells so.
pub struct NoKeep<S> {
    lease: Lease<S>,
}

impl<S> Model for NoKeep<S> {
    ghost use Rattle.bundle.specs.Lease.{Leasing};

    ghost Value = { Leasing S };

    ghost view = { λ no_keep. no_keep.lease };
}

impl<S> NoKeep<S> {
    // The answer for a lease.
    #[inline(always)]
    pub(crate) fn of(lease: Lease<S>) -> Self
        ensures { result ≡ lease }
    {
        NoKeep { lease }
    }

    /// Parts it into the lease, which is given back again, and the shortage, which lets one
    /// connection be closed before.
    #[inline(always)]
    pub fn part(self) -> (Lease<S>, Shortage)
        ensures lease { result.0 ≡ self }
        ensures short { result.1 ≡ CacheFull }
    {
        let NoKeep { lease } = self;
        (lease, Shortage::of_kept())
    }
}
