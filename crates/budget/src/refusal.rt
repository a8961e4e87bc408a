use crate::limits::LimitsFault;
use std::alloc::AllocError;
use thiserror::Error;

/// Why a call was refused. A refused call changes nothing.
///
/// Checks come in this order: a bad site, bad limits, a transfer that is busy, a strange lease, a
/// strange ticket, numbers exhausted, connections still in use, missing passes, and want of memory
/// last. So where several reasons stand, the first of these is answered.
#[derive(Clone, Copy, Debug, PartialEq, Eq, Error)]
pub enum Refusal {
    /// Memory ran out.
    #[error("out of memory")]
    Memory,
    /// There is no such site, or there are too many hosts.
    #[error("bad-site")]
    BadSite,
    /// The transfer holds a connection of this host already, waits for one, or has one booked.
    #[error("busy")]
    TransferBusy,
    /// The log does not show the lease's connection held by its transfer.
    #[error("stranger")]
    StrangeLease,
    /// The log shows the ticket's transfer neither waiting nor granted.
    #[error("stranger")]
    StrangeTicket,
    /// The connection numbers that are left may be needed by those that wait.
    #[error("exhausted")]
    Exhausted,
    /// That many connections or transfers are held or waiting.
    #[error("{0} still in use")]
    Busy(u64),
    /// What the passes spent does not add up to the leases given.
    #[error("passes missing")]
    PassesMissing,
    /// The numbers are no limits.
    #[error("bad limits")]
    BadLimit,
}

impl From<AllocError> for Refusal {
    ghost use Rattle.std.specs.Prelude.{◌≡◌};
    ghost use Rattle.budget.specs.declared.refusal.Refusal.TheVariants.{Memory};

    ghost from_gives = { λ fault refusal. refusal ≡ Memory };

    fn from(_: AllocError) -> Self {
        Refusal::Memory
    }
}

impl From<LimitsFault> for Refusal {
    ghost use Rattle.std.specs.Prelude.{◌≡◌};
    ghost use Rattle.budget.specs.declared.refusal.Refusal.TheVariants.{BadLimit};

    ghost from_gives = { λ fault refusal. refusal ≡ BadLimit };

    fn from(fault: LimitsFault) -> Self {
        match fault {
            LimitsFault::BadLimit => Refusal::BadLimit,
        }
    }
}
