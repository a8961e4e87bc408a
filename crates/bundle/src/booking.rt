ghost use Rattle.std.specs.Prelude.{◌≡◌};

use conn_log::Want;
use std::marker::Model;

/// An acquire that is halfway: the budget gave it no room yet. It has to be spent: tried again
/// until it comes to a lease or a ticket.
pub struct Booking {
    host: u32,
    wanted: Want,
}

impl Model for Booking {
    ghost use Rattle.bundle.specs.Lease.{Booked};

    ghost Value = { Booked };

    ghost view = { λ booking. record { site = booking.host; want = booking.wanted } };
}

impl Booking {
    // The booking of an acquire that is tried again.
    pub(crate) fn new(host: u32, want: Want) -> Self
        ensures { result ≡ record { site = host; want = want } }
    {
        Booking { host, wanted: want }
    }

    // Spends it, and says what its transfer wants.
    pub(crate) fn spend(self) -> Want
        ensures { result ≡ self.want }
    {
        let Booking { host: _, wanted } = self;
        wanted
    }

    /// The index of its host.
    pub fn site(&self) -> u32
        ensures { result ≡ self.now.site }
    {
        self.host
    }

    /// The transfer whose acquire it is.
    pub fn transfer(&self) -> u64
        ensures { result ≡ self.now.want.transfer }
    {
        self.want().transfer
    }

    /// What the transfer wants.
    pub fn want(&self) -> Want
        ensures { result ≡ self.now.want }
    {
        self.wanted
    }
}
