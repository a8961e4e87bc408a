ghost use Rattle.std.specs.Prelude.{◌≡◌};
ghost use Rattle.bundle.specs.Lease.{Ticketed};

use crate::origin::Origin;
use crate::seats::Seats;
use conn_log::Want;
use std::marker::Model;

/// What a transfer has that waits at a host. It has to be spent, claimed until it gives a lease or
/// withdrawn, or let go as a stranger. Contracts see the tables of the host that made it.
pub struct Ticket {
    host: u32,
    wanted: Want,
    began: u64,
    origin: Origin,
}

impl Model for Ticket {
    ghost use Rattle.bundle.specs.Lease.{Ticketed};

    ghost Value = { Ticketed };

    ghost view = { λ ticket. record {
      site = ticket.host;
      wait = record { want = ticket.wanted; moment = ticket.began };
      tables = ticket.origin.tables;
    } };
}

impl Ticket {
    // The ticket of a wait that begins at the host with these seats.
    pub(crate) fn new(host: u32, want: Want, moment: u64, seats: &Seats) -> Self
        ensures { result ≡ record {
          site = host;
          wait = record { want = want; moment = moment };
          tables = seats.now.tables;
        } }
    {
        Ticket {
            host,
            wanted: want,
            began: moment,
            origin: Origin::of(seats),
        }
    }

    // Spends it.
    pub(crate) fn spend(self) {
        let Ticket {
            host: _,
            wanted: _,
            began: _,
            origin: _,
        } = self;
    }

    /// The index of its host.
    pub fn site(&self) -> u32
        ensures { result ≡ self.now.site }
    {
        self.host
    }

    /// The transfer that waits.
    pub fn transfer(&self) -> u64
        ensures { result ≡ self.now.wait.want.transfer }
    {
        self.want().transfer
    }

    /// What the transfer wants.
    pub fn want(&self) -> Want
        ensures { result ≡ self.now.wait.want }
    {
        self.wanted
    }

    /// The moment in which it began to wait, in seconds.
    pub fn moment(&self) -> u64
        ensures { result ≡ self.now.wait.moment }
    {
        self.began
    }
}
