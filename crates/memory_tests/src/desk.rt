//! A desk for calls of one host: the host with its budget, the lobby and a pass.

ghost use Rattle.std.specs.Prelude.{◌≡◌, [], IsSome, IfOk, replicate};
ghost use Rattle.budget.specs.Accounts.{vacant};
ghost use Rattle.budget.specs.Plain.{nothing_held};
ghost use Rattle.bundle.specs.Lease.{IsBookedHere, IsMadeAt};
ghost use Rattle.bundle.specs.Replies.{IfBack, IfClaimed, IfGot, GivesLease};

use crate::pool_desk::KEEP;
use budget::{Limits, Lobby, Pass, PlainBudget, Refusal, Try};
use bundle::{
    Back, Booking, Bundle, Changed, Claimed, Did, Got, Lease, Served, Shortage, Stray, Ticket,
};
use conn_log::{Entry, Stamp, Want};
use std::alloc::Global;
use std::marker::Model;
use std::process::Abort;

/// The number of hosts of the budget, the lobby and the pass.
const HOSTS: u32 = 8;

/// The number of the host at the desk.
pub(crate) const HOST: u32 = 7;

/// A host with its budget, the lobby and a pass. Of the budget the host holds what its log tells,
/// the lobby lists it if it is queued, and the pass has a seat there. Contracts see at which tables
/// its leases are made.
pub(crate) struct Desk {
    pub bundle: Bundle<u32>,
    budget: PlainBudget,
    lobby: Lobby,
    pub pass: Pass<Did>,
}

impl Drop for Desk {
    fn drop(self) {
        let Desk {
            bundle: _,
            budget: _,
            lobby: _,
            pass,
        } = self;
        pass.discard();
    }
}

impl Model for Desk {
    ghost use Rattle.std.specs.Prelude.{◌≡◌, ◌<◌, length};
    ghost use Rattle.budget.specs.Accounts.{IsEnrolledAt};
    ghost use Rattle.budget.specs.Plain.{held_at_host};
    ghost use Rattle.bundle.specs.Seats.{Tables};
    ghost use Rattle.host_state.specs.Calls.{is_queued};
    ghost use Rattle.host_state.specs.Counts.{held_by};
    ghost use Rattle.host_state.specs.Orders.{Lists};

    ghost Value = { Tables };

    ghost view = { λ desk. desk.bundle.tables };

    ghost invariant = { λ desk. record {
      here : desk.bundle.host < length desk.budget.hosts;
      part : held_at_host desk.budget.hosts desk.bundle.host ≡ held_by desk.bundle.log;
      lists : let host = desk.bundle in
          Lists host.host (is_queued host.settings host.log) desk.lobby;
      enrolled : IsEnrolledAt desk.pass desk.bundle.host desk.bundle.tables.starts;
    } };
}

impl Desk {
    /// A new host, under the limits of a host, of the total, and of those kept; 0 is none.
    pub fn new(alloc: Global, limits: (u32, u32, u32)) -> Result<Self, Refusal> {
        let (host, total, connects) = limits;
        let Ok(limits) = Limits::new(host, total, connects) else {
            return Err(Refusal::BadLimit);
        };
        let made = Bundle::new(alloc, limits.host(), HOST, 1)?;
        let shared = new_shared(alloc, limits)?;
        let (mut bundle, (budget, lobby, mut pass)) = (made, shared);
        bundle.enrol(&mut pass);
        Ok(Desk {
            bundle,
            budget,
            lobby,
            pass,
        })
    }

    /// Cuts the host's log.
    pub fn cut(&mut self) -> Result<Vec<Entry>, Refusal>
        ensures same { self.new ≡ self.old }
    {
        self.bundle.cut()
    }

    pub fn acquire(&mut self, want: Want, now: u64) -> Result<Got<u32>, Refusal>
        ensures made_here { IfGot result (λ got. GivesLease got (IsMadeAt self.old)) }
        ensures same { self.new ≡ self.old }
    {
        let mut permits = self.budget.at(self.bundle.host());
        self.bundle.acquire(want, now, &mut permits, &mut self.pass)
    }

    /// Tries again an acquire that is halfway here.
    pub fn retry(&mut self, rt: &impl Abort, booking: Booking, now: u64) -> Got<u32>
        ensures made_here { GivesLease result (IsMadeAt self.old) }
        ensures same { self.new ≡ self.old }
    {
        let booking = booked(rt, &self.bundle, booking);
        let mut permits = self.budget.at(self.bundle.host());
        self.bundle
            .retry(booking, now, &mut permits, None, &mut self.pass)
    }

    /// Tries it for the last time.
    pub fn retry_at_last(&mut self, rt: &impl Abort, booking: Booking, now: u64) -> Got<u32>
        ensures made_here { GivesLease result (IsMadeAt self.old) }
        ensures same { self.new ≡ self.old }
    {
        let booking = booked(rt, &self.bundle, booking);
        let mut permits = self.budget.at(self.bundle.host());
        let lobby = Some(&mut self.lobby);
        self.bundle
            .retry(booking, now, &mut permits, lobby, &mut self.pass)
    }

    fn return_lease(&mut self, lease: Lease<u32>, now: u64) -> Back<u32>
        requires stream { IsSome lease.stream }
        requires here { lease.tables ≡ self.old }
        ensures made_here { IfBack result (IsMadeAt self.old) }
        ensures same { self.new ≡ self.old }
    {
        let mut permits = self.budget.at(self.bundle.host());
        let (pass, lobby) = (&mut self.pass, Some(&mut self.lobby));
        self.bundle
            .give_back(lease, KEEP, now, pass, &mut permits, lobby, false)
    }

    fn abandon(&mut self, lease: Lease<u32>, now: u64) -> Result<bool, Stray<Lease<u32>>>
        requires here { lease.tables ≡ self.old }
        ensures same { self.new ≡ self.old }
    {
        let mut permits = self.budget.at(self.bundle.host());
        let (pass, lobby) = (&mut self.pass, Some(&mut self.lobby));
        self.bundle.abandon(lease, now, pass, &mut permits, lobby)
    }

    fn withdraw(&mut self, ticket: Ticket, now: u64) -> Result<bool, Stray<Ticket>>
        ensures same { self.new ≡ self.old }
    {
        let mut permits = self.budget.at(self.bundle.host());
        let (pass, lobby) = (&mut self.pass, Some(&mut self.lobby));
        self.bundle.withdraw(ticket, now, pass, &mut permits, lobby)
    }

    /// Takes a turn of the host, if it is queued: what the budget answered.
    pub fn serve_queued(&mut self, now: u64) -> Option<Try>
        ensures same { self.new ≡ self.old }
    {
        if !self.bundle.queued() || self.lobby.first() != Some(self.bundle.host()) {
            return None;
        }
        let mut permits = self.budget.at(self.bundle.host());
        let lobby = &mut self.lobby;
        match self.bundle.serve_queued(now, &mut permits, lobby) {
            Served::Given => Some(Try::Got),
            Served::Full(_short) => Some(Try::Full),
            Served::Contended => Some(Try::Contended),
        }
    }

    pub fn evict_oldest(&mut self, stamp: Stamp, short: Shortage, now: u64) -> bool
        ensures same { self.new ≡ self.old }
    {
        let mut permits = self.budget.at(self.bundle.host());
        self.bundle.evict_oldest(stamp, short, now, &mut permits)
    }

    /// Closes all idle connections; returns their number.
    pub fn prune(&mut self, now: u64) -> u32
        ensures same { self.new ≡ self.old }
    {
        let mut permits = self.budget.at(self.bundle.host());
        self.bundle.prune(now, 0, 0, &mut permits, &mut self.pass)
    }

    pub fn set_host_limit(&mut self, limit: u32, now: u64) -> Result<Changed, Refusal>
        ensures same { self.new ≡ self.old }
    {
        let mut permits = self.budget.at(self.bundle.host());
        let (lobby, pass) = (&mut self.lobby, &mut self.pass);
        self.bundle
            .set_host_limit(limit, now, &mut permits, lobby, pass)
    }

    /// Gives back a lease, which has to be known and kept.
    pub fn give_back(&mut self, rt: &impl Abort, lease: Lease<u32>, now: u64)
        requires here { lease.tables ≡ self.old }
        ensures same { self.new ≡ self.old }
    {
        match self.return_lease(with_stream(lease), now) {
            Back::Spent { freed: _ } => {}
            Back::NoKeep(_no_keep) => panic!(rt; "the lease came back"),
            Back::Again(_lease) => panic!(rt; "the lease came back"),
            Back::Strange(_stray) => panic!(rt; "the lease is a stranger"),
        }
    }

    /// Abandons a lease, which has to be known.
    pub fn drop_lease(&mut self, rt: &impl Abort, lease: Lease<u32>, now: u64)
        requires here { lease.tables ≡ self.old }
        ensures same { self.new ≡ self.old }
    {
        if let Err(_stray) = self.abandon(lease, now) {
            panic!(rt; "the lease is a stranger");
        }
    }

    /// Withdraws a ticket, which has to be known.
    pub fn leave(&mut self, rt: &impl Abort, ticket: Ticket, now: u64)
        ensures same { self.new ≡ self.old }
    {
        if let Err(_stray) = self.withdraw(ticket, now) {
            panic!(rt; "the ticket is a stranger");
        }
    }

    /// Claims the lease of a ticket, which has to be granted one.
    pub fn claim(&mut self, rt: &impl Abort, ticket: Ticket) -> Lease<u32>
        ensures made_here { result.tables ≡ self.old }
        ensures same { self.new ≡ self.old }
    {
        match self.bundle.claim(ticket, &mut self.pass) {
            Ok(Claimed::Lease(lease)) => lease,
            Ok(Claimed::Still(_ticket)) => panic!(rt; "the transfer still waits"),
            Err(_stray) => panic!(rt; "the ticket is a stranger"),
        }
    }
}

// What the hosts share: a budget, a lobby, and a pass without a seat.
fn new_shared(alloc: Global, limits: Limits) -> Result<(PlainBudget, Lobby, Pass<Did>), Refusal>
    ensures budget { IfOk result (λ made. made.0 ≡ nothing_held limits 8) }
    ensures lobby { IfOk result (λ made. made.1 ≡ record { hosts = 8; order = [] }) }
    ensures pass { IfOk result (λ made. made.2 ≡ replicate 8 vacant) }
{
    let budget = PlainBudget::new(alloc, limits, HOSTS)?;
    let lobby = Lobby::new(alloc, HOSTS)?;
    Ok((budget, lobby, Pass::new(alloc, HOSTS as usize)?))
}

// The booking, which has to be the host's.
fn booked(rt: &impl Abort, bundle: &Bundle<u32>, booking: Booking) -> Booking
    ensures same { result ≡ booking }
    ensures here { IsBookedHere bundle.now booking }
{
    assert!(rt; bundle.has_booked(&booking), "a booking of another host");
    booking
}

/// The lease with a stream, of its number if it has none yet.
pub(crate) fn with_stream(lease: Lease<u32>) -> Lease<u32>
    ensures tables { result.tables ≡ lease.tables }
    ensures stream { IsSome result.stream }
{
    let mut lease = lease;
    if !lease.has_stream() {
        let number = lease.number();
        lease.attach(number);
    }
    lease
}

/// The lease of an answer, which has to be one.
pub(crate) fn lease_of(rt: &impl Abort, got: Got<u32>) -> Lease<u32>
    ensures { got ≡ Got.Lease result }
{
    match got {
        Got::Lease(lease) => lease,
        _got => panic!(rt; "no lease"),
    }
}

/// The ticket of an answer, which has to be one.
pub(crate) fn ticket_of(rt: &impl Abort, got: Got<u32>) -> Ticket {
    match got {
        Got::Wait(ticket) => ticket,
        _got => panic!(rt; "no ticket"),
    }
}

/// The booking of an answer, which has to be that there is no room.
pub(crate) fn booking_of(rt: &impl Abort, got: Got<u32>) -> Booking {
    match got {
        Got::NoRoom(no_room) => {
            let (booking, _short) = no_room.part();
            booking
        }
        _got => panic!(rt; "no booking"),
    }
}
