//! A desk for calls of a pool: the pool with the leases and tickets of its transfers.

ghost use Rattle.std.specs.Prelude.{◌≡◌, IsSome, IfOk};
ghost use Rattle.std.specs.List.{All};
ghost use Rattle.cache_trait.specs.Homes.{IsMadeBy, Gives, Claims};
ghost use Rattle.cache.specs.PoolCalls.{home_of};

use budget::{Limits, Refusal};
use bundle::{Acquired, Claimed, Lease, Stray, Ticket};
use cache::Pool;
use conn_log::{Entry, Want};
use persistence::{Facts, Framing, Version};
use std::alloc::Global;
use std::marker::Model;
use std::process::Abort;

/// Number of leases and of tickets that a desk keeps in the memory with which it was made.
const ROOM: usize = 8;

/// A response that lets its connection persist.
pub(crate) const KEEP: Facts = Facts {
    version: Version::V11,
    close: false,
    keep_alive: false,
    request_close: false,
    framing: Framing::Counted,
    both_lengths: false,
    upgraded: false,
    whole: true,
    surplus: false,
};

/// Any connection of lane 0 will do for that transfer.
pub(crate) fn want_of(transfer: u64) -> Want {
    Want::of(transfer)
}

/// A pool, with the leases and tickets of its transfers, of which each has one at most. It has to
/// be closed.
pub(crate) struct PoolDesk {
    pub pool: Pool<()>,
    leases: Vec<Lease<()>>,
    tickets: Vec<Ticket>,
}

impl Model for PoolDesk {
    ghost use Rattle.std.specs.List.{All};
    ghost use Rattle.cache_trait.specs.Homes.{IsMadeBy};
    ghost use Rattle.cache.specs.Pools.{PoolShown};
    ghost use Rattle.cache.specs.PoolCalls.{home_of};

    ghost Value = { PoolShown (Unit {0}) };

    ghost view = { λ desk. desk.pool };

    ghost invariant = { λ desk. record {
      leases : All (λ lease. IsMadeBy (home_of desk.pool) lease.site lease.tables)
          desk.leases.items;
      tickets : All (λ ticket. IsMadeBy (home_of desk.pool) ticket.site ticket.tables)
          desk.tickets.items;
    } };
}

impl PoolDesk {
    /// A pool of `hosts` hosts, under the limits of a host, of the total, and of those kept; 0 is
    /// none.
    pub fn new(alloc: Global, limits: (u32, u32, u32), hosts: u32) -> Result<PoolDesk, Refusal> {
        let (host, total, connects) = limits;
        let Ok(limits) = Limits::new(host, total, connects) else {
            return Err(Refusal::BadLimit);
        };
        let pool = Pool::new(alloc, limits, hosts)?;
        let leases = Vec::with_capacity(alloc, ROOM)?;
        let Ok(tickets) = Vec::with_capacity(alloc, ROOM) else {
            leases.destroy_empty();
            return Err(Refusal::Memory);
        };
        Ok(PoolDesk {
            pool,
            leases,
            tickets,
        })
    }

    /// Cuts the log of a host, for which there has to be memory.
    pub fn cut(&mut self, rt: &impl Abort, site: u32) -> Vec<Entry> {
        self.pool.cut(site).expect(rt, "memory")
    }

    /// Acquires a connection; the lease or the ticket stays at the desk.
    pub fn ask(&mut self, rt: &impl Abort, want: Want, site: u32, now: u64) -> Option<Refusal> {
        match self.acquire(want, site, now) {
            Ok(Acquired::Lease(lease)) => self.keep(rt, lease),
            Ok(Acquired::Wait(ticket)) => self.keep_ticket(rt, ticket),
            Err(refusal) => return Some(refusal),
        }
        None
    }

    /// Gives back the transfer's lease.
    pub fn back(&mut self, rt: &impl Abort, transfer: u64, now: u64) {
        let lease = self.take(rt, transfer);
        self.pool.give_back(with_stream(lease), KEEP, now);
    }

    /// Abandons the transfer's lease.
    pub fn abandon(&mut self, rt: &impl Abort, transfer: u64, now: u64) {
        let lease = self.take(rt, transfer);
        self.pool.abandon(lease, now);
    }

    /// Withdraws the transfer's ticket.
    pub fn leave(&mut self, rt: &impl Abort, transfer: u64, now: u64) {
        let ticket = self.take_ticket(rt, transfer);
        withdraw(rt, &mut self.pool, ticket, now);
    }

    /// Claims the transfer's lease; returns true if it was granted one.
    pub fn claim(&mut self, rt: &impl Abort, transfer: u64) -> bool {
        let ticket = self.take_ticket(rt, transfer);
        match self.redeem(ticket) {
            Ok(Claimed::Lease(lease)) => {
                self.keep(rt, lease);
                true
            }
            Ok(Claimed::Still(ticket)) => {
                self.keep_ticket(rt, ticket);
                false
            }
            Err(stray) => {
                stray.scrap();
                panic!(rt; "the ticket is a stranger");
            }
        }
    }

    /// The pool, once all leases and tickets are spent.
    pub fn close(self, rt: &impl Abort) -> Pool<()> {
        let PoolDesk {
            pool,
            leases,
            tickets,
        } = self;
        assert!(rt; leases.is_empty() && tickets.is_empty(), "not all is spent");
        leases.destroy_empty();
        tickets.destroy_empty();
        pool
    }

    /// Closes idle connections that are too old; returns their number.
    pub fn prune(&mut self, now: u64, max_age: u64, max_life: u64) -> u32 {
        self.pool.prune(now, max_age, max_life)
    }

    pub fn set_host_limit(&mut self, site: u32, limit: u32, now: u64) -> Result<(), Refusal> {
        self.pool.set_host_limit(site, limit, now)
    }

    fn acquire(&mut self, want: Want, site: u32, now: u64) -> Result<Acquired<()>, Refusal>
        ensures given { IfOk result (Gives (home_of self.new) site want) }
    {
        self.pool.acquire(site, want, now)
    }

    fn redeem(&mut self, ticket: Ticket) -> Result<Claimed<()>, Stray<Ticket>>
        requires here { IsMadeBy (home_of self.old) ticket.site ticket.tables }
        ensures claimed { IfOk result (Claims (home_of self.new) ticket) }
        ensures stays { home_of self.new ≡ home_of self.old }
    {
        self.pool.claim(ticket)
    }

    fn keep(&mut self, rt: &impl Abort, lease: Lease<()>)
        requires here { IsMadeBy (home_of self.old) lease.site lease.tables }
    {
        if let Err(failed) = self.leases.push(lease) {
            self.pool.abandon(failed.value, 0);
            panic!(rt; "out of memory");
        }
    }

    fn keep_ticket(&mut self, rt: &impl Abort, ticket: Ticket)
        requires here { IsMadeBy (home_of self.old) ticket.site ticket.tables }
    {
        if let Err(failed) = self.tickets.push(ticket) {
            withdraw(rt, &mut self.pool, failed.value, 0);
            panic!(rt; "out of memory");
        }
    }

    fn take(&mut self, rt: &impl Abort, transfer: u64) -> Lease<()>
        ensures here { IsMadeBy (home_of self.new) result.site result.tables }
    {
        let place = place_of_lease(&self.leases, transfer);
        assert!(rt; place < self.leases.len());
        self.leases.remove(place)
    }

    fn take_ticket(&mut self, rt: &impl Abort, transfer: u64) -> Ticket
        ensures here { IsMadeBy (home_of self.new) result.site result.tables }
    {
        let place = place_of_ticket(&self.tickets, transfer);
        assert!(rt; place < self.tickets.len());
        self.tickets.remove(place)
    }
}

// Withdraws a ticket that has to be known.
fn withdraw(rt: &impl Abort, pool: &mut Pool<()>, ticket: Ticket, now: u64)
    requires here { IsMadeBy (home_of pool.old) ticket.site ticket.tables }
    ensures stays { home_of pool.new ≡ home_of pool.old }
{
    if let Err(stray) = pool.withdraw(ticket, now) {
        stray.scrap();
        panic!(rt; "the ticket is a stranger");
    }
}

// The place of the transfer's lease; past all if it has none.
fn place_of_lease(leases: &[Lease<()>], transfer: u64) -> usize {
    for place in 0..leases.len() {
        if leases[place].transfer() == transfer {
            return place;
        }
    }
    leases.len()
}

// The same of its ticket.
fn place_of_ticket(tickets: &[Ticket], transfer: u64) -> usize {
    for place in 0..tickets.len() {
        if tickets[place].transfer() == transfer {
            return place;
        }
    }
    tickets.len()
}

// The lease with a stream.
pub(crate) fn with_stream(lease: Lease<()>) -> Lease<()>
    ensures site { result.site ≡ lease.site }
    ensures tables { result.tables ≡ lease.tables }
    ensures stream { IsSome result.stream }
{
    let mut lease = lease;
    if !lease.has_stream() {
        lease.attach(());
    }
    lease
}
