//! What tests of a pool share: a pool with the leases and tickets of its transfers, and entries as
//! transcripts have them.

ghost use Rattle.std.specs.Prelude.{◌≡◌, IsSome, IfOk};
ghost use Rattle.std.specs.List.{All};
ghost use Rattle.cache_trait.specs.Homes.{IsMadeBy, Gives, Claims};
ghost use Rattle.cache.specs.PoolCalls.{home_of};

use crate::checks::check_eq;
use budget::{Limits, Refusal};
use bundle::{Acquired, Claimed, Lease, Stray, Ticket};
use cache::Pool;
use conn_log::{Cause, Entry, Event, Want};
use persistence::{Facts, Framing, Version};
use std::alloc::Global;
use std::marker::Model;
use std::process::Abort;

/// How many leases and tickets a desk keeps in the memory with which it was made.
const ROOM: usize = 8;

/// A response that lets its connection persist.
pub(crate) const KEEP: Facts = Facts {
    version: Version::V11,
    close: false,
    keep_alive: false,
    request_close: false,
    framing: Framing::Counted,
    both_lengths: false,
    upgraded: false,
    whole: true,
    surplus: false,
};

/// What a transfer wants if nothing else is said.
pub(crate) fn want_of(transfer: u64) -> Want {
    Want::of(transfer)
}

pub(crate) fn opened(connection: u32, want: Want, moment: u64) -> Entry {
    Entry {
        moment,
        event: Event::Opened { connection, want },
    }
}

pub(crate) fn returned(connection: u32, moment: u64) -> Entry {
    Entry {
        moment,
        event: Event::Returned {
            connection,
            facts: KEEP,
        },
    }
}

pub(crate) fn closed(connection: u32, cause: Cause, moment: u64) -> Entry {
    Entry {
        moment,
        event: Event::Closed { connection, cause },
    }
}

pub(crate) fn limited(limit: u32, moment: u64) -> Entry {
    Entry {
        moment,
        event: Event::Limit { limit },
    }
}

/// A pool, with the leases and tickets that its transfers have; a transfer has one at most. It has
/// to be closed.
pub(crate) struct Desk {
    pub pool: Pool<()>,
    pub leases: Vec<Lease<()>>,
    pub tickets: Vec<Ticket>,
}

impl Model for Desk {
    ghost use Rattle.std.specs.List.{All};
    ghost use Rattle.cache_trait.specs.Homes.{IsMadeBy};
    ghost use Rattle.cache.specs.Pools.{PoolShown};
    ghost use Rattle.cache.specs.PoolCalls.{home_of};

    ghost Value = { PoolShown (Unit {0}) };

    ghost view = { λ desk. desk.pool };

    ghost invariant = { λ desk. record {
      leases : All (λ lease. IsMadeBy (home_of desk.pool) lease.site lease.tables)
          desk.leases.items;
      tickets : All (λ ticket. IsMadeBy (home_of desk.pool) ticket.site ticket.tables)
          desk.tickets.items;
    } };
}

impl Desk {
    /// A pool of so many hosts under limits of a host, of the total and of those kept; 0 is none.
    pub fn new(alloc: Global, limits: (u32, u32, u32), hosts: u32) -> Result<Desk, Refusal> {
        let (host, total, connects) = limits;
        let Ok(limits) = Limits::new(host, total, connects) else {
            return Err(Refusal::BadLimit);
        };
        let pool = Pool::new(alloc, limits, hosts)?;
        // room for the few transfers of most tests, which is not asked for later
        let leases = Vec::with_capacity(alloc, ROOM)?;
        let Ok(tickets) = Vec::with_capacity(alloc, ROOM) else {
            leases.destroy_empty();
            return Err(Refusal::Memory);
        };
        Ok(Desk {
            pool,
            leases,
            tickets,
        })
    }

    /// Cuts the log of a host; what it hands out.
    pub fn cut(&mut self, rt: &impl Abort, site: u32) -> Vec<Entry> {
        self.pool.cut(site).expect(rt, "memory")
    }

    /// Acquires a connection; the lease or the ticket stays at the desk.
    pub fn ask(&mut self, rt: &impl Abort, want: Want, site: u32, now: u64) -> Option<Refusal> {
        match self.acquire(want, site, now) {
            Ok(Acquired::Lease(lease)) => self.keep(rt, lease),
            Ok(Acquired::Wait(ticket)) => self.keep_ticket(rt, ticket),
            Err(refusal) => return Some(refusal),
        }
        None
    }

    /// The same, where nothing else is wanted and it is not refused.
    pub fn get(&mut self, rt: &impl Abort, transfer: u64, site: u32, now: u64) {
        let refused = self.ask(rt, want_of(transfer), site, now);
        check_eq(rt, refused, None);
    }

    /// Gives back what the transfer has a lease of.
    pub fn back(&mut self, rt: &impl Abort, transfer: u64, now: u64) {
        let lease = self.take(rt, transfer);
        self.pool.give_back(with_stream(lease), KEEP, now);
    }

    /// Abandons it.
    pub fn abandon(&mut self, rt: &impl Abort, transfer: u64, now: u64) {
        let lease = self.take(rt, transfer);
        self.pool.abandon(lease, now);
    }

    /// Withdraws the transfer's ticket.
    pub fn leave(&mut self, rt: &impl Abort, transfer: u64, now: u64) {
        let ticket = self.take_ticket(rt, transfer);
        self.withdraw(rt, ticket, now);
    }

    /// Claims what the transfer was granted; whether it was granted anything.
    pub fn claim(&mut self, rt: &impl Abort, transfer: u64) -> bool {
        let ticket = self.take_ticket(rt, transfer);
        match self.redeem(ticket) {
            Ok(Claimed::Lease(lease)) => {
                self.keep(rt, lease);
                true
            }
            Ok(Claimed::Still(ticket)) => {
                self.keep_ticket(rt, ticket);
                false
            }
            Err(stray) => {
                stray.scrap();
                panic!(rt; "the ticket is a stranger");
            }
        }
    }

    /// Abandons all leases and withdraws all tickets. What is left is the pool.
    pub fn close(self, rt: &impl Abort, now: u64) -> Pool<()> {
        let Desk {
            mut pool,
            leases,
            tickets,
        } = self;
        abandon_all(&mut pool, leases, now);
        withdraw_all(rt, &mut pool, tickets, now);
        pool
    }

    pub fn set_host_limit(&mut self, site: u32, limit: u32, now: u64) -> Result<(), Refusal> {
        self.pool.set_host_limit(site, limit, now)
    }

    pub fn withdraw(&mut self, rt: &impl Abort, ticket: Ticket, now: u64)
        requires here { IsMadeBy (home_of self.old) ticket.site ticket.tables }
    {
        withdraw(rt, &mut self.pool, ticket, now);
    }

    fn acquire(&mut self, want: Want, site: u32, now: u64) -> Result<Acquired<()>, Refusal>
        ensures given { IfOk result (Gives (home_of self.new) site want) }
    {
        self.pool.acquire(site, want, now)
    }

    fn redeem(&mut self, ticket: Ticket) -> Result<Claimed<()>, Stray<Ticket>>
        requires here { IsMadeBy (home_of self.old) ticket.site ticket.tables }
        ensures claimed { IfOk result (Claims (home_of self.new) ticket) }
        ensures stays { home_of self.new ≡ home_of self.old }
    {
        self.pool.claim(ticket)
    }

    fn keep(&mut self, rt: &impl Abort, lease: Lease<()>)
        requires here { IsMadeBy (home_of self.old) lease.site lease.tables }
    {
        if let Err(failed) = self.leases.push(lease) {
            self.pool.abandon(failed.value, 0);
            panic!(rt; "out of memory");
        }
    }

    fn keep_ticket(&mut self, rt: &impl Abort, ticket: Ticket)
        requires here { IsMadeBy (home_of self.old) ticket.site ticket.tables }
    {
        if let Err(failed) = self.tickets.push(ticket) {
            self.withdraw(rt, failed.value, 0);
            panic!(rt; "out of memory");
        }
    }

    fn take(&mut self, rt: &impl Abort, transfer: u64) -> Lease<()>
        ensures here { IsMadeBy (home_of self.new) result.site result.tables }
    {
        let place = place_of_lease(&self.leases, transfer);
        assert!(rt; place < self.leases.len());
        self.leases.remove(place)
    }

    fn take_ticket(&mut self, rt: &impl Abort, transfer: u64) -> Ticket
        ensures here { IsMadeBy (home_of self.new) result.site result.tables }
    {
        let place = place_of_ticket(&self.tickets, transfer);
        assert!(rt; place < self.tickets.len());
        self.tickets.remove(place)
    }
}

// Abandons the leases.
fn abandon_all(pool: &mut Pool<()>, leases: Vec<Lease<()>>, now: u64)
    requires here { let home = home_of pool.old in
        All (λ lease. IsMadeBy home lease.site lease.tables) leases.items }
    ensures stays { home_of pool.new ≡ home_of pool.old }
{
    let mut leases = leases;
    while let Some(lease) = leases.pop() {
        pool.abandon(lease, now);
    }
    leases.destroy_empty();
}

fn withdraw_all(rt: &impl Abort, pool: &mut Pool<()>, tickets: Vec<Ticket>, now: u64)
    requires here { let home = home_of pool.old in
        All (λ ticket. IsMadeBy home ticket.site ticket.tables) tickets.items }
{
    let mut tickets = tickets;
    while let Some(ticket) = tickets.pop() {
        withdraw(rt, pool, ticket, now);
    }
    tickets.destroy_empty();
}

// Withdraws a ticket that has to be known.
fn withdraw(rt: &impl Abort, pool: &mut Pool<()>, ticket: Ticket, now: u64)
    requires here { IsMadeBy (home_of pool.old) ticket.site ticket.tables }
    ensures stays { home_of pool.new ≡ home_of pool.old }
{
    if let Err(stray) = pool.withdraw(ticket, now) {
        stray.scrap();
        panic!(rt; "the ticket is a stranger");
    }
}

// The place of the transfer's lease; past all where it has none.
fn place_of_lease(leases: &[Lease<()>], transfer: u64) -> usize {
    for place in 0..leases.len() {
        if leases[place].transfer() == transfer {
            return place;
        }
    }
    leases.len()
}

// The same of its ticket.
fn place_of_ticket(tickets: &[Ticket], transfer: u64) -> usize {
    for place in 0..tickets.len() {
        if tickets[place].transfer() == transfer {
            return place;
        }
    }
    tickets.len()
}

// The lease with a stream.
fn with_stream(lease: Lease<()>) -> Lease<()>
    ensures site { result.site ≡ lease.site }
    ensures tables { result.tables ≡ lease.tables }
    ensures stream { IsSome result.stream }
{
    let mut lease = lease;
    if !lease.has_stream() {
        lease.attach(());
    }
    lease
}

/// The host's log has to have these entries, and no other.
pub(crate) fn check_log(rt: &impl Abort, desk: &Desk, site: u32, entries: &[Entry]) {
    check_log_of(rt, &desk.pool, site, entries);
}

/// The same in a pool with streams of any type.
pub(crate) fn check_log_of<S: Drop>(rt: &impl Abort, pool: &Pool<S>, site: u32, entries: &[Entry]) {
    let log = pool.log(site).expect(rt, "a host");
    for place in 0..entries.len() {
        assert_eq!(rt;
            log.get(place),
            Some(entries[place]),
            "entry {place} of host {site}"
        );
    }
    assert_eq!(rt; log.len(), entries.len(), "entries of host {site}");
}
