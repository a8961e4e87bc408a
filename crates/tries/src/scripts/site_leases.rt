//! The leases and tickets of a script's transfers, and the pass with which they call the cache.

ghost use Rattle.std.specs.Prelude.{◌≡◌, IsSome};
ghost use Rattle.shared_cache.specs.Calls.{IsMadeBy, IsTicketOf};
ghost use Rattle.shared_cache.specs.Passes.{IsPassOf};

use budget::{Pass, Refusal};
use bundle::{Acquired, Claimed, Did, Lease, Ticket};
use conn_log::Want;
use persistence::Facts;
use script_text::{FaultKind, claimed, reply, still_waiting};
use shared_cache::{Names, SharedCache};
use std::alloc::Global;
use std::marker::{Model, PhantomData};
use std::sync::Wait;

/// The stream of a connection, which carries nothing.
#[derive(Clone, Copy)]
pub(super) struct NoStream;

/// A lease that the cache that `N` names has made, with its stream.
struct OwnLease<N: Names> {
    lease: Lease<NoStream>,
    of: PhantomData<N>,
}

impl<N: Names> Model for OwnLease<N> {
    ghost use Rattle.std.specs.Prelude.{IsSome};
    ghost use Rattle.shared_cache.specs.Calls.{IsMadeBy};

    ghost Value = { Unit {0} };

    ghost view = { λ own. tt };

    ghost invariant = { λ own. record {
      made : IsMadeBy N.names own.lease;
      stream : IsSome own.lease.stream;
    } };
}

impl<N: Names> OwnLease<N> {
    /// Wraps the lease, with a stream if it has none.
    fn new(lease: Lease<NoStream>) -> Self
        requires { IsMadeBy N.names lease }
    {
        OwnLease {
            lease: with_stream(lease),
            of: PhantomData,
        }
    }

    /// Returns the lease.
    fn into_lease(self) -> Lease<NoStream>
        ensures made { IsMadeBy N.names result }
        ensures stream { IsSome result.stream }
    {
        let OwnLease { lease, of: _ } = self;
        lease
    }

    /// True if it is the transfer's, of that site.
    fn is_of(&self, site: u32, transfer: u64) -> bool {
        self.lease.site() == site && self.lease.transfer() == transfer
    }
}

/// A ticket that the cache that `N` names has made.
struct OwnTicket<N: Names> {
    ticket: Ticket,
    of: PhantomData<N>,
}

impl<N: Names> Model for OwnTicket<N> {
    ghost use Rattle.shared_cache.specs.Calls.{IsTicketOf};

    ghost Value = { Unit {0} };

    ghost view = { λ own. tt };

    ghost invariant = { λ own. IsTicketOf N.names own.ticket };
}

impl<N: Names> OwnTicket<N> {
    /// Wraps the ticket.
    fn new(ticket: Ticket) -> Self
        requires { IsTicketOf N.names ticket }
    {
        OwnTicket {
            ticket,
            of: PhantomData,
        }
    }

    /// Returns the ticket.
    fn into_ticket(self) -> Ticket
        ensures { IsTicketOf N.names result }
    {
        let OwnTicket { ticket, of: _ } = self;
        ticket
    }

    /// True if it is the transfer's, of that site.
    fn is_of(&self, site: u32, transfer: u64) -> bool {
        self.ticket.site() == site && self.ticket.transfer() == transfer
    }
}

/// Returns the lease with a stream.
fn with_stream(lease: Lease<NoStream>) -> Lease<NoStream>
    ensures site { result.site ≡ lease.site }
    ensures tables { result.tables ≡ lease.tables }
    ensures stream { IsSome result.stream }
{
    let mut lease = lease;
    if !lease.has_stream() {
        lease.attach(NoStream);
    }
    lease
}

/// The leases and tickets that the transfers have, and a pass of the cache that `N` names. It must
/// be ended.
pub(super) struct SiteLeases<N: Names> {
    pass: Pass<Did>,
    leases: Vec<OwnLease<N>>,
    tickets: Vec<OwnTicket<N>>,
}

impl<N: Names> Model for SiteLeases<N> {
    ghost use Rattle.shared_cache.specs.Passes.{IsPassOf};

    ghost Value = { Unit {0} };

    ghost view = { λ kept. tt };

    ghost invariant = { λ kept. IsPassOf N.names kept.pass };
}

impl<N: Names> SiteLeases<N> {
    /// Makes an empty one with a new pass. The only refusal is `Memory`.
    pub fn new<R: Wait>(
        rt: &R,
        alloc: Global,
        cache: &SharedCache<NoStream, N>,
    ) -> Result<SiteLeases<N>, Refusal> {
        let pass = cache.pass(rt, alloc)?;
        Ok(SiteLeases {
            pass,
            leases: Vec::new(alloc),
            tickets: Vec::new(alloc),
        })
    }

    /// Acquires a connection of the site for the transfer, or begins its wait.
    pub fn acquire<R: Wait>(
        &mut self,
        rt: &R,
        cache: &SharedCache<NoStream, N>,
        site: u32,
        want: Want,
        now: u64,
    ) -> Result<(), Refusal> {
        match cache.acquire(rt, site, want, now, &mut self.pass) {
            Ok(Acquired::Lease(lease)) => self.keep_lease(rt, cache, lease),
            Ok(Acquired::Wait(ticket)) => self.keep_ticket(rt, cache, ticket),
            Err(refusal) => Err(refusal),
        }
    }

    /// Claims the connection that the transfer waits for, and returns the reply.
    pub fn claim<R: Wait>(
        &mut self,
        rt: &R,
        alloc: Global,
        cache: &SharedCache<NoStream, N>,
        site: u32,
        transfer: u64,
    ) -> Result<String, FaultKind> {
        let Some(own) = self.take_ticket(site, transfer) else {
            return reply(alloc, "stranger");
        };
        match cache.claim(rt, own.into_ticket(), &mut self.pass) {
            Ok(Claimed::Lease(lease)) => {
                let number = lease.number();
                match self.keep_lease(rt, cache, lease) {
                    Ok(()) => claimed(alloc, site, number),
                    Err(_) => Err(FaultKind::Memory),
                }
            }
            Ok(Claimed::Still(ticket)) => match self.keep_ticket(rt, cache, ticket) {
                Ok(()) => still_waiting(alloc),
                Err(_) => Err(FaultKind::Memory),
            },
            Err(stray) => {
                // Each ticket that is kept is the cache's own.
                stray.scrap();
                reply(alloc, "stranger")
            }
        }
    }

    /// Gives the transfer's connection back after a response with these facts. False if it has
    /// none.
    pub fn give_back<R: Wait>(
        &mut self,
        rt: &R,
        cache: &SharedCache<NoStream, N>,
        site: u32,
        transfer: u64,
        facts: Facts,
        now: u64,
    ) -> bool {
        match self.take_lease(site, transfer) {
            Some(own) => {
                cache.give_back(rt, own.into_lease(), facts, now, &mut self.pass);
                true
            }
            None => false,
        }
    }

    /// Abandons the transfer's connection. False if it has none.
    pub fn abandon<R: Wait>(
        &mut self,
        rt: &R,
        cache: &SharedCache<NoStream, N>,
        site: u32,
        transfer: u64,
        now: u64,
    ) -> bool {
        match self.take_lease(site, transfer) {
            Some(own) => {
                cache.abandon(rt, own.into_lease(), now, &mut self.pass);
                true
            }
            None => false,
        }
    }

    /// Withdraws the transfer's ticket. False if it has none.
    pub fn withdraw<R: Wait>(
        &mut self,
        rt: &R,
        cache: &SharedCache<NoStream, N>,
        site: u32,
        transfer: u64,
        now: u64,
    ) -> bool {
        match self.take_ticket(site, transfer) {
            Some(own) => {
                leave(rt, cache, own.into_ticket(), now, &mut self.pass);
                true
            }
            None => false,
        }
    }

    /// Sets the maximum number of connections open to the host.
    pub fn set_host_limit<R: Wait>(
        &mut self,
        rt: &R,
        cache: &SharedCache<NoStream, N>,
        site: u32,
        limit: u32,
        now: u64,
    ) -> Result<(), Refusal> {
        cache.set_host_limit(rt, site, limit, now, &mut self.pass)
    }

    /// Closes, at all hosts, connections that are idle for longer than `max_age`, or open for
    /// longer than `max_life`.
    pub fn prune<R: Wait>(
        &mut self,
        rt: &R,
        cache: &SharedCache<NoStream, N>,
        now: u64,
        max_age: u64,
        max_life: u64,
    ) {
        let _closed = cache.prune(rt, now, max_age, max_life, &mut self.pass);
    }

    /// Abandons the leases that are left, withdraws the tickets, at moment 0, and returns the pass.
    pub fn end<R: Wait>(self, rt: &R, cache: &SharedCache<NoStream, N>) -> Pass<Did>
        ensures { IsPassOf N.names result }
    {
        let SiteLeases {
            pass,
            leases,
            tickets,
        } = self;
        let mut pass = pass;
        abandon_all(rt, cache, leases, &mut pass);
        leave_all(rt, cache, tickets, &mut pass);
        pass
    }

    /// Keeps a lease. If that allocation fails, it is abandoned at moment 0.
    fn keep_lease<R: Wait>(
        &mut self,
        rt: &R,
        cache: &SharedCache<NoStream, N>,
        lease: Lease<NoStream>,
    ) -> Result<(), Refusal>
        requires { IsMadeBy N.names lease }
    {
        match self.leases.push(OwnLease::new(lease)) {
            Ok(()) => Ok(()),
            Err(failed) => {
                cache.abandon(rt, failed.value.into_lease(), 0, &mut self.pass);
                Err(Refusal::Memory)
            }
        }
    }

    /// Keeps a ticket. If that allocation fails, it is withdrawn at moment 0.
    fn keep_ticket<R: Wait>(
        &mut self,
        rt: &R,
        cache: &SharedCache<NoStream, N>,
        ticket: Ticket,
    ) -> Result<(), Refusal>
        requires { IsTicketOf N.names ticket }
    {
        match self.tickets.push(OwnTicket::new(ticket)) {
            Ok(()) => Ok(()),
            Err(failed) => {
                leave(rt, cache, failed.value.into_ticket(), 0, &mut self.pass);
                Err(Refusal::Memory)
            }
        }
    }

    /// Takes the transfer's lease of the site.
    fn take_lease(&mut self, site: u32, transfer: u64) -> Option<OwnLease<N>> {
        let place = place_of_lease(&self.leases, site, transfer);
        if place < self.leases.len() {
            Some(self.leases.remove(place))
        } else {
            None
        }
    }

    /// Takes the transfer's ticket of the site.
    fn take_ticket(&mut self, site: u32, transfer: u64) -> Option<OwnTicket<N>> {
        let place = place_of_ticket(&self.tickets, site, transfer);
        if place < self.tickets.len() {
            Some(self.tickets.remove(place))
        } else {
            None
        }
    }
}

/// Returns the index of the transfer's lease of the site; past all if it has none.
fn place_of_lease<N: Names>(leases: &[OwnLease<N>], site: u32, transfer: u64) -> usize {
    for place in 0..leases.len() {
        if leases[place].is_of(site, transfer) {
            return place;
        }
    }
    leases.len()
}

/// Returns the index of its ticket; past all if it has none.
fn place_of_ticket<N: Names>(tickets: &[OwnTicket<N>], site: u32, transfer: u64) -> usize {
    for place in 0..tickets.len() {
        if tickets[place].is_of(site, transfer) {
            return place;
        }
    }
    tickets.len()
}

/// Abandons leases of the cache's own, at moment 0.
fn abandon_all<N: Names, R: Wait>(
    rt: &R,
    cache: &SharedCache<NoStream, N>,
    leases: Vec<OwnLease<N>>,
    pass: &mut Pass<Did>,
)
    requires { IsPassOf N.names pass.old }
    ensures { IsPassOf N.names pass.new }
{
    let mut leases = leases;
    while let Some(own) = leases.pop() {
        cache.abandon(rt, own.into_lease(), 0, pass);
    }
    leases.destroy_empty();
}

/// Withdraws tickets, at moment 0.
fn leave_all<N: Names, R: Wait>(
    rt: &R,
    cache: &SharedCache<NoStream, N>,
    tickets: Vec<OwnTicket<N>>,
    pass: &mut Pass<Did>,
)
    requires { IsPassOf N.names pass.old }
    ensures { IsPassOf N.names pass.new }
{
    let mut tickets = tickets;
    while let Some(own) = tickets.pop() {
        leave(rt, cache, own.into_ticket(), 0, pass);
    }
    tickets.destroy_empty();
}

/// Withdraws a ticket of the cache's own.
fn leave<N: Names, R: Wait>(
    rt: &R,
    cache: &SharedCache<NoStream, N>,
    ticket: Ticket,
    now: u64,
    pass: &mut Pass<Did>,
)
    requires made { IsTicketOf N.names ticket }
    requires pass { IsPassOf N.names pass.old }
    ensures { IsPassOf N.names pass.new }
{
    if let Err(stray) = cache.withdraw(rt, ticket, now, pass) {
        stray.scrap();
    }
}
