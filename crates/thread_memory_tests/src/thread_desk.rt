//! A desk for calls of a shared cache: one thread's pass with the leases and tickets of its
//! transfers, and what its calls are answered.

ghost use Rattle.std.specs.Prelude.{◌≡◌, IsSome};
ghost use Rattle.shared_cache.specs.Calls.{IsMadeBy, IsTicketOf};
ghost use Rattle.shared_cache.specs.Passes.{IsPassOf};

use crate::checks::check_eq;
use crate::making::{KEEP, new_pass, push};
use budget::{Pass, Refusal};
use bundle::{Acquired, Bundle, Claimed, Did, Lease, Snapshot, Ticket};
use conn_log::{Cause, Entry, Event, Want};
use shared_cache::{Names, SharedCache};
use std::alloc::Global;
use std::marker::{Model, PhantomData};
use std::process::Abort;
use std::sync::Wait;

/// The stream of a connection, by the site and the number of its connection.
#[derive(Clone, Copy, Debug, PartialEq, Eq)]
pub(crate) struct Stream {
    site: u32,
    number: u32,
}

/// The answer of a call.
#[derive(Clone, Copy, Debug, PartialEq, Eq)]
pub(crate) enum Said {
    /// A lease of a new connection: its number and moment.
    Opened(u32, u64),
    /// A lease of a connection that comes with its stream.
    Reused(u32, u64),
    Waits,
    Still,
    Stranger,
    Refused(Refusal),
    Done,
    /// The transfer has left the queue.
    Left,
    /// The granted connection was closed: its number.
    Withdrawn(u32),
    /// Number of connections that were closed as too old.
    Number(u32),
    /// Numbers of open, idle and leased connections, number of waiters, and true if the host is
    /// queued.
    Look(u32, u32, u32, u32, bool),
    /// The last answer that the pass remembers, the number of answers, and that of leases spent.
    Told(Option<Did>, u64, u64),
}

/// One thread's pass, with the leases and tickets that its transfers have; a transfer has one at
/// most. Each lease and each ticket was made by the cache of those names.
pub(crate) struct Desk<N: Names> {
    pass: Pass<Did>,
    leases: Vec<Lease<Stream>>,
    tickets: Vec<Ticket>,
    of: PhantomData<N>,
}

impl<N: Names> Model for Desk<N> {
    ghost use Rattle.std.specs.List.{All};
    ghost use Rattle.shared_cache.specs.Calls.{IsMadeBy, IsTicketOf};
    ghost use Rattle.shared_cache.specs.Passes.{IsPassOf};

    ghost Value = { Unit {0} };

    ghost view = { λ desk. tt };

    ghost invariant = { λ desk. record {
      pass : IsPassOf N.names desk.pass;
      made : All (IsMadeBy N.names) desk.leases.items;
      waiting : All (IsTicketOf N.names) desk.tickets.items;
    } };
}

impl<N: Names> Desk<N> {
    /// A desk without leases and tickets, with a new pass.
    pub fn new(rt: &(impl Wait + Abort), alloc: Global, cache: &SharedCache<Stream, N>) -> Self {
        Desk {
            pass: new_pass(rt, alloc, cache),
            leases: Vec::new(alloc),
            tickets: Vec::new(alloc),
            of: PhantomData,
        }
    }

    /// The same, with room for `room` leases and tickets, if there is memory for it.
    pub fn with_room(
        rt: &impl Wait,
        alloc: Global,
        cache: &SharedCache<Stream, N>,
        room: usize,
    ) -> Result<Self, Refusal> {
        let leases = Vec::with_capacity(alloc, room)?;
        let Ok(tickets) = Vec::with_capacity(alloc, room) else {
            leases.destroy_empty();
            return Err(Refusal::Memory);
        };
        match cache.pass(rt, alloc) {
            Ok(pass) => Ok(Desk {
                pass,
                leases,
                tickets,
                of: PhantomData,
            }),
            Err(refusal) => {
                leases.destroy_empty();
                tickets.destroy_empty();
                Err(refusal)
            }
        }
    }

    /// Acquires a connection; the lease or the ticket stays at the desk.
    pub fn acquire(
        &mut self,
        rt: &(impl Wait + Abort),
        cache: &SharedCache<Stream, N>,
        site: u32,
        want: Want,
        now: u64,
    ) -> Said {
        match cache.acquire(rt, site, want, now, &mut self.pass) {
            Ok(Acquired::Lease(lease)) => self.keep(rt, lease, site, want),
            Ok(Acquired::Wait(ticket)) => {
                let found = (ticket.site(), ticket.want());
                check_eq(rt, found, (site, want));
                self.keep_ticket(rt, ticket);
                Said::Waits
            }
            Err(refusal) => Said::Refused(refusal),
        }
    }

    /// Claims the transfer's lease.
    pub fn claim(
        &mut self,
        rt: &(impl Wait + Abort),
        cache: &SharedCache<Stream, N>,
        transfer: u64,
    ) -> Said {
        let ticket = self.take_ticket(rt, transfer);
        let (site, want) = (ticket.site(), ticket.want());
        match cache.claim(rt, ticket, &mut self.pass) {
            Ok(Claimed::Lease(lease)) => self.keep(rt, lease, site, want),
            Ok(Claimed::Still(ticket)) => {
                self.keep_ticket(rt, ticket);
                Said::Still
            }
            Err(stray) => {
                self.keep_ticket(rt, stray.keep());
                Said::Stranger
            }
        }
    }

    /// Withdraws the transfer's ticket. A stranger is let go.
    pub fn leave(
        &mut self,
        rt: &(impl Wait + Abort),
        cache: &SharedCache<Stream, N>,
        transfer: u64,
        now: u64,
    ) -> Said {
        let ticket = self.take_ticket(rt, transfer);
        let site = ticket.site();
        match cache.withdraw(rt, ticket, now, &mut self.pass) {
            Ok(()) => left_said(rt, self.last(rt, site)),
            Err(stray) => {
                stray.scrap();
                Said::Stranger
            }
        }
    }

    /// Gives back the transfer's lease.
    pub fn back(
        &mut self,
        rt: &(impl Wait + Abort),
        cache: &SharedCache<Stream, N>,
        transfer: u64,
        now: u64,
    ) {
        let lease = self.take(rt, transfer);
        assert!(rt; lease.has_stream(), "a lease without a stream");
        cache.give_back(rt, lease, KEEP, now, &mut self.pass);
    }

    /// Abandons the transfer's lease.
    pub fn abandon(
        &mut self,
        rt: &(impl Wait + Abort),
        cache: &SharedCache<Stream, N>,
        transfer: u64,
        now: u64,
    ) {
        let lease = self.take(rt, transfer);
        cache.abandon(rt, lease, now, &mut self.pass);
    }

    /// Changes the host's limit.
    pub fn limit(
        &mut self,
        rt: &impl Wait,
        cache: &SharedCache<Stream, N>,
        site: u32,
        limit: u32,
        now: u64,
    ) -> Said {
        match cache.set_host_limit(rt, site, limit, now, &mut self.pass) {
            Ok(()) => Said::Done,
            Err(refusal) => Said::Refused(refusal),
        }
    }

    /// Closes idle connections that are too old, at all hosts.
    pub fn prune(
        &mut self,
        rt: &impl Wait,
        cache: &SharedCache<Stream, N>,
        now: u64,
        max_age: u64,
        max_life: u64,
    ) -> Said {
        Said::Number(cache.prune(rt, now, max_age, max_life, &mut self.pass))
    }

    /// Returns what the pass remembers of that host.
    pub fn told(&self, rt: &impl Abort, site: u32) -> Said {
        let host = site as usize;
        assert!(rt; host < self.pass.hosts(), "no site {site}");
        let pass = &self.pass;
        Said::Told(pass.last(host), pass.calls(host), pass.spent(host))
    }

    // Keeps a ticket.
    fn keep_ticket(&mut self, rt: &impl Abort, ticket: Ticket)
        requires { IsTicketOf N.names ticket }
    {
        push(rt, &mut self.tickets, ticket);
    }

    // Takes the transfer's ticket away.
    fn take_ticket(&mut self, rt: &impl Abort, transfer: u64) -> Ticket
        ensures { IsTicketOf N.names result }
    {
        let place = place_of_ticket(&self.tickets, transfer);
        assert!(rt; place < self.tickets.len(), "no ticket of {transfer}");
        self.tickets.remove(place)
    }

    /// Ends it; all leases and tickets have to be spent.
    pub fn close(self, rt: &impl Abort) -> Pass<Did>
        ensures { IsPassOf N.names result }
    {
        let Desk {
            pass,
            leases,
            tickets,
            of: _,
        } = self;
        assert!(rt; leases.is_empty() && tickets.is_empty(), "not all is spent");
        leases.destroy_empty();
        tickets.destroy_empty();
        pass
    }

    // Keeps a lease, which has to be of the site and for that want, with a stream.
    fn keep(&mut self, rt: &impl Abort, lease: Lease<Stream>, site: u32, want: Want) -> Said
        requires { IsMadeBy N.names lease }
    {
        let mut lease = lease;
        check_eq(rt, (lease.site(), lease.want()), (site, want));
        let said = lease_said(rt, &mut lease);
        attach_new(&mut lease);
        push(rt, &mut self.leases, lease);
        said
    }

    // The transfer's lease.
    fn take(&mut self, rt: &impl Abort, transfer: u64) -> Lease<Stream>
        ensures { IsMadeBy N.names result }
    {
        let place = place_of_lease(&self.leases, transfer);
        assert!(rt; place < self.leases.len(), "no lease of {transfer}");
        self.leases.remove(place)
    }

    // What the pass was told last of that host.
    fn last(&self, rt: &impl Abort, site: u32) -> Option<Did> {
        let host = site as usize;
        assert!(rt; host < self.pass.hosts(), "no site {site}");
        self.pass.last(host)
    }
}

/// What is to be seen of that host.
pub(crate) fn look_said<N: Names>(
    rt: &impl Wait,
    cache: &SharedCache<Stream, N>,
    site: u32,
) -> Said {
    match cache.inspect(rt, site, |bundle: &Bundle<Stream>| bundle.look()) {
        Ok(seen) => seen_said(seen),
        Err(refusal) => Said::Refused(refusal),
    }
}

fn seen_said(seen: Snapshot) -> Said {
    let Snapshot {
        alive,
        idle,
        leased,
        waiting,
        queued,
    } = seen;
    Said::Look(alive, idle, leased, waiting, queued)
}

// What a withdrawn ticket came to, as the pass was told.
fn left_said(rt: &impl Abort, last: Option<Did>) -> Said {
    match last {
        Some(
            Did::Wrote(
                Entry {
                    moment: _,
                    event: Event::Left { transfer: _ },
                },
            ),
        ) => Said::Left,
        Some(
            Did::Wrote(
                Entry {
                    moment: _,
                    event: Event::Closed {
                        connection,
                        cause: Cause::Withdrawn,
                    },
                },
            ),
        ) => Said::Withdrawn(connection),
        _other => panic!(rt; "the pass was not told how the ticket ended"),
    }
}

// What a lease tells: a new connection has no stream, and another one its own.
fn lease_said(rt: &impl Abort, lease: &mut Lease<Stream>) -> Said
    ensures same { lease.new ≡ lease.old }
{
    let (site, number, moment) = (lease.site(), lease.number(), lease.moment());
    if lease.reused() {
        check_eq(rt, stream_of(lease), Some(Stream { site, number }));
        return Said::Reused(number, moment);
    }
    check_eq(rt, stream_of(lease), None);
    Said::Opened(number, moment)
}

// The stream of a lease that has one.
fn stream_of(lease: &mut Lease<Stream>) -> Option<Stream>
    ensures same { lease.new ≡ lease.old }
    ensures stream { result ≡ lease.old.stream }
{
    match lease.stream_mut() {
        Some(own) => Some(*own),
        None => None,
    }
}

// Gives a new connection its stream.
fn attach_new(lease: &mut Lease<Stream>)
    ensures site { lease.new.site ≡ lease.old.site }
    ensures tables { lease.new.tables ≡ lease.old.tables }
    ensures stream { IsSome lease.new.stream }
{
    if !lease.has_stream() {
        let (site, number) = (lease.site(), lease.number());
        lease.attach(Stream { site, number });
    }
}

// The place of the transfer's lease; past all if it has none.
fn place_of_lease(leases: &[Lease<Stream>], transfer: u64) -> usize {
    for place in 0..leases.len() {
        if leases[place].transfer() == transfer {
            return place;
        }
    }
    leases.len()
}

// The same of its ticket.
fn place_of_ticket(tickets: &[Ticket], transfer: u64) -> usize {
    for place in 0..tickets.len() {
        if tickets[place].transfer() == transfer {
            return place;
        }
    }
    tickets.len()
}
