//! A pool used as a cache of which nothing more is known.

ghost use Rattle.std.specs.Prelude.{◌≡◌, is_some};
ghost use Rattle.cache_trait.specs.Homes.{IsMadeBy};

use crate::checks::check_eq;
use crate::desk::{KEEP, check_log_of, closed, opened, returned, want_of};
use budget::Limits;
use bundle::{Acquired, Claimed, Lease, Ticket};
use cache::Pool;
use cache_trait::Cache;
use conn_log::{Cause, Entry, Event};
use std::process::Abort;

// The lease that the transfer is given at the first site.
fn lease_for<C: Cache<u32>>(rt: &impl Abort, cache: &mut C, transfer: u64, now: u64) -> Lease<u32>
    ensures here { IsMadeBy (C.home cache.new) result.site result.tables }
    ensures stream { is_some result.stream ≡ result.start.reused }
{
    match cache.acquire(0, want_of(transfer), now) {
        Ok(Acquired::Lease(lease)) => lease,
        Ok(Acquired::Wait(_ticket)) => panic!(rt; "transfer {transfer} waits"),
        Err(_) => panic!(rt; "transfer {transfer} is refused"),
    }
}

// The ticket with which it waits there.
fn ticket_for<C: Cache<u32>>(rt: &impl Abort, cache: &mut C, transfer: u64, now: u64) -> Ticket
    ensures here { IsMadeBy (C.home cache.new) result.site result.tables }
    ensures stays { C.home cache.new ≡ C.home cache.old }
{
    match cache.acquire(0, want_of(transfer), now) {
        Ok(Acquired::Wait(ticket)) => ticket,
        Ok(Acquired::Lease(_lease)) => panic!(rt; "transfer {transfer} waits not"),
        Err(_) => panic!(rt; "transfer {transfer} is refused"),
    }
}

// The ticket, for which nothing was granted yet.
fn still<C: Cache<u32>>(rt: &impl Abort, cache: &mut C, ticket: Ticket) -> Ticket
    requires here { IsMadeBy (C.home cache.old) ticket.site ticket.tables }
    ensures here { IsMadeBy (C.home cache.new) result.site result.tables }
    ensures stays { C.home cache.new ≡ C.home cache.old }
{
    match cache.claim(ticket) {
        Ok(Claimed::Still(ticket)) => ticket,
        Ok(Claimed::Lease(_lease)) => panic!(rt; "a lease was granted"),
        Err(_stray) => panic!(rt; "the ticket is a stranger"),
    }
}

// The lease that was granted for the ticket.
fn granted<C: Cache<u32>>(rt: &impl Abort, cache: &mut C, ticket: Ticket) -> Lease<u32>
    requires here { IsMadeBy (C.home cache.old) ticket.site ticket.tables }
    ensures here { IsMadeBy (C.home cache.new) result.site result.tables }
    ensures stream { is_some result.stream ≡ result.start.reused }
{
    match cache.claim(ticket) {
        Ok(Claimed::Lease(lease)) => lease,
        Ok(Claimed::Still(_ticket)) => panic!(rt; "nothing was granted"),
        Err(_stray) => panic!(rt; "the ticket is a stranger"),
    }
}

// Gives the lease back with that stream, which it may not have yet.
fn give_back<C: Cache<u32>>(
    rt: &impl Abort,
    cache: &mut C,
    lease: Lease<u32>,
    stream: u32,
    now: u64,
)
    requires here { IsMadeBy (C.home cache.old) lease.site lease.tables }
{
    let mut lease = lease;
    if !lease.has_stream() {
        lease.attach(stream);
    }
    if let Err(_stray) = cache.give_back(lease, KEEP, now) {
        panic!(rt; "the lease is a stranger");
    }
}

// Two transfers use the host's one connection in turn. Meanwhile two more wait: one gives up, and
// the other is granted the connection that is opened once the first is closed.
fn share_one_connection<C: Cache<u32>>(rt: &impl Abort, cache: &mut C) {
    let lease = lease_for(rt, cache, 1, 0);
    check_eq(rt, (lease.number(), lease.reused()), (1, false));
    give_back(rt, cache, lease, 7, 1);
    let lease = lease_for(rt, cache, 2, 2);
    check_eq(
        rt,
        (lease.number(), lease.reused(), lease.has_stream()),
        (1, true, true),
    );
    let ticket = ticket_for(rt, cache, 3, 3);
    let last = ticket_for(rt, cache, 4, 4);
    let ticket = still(rt, cache, ticket);
    if let Err(_stray) = cache.withdraw(last, 5) {
        panic!(rt; "the ticket is a stranger");
    }
    if let Err(_stray) = cache.abandon(lease, 6) {
        panic!(rt; "the lease is a stranger");
    }
    let lease = granted(rt, cache, ticket);
    check_eq(
        rt,
        (lease.number(), lease.reused(), lease.has_stream()),
        (2, false, false),
    );
    give_back(rt, cache, lease, 8, 7);
}

fn entry(moment: u64, event: Event) -> Entry {
    Entry { moment, event }
}

#[test]
fn a_pool_is_a_cache(rt: HostRuntime) {
    let mut pool: Pool<u32> = Pool::new(
        rt.alloc(),
        Limits::new(1, 0, 4).expect(&rt, "memory"),
        1,
    ).expect(&rt, "memory");
    share_one_connection(&rt, &mut pool);
    let reuse = Event::Leased {
        connection: 1,
        want: want_of(2),
    };
    check_log_of(
        &rt,
        &pool,
        0,
        &[
            opened(1, want_of(1), 0),
            returned(1, 1),
            entry(2, reuse),
            entry(3, Event::Waited { want: want_of(3) }),
            entry(4, Event::Waited { want: want_of(4) }),
            entry(5, Event::Left { transfer: 4 }),
            closed(1, Cause::Dropped, 6),
            opened(2, want_of(3), 6),
            returned(2, 7),
        ],
    );
}
