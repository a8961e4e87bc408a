//! What calls of a pool cost: valgrind's callgrind counts the instructions of each second call of
//! `uses_often` and of `opens_often`, in the order of the tables (docs/measurements.md).

ghost use Rattle.std.specs.Prelude.{◌≡◌, IsSome};
ghost use Rattle.cache_trait.specs.Homes.{IsMadeBy};
ghost use Rattle.cache.specs.PoolCalls.{home_of};

use crate::checks::check_eq;
use crate::desk::{KEEP, want_of};
use budget::{GREATEST_LIMIT, Limits, Refusal};
use bundle::{Acquired, Lease, Ticket};
use cache::Pool;
use conn_log::Want;
use std::alloc::Global;

/// How many hosts there are, and how many idle connections each of them has.
const WARM: [(u32, u64); 6] = [(1, 1), (1, 100), (8, 1), (8, 100), (1_024, 1), (1_024, 60)];

/// How many hosts there are, with one idle connection each, in a pool that may have no more.
const FULL: [u32; 3] = [8, 128, 1_024];

/// How often each is done before it is counted, and how often then: the logs of the warm hosts
/// double before, and not while it is counted.
const BEFORE: u64 = 20_000;

const ROUNDS: u64 = 10_000;

/// The lease with a stream.
fn with_stream(lease: Lease<()>) -> Lease<()>
    ensures site { result.site ≡ lease.site }
    ensures tables { result.tables ≡ lease.tables }
    ensures stream { IsSome result.stream }
{
    let mut lease = lease;
    if !lease.has_stream() {
        lease.attach(());
    }
    lease
}

/// Withdraws a ticket. Inlined, so that the room for what it moves is cleared here, and not before
/// each acquire.
#[inline(always)]
fn leave(pool: &mut Pool<()>, ticket: Ticket, now: u64)
    requires { IsMadeBy (home_of pool.old) ticket.site ticket.tables }
{
    if let Err(stray) = pool.withdraw(ticket, now) {
        stray.scrap();
    }
}

/// Acquires a connection at the site and gives it back; whether there was one.
#[inline(always)]
fn is_used(pool: &mut Pool<()>, site: u32, want: Want, now: u64) -> bool {
    match pool.acquire(site, want, now) {
        Ok(Acquired::Lease(lease)) => {
            pool.give_back(with_stream(lease), KEEP, now);
            true
        }
        Ok(Acquired::Wait(ticket)) => {
            leave(pool, ticket, now);
            false
        }
        Err(_) => false,
    }
}

/// Does so at one site in each of these rounds, each for a transfer of its own, to which no
/// connection is too old; how often there was one. Site and age are known only when it runs.
#[inline(never)]
fn uses_often(pool: &mut Pool<()>, site: u32, first: u64, end: u64) -> u64 {
    let mut used = 0;
    for round in first..end {
        let want = Want {
            max_age: end,
            ..want_of(round)
        };
        if is_used(pool, site, want, round) {
            used += 1;
        }
    }
    used
}

/// The same at so many sites in turn, where each transfer must have a new connection.
#[inline(never)]
fn opens_often(pool: &mut Pool<()>, sites: u32, first: u64, end: u64) -> u64 {
    let (mut used, mut site) = (0, 0);
    for round in first..end {
        if is_used(pool, site, new_one(round), round) {
            used += 1;
        }
        site = if site + 1 < sites { site + 1 } else { 0 };
    }
    used
}

/// Opens a connection at each of the sites, which is idle then; how many.
#[inline(never)]
fn opens_each(pool: &mut Pool<()>, sites: u32, want: Want) -> u64 {
    let mut used = 0;
    for site in 0..sites {
        if is_used(pool, site, want, 0) {
            used += 1;
        }
    }
    used
}

/// A pool of so many hosts, in each of which so many connections are idle.
fn warm(alloc: Global, hosts: u32, idle: u64, total: u32) -> Result<Pool<()>, Refusal> {
    let Ok(limits) = Limits::new(0, total, GREATEST_LIMIT) else {
        return Err(Refusal::BadLimit);
    };
    let mut pool = Pool::new(alloc, limits, hosts)?;
    for _ in 0..idle {
        opens_each(&mut pool, hosts, new_one(1));
    }
    Ok(pool)
}

/// What a transfer wants that must have a new connection.
fn new_one(transfer: u64) -> Want {
    Want {
        fresh: true,
        ..want_of(transfer)
    }
}

#[test]
fn a_warm_connection_is_used_often(rt: HostRuntime) {
    for &(hosts, idle) in &WARM {
        let mut pool = warm(rt.alloc(), hosts, idle, 0).expect(&rt, "memory");
        check_eq(&rt, uses_often(&mut pool, hosts / 2, 0, BEFORE), BEFORE);
        let used = uses_often(&mut pool, hosts / 2, BEFORE, BEFORE + ROUNDS);
        check_eq(&rt, used, ROUNDS);
    }
}

#[test]
fn the_oldest_of_all_is_closed_often(rt: HostRuntime) {
    for &hosts in &FULL {
        let mut pool = warm(rt.alloc(), hosts, 1, hosts).expect(&rt, "memory");
        check_eq(&rt, opens_often(&mut pool, hosts, 0, BEFORE), BEFORE);
        let used = opens_often(&mut pool, hosts, BEFORE, BEFORE + ROUNDS);
        check_eq(&rt, used, ROUNDS);
    }
}
