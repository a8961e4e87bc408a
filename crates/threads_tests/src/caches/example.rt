//! The README's example of a cache that threads share.

ghost use Rattle.std.specs.Prelude.{◌≡◌};
ghost use Rattle.shared_cache.specs.Passes.{IsPassOf};

use crate::caches::thread_desk::KEEP;
use budget::{Limits, Pass, Refusal};
use bundle::{Acquired, Bundle, Did};
use conn_log::Want;
use shared_cache::{Names, Plan, SharedCache};
use std::alloc::Global;
use std::marker::Brand;
use std::sync::Wait;
use std::test::Fail;

/// What a connection's stream would be.
#[derive(Drop)]
struct Stream;

/// One request to host 0. Any number of threads may make one at once, each with a pass of its own.
fn fetch<N: Names, R: Wait>(
    rt: &R,
    cache: &SharedCache<Stream, N>,
    transfer: u64,
    pass: &mut Pass<Did>,
) -> Result<(), Refusal>
    requires { IsPassOf N.names pass.old }
    ensures { IsPassOf N.names pass.new }
{
    let want = Want {
        transfer,
        lane: 0,
        max_age: 118,
        max_life: 0,
        fresh: false,
        forbid_reuse: false,
    };
    match cache.acquire(rt, 0, want, 0, pass)? {
        Acquired::Lease(mut lease) => {
            if !lease.has_stream() {
                lease.attach(Stream);
            }
            // Here the request is sent over the lease's stream, and the response read.
            cache.give_back(rt, lease, KEEP, 1, pass);
        }
        Acquired::Wait(ticket) => {
            if let Err(stray) = cache.withdraw(rt, ticket, 1, pass) {
                stray.scrap();
            }
        }
    }
    Ok(())
}

/// Code that uses a cache is a function over its names, and asks for a plan of these names.
fn fetch_twice<N: Names, R: Wait>(rt: &R, alloc: Global, plan: Plan<Stream>) -> Result<u32, Refusal>
    requires { plan ≡ N.names }
{
    let cache: SharedCache<Stream, N> = match SharedCache::new(alloc, plan) {
        Ok(cache) => cache,
        Err((_plan, refusal)) => return Err(refusal),
    };
    let mut pass = cache.pass(rt, alloc)?;
    for transfer in 1..=2 {
        let _ = fetch(rt, &cache, transfer, &mut pass);
    }
    cache.discard(pass);
    cache.inspect(rt, 0, |bundle: &Bundle<Stream>| bundle.look().idle)
}

#[test]
fn the_second_request_over_a_shared_cache_reuses_the_connection(
    rt: HostRuntime,
) -> Result<(), Fail> {
    let plan = Plan::new(rt.alloc(), Limits::new(6, 20, 4)?, 2)?;
    let idle = fetch_twice::<Brand, HostRuntime>(&rt, rt.alloc(), plan)?;
    assert_eq!(rt; idle, 1);
    Ok(())
}
