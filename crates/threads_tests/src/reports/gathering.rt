//! The report of a shared cache that was gathered.

ghost use Rattle.std.specs.Prelude.{◌≡◌};
ghost use Rattle.shared_cache.specs.Passes.{IsPassOf};

use crate::checks::check_eq;
use crate::making::{KEEP, cache_of, gathered_with, pass_of, plan_of, want_of};
use crate::reports::rows::{NEW, REUSED};
use budget::Pass;
use bundle::{Acquired, Did};
use load_report::report;
use shared_cache::{Gathered, Names, Plan, SharedCache};
use std::alloc::AllocGlobal;
use std::marker::Brand;
use std::process::Abort;
use std::sync::Wait;

/// What a connection's stream would be.
#[derive(Drop)]
struct Stream;

/// One transfer to host 0, whose connection may be used again.
fn fetch<N: Names, R: Wait + Abort>(
    rt: &R,
    cache: &SharedCache<Stream, N>,
    transfer: u64,
    pass: &mut Pass<Did>,
)
    requires { IsPassOf N.names pass.old }
    ensures { IsPassOf N.names pass.new }
{
    match cache.acquire(rt, 0, want_of(transfer), 0, pass) {
        Ok(Acquired::Lease(mut lease)) => {
            if !lease.has_stream() {
                lease.attach(Stream);
            }
            cache.give_back(rt, lease, KEEP, 0, pass);
        }
        Ok(Acquired::Wait(_ticket)) => panic!(rt; "it waits"),
        Err(refusal) => panic!(rt; "refused: {refusal}"),
    }
}

/// A cache after two transfers, gathered.
fn gathered_after_two<N: Names, R: Wait + Abort + AllocGlobal>(
    rt: &R,
    plan: Plan<Stream>,
) -> Gathered<Stream>
    requires { plan ≡ N.names }
{
    let cache = cache_of::<Stream, N, R>(rt, plan);
    let mut pass = pass_of(rt, &cache);
    for transfer in 1..=2 {
        fetch(rt, &cache, transfer, &mut pass);
    }
    let mut passes = Vec::with_capacity(rt.alloc(), 1).expect(rt, "memory");
    passes.push_reserved(pass);
    gathered_with(rt, cache, passes)
}

#[test]
fn the_report_of_a_gathered_cache(rt: HostRuntime) {
    let plan = plan_of(&rt, 6, 20, 2);
    let gathered = gathered_after_two::<Brand, HostRuntime>(&rt, plan);
    let text = report(rt.alloc(), &gathered, &[NEW, REUSED]).expect(&rt, "memory");
    check_eq(
        &rt,
        text.as_str(),
        "host       0       1       1       0       0       1\n\
        host       1       0       0       0       0       0\n\
        all        2       1       1       0       0       1\n\
        jobs       2       0       1       0       4\n",
    );
}
