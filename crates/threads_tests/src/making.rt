//! Caches, passes and accounts over any connections, and what transfers want and are answered. A
//! call that is refused memory comes again: what it was handed comes back as it was.

ghost use Rattle.std.specs.Prelude.{◌≡◌, ◌++◌, ◌∷◌, []};
ghost use Rattle.std.specs.List.{All};
ghost use Rattle.shared_cache.specs.Passes.{IsPassOf};

use crate::checks::check_eq;
use budget::{Limits, Pass, Refusal};
use bundle::Did;
use conn_log::Want;
use exchange::Answer;
use persistence::{Facts, Framing, Version};
use shared_cache::{Gathered, Names, Plan, SharedCache};
use std::alloc::AllocGlobal;
use std::process::Abort;
use std::sync::Wait;

/// The facts of a counted response that lets its connection persist.
pub(crate) const KEEP: Facts = Facts {
    version: Version::V11,
    close: false,
    keep_alive: false,
    request_close: false,
    framing: Framing::Counted,
    both_lengths: false,
    upgraded: false,
    whole: true,
    surplus: false,
};

/// A whole response whose body has two bytes, over a new connection.
pub(crate) const ANSWER: Answer = Answer {
    status: 200,
    body_len: 2,
    facts: KEEP,
    reused: false,
    retried: false,
};

/// What transfer 1 wants: a connection of any age, new or used.
pub(crate) const WANT: Want = Want {
    transfer: 1,
    lane: 0,
    max_age: 118,
    max_life: 0,
    fresh: false,
    forbid_reuse: false,
};

/// The same of another transfer.
pub(crate) fn want_of(transfer: u64) -> Want {
    Want { transfer, ..WANT }
}

// A refused call comes again only if memory ran out.
fn check_memory<R: Abort>(rt: &R, refusal: Refusal) {
    check_eq(rt, refusal, Refusal::Memory);
}

/// A plan of so many hosts, with so many connections at most at each and in all; 0 is no limit.
pub(crate) fn plan_of<S: Drop, R: Abort + AllocGlobal>(
    rt: &R,
    most: u32,
    total: u32,
    hosts: u32,
) -> Plan<S> {
    let limits = Limits::new(most, total, 4).expect(rt, "limits");
    match Plan::new(rt.alloc(), limits, hosts) {
        Ok(plan) => plan,
        Err(refusal) => {
            check_memory(rt, refusal);
            Plan::new(rt.alloc(), limits, hosts).expect(rt, "a plan")
        }
    }
}

/// The cache of that plan.
pub(crate) fn cache_of<S: Drop, N: Names, R: Abort + AllocGlobal>(
    rt: &R,
    plan: Plan<S>,
) -> SharedCache<S, N>
    requires { plan ≡ N.names }
{
    match SharedCache::new(rt.alloc(), plan) {
        Ok(cache) => cache,
        Err((plan, refusal)) => {
            check_memory(rt, refusal);
            match SharedCache::new(rt.alloc(), plan) {
                Ok(cache) => cache,
                Err((_plan, refusal)) => panic!(rt; "no cache: {refusal}"),
            }
        }
    }
}

/// A pass of the cache.
pub(crate) fn pass_of<S: Drop, N: Names, R: Wait + Abort + AllocGlobal>(
    rt: &R,
    cache: &SharedCache<S, N>,
) -> Pass<Did>
    ensures { IsPassOf N.names result }
{
    match cache.pass(rt, rt.alloc()) {
        Ok(pass) => pass,
        Err(refusal) => {
            check_memory(rt, refusal);
            cache.pass(rt, rt.alloc()).expect(rt, "a pass")
        }
    }
}

/// The account of the cache with all its passes.
pub(crate) fn gathered_with<S: Drop, N: Names, R: Abort + AllocGlobal>(
    rt: &R,
    cache: SharedCache<S, N>,
    passes: Vec<Pass<Did>>,
) -> Gathered<S>
    requires { All (IsPassOf N.names) passes.items }
{
    match cache.gather(rt.alloc(), passes) {
        Ok(gathered) => gathered,
        Err((cache, passes, refusal)) => {
            check_memory(rt, refusal);
            match cache.gather(rt.alloc(), passes) {
                Ok(gathered) => gathered,
                Err((_cache, _passes, refusal)) => panic!(rt; "not gathered: {refusal}"),
            }
        }
    }
}

/// Keeps one more.
pub(crate) fn push<T>(rt: &impl Abort, list: &mut Vec<T>, item: T)
    ensures { list.new.items ≡ list.old.items ++ item ∷ [] }
{
    if let Err(failed) = list.push(item) {
        if let Err(_failed) = list.push(failed.value) {
            panic!(rt; "out of memory");
        }
    }
}
