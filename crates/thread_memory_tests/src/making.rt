//! Plans, caches, passes and accounts. A call that is out of memory comes again: what it was handed
//! comes back as it was.

ghost use Rattle.std.specs.Prelude.{◌≡◌, ◌++◌, ◌∷◌, []};
ghost use Rattle.std.specs.List.{All};
ghost use Rattle.shared_cache.specs.Passes.{IsPassOf};

use crate::checks::check_eq;
use budget::{Limits, Pass, Refusal};
use bundle::Did;
use conn_log::Want;
use persistence::{Facts, Framing, Version};
use shared_cache::{Gathered, Names, Plan, SharedCache};
use std::alloc::Global;
use std::process::Abort;
use std::sync::Wait;

/// The facts of a counted response that lets its connection persist.
pub(crate) const KEEP: Facts = Facts {
    version: Version::V11,
    close: false,
    keep_alive: false,
    request_close: false,
    framing: Framing::Counted,
    both_lengths: false,
    upgraded: false,
    whole: true,
    surplus: false,
};

/// Any connection of lane 0 will do for that transfer.
pub(crate) fn want_of(transfer: u64) -> Want {
    Want::of(transfer)
}

/// A plan for `hosts` hosts, under the limits of a host, of the total, and of those kept; 0 is
/// none.
pub(crate) fn new_plan<S: Drop>(
    rt: &impl Abort,
    alloc: Global,
    limits: (u32, u32, u32),
    hosts: u32,
) -> Plan<S> {
    let (host, total, connects) = limits;
    let limits = Limits::new(host, total, connects).expect(rt, "limits");
    match Plan::new(alloc, limits, hosts) {
        Ok(plan) => plan,
        Err(refusal) => {
            check_eq(rt, refusal, Refusal::Memory);
            Plan::new(alloc, limits, hosts).expect(rt, "a plan")
        }
    }
}

/// The cache of that plan.
pub(crate) fn new_cache<S: Drop, N: Names>(
    rt: &impl Abort,
    alloc: Global,
    plan: Plan<S>,
) -> SharedCache<S, N>
    requires { plan ≡ N.names }
{
    match SharedCache::new(alloc, plan) {
        Ok(cache) => cache,
        Err((plan, refusal)) => {
            check_eq(rt, refusal, Refusal::Memory);
            match SharedCache::new(alloc, plan) {
                Ok(cache) => cache,
                Err((_plan, refusal)) => panic!(rt; "no cache: {refusal}"),
            }
        }
    }
}

/// A pass of the cache.
pub(crate) fn new_pass<S: Drop, N: Names>(
    rt: &(impl Wait + Abort),
    alloc: Global,
    cache: &SharedCache<S, N>,
) -> Pass<Did>
    ensures { IsPassOf N.names result }
{
    match cache.pass(rt, alloc) {
        Ok(pass) => pass,
        Err(refusal) => {
            check_eq(rt, refusal, Refusal::Memory);
            match cache.pass(rt, alloc) {
                Ok(pass) => pass,
                Err(refusal) => panic!(rt; "no pass: {refusal}"),
            }
        }
    }
}

/// The account of the cache with all its passes.
pub(crate) fn gathered_with<S: Drop, N: Names>(
    rt: &impl Abort,
    alloc: Global,
    cache: SharedCache<S, N>,
    passes: Vec<Pass<Did>>,
) -> Gathered<S>
    requires { All (IsPassOf N.names) passes.items }
{
    match cache.gather(alloc, passes) {
        Ok(gathered) => gathered,
        Err((cache, passes, refusal)) => {
            check_eq(rt, refusal, Refusal::Memory);
            match cache.gather(alloc, passes) {
                Ok(gathered) => gathered,
                Err((_cache, _passes, refusal)) => panic!(rt; "not gathered: {refusal}"),
            }
        }
    }
}

/// Puts one more pass by.
pub(crate) fn put_by<N: Names>(rt: &impl Abort, passes: &mut Vec<Pass<Did>>, pass: Pass<Did>)
    requires pass { IsPassOf N.names pass }
    requires passes { All (IsPassOf N.names) passes.old.items }
    ensures { All (IsPassOf N.names) passes.new.items }
{
    push(rt, passes, pass);
}

/// Keeps one more.
pub(crate) fn push<T>(rt: &impl Abort, list: &mut Vec<T>, item: T)
    ensures { list.new.items ≡ list.old.items ++ item ∷ [] }
{
    if let Err(failed) = list.push(item) {
        if let Err(_failed) = list.push(failed.value) {
            panic!(rt; "out of memory");
        }
    }
}
