//! Plans, caches and passes, as tests make them. Where memory runs out the call comes again: what
//! it was handed comes back as it was.

ghost use Rattle.std.specs.Prelude.{◌≡◌, ◌++◌, ◌∷◌, []};
ghost use Rattle.shared_cache.specs.Passes.{IsPassOf};

use crate::caches::thread_desk::Stream;
use crate::checks::check_eq;
use budget::{Limits, Pass, Refusal};
use bundle::Did;
use shared_cache::{Names, Plan, SharedCache};
use std::alloc::Global;
use std::process::Abort;
use std::sync::Wait;

/// A plan for so many hosts, under limits of a host, of the total, and of those kept; 0 is none.
pub(crate) fn new_plan(
    rt: &impl Abort,
    alloc: Global,
    limits: (u32, u32, u32),
    hosts: u32,
) -> Plan<Stream> {
    let (host, total, connects) = limits;
    let limits = Limits::new(host, total, connects).expect(rt, "limits");
    let made: Result<Plan<Stream>, Refusal> = Plan::new(alloc, limits, hosts);
    match made {
        Ok(plan) => plan,
        Err(refusal) => {
            check_eq(rt, refusal, Refusal::Memory);
            Plan::new(alloc, limits, hosts).expect(rt, "a plan")
        }
    }
}

/// The cache of that plan.
pub(crate) fn new_cache<N: Names>(
    rt: &impl Abort,
    alloc: Global,
    plan: Plan<Stream>,
) -> SharedCache<Stream, N>
    requires { plan ≡ N.names }
{
    match SharedCache::new(alloc, plan) {
        Ok(cache) => cache,
        Err((plan, refusal)) => {
            check_eq(rt, refusal, Refusal::Memory);
            match SharedCache::new(alloc, plan) {
                Ok(cache) => cache,
                Err((_plan, refusal)) => panic!(rt; "no cache: {refusal}"),
            }
        }
    }
}

/// A pass of the cache.
pub(crate) fn new_pass<N: Names>(
    rt: &(impl Wait + Abort),
    alloc: Global,
    cache: &SharedCache<Stream, N>,
) -> Pass<Did>
    ensures { IsPassOf N.names result }
{
    match cache.pass(rt, alloc) {
        Ok(pass) => pass,
        Err(refusal) => {
            check_eq(rt, refusal, Refusal::Memory);
            match cache.pass(rt, alloc) {
                Ok(pass) => pass,
                Err(refusal) => panic!(rt; "no pass: {refusal}"),
            }
        }
    }
}

/// Keeps one more.
pub(crate) fn push<T>(rt: &impl Abort, list: &mut Vec<T>, item: T)
    ensures { list.new.items ≡ list.old.items ++ item ∷ [] }
{
    if let Err(failed) = list.push(item) {
        if let Err(_failed) = list.push(failed.value) {
            panic!(rt; "out of memory");
        }
    }
}
