//! Calls of a shared cache, of one thread's handle to it, and of its report.

ghost use Rattle.std.specs.Prelude.{◌≡◌};

use crate::checks::check_eq;
use budget::Limits;
use load_report::report;
use shared_cache::{Desk, Names, Plan, SharedCache, discard_all};
use std::alloc::AllocGlobal;
use std::marker::Brand;
use std::process::Abort;
use std::sync::Wait;

fn use_handle<N: Names, R: Wait + Abort + AllocGlobal>(rt: &R, plan: Plan<u32>)
    requires { plan ≡ N.names }
{
    let cache: SharedCache<u32, N> = match SharedCache::new(rt.alloc(), plan) {
        Ok(cache) => cache,
        Err((_plan, refusal)) => panic!(rt; "no cache: {refusal}"),
    };
    check_eq(rt, cache.upkeep(), 0);
    let pass = cache.pass(rt, rt.alloc()).expect(rt, "a pass");
    let desk = Desk::new(&cache, rt, pass);
    check_eq(rt, desk.pass().hosts(), 1);
    cache.discard(desk.into_pass());
}

fn report_nothing<N: Names, R: Wait + Abort + AllocGlobal>(rt: &R, plan: Plan<u32>)
    requires { plan ≡ N.names }
{
    let cache: SharedCache<u32, N> = match SharedCache::new(rt.alloc(), plan) {
        Ok(cache) => cache,
        Err((_plan, refusal)) => panic!(rt; "no cache: {refusal}"),
    };
    let gathered = match cache.gather(rt.alloc(), Vec::new(rt.alloc())) {
        Ok(gathered) => gathered,
        Err((_cache, passes, refusal)) => {
            discard_all(passes);
            panic!(rt; "not gathered: {refusal}")
        }
    };
    let text = report(rt.alloc(), &gathered, &[]).expect(rt, "memory");
    check_eq(
        rt,
        text.as_str(),
        "host       0       0       0       0       0       0\n\
        all        1       0       0       0       0       0\n\
        jobs       0       0       0       0       0\n",
    );
}

#[test]
fn a_cache_without_transfers_has_a_report(rt: HostRuntime) {
    let limits = Limits::new(1, 0, 4).expect(&rt, "limits");
    let plan = Plan::new(rt.alloc(), limits, 1).expect(&rt, "a plan");
    report_nothing::<Brand, HostRuntime>(&rt, plan);
}

#[test]
fn a_handle_shows_its_pass(rt: HostRuntime) {
    let limits = Limits::new(1, 0, 4).expect(&rt, "limits");
    let plan = Plan::new(rt.alloc(), limits, 1).expect(&rt, "a plan");
    use_handle::<Brand, HostRuntime>(&rt, plan);
}
