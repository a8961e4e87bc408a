//! An exchange over a desk, from its cache's plan to its cache's account.

ghost use Rattle.std.specs.Prelude.{◌≡◌};

use crate::checks::check_eq;
use crate::desks::connections::{
    OK, OPENED, RETURNED, check_log, dial_of, gathered, last_at_first, wire_of,
};
use crate::desks::driving::run;
use crate::making::{ANSWER, cache_of, pass_of, plan_of};
use bundle::Did;
use exchange::Done;
use exchange_memory::MemoryWire;
use shared_cache::{Desk, Names, Plan, desk_shows_what_went_back};
use std::alloc::AllocGlobal;
use std::marker::Brand;
use std::process::Abort;
use std::random::RandomSource;
use std::sync::Wait;

// An exchange by one of two desks of a cache of that plan.
fn one_exchange<N: Names, R: Wait + Abort + AllocGlobal + RandomSource>(
    rt: &R,
    plan: Plan<MemoryWire>,
)
    requires { plan ≡ N.names }
{
    let cache = cache_of::<MemoryWire, N, R>(rt, plan);
    let mut desk = Desk::new(&cache, rt, pass_of(rt, &cache));
    let mut dial = dial_of(rt, wire_of(rt, OK));
    check_eq(rt, run(rt, &mut desk, &mut dial), Done::Good(ANSWER));
    check_log(rt, &cache, 0, &[OPENED, RETURNED], "an exchange");
    check_eq(
        rt,
        last_at_first(rt, desk.pass()),
        Some(Did::Wrote(RETURNED)),
    );
    let pass = desk.into_pass();
    check_eq(rt, pass.hosts(), 2);
    let calls = (pass.calls(0), pass.calls(1));
    let spent = (pass.spent(0), pass.spent(1));
    check_eq(rt, (calls, spent), ((2, 0), (1, 0)));
    let other = pass_of(rt, &cache);
    let gathered = gathered(rt, cache, pass, other);
    check_eq(rt, (gathered.total, gathered.kept), (1, 1));
}

#[test]
fn an_exchange_over_a_desk_balances(rt: HostRuntime) {
    desk_shows_what_went_back::<MemoryWire>();
    let plan = plan_of(&rt, 0, 0, 2);
    one_exchange::<Brand, HostRuntime>(&rt, plan);
}
