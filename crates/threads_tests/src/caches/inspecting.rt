//! Each host has a lock of its own: while one thread looks at a host, another one acquires a
//! connection of the other host.

ghost use Rattle.std.specs.Prelude.{◌≡◌};

use crate::caches::gathering::{Account, Passes, check_account};
use crate::caches::making::{new_cache, new_plan};
use crate::caches::thread_desk::{Desk, Said, Stream, want_of};
use crate::checks::check_eq;
use budget::Refusal;
use bundle::Bundle;
use shared_cache::{Names, Plan, SharedCache, the_lobby_lists_who_waits_beside_room};
use std::alloc::Global;
use std::marker::Brand;
use std::process::Abort;
use std::sync::Wait;
use std::sync::atomic::{AtomicBool, Ordering};
use std::thread::{Threads, join, yield_now};

/// How often a thread turns at most until the other one has come so far.
const MOST_TURNS: u32 = 10_000_000;

/// The account at the end.
const ACCOUNT: Account = (0, 0, &[(0, 0, 0, 0, 0), (1, 0, 1, 0, 0)]);

/// How far the two threads are.
#[derive(Drop)]
struct Signals {
    looks: AtomicBool,
    answered: AtomicBool,
}

// Turns until the signal is there; whether it was before the bound was met.
fn is_there_in_time(signal: &AtomicBool) -> bool {
    for _ in 0..MOST_TURNS {
        if signal.load(Ordering::SeqCst) {
            return true;
        }
        yield_now();
    }
    false
}

// Looks at host 0 until the other thread was answered; whether that was in time.
fn look_on<N: Names>(
    rt: &impl Wait,
    cache: &SharedCache<Stream, N>,
    signals: &Signals,
) -> Result<bool, Refusal> {
    cache.inspect(rt, 0, |_bundle: &Bundle<Stream>| {
        signals.looks.store(true, Ordering::SeqCst);
        is_there_in_time(&signals.answered)
    })
}

// Acquires a connection of host 1 once the other thread looks; then it is abandoned.
fn acquire_meanwhile<N: Names>(
    rt: &(impl Wait + Abort),
    cache: &SharedCache<Stream, N>,
    signals: &Signals,
    desk: &mut Desk<N>,
) {
    let looks = is_there_in_time(&signals.looks);
    assert!(rt;
        looks,
        "the other thread does not look, as where memory for it is short"
    );
    let said = desk.acquire(rt, cache, 1, want_of(1), 0);
    signals.answered.store(true, Ordering::SeqCst);
    check_eq(rt, said, Said::Opened(1, 0));
    desk.abandon(rt, cache, 1, 0);
}

// Does both at once, with a cache of that plan. A new pass takes each lock, so it is made before.
fn both<N: Names + Send + Sync, R: Threads + Wait + Abort + Sync>(
    rt: &R,
    alloc: Global,
    plan: Plan<Stream>,
)
    requires { plan ≡ N.names }
{
    let cache: SharedCache<Stream, N> = new_cache(rt, alloc, plan);
    let mut desk = Desk::new(rt, alloc, &cache);
    let signals = Signals {
        looks: AtomicBool::new(false),
        answered: AtomicBool::new(false),
    };
    let (shared, at) = (&cache, &signals);
    let (looked, ()) = join(
        rt,
        || look_on(rt, shared, at),
        || acquire_meanwhile(rt, shared, at, &mut desk),
    );
    check_eq(rt, looked, Ok(true));
    let mut passes = Passes::new(alloc);
    passes.put_by(rt, desk.close(rt));
    let gathered = passes.gathered(rt, alloc, cache);
    check_account(rt, &gathered, "both", ACCOUNT);
}

#[test]
fn one_looks_while_another_acquires_elsewhere(rt: HostRuntime) {
    the_lobby_lists_who_waits_beside_room::<Stream>();
    let plan = new_plan(&rt, rt.alloc(), (0, 0, 4), 2);
    both::<Brand, HostRuntime>(&rt, rt.alloc(), plan);
}
