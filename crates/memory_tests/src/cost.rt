//! A long life of a pool: too slow to be tried without optimization, and too long for each of its
//! allocations to be refused.

use crate::checks::check_eq;
use crate::pool_desk::{KEEP, want_of, with_stream};
use budget::{GREATEST_LIMIT, Limits};
use bundle::Acquired;
use cache::Pool;
use conn_log::Want;

/// Number of cuts of a log, and of pairs of entries between two of them.
const CUTS: u64 = 2_000;

const PAIRS: u64 = 5_000;

// Acquires a connection for each of these transfers, and gives it back; returns how often there was
// one. No connection is too old.
fn uses_often(pool: &mut Pool<()>, first: u64, end: u64) -> u64 {
    let mut used = 0;
    for transfer in first..end {
        let want = Want {
            max_age: end,
            ..want_of(transfer)
        };
        match pool.acquire(0, want, transfer) {
            Ok(Acquired::Lease(lease)) => {
                pool.give_back(with_stream(lease), KEEP, transfer);
                used += 1;
            }
            Ok(Acquired::Wait(ticket)) => {
                if let Err(stray) = pool.withdraw(ticket, transfer) {
                    stray.scrap();
                }
            }
            Err(_) => {}
        }
    }
    used
}

#[test]
fn a_pool_is_cut_two_thousand_times(rt: HostRuntime) {
    let limits = Limits::new(0, 0, GREATEST_LIMIT).expect(&rt, "limits");
    let mut pool = Pool::new(rt.alloc(), limits, 1).expect(&rt, "memory");
    check_eq(&rt, uses_often(&mut pool, 0, 1), 1);
    let _first = pool.cut(0).expect(&rt, "memory");
    for turn in 0..CUTS {
        let first = turn.saturating_mul(PAIRS);
        let used = uses_often(&mut pool, first, first.saturating_add(PAIRS));
        check_eq(&rt, used, PAIRS);
        let part = pool.cut(0).expect(&rt, "memory");
        check_eq(&rt, part.len(), 10_000);
    }
    let counts = pool.log(0).expect(&rt, "a host").counts();
    check_eq(
        &rt,
        (counts.opened, counts.reused, counts.closed),
        (1, 10_000_000, 0),
    );
}
