//! The most hosts of a pool, and its answers at a site that is not there. No script shows them.

use crate::checks::check_eq;
use crate::desk::{Desk, check_log, limited, opened, want_of};
use budget::{Limits, Refusal};
use cache::Pool;

#[test]
fn a_pool_has_1024_hosts_at_most(rt: HostRuntime) {
    let limits = Limits::new(0, 0, 4).expect(&rt, "memory");
    for &(hosts, refusal) in &[(0, None), (1_024, None), (1_025, Some(Refusal::BadSite))] {
        let made: Result<Pool<()>, Refusal> = Pool::new(rt.alloc(), limits, hosts);
        check_eq(&rt, made.err(), refusal);
    }
}

#[test]
fn a_transfer_is_busy_and_a_site_is_bad(rt: HostRuntime) {
    let mut desk = Desk::new(rt.alloc(), (0, 0, 4), 1).expect(&rt, "memory");
    desk.get(&rt, 1, 0, 0);
    check_eq(
        &rt,
        desk.ask(&rt, want_of(1), 0, 1),
        Some(Refusal::TransferBusy),
    );
    check_eq(&rt, desk.ask(&rt, want_of(1), 7, 1), Some(Refusal::BadSite));
    check_eq(&rt, desk.ask(&rt, want_of(2), 1, 1), Some(Refusal::BadSite));
    check_eq(&rt, desk.pool.look(7), Err(Refusal::BadSite));
    check_eq(&rt, desk.pool.look(1), Err(Refusal::BadSite));
    check_eq(
        &rt,
        (desk.pool.log(1).is_none(), desk.pool.spent(1)),
        (true, None),
    );
    check_eq(&rt, desk.set_host_limit(7, 1, 1), Err(Refusal::BadSite));
    check_eq(&rt, desk.set_host_limit(0, 2, 1), Ok(()));
    check_log(&rt, &desk, 0, &[opened(1, want_of(1), 0), limited(2, 1)]);
    check_eq(&rt, (desk.pool.hosts(), desk.pool.spent(0)), (1, Some(0)));
    let pool = desk.close(&rt, 2);
    check_eq(&rt, pool.spent(0), Some(1));
}
