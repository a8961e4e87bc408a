//! A pool that is out of memory. The tests pass whichever allocation fails. In one of them the
//! refusal says so and changes nothing, and the call succeeds when it comes again. In the others
//! all memory may be refused from some moment on.

use crate::checks::check_eq;
use crate::pool_desk::{PoolDesk, want_of};
use budget::Refusal;
use bundle::Snapshot;
use conn_log::{Cause, Entry, Event};
use std::alloc::Global;
use std::process::Abort;
use std::test::Fail;

/// Number of rounds: logs and tables grow several times.
const ROUNDS: u64 = 20;

// A desk under these limits; if memory is refused once, it comes the second time.
fn desk_at_last(
    rt: &impl Abort,
    alloc: Global,
    limits: (u32, u32, u32),
    hosts: u32,
) -> Result<PoolDesk, Refusal> {
    match PoolDesk::new(alloc, limits, hosts) {
        Ok(desk) => Ok(desk),
        Err(refusal) => {
            check_eq(rt, refusal, Refusal::Memory);
            PoolDesk::new(alloc, limits, hosts)
        }
    }
}

// The length of the host's log, and what the host looks like.
fn shown(rt: &impl Abort, desk: &PoolDesk, site: u32) -> (usize, Result<Snapshot, Refusal>) {
    let log = desk.pool.log(site).expect(rt, "a host");
    (log.len(), desk.pool.look(site))
}

// The transfer acquires a connection, or waits; if memory runs out nothing changes, and it asks
// again.
fn get_at_last(rt: &impl Abort, desk: &mut PoolDesk, transfer: u64, site: u32) {
    let before = shown(rt, desk, site);
    let Some(refusal) = desk.ask(rt, want_of(transfer), site, 0) else {
        return;
    };
    check_eq(rt, refusal, Refusal::Memory);
    check_eq(rt, shown(rt, desk, site), before);
    check_eq(rt, desk.ask(rt, want_of(transfer), site, 0), None);
}

// The same of a host's limit.
fn limit_at_last(rt: &impl Abort, desk: &mut PoolDesk, site: u32, limit: u32) {
    let before = shown(rt, desk, site);
    let Err(refusal) = desk.set_host_limit(site, limit, 0) else {
        return;
    };
    check_eq(rt, refusal, Refusal::Memory);
    check_eq(rt, shown(rt, desk, site), before);
    check_eq(rt, desk.set_host_limit(site, limit, 0), Ok(()));
}

// The same of what a cut hands out.
fn cut_at_last(rt: &impl Abort, desk: &mut PoolDesk, site: u32) -> Vec<Entry> {
    let before = shown(rt, desk, site);
    match desk.pool.cut(site) {
        Ok(part) => part,
        Err(refusal) => {
            check_eq(rt, refusal, Refusal::Memory);
            check_eq(rt, shown(rt, desk, site), before);
            desk.cut(rt, site)
        }
    }
}

#[test]
fn want_of_memory_changes_no_pool(rt: HostRuntime) -> Result<(), Fail> {
    let mut desk = desk_at_last(&rt, rt.alloc(), (1, 2, 1), 3)?;
    for round in 0..ROUNDS {
        let (first, second, third) = (3 * round, 3 * round + 1, 3 * round + 2);
        get_at_last(&rt, &mut desk, first, 0);
        get_at_last(&rt, &mut desk, second, 0);
        get_at_last(&rt, &mut desk, third, 1);
        // what comes back goes to who waits, and takes no memory
        desk.back(&rt, first, 0);
        assert!(rt; desk.claim(&rt, second));
        desk.back(&rt, second, 0);
        desk.abandon(&rt, third, 0);
        limit_at_last(&rt, &mut desk, 2, round as u32 + 2);
    }
    check_eq(
        &rt,
        (desk.pool.spent(0), desk.pool.spent(1)),
        (Some(2 * ROUNDS), Some(ROUNDS)),
    );
    let part = cut_at_last(&rt, &mut desk, 2);
    check_eq(&rt, part.len() as u64, ROUNDS);
    let _ = desk.close(&rt);
    Ok(())
}

/// Six transfers ask for a connection of one host, or three for one of a host each.
const ONE_HOST: [u32; 6] = [0; 6];

const EACH_HOST: [u32; 3] = [0, 1, 2];

/// How many entries the log has at the end where so many of them were answered. The first one's
/// connection is opened, and comes back; it is pruned, or goes to the second one, which abandons
/// it. For each of the others, which waits as the second does, one is opened and withdrawn.
const ENTRIES: [usize; 7] = [0, 3, 5, 8, 11, 14, 17];

// The transfers 0, 1 and so on ask, each at its site, until one is refused; returns the number of
// those that were answered.
fn ask_until_refused(rt: &impl Abort, desk: &mut PoolDesk, sites: &[u32]) -> u64 {
    let mut answered: u64 = 0;
    for &site in sites {
        if let Some(refusal) = desk.ask(rt, want_of(answered), site, 0) {
            check_eq(rt, refusal, Refusal::Memory);
            return answered;
        }
        answered = answered.saturating_add(1);
    }
    answered
}

// From the refusal on there may be no memory at all: each lease and each ticket ends as it does
// with ample memory.
#[test]
fn want_of_memory_for_good_keeps_each_promise(rt: HostRuntime) {
    let Ok(mut desk) = PoolDesk::new(rt.alloc(), (1, 0, 4), 1) else {
        return;
    };
    let answered = ask_until_refused(&rt, &mut desk, &ONE_HOST);
    if answered >= 1 {
        desk.back(&rt, 0, 1);
    }
    if answered >= 2 {
        assert!(rt; desk.claim(&rt, 1));
        desk.abandon(&rt, 1, 2);
    }
    for transfer in 2..answered {
        desk.leave(&rt, transfer, 3);
    }
    let pruned = desk.prune(9, 0, 0);
    check_eq(&rt, pruned, if answered == 1 { 1 } else { 0 });
    let nothing = Snapshot {
        alive: 0,
        idle: 0,
        leased: 0,
        waiting: 0,
        queued: false,
    };
    let (entries, seen) = shown(&rt, &desk, 0);
    check_eq(&rt, seen, Ok(nothing));
    check_eq(&rt, ENTRIES.get(answered as usize).copied(), Some(entries));
    let _ = desk.close(&rt);
}

/// Limits, and how the transfers of three hosts end under them: each gives its connection back in
/// turn, once it has claimed it if it had to wait.
struct Serving {
    limits: (u32, u32, u32),
    // How many transfers get a connection at once.
    at_once: u64,
    // Why the connection of each host is closed in the end, by how many transfers were answered.
    causes: [&'static [Cause]; 4],
}

static SERVING: [Serving; 2] = [
    // what comes back makes room for the head of the next host in turn
    Serving {
        limits: (0, 1, 4),
        at_once: 1,
        causes: [
            &[],
            &[Cause::Pruned],
            &[Cause::TotalRoom, Cause::Pruned],
            &[Cause::TotalRoom, Cause::TotalRoom, Cause::Pruned],
        ],
    },
    // one connection alone is kept
    Serving {
        limits: (0, 2, 1),
        at_once: 2,
        causes: [
            &[],
            &[Cause::Pruned],
            &[Cause::CacheFull, Cause::Pruned],
            &[Cause::TotalRoom, Cause::CacheFull, Cause::Pruned],
        ],
    },
];

// The host's log has so many entries, of which the last closes its only connection for that cause.
fn check_closed(rt: &impl Abort, desk: &PoolDesk, site: u32, entries: usize, cause: Cause) {
    let log = desk.pool.log(site).expect(rt, "a host");
    assert_eq!(rt; log.len(), entries, "entries of host {site}");
    let last = log.get(entries.saturating_sub(1)).map(|entry| entry.event);
    let closed = Event::Closed {
        connection: 1,
        cause,
    };
    assert_eq!(rt; last, Some(closed), "host {site}");
}

// Three hosts are served under the limits of a row. From the refusal on there may be no memory.
fn serve_all(rt: &impl Abort, alloc: Global, row: &Serving) {
    let Ok(mut desk) = PoolDesk::new(alloc, row.limits, 3) else {
        return;
    };
    let answered = ask_until_refused(rt, &mut desk, &EACH_HOST);
    for transfer in 0..answered {
        if transfer >= row.at_once {
            assert!(rt; desk.claim(rt, transfer));
        }
        desk.back(rt, transfer, transfer.saturating_add(1));
    }
    check_eq(rt, u64::from(desk.prune(9, 0, 0)), answered.min(1));
    let causes = row.causes.get(answered as usize).copied().unwrap_or(&[]);
    check_eq(rt, causes.len() as u64, answered);
    for (&site, &cause) in EACH_HOST.iter().zip(causes) {
        let has_waited = u64::from(site) >= row.at_once;
        check_closed(rt, &desk, site, 3 + has_waited as usize, cause);
    }
    let _ = desk.close(rt);
}

#[test]
fn want_of_memory_for_good_serves_three_hosts(rt: HostRuntime) {
    for row in &SERVING {
        serve_all(&rt, rt.alloc(), row);
    }
}
