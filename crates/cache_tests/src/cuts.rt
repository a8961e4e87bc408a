//! A pool whose logs are cut now and then, beside one whose logs are not: the same happens at both,
//! and the parts are what happened.

use crate::checks::check_eq;
use crate::desk::Desk;
use crate::drawn::{Draws, do_one};
use cache::Pool;
use conn_log::{Counts, Entry};
use load_report::count_part;
use std::process::Abort;

const HOSTS: u32 = 8;

const TRANSFERS: u64 = 5_000;

/// What the parts of a host's log that were handed out count, and how many entries they have.
#[derive(Clone, Copy, Debug, PartialEq, Eq)]
struct Parts {
    counts: Counts,
    entries: usize,
}

impl Parts {
    const NONE: Parts = Parts {
        counts: Counts {
            opened: 0,
            reused: 0,
            closed: 0,
            waited: 0,
        },
        entries: 0,
    };

    // The same with one part more.
    fn and(self, part: &[Entry]) -> Parts {
        let more = count_part(part);
        Parts {
            counts: Counts {
                opened: self.counts.opened.saturating_add(more.opened),
                reused: self.counts.reused.saturating_add(more.reused),
                closed: self.counts.closed.saturating_add(more.closed),
                waited: self.counts.waited.saturating_add(more.waited),
            },
            entries: self.entries.saturating_add(part.len()),
        }
    }
}

// A part comes next of what happened at the host of the pool that is not cut.
fn check_next(rt: &impl Abort, twin: &Pool<()>, site: u32, parts: Parts, part: &[Entry]) {
    let log = twin.log(site).expect(rt, "a host");
    assert!(rt; parts.entries <= log.len());
    let rest = log.since(parts.entries);
    assert!(rt; part.len() <= rest.len());
    assert_eq!(rt; part, &rest[..part.len()], "host {site}");
}

// Cuts each host for the last time. All that was handed out of it counts what its log counts, and
// what that of the other pool does.
fn check_all(rt: &impl Abort, pool: &mut Pool<()>, twin: &Pool<()>, parts: &[Parts; 8]) {
    for site in 0..HOSTS {
        let part = pool.cut(site).expect(rt, "memory");
        let before = parts[site as usize];
        check_next(rt, twin, site, before, &part);
        let all = before.and(&part);
        let (log, uncut) = (pool.log(site), twin.log(site));
        let (log, uncut) = (log.expect(rt, "a host"), uncut.expect(rt, "a host"));
        assert_eq!(rt;
            (all.counts, all.entries),
            (log.counts(), uncut.len()),
            "host {site}"
        );
        assert_eq!(rt;
            (log.counts(), log.len()),
            (uncut.counts(), 0),
            "host {site}"
        );
    }
}

#[test]
fn parts_add_up_beside_a_pool_that_is_not_cut(rt: HostRuntime) {
    let limits = (2, 5, 3);
    let mut desk = Desk::new(rt.alloc(), limits, HOSTS).expect(&rt, "memory");
    let mut twin = Desk::new(rt.alloc(), limits, HOSTS).expect(&rt, "memory");
    let (mut draws, mut same) = (Draws { last: 1 }, Draws { last: 1 });
    let mut cuts = Draws { last: 2 };
    let mut parts = [Parts::NONE; 8];
    for transfer in 0..TRANSFERS {
        do_one(&rt, &mut desk, &mut draws, HOSTS, transfer);
        do_one(&rt, &mut twin, &mut same, HOSTS, transfer);
        let site = u32::try_from(cuts.below(8)).expect(&rt, "a site");
        if cuts.below(50) == 0 {
            let part = desk.cut(&rt, site);
            let place = site as usize;
            assert!(rt; place < parts.len());
            check_next(&rt, &twin.pool, site, parts[place], &part);
            parts[place] = parts[place].and(&part);
        }
    }
    let mut pool = desk.close(&rt, TRANSFERS);
    let twin = twin.close(&rt, TRANSFERS);
    check_all(&rt, &mut pool, &twin, &parts);
}

#[test]
fn a_cut_is_refused_where_there_is_no_host(rt: HostRuntime) {
    let mut desk = Desk::new(rt.alloc(), (0, 0, 4), 2).expect(&rt, "memory");
    assert!(rt; matches!(desk.pool.cut(2), Err(budget::Refusal::BadSite)));
    let _ = desk.close(&rt, 0);
}

#[test]
fn what_happened_is_counted_and_let_go(rt: HostRuntime) {
    let mut desk = Desk::new(rt.alloc(), (0, 0, 4), 2).expect(&rt, "memory");
    desk.get(&rt, 1, 0, 0);
    desk.get(&rt, 2, 1, 1);
    let mut pool = desk.close(&rt, 2);
    let mut opened = 0_u64;
    for site in 0..pool.hosts() {
        let part = pool.cut(site).expect(&rt, "memory");
        opened = opened.saturating_add(count_part(&part).opened);
    }
    check_eq(&rt, opened, 2);
}
