//! Many transfers at many hosts, in an order that is drawn.

use crate::checks::check_eq;
use crate::desk::{Desk, want_of};
use cache::Pool;
use conn_log::{Event, Log, Want};
use std::process::Abort;

const HOSTS: u32 = 1_024;

const TRANSFERS: u64 = 3_000;

/// The most connections in total.
const TOTAL: u32 = 3;

/// Numbers that look drawn (Knuth's linear congruential generator of MMIX).
#[derive(Drop)]
pub(crate) struct Draws {
    pub last: u64,
}

impl Draws {
    /// A number below the limit.
    pub fn below(&mut self, limit: u64) -> u64 {
        self.last = self
            .last
            .wrapping_mul(6_364_136_223_846_793_005)
            .wrapping_add(1_442_695_040_888_963_407);
        let Some(drawn) = (self.last >> 33).checked_rem(limit) else {
            return 0;
        };
        drawn
    }
}

/// What a transfer does at one of so many hosts, and what becomes of those before it.
pub(crate) fn do_one(
    rt: &impl Abort,
    desk: &mut Desk,
    draws: &mut Draws,
    hosts: u32,
    transfer: u64,
) {
    ask_somewhere(rt, desk, draws, hosts, transfer);
    claim_one(rt, desk, draws, transfer);
    spend_one(rt, desk, draws, transfer);
    claim_all(rt, desk);
}

// A transfer asks at a host, every other time at one of the first four.
fn ask_somewhere(rt: &impl Abort, desk: &mut Desk, draws: &mut Draws, hosts: u32, transfer: u64) {
    let most = if draws.below(2) == 0 {
        4
    } else {
        u64::from(hosts)
    };
    let site = u32::try_from(draws.below(most)).expect(rt, "a site");
    let want = Want {
        lane: u32::from(draws.below(2) == 1),
        fresh: draws.below(8) == 0,
        forbid_reuse: draws.below(8) == 0,
        max_age: 30,
        ..want_of(transfer)
    };
    check_eq(rt, desk.ask(rt, want, site, transfer), None);
}

// A lease that is drawn is given back, or abandoned.
fn spend_one(rt: &impl Abort, desk: &mut Desk, draws: &mut Draws, now: u64) {
    if desk.leases.is_empty() {
        return;
    }
    let place = draws.below(desk.leases.len() as u64) as usize;
    assert!(rt; place < desk.leases.len());
    let transfer = desk.leases[place].transfer();
    if draws.below(4) == 0 {
        desk.abandon(rt, transfer, now);
    } else {
        desk.back(rt, transfer, now);
    }
}

// A ticket that is drawn is withdrawn now and then, and else claimed.
fn claim_one(rt: &impl Abort, desk: &mut Desk, draws: &mut Draws, now: u64) {
    if desk.tickets.is_empty() {
        return;
    }
    let place = draws.below(desk.tickets.len() as u64) as usize;
    assert!(rt; place < desk.tickets.len());
    let transfer = desk.tickets[place].transfer();
    if draws.below(8) == 0 {
        desk.leave(rt, transfer, now);
    } else {
        desk.claim(rt, transfer);
    }
}

// Claims what transfers were granted.
fn claim_all(rt: &impl Abort, desk: &mut Desk) {
    for _ in 0..desk.tickets.len() {
        assert!(rt; !desk.tickets.is_empty());
        let transfer = desk.tickets[0].transfer();
        desk.claim(rt, transfer);
    }
}

// How many entries of a log are openings, starts, and closings.
fn counts(log: &Log) -> (u64, u64, u64) {
    let (mut opened, mut started, mut closed) = (0, 0, 0);
    for place in 0..log.len() {
        match log.get(place).map(|entry| entry.event) {
            Some(Event::Opened { .. }) => (opened, started) = (opened + 1, started + 1),
            Some(Event::Leased { .. }) => started += 1,
            Some(Event::Closed { .. }) => closed += 1,
            _ => {}
        }
    }
    (opened, started, closed)
}

// How many are open at a host that has to have all its leases and tickets spent.
fn alive_at(rt: &impl Abort, pool: &Pool<()>, site: u32) -> u32 {
    let look = pool.look(site).expect(rt, "a host");
    assert_eq!(rt;
        (look.waiting, look.leased, look.queued),
        (0, 0, false),
        "host {site}"
    );
    let (opened, started, closed) = counts(pool.log(site).expect(rt, "a host"));
    assert_eq!(rt; pool.spent(site), Some(started), "host {site}");
    assert_eq!(rt;
        opened.checked_sub(closed),
        Some(u64::from(look.idle)),
        "host {site}"
    );
    look.alive
}

#[test]
fn every_account_is_balanced(rt: HostRuntime) {
    let mut desk = Desk::new(rt.alloc(), (2, TOTAL, 2), HOSTS).expect(&rt, "memory");
    let mut draws = Draws { last: 1 };
    for transfer in 0..TRANSFERS {
        do_one(&rt, &mut desk, &mut draws, HOSTS, transfer);
    }
    let pool = desk.close(&rt, TRANSFERS);
    let mut alive = 0_u32;
    for site in 0..HOSTS {
        alive = alive.saturating_add(alive_at(&rt, &pool, site));
    }
    assert!(rt; alive <= TOTAL);
}
