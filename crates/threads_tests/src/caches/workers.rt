//! What each thread does that shares a cache, and what it counts of the answers.

ghost use Rattle.shared_cache.specs.Passes.{IsPassOf};

use crate::caches::thread_desk::{CLOSE, Desk, KEEP, Said, Stream, WANT, want_of};
use budget::{Pass, Refusal};
use bundle::Did;
use conn_log::Want;
use shared_cache::{Names, SharedCache};
use std::process::Abort;
use std::sync::Wait;
use std::thread::yield_now;

/// How often a transfer that waits asks at most whether it was granted anything.
const MOST_CLAIMS: u64 = 16;

/// What a thread does. Transfers have the numbers from the first one on.
#[derive(Clone, Copy)]
pub(crate) enum Job {
    /// Each transfer acquires a connection of the host of its parity, and gives it back, all at
    /// moment 0.
    InTurn {
        first: u64,
        transfers: u64,
    },
    /// Each transfer has a host and a want that are drawn. If it waits it asks a few times for what
    /// it is granted, and else leaves. Connections are given back or abandoned, now or a few
    /// transfers later.
    Drawn {
        first: u64,
        transfers: u64,
        hosts: u64,
    },
    /// The limit of a host that is drawn is changed so often.
    Limits {
        changes: u64,
        hosts: u64,
    },
}

/// What a thread was answered, or all threads together.
#[derive(Clone, Copy, Debug, PartialEq, Eq)]
pub(crate) struct Seen {
    /// How many connections transfers were given, whether or not they claimed them.
    pub starts: u64,
    /// How many transfers waited.
    pub waits: u64,
    /// How many of them left before they were granted anything.
    pub left: u64,
    /// How many withdrew what they were granted.
    pub withdrawn: u64,
    /// How many changes of a limit were made.
    pub changes: u64,
}

impl Seen {
    pub const NONE: Seen = Seen {
        starts: 0,
        waits: 0,
        left: 0,
        withdrawn: 0,
        changes: 0,
    };

    /// Those of both.
    pub fn and(self, other: Seen) -> Seen {
        Seen {
            starts: self.starts.saturating_add(other.starts),
            waits: self.waits.saturating_add(other.waits),
            left: self.left.saturating_add(other.left),
            withdrawn: self.withdrawn.saturating_add(other.withdrawn),
            changes: self.changes.saturating_add(other.changes),
        }
    }

    /// How many transfers were given a connection, or left.
    pub fn begun(&self) -> u64 {
        self.starts.saturating_add(self.left)
    }

    // What one more answer counts as.
    fn of(said: Said) -> Seen {
        let mut seen = Seen::NONE;
        match said {
            Said::Opened(_, _) | Said::Reused(_, _) => seen.starts = 1,
            Said::Waits => seen.waits = 1,
            Said::Left => seen.left = 1,
            Said::Withdrawn(_) => (seen.starts, seen.withdrawn) = (1, 1),
            Said::Done => seen.changes = 1,
            _other => {}
        }
        seen
    }
}

// Whether it is a lease.
fn is_lease(said: Said) -> bool {
    matches!(said, Said::Opened(_, _) | Said::Reused(_, _))
}

/// Numbers that look drawn (Knuth's linear congruential generator of MMIX).
#[derive(Drop)]
struct Draws {
    last: u64,
}

impl Draws {
    // A number below the limit.
    fn below(&mut self, limit: u64) -> u64 {
        self.last = self
            .last
            .wrapping_mul(6_364_136_223_846_793_005)
            .wrapping_add(1_442_695_040_888_963_407);
        (self.last >> 33).checked_rem(limit).unwrap_or(0)
    }

    // The same of a small limit.
    fn below_small(&mut self, rt: &impl Abort, limit: u64) -> u32 {
        u32::try_from(self.below(limit)).expect(rt, "a small number")
    }

    // A site, every other time one of the first two.
    fn site(&mut self, rt: &impl Abort, hosts: u64) -> u32 {
        let most = if self.below(2) == 0 { 2 } else { hosts };
        self.below_small(rt, most)
    }

    // How many leases a thread has at most when it goes on: none every other time, else up to 3.
    fn most_leased(&mut self) -> usize {
        if self.below(2) == 0 {
            return 0;
        }
        self.below(4) as usize
    }

    fn want(&mut self, transfer: u64) -> Want {
        Want {
            transfer,
            lane: u32::from(self.below(2) == 1),
            fresh: self.below(8) == 0,
            forbid_reuse: self.below(8) == 0,
            max_age: 30,
            ..WANT
        }
    }
}

/// A thread's desk, its job, and what it was answered.
pub(crate) struct Worker<N: Names> {
    desk: Desk<N>,
    job: Job,
    draws: Draws,
    seen: Seen,
}

impl<N: Names> Worker<N> {
    /// One that has yet to work. Those of different seeds draw differently.
    pub fn new(desk: Desk<N>, job: Job, seed: u64) -> Self {
        Worker {
            desk,
            job,
            draws: Draws { last: seed },
            seen: Seen::NONE,
        }
    }

    /// It has another job to do.
    pub fn begin(&mut self, job: Job) {
        self.job = job;
    }

    /// Does its job; no lease or ticket is left.
    pub fn work(&mut self, rt: &(impl Wait + Abort), cache: &SharedCache<Stream, N>) {
        match self.job {
            Job::InTurn { first, transfers } => self.work_in_turn(rt, cache, first, transfers),
            Job::Drawn {
                first,
                transfers,
                hosts,
            } => {
                self.work_as_drawn(rt, cache, first, transfers, hosts);
                self.spend_all_but(0, rt, cache, transfers);
            }
            Job::Limits { changes, hosts } => self.change_limits(rt, cache, changes, hosts),
        }
    }

    /// Its pass, and what it was answered.
    pub fn close(self, rt: &impl Abort) -> (Pass<Did>, Seen)
        ensures { IsPassOf N.names result.0 }
    {
        let Worker {
            desk,
            job: _,
            draws: _,
            seen,
        } = self;
        (desk.close(rt), seen)
    }

    fn work_in_turn(
        &mut self,
        rt: &(impl Wait + Abort),
        cache: &SharedCache<Stream, N>,
        first: u64,
        transfers: u64,
    ) {
        for turn in 0..transfers {
            let transfer = first.saturating_add(turn);
            let site = u32::from(transfer % 2 == 1);
            let said = self.desk.acquire(rt, cache, site, want_of(transfer), 0);
            assert!(rt; is_lease(said), "{said:?}");
            self.note(said);
            yield_now();
            self.desk.back(rt, cache, transfer, KEEP, 0);
        }
    }

    fn work_as_drawn(
        &mut self,
        rt: &(impl Wait + Abort),
        cache: &SharedCache<Stream, N>,
        first: u64,
        transfers: u64,
        hosts: u64,
    ) {
        for now in 0..transfers {
            self.start(rt, cache, first.saturating_add(now), hosts, now);
            let most = self.draws.most_leased();
            self.spend_all_but(most, rt, cache, now);
        }
    }

    // Spends leases until there are no more than so many.
    fn spend_all_but(
        &mut self,
        most: usize,
        rt: &(impl Wait + Abort),
        cache: &SharedCache<Stream, N>,
        now: u64,
    ) {
        for _ in most..self.desk.leased() {
            self.spend_first(rt, cache, now);
        }
    }

    fn change_limits(
        &mut self,
        rt: &(impl Wait + Abort),
        cache: &SharedCache<Stream, N>,
        changes: u64,
        hosts: u64,
    ) {
        for now in 0..changes {
            let site = self.draws.site(rt, hosts);
            let limit = self.draws.below_small(rt, 4);
            let said = self.desk.limit(rt, cache, site, limit, now);
            assert!(rt;
                matches!(said, Said::Done | Said::Refused(Refusal::Busy(_))),
                "{said:?}"
            );
            self.note(said);
            yield_now();
        }
    }

    // The transfer comes to a lease, or leaves.
    fn start(
        &mut self,
        rt: &(impl Wait + Abort),
        cache: &SharedCache<Stream, N>,
        transfer: u64,
        hosts: u64,
        now: u64,
    ) {
        let site = self.draws.site(rt, hosts);
        let want = self.draws.want(transfer);
        let said = self.desk.acquire(rt, cache, site, want, now);
        self.note(said);
        if said == Said::Waits {
            self.wait(rt, cache, transfer, now);
        } else {
            assert!(rt; is_lease(said), "{said:?}");
        }
    }

    // The transfer asks for what it is granted, and leaves if that takes too long: whoever has the
    // connection may be waiting too. It may be this thread, which spends one now and then.
    fn wait(
        &mut self,
        rt: &(impl Wait + Abort),
        cache: &SharedCache<Stream, N>,
        transfer: u64,
        now: u64,
    ) {
        for _ in 0..self.draws.below(MOST_CLAIMS) {
            let said = self.desk.claim(rt, cache, transfer);
            if said != Said::Still {
                self.note(said);
                return;
            }
            if self.draws.below(8) == 0 {
                self.spend_first(rt, cache, now);
            }
            yield_now();
        }
        let said = self.desk.leave(rt, cache, transfer, now);
        self.note(said);
    }

    // The lease that came to the desk first is given back, or abandoned.
    fn spend_first(&mut self, rt: &(impl Wait + Abort), cache: &SharedCache<Stream, N>, now: u64) {
        let Some(transfer) = self.desk.first_leased() else {
            return;
        };
        match self.draws.below(8) {
            0 | 1 => self.desk.abandon(rt, cache, transfer, now),
            2 => self.desk.back(rt, cache, transfer, CLOSE, now),
            _other => self.desk.back(rt, cache, transfer, KEEP, now),
        };
    }

    fn note(&mut self, said: Said) {
        self.seen = self.seen.and(Seen::of(said));
    }
}
