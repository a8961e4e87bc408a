//! What a run leaves in the logs of its hosts, by kinds of events, beside its jobs and its clock.

use crate::drivers::peers::{Peer, PeerWire};
use crate::making::push;
use bundle::Bundle;
use conn_log::{Cause, Entry, Event};
use exchange::Job;
use shared_cache::{Names, SharedCache};
use std::alloc::AllocGlobal;
use std::process::Abort;
use std::sync::Wait;

/// How many entries of each kind there are.
#[derive(Clone, Copy, Debug, PartialEq, Eq)]
pub(crate) struct Kinds {
    pub(crate) opened: u64,
    pub(crate) leased: u64,
    pub(crate) returned: u64,
    /// Closed since the transfer was abandoned.
    pub(crate) dropped: u64,
    /// Closed since the transfer was withdrawn before it claimed its connection.
    pub(crate) withdrawn: u64,
    /// Closed for room: at the host, among all hosts, or among those kept.
    pub(crate) evicted: u64,
    /// Closed for another cause.
    pub(crate) closed_else: u64,
    pub(crate) waited: u64,
    pub(crate) left: u64,
    /// Changes of the host's limit.
    pub(crate) limits: u64,
}

/// No entries.
pub(crate) const NO_ENTRIES: Kinds = Kinds {
    opened: 0,
    leased: 0,
    returned: 0,
    dropped: 0,
    withdrawn: 0,
    evicted: 0,
    closed_else: 0,
    waited: 0,
    left: 0,
    limits: 0,
};

/// The log of a host after a run.
#[derive(Clone, Copy, Debug)]
pub(crate) struct HostLog {
    pub(crate) kinds: Kinds,
    /// How many jobs the run had at the host.
    jobs: u64,
    // No entry was cut away.
    is_whole: bool,
    // Each entry's moment is the clock's.
    is_at_clock: bool,
}

// One more.
fn more(count: u64) -> u64 {
    count.saturating_add(1)
}

// How many entries of each kind these are.
fn kinds_of(entries: &[Entry]) -> Kinds {
    let mut kinds = NO_ENTRIES;
    for entry in entries {
        match entry.event {
            Event::Opened { .. } => kinds.opened = more(kinds.opened),
            Event::Leased { .. } => kinds.leased = more(kinds.leased),
            Event::Returned { .. } => kinds.returned = more(kinds.returned),
            Event::Closed { cause, .. } => kinds = kinds.with_closed(cause),
            Event::Waited { .. } => kinds.waited = more(kinds.waited),
            Event::Left { .. } => kinds.left = more(kinds.left),
            Event::Limit { .. } => kinds.limits = more(kinds.limits),
        }
    }
    kinds
}

// The log of a host at which the run had so many jobs, by a clock that tells that moment.
fn log_of(bundle: &Bundle<PeerWire>, jobs: u64, now: u64) -> HostLog {
    let log = bundle.log();
    let count = log.len() as u64;
    let entries = log.since(0);
    HostLog {
        kinds: kinds_of(entries),
        jobs,
        is_whole: log.total_len() == count,
        is_at_clock: entries.iter().all(|entry| entry.moment == now),
    }
}

/// The log of each host after a run of these jobs by a clock that tells that moment.
pub(crate) fn logs_of<N: Names, R: Wait + Abort + AllocGlobal>(
    rt: &R,
    cache: &SharedCache<PeerWire, N>,
    jobs: &[Job],
    now: u64,
) -> Vec<HostLog> {
    let mut logs = Vec::new(rt.alloc());
    for site in 0..cache.hosts() {
        let number = jobs.iter().filter(|job| job.site == site).count() as u64;
        let seen = cache.inspect(
            rt,
            site,
            |bundle: &Bundle<PeerWire>| log_of(bundle, number, now),
        );
        match seen {
            Ok(log) => push(rt, &mut logs, log),
            Err(refusal) => panic!(rt; "{refusal}"),
        }
    }
    logs
}

impl Kinds {
    // These, and one that was closed for that cause.
    fn with_closed(self, cause: Cause) -> Kinds {
        let mut kinds = self;
        match cause {
            Cause::Dropped => kinds.dropped = more(kinds.dropped),
            Cause::Withdrawn => kinds.withdrawn = more(kinds.withdrawn),
            Cause::HostRoom | Cause::TotalRoom | Cause::CacheFull => {
                kinds.evicted = more(kinds.evicted);
            }
            _ => kinds.closed_else = more(kinds.closed_else),
        }
        kinds
    }

    // Whether they tell of so many jobs that ended well, or whose reads failed.
    fn are_of(&self, jobs: u64, peer: Peer) -> bool {
        let is_good = peer == Peer::Answers;
        let starts = self.opened.saturating_add(self.leased);
        let ends = if is_good { (jobs, 0) } else { (0, jobs) };
        let others = (self.withdrawn, self.closed_else, self.left, self.limits);
        starts == jobs
            && (self.returned, self.dropped) == ends
            && others == (0, 0, 0, 0)
            && (is_good || self.leased == 0 && self.evicted == 0)
            && self.waited <= jobs
    }

    // Whether they tell of jobs that were all cancelled, so many at most of which began.
    fn are_cancelled(&self, jobs: u64) -> bool {
        let ended = self.dropped.saturating_add(self.withdrawn);
        let others = (self.leased, self.returned, self.evicted);
        self.opened == ended
            && others == (0, 0, 0)
            && (self.closed_else, self.limits) == (0, 0)
            && self.left.saturating_add(self.withdrawn) <= self.waited
            && self.opened.saturating_add(self.left) <= jobs
    }
}

// Each log has to be whole, and of the clock's moment alone.
fn check_whole<R: Abort>(rt: &R, logs: &[HostLog], name: &str) {
    for log in logs {
        assert!(rt; log.is_whole && log.is_at_clock, "{name}: {log:?}");
    }
}

/// The logs have to be those of jobs that ended as that peer has it. Each host still has the limit
/// of its plan, since its log tells of no other one.
pub(crate) fn check_logs<R: Abort>(rt: &R, logs: &[HostLog], peer: Peer, name: &str) {
    check_whole(rt, logs, name);
    for log in logs {
        assert!(rt; log.kinds.are_of(log.jobs, peer), "{name}: {log:?}");
    }
}

/// The logs have to be those of jobs that were all cancelled.
pub(crate) fn check_cancelled_logs<R: Abort>(rt: &R, logs: &[HostLog], name: &str) {
    check_whole(rt, logs, name);
    for log in logs {
        assert!(rt; log.kinds.are_cancelled(log.jobs), "{name}: {log:?}");
    }
}
