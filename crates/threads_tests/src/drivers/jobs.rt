//! The jobs of a run, and the dials of its workers. A call that is refused memory comes again.

use crate::drivers::peers::{Peer, PeerDial};
use crate::making::{push, want_of};
use conn_key::{CountedMemory, Target, read_target};
use exchange::Job;
use persistence::Method;
use std::alloc::{AllocGlobal, Global};
use std::process::Abort;

/// What a run is of.
#[derive(Clone, Copy)]
pub(crate) struct Setup {
    pub(crate) workers: u32,
    pub(crate) hosts: u32,
    /// How many connections there are in all at most; 0 is no limit.
    pub(crate) total: u32,
    pub(crate) jobs: u64,
    /// Each job asks for as many bytes as its number is, and else for none.
    pub(crate) for_bytes: bool,
    pub(crate) peer: Peer,
    /// Each turn of the first worker's dial fails.
    pub(crate) fails_turns: bool,
}

/// How many jobs a run has, where it says nothing else.
pub(crate) const JOBS: u64 = 20;

/// So many jobs at two hosts that share one connection, by two workers.
pub(crate) const SETUP: Setup = Setup {
    workers: 2,
    hosts: 2,
    total: 1,
    jobs: JOBS,
    for_bytes: false,
    peer: Peer::Answers,
    fails_turns: false,
};

// The target of a request to the host of that site for so many bytes.
fn target_of(alloc: Global, site: u32, bytes: u64) -> Option<Target> {
    let mut memory = CountedMemory::new(alloc);
    let Ok(url) = format!(in alloc; "http://h{site}.example/{bytes}") else {
        return None;
    };
    read_target(&mut memory, url.as_str()).ok()
}

/// So many jobs, in turn at so many hosts: what transfer each one is, and the bytes that it asks
/// for, is its number, but where those are to be none.
pub(crate) fn jobs_of<R: Abort + AllocGlobal>(
    rt: &R,
    number: u64,
    hosts: u32,
    for_bytes: bool,
) -> Vec<Job> {
    let mut jobs = Vec::new(rt.alloc());
    let mut site = 0;
    for transfer in 0..number {
        let bytes = if for_bytes { transfer } else { 0 };
        push(rt, &mut jobs, job_of(rt, site, transfer, bytes));
        site = if site.saturating_add(1) < hosts {
            site.saturating_add(1)
        } else {
            0
        };
    }
    jobs
}

// A job of that transfer at that site, for so many bytes.
fn job_of<R: Abort + AllocGlobal>(rt: &R, site: u32, transfer: u64, bytes: u64) -> Job {
    let target = match target_of(rt.alloc(), site, bytes) {
        Some(target) => target,
        None => target_of(rt.alloc(), site, bytes).expect(rt, "a target"),
    };
    Job {
        site,
        want: want_of(transfer),
        method: Method::Get,
        target,
    }
}

/// The dials of a run's workers.
pub(crate) fn dials_of<R: Abort + AllocGlobal>(rt: &R, setup: &Setup) -> Vec<PeerDial> {
    let mut dials = Vec::new(rt.alloc());
    for worker in 0..setup.workers {
        let fails_turns = setup.fails_turns && worker == 0;
        push(rt, &mut dials, PeerDial::new(setup.peer, fails_turns));
    }
    dials
}
