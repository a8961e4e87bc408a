//! Threads that share a cache: they come to an end by themselves, and what they were answered adds
//! up with what the cache counts.

ghost use Rattle.std.specs.Prelude.{◌≡◌};

use crate::caches::gathering::Passes;
use crate::caches::making::{new_cache, new_plan, push};
use crate::caches::thread_desk::{Desk, Stream};
use crate::caches::workers::{Job, Seen, Worker};
use crate::checks::check_eq;
use shared_cache::{Gathered, HostCount, Names, Plan, SharedCache};
use std::alloc::Global;
use std::marker::Brand;
use std::process::Abort;
use std::sync::Wait;
use std::thread::{Threads, for_each_mut};

// Does all jobs with one cache of that plan, each in a thread of its own; gives the account, and
// what all were answered.
fn share<N: Names + Send + Sync, R: Threads + Wait + Abort + Sync>(
    rt: &R,
    alloc: Global,
    plan: Plan<Stream>,
    jobs: &[Job],
) -> (Gathered<Stream>, Seen)
    requires { plan ≡ N.names }
{
    let cache: SharedCache<Stream, N> = new_cache(rt, alloc, plan);
    let mut workers = workers_for(rt, alloc, &cache, jobs);
    work_at_once(rt, &cache, &mut workers);
    let (passes, seen) = close_all(rt, alloc, workers);
    (passes.gathered(rt, alloc, cache), seen)
}

// A worker for each job, with a pass of its own.
fn workers_for<N: Names>(
    rt: &(impl Wait + Abort),
    alloc: Global,
    cache: &SharedCache<Stream, N>,
    jobs: &[Job],
) -> Vec<Worker<N>> {
    let mut workers = Vec::new(alloc);
    for place in 0..jobs.len() {
        let desk = Desk::new(rt, alloc, cache);
        push(
            rt,
            &mut workers,
            Worker::new(desk, jobs[place], place as u64),
        );
    }
    workers
}

// Lets all work at once.
fn work_at_once<N: Names + Send + Sync, R: Threads + Wait + Abort + Sync>(
    rt: &R,
    cache: &SharedCache<Stream, N>,
    workers: &mut Vec<Worker<N>>,
) {
    let threads = workers.len().max(1);
    for_each_mut(
        rt,
        workers,
        threads,
        &|_, worker: &mut Worker<N>| worker.work(rt, cache),
    );
}

// The passes of all, and what all were answered.
fn close_all<N: Names>(
    rt: &impl Abort,
    alloc: Global,
    workers: Vec<Worker<N>>,
) -> (Passes<N>, Seen) {
    let mut workers = workers;
    let mut passes = Passes::new(alloc);
    let mut seen = Seen::NONE;
    while let Some(worker) = workers.pop() {
        let (pass, own) = worker.close(rt);
        passes.put_by(rt, pass);
        seen = seen.and(own);
    }
    workers.destroy_empty();
    (passes, seen)
}

// Does all jobs under these limits. What the threads were answered and the account have to add up:
// nothing is leased, and nobody waits.
fn balanced<R: Threads + Wait + Abort + Sync>(
    rt: &R,
    alloc: Global,
    limits: (u32, u32, u32),
    hosts: u32,
    jobs: &[Job],
) -> (HostCount, Seen) {
    let plan = new_plan(rt, alloc, limits, hosts);
    let (gathered, seen) = share::<Brand, R>(rt, alloc, plan, jobs);
    let all = sum_of(&gathered.hosts);
    check_eq(rt, (gathered.total, gathered.kept), (all.alive, all.alive));
    check_eq(rt, all.opened, all.closed.saturating_add(all.alive));
    check_eq(rt, all.opened.saturating_add(all.reused), seen.starts);
    check_eq(rt, all.waited, seen.waits);
    (all, seen)
}

// What happened at all hosts.
fn sum_of(hosts: &[HostCount]) -> HostCount {
    let mut all = HostCount {
        opened: 0,
        reused: 0,
        closed: 0,
        waited: 0,
        alive: 0,
    };
    for host in hosts {
        all = HostCount {
            opened: all.opened.saturating_add(host.opened),
            reused: all.reused.saturating_add(host.reused),
            closed: all.closed.saturating_add(host.closed),
            waited: all.waited.saturating_add(host.waited),
            alive: all.alive.saturating_add(host.alive),
        };
    }
    all
}

// What a thread does that draws so many transfers, from that number on, at so many hosts.
fn drawn(first: u64, transfers: u64, hosts: u64) -> Job {
    Job::Drawn {
        first,
        transfers,
        hosts,
    }
}

// Each finds the other's connection idle, or leased: no host ever has more than two.
#[test]
fn two_threads_lease_a_hundred_times_each(rt: HostRuntime) {
    let jobs = [
        Job::InTurn {
            first: 0,
            transfers: 100,
        },
        Job::InTurn {
            first: 100,
            transfers: 100,
        },
    ];
    let (all, seen) = balanced(&rt, rt.alloc(), (0, 0, 4), 2, &jobs);
    check_eq(&rt, (seen.starts, all.closed, all.waited), (200, 0, 0));
}

#[test]
fn limits_change_while_four_threads_work(rt: HostRuntime) {
    let jobs = [
        drawn(0, 1_000, 2),
        drawn(1_000, 1_000, 2),
        drawn(2_000, 1_000, 2),
        drawn(3_000, 1_000, 2),
        Job::Limits {
            changes: 1_000,
            hosts: 2,
        },
    ];
    let (_all, seen) = balanced(&rt, rt.alloc(), (2, 6, 4), 2, &jobs);
    check_eq(&rt, seen.begun(), 4_000);
    // no limit is never refused
    assert!(rt; seen.changes > 0);
}

#[test]
fn four_threads_share_three_connections(rt: HostRuntime) {
    let jobs = [
        drawn(0, 5_000, 16),
        drawn(5_000, 5_000, 16),
        drawn(10_000, 5_000, 16),
        drawn(15_000, 5_000, 16),
    ];
    let (all, seen) = balanced(&rt, rt.alloc(), (0, 3, 2), 16, &jobs);
    check_eq(&rt, seen.begun(), 20_000);
    assert!(rt; all.alive <= 2);
    // a thread that has three waits, even where it runs alone
    assert!(rt; seen.left > 0 && seen.withdrawn > 0, "{seen:?}");
    assert!(rt;
        seen.waits > seen.left.saturating_add(seen.withdrawn),
        "{seen:?}"
    );
}
