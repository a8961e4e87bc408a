//! The command `load each`: threads send requests over one shared cache, and each request has a
//! line.

mod running;
mod task;

use crate::jobs::{jobs_at, print_line};
use crate::loading::running::{Ran, run_jobs};
use crate::loading::task::{Task, task_of};
use crate::statuses::{BAD_WORDS, status_of};
use crate::tally::Tally;
use budget::Limits;
use bundle::MOST_HOSTS;
use load_report::totals;
use shared_cache::HostCount;
use std::alloc::AllocGlobal;
use std::io::Write;
use std::random::RandomSource;
use std::sync::Wait;
use std::thread::Threads;

/// Maximum number of idle connections.
const KEPT: u32 = 65_535;

/// Runs the command, prints its results, and returns the status.
pub(crate) fn load_each<R: Threads + Wait + RandomSource + AllocGlobal + Sync>(
    threads: &R,
    rt: &HostRuntime,
    words: &[String],
) -> u8 {
    let Some(task) = task_of(rt.alloc(), words) else {
        return BAD_WORDS;
    };
    let Some(ran) = ran_by(threads, rt, &task) else {
        return status_of(None);
    };
    status_of(print_loaded(rt, &ran))
}

// Runs the jobs of the task. `None` if they could not begin.
fn ran_by<R: Threads + Wait + RandomSource + AllocGlobal + Sync>(
    threads: &R,
    rt: &HostRuntime,
    task: &Task,
) -> Option<Ran> {
    let alloc = rt.alloc();
    let limits = Limits::new(0, task.total, KEPT).ok()?;
    if task.ports.is_empty() || task.ports.len() > MOST_HOSTS as usize {
        return None;
    }
    let jobs = jobs_at(alloc, task.jobs, &task.ports).ok()?;
    run_jobs(threads, rt, limits, &task.ports, &jobs, task.workers)
}

// Prints a line for each job, with its path, and the sums. `None` if printing failed.
fn print_loaded(rt: &HostRuntime, ran: &Ran) -> Option<bool> {
    let mut tally = Tally::new();
    for (number, done) in ran.results.iter().enumerate() {
        let path = format!(in rt.alloc(); "/{number}").ok()?;
        print_line(rt, path.as_str(), done)?;
        tally.add(done);
    }
    print_tally(rt, &tally, totals(&ran.gathered.hosts))
}

// Prints the sums over all jobs and all hosts. `None` if printing failed.
fn print_tally(rt: &HostRuntime, tally: &Tally, hosts: HostCount) -> Option<bool> {
    let Tally {
        good,
        failed,
        reused,
        retried,
        bytes,
    } = *tally;
    let HostCount {
        opened,
        closed,
        alive,
        ..
    } = hosts;
    let jobs = good.saturating_add(failed);
    println!(rt;
        "good {good} of {jobs} reused {reused} retried {retried} opened {opened} closed {closed} \
            alive {alive} bytes {bytes}"
    )
    .ok()?;
    Some(true)
}
