//! The command `many`: threads send requests over one shared cache, each many at once, and late
//! grants are counted.

ghost use Rattle.std.specs.Prelude.{◌≡◌};

mod run_clock;
mod task;
mod tools;

use crate::jobs::jobs_at;
use crate::many::run_clock::RunClock;
use crate::many::task::{Task, task_of};
use crate::many::tools::{alarms_of, tools_of};
use crate::statuses::{BAD_WORDS, status_of};
use crate::tally::Tally;
use budget::Limits;
use bundle::MOST_HOSTS;
use driver::{Finished, ListedJobs, ManyReport, NotBegun, run_many};
use exchange::Job;
use run_loop::RunEnd;
use shared_cache::{Names, Plan, SharedCache, discard_all};
use socket::{PolledDial, PolledWire};
use std::alloc::AllocGlobal;
use std::io::Write;
use std::marker::Brand;
use std::random::RandomSource;
use std::sync::Wait;
use std::thread::Threads;

/// Maximum number of idle connections.
const KEPT: u32 = 65_535;

/// Runs the command, prints its results, and returns the status.
pub(crate) fn load_many<R: Threads + Wait + RandomSource + AllocGlobal + Sync>(
    threads: &R,
    rt: &HostRuntime,
    words: &[String],
) -> u8 {
    match task_of(rt.alloc(), words) {
        Some(task) => status_of(done(threads, rt, &task)),
        None => BAD_WORDS,
    }
}

// Runs the task and prints its results. Returns true if each request has a good response; `None`
// if the run failed.
fn done<R: Threads + Wait + RandomSource + AllocGlobal + Sync>(
    threads: &R,
    rt: &HostRuntime,
    task: &Task,
) -> Option<bool> {
    let alloc = rt.alloc();
    let limits = Limits::new(0, task.total, KEPT).ok()?;
    if task.ports.is_empty() || task.ports.len() > MOST_HOSTS as usize {
        return None;
    }
    let hosts = task.ports.len() as u32;
    let plan: Plan<PolledWire> = Plan::new(alloc, limits, hosts).ok()?;
    let jobs = jobs_at(alloc, task.jobs, &task.ports).ok()?;
    let clock = RunClock::new(rt)?;
    let (end, tally) = carried::<Brand, R>(threads, rt, task, plan, &jobs, &clock)?;
    let late = clock.late();
    let Tally {
        good,
        failed,
        reused,
        retried,
        bytes,
    } = tally;
    println!(rt;
        "good {good} failed {failed} reused {reused} retried {retried} bytes {bytes} late {late}"
    ).ok()?;
    Some(end.is_complete() && failed == 0)
}

// Runs the jobs over a cache, and returns the end of the run and the sums over its jobs. `None` if
// it did not begin.
fn carried<N: Names + Send + Sync, R: Threads + Wait + RandomSource + AllocGlobal + Sync>(
    threads: &R,
    rt: &HostRuntime,
    task: &Task,
    plan: Plan<PolledWire>,
    jobs: &[Job],
    clock: &RunClock<'_>,
) -> Option<(RunEnd, Tally)>
    requires { plan ≡ N.names }
{
    let alloc = rt.alloc();
    let Ok(cache) = SharedCache::<PolledWire, N>::new(alloc, plan) else {
        return None;
    };
    let source = ListedJobs::new(alloc, jobs)?;
    let tools = tools_of(rt, task)?;
    let alarms = alarms_of(alloc, &tools)?;
    let count = jobs.len() as u64;
    let places = task.places as usize;
    match run_many(
        threads, alloc, &cache, &source, count, places, tools, &alarms, clock,
    ) {
        Ok(report) => {
            let ManyReport {
                end,
                drawn: _,
                workers,
            } = report;
            Some((end, tally_of(workers)))
        }
        Err(
            NotBegun {
                fault: _,
                tools: _,
                passes,
            },
        ) => {
            discard_all(passes);
            None
        }
    }
}

// Returns the sums over all jobs, and discards the passes.
fn tally_of(workers: Vec<Finished<PolledDial<'_, HostRuntime>, Tally>>) -> Tally {
    let mut workers = workers;
    let mut tally = Tally::new();
    while let Some(last) = workers.pop() {
        let Finished {
            dial: _,
            results,
            pass,
        } = last;
        tally.join(&results);
        pass.discard();
    }
    workers.destroy_empty();
    tally
}
