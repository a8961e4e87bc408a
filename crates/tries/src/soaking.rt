//! The command `soak`: threads, each with one desk and one pass for its whole life, send requests
//! over one shared cache for a time, compare the length of each response, and cut the logs.

mod counts;
mod course;
mod crew;
mod requester;
mod requesting;
mod task;
mod time_limit;
mod worker;

use crate::soaking::counts::Counts;
use crate::soaking::course::Course;
use crate::soaking::crew::soaked;
use crate::soaking::task::{Task, task_of};
use crate::statuses::{BAD_WORDS, status_of};
use budget::Limits;
use load_report::totals;
use shared_cache::{Gathered, HostCount, Plan};
use socket::{SystemClock, WaitingWire};
use std::io::Write;
use std::marker::Brand;
use std::sync::Wait;
use std::thread::Threads;

/// Maximum number of idle connections.
const KEPT: u32 = 64;

/// Runs the command, and prints the account. Returns the status, `FAILED` if that does not balance.
pub(crate) fn soak<R: Threads + Wait + Sync>(
    threads: &R,
    rt: &HostRuntime,
    words: &[String],
) -> u8 {
    match task_of(rt.alloc(), words) {
        Some(task) => status_of(done(threads, rt, &task)),
        None => BAD_WORDS,
    }
}

// Runs the task, and prints its account. Returns true if that balances; `None` if the run failed.
fn done<R: Threads + Wait + Sync>(rt: &R, system: &HostRuntime, task: &Task) -> Option<bool> {
    let (plan, clock) = plan_of(system, task)?;
    let course = Course {
        system,
        clock,
        seconds: task.seconds,
        ports: task.ports.as_slice(),
        counts: Counts::new(),
    };
    let gathered = soaked::<Brand, R>(rt, &course, plan, task.threads);
    print_account(&course, gathered)
}

// Returns the plan of the task's cache, and the system's clock.
fn plan_of<'n>(
    system: &'n HostRuntime,
    task: &Task,
) -> Option<(Plan<WaitingWire>, SystemClock<'n, HostRuntime>)> {
    let limits = Limits::new(0, task.total, KEPT).ok()?;
    let hosts = u32::try_from(task.ports.len()).ok()?;
    let clock = SystemClock::new(system).ok()?;
    let plan: Plan<WaitingWire> = Plan::new(system.alloc(), limits, hosts).ok()?;
    Some((plan, clock))
}

// Prints the counts and the account. Returns true if that balances; `None` if printing failed.
fn print_account(course: &Course<'_>, gathered: Option<Gathered<WaitingWire>>) -> Option<bool> {
    let gathered = gathered?;
    course.counts.print(course.system, course.minutes())?;
    let HostCount {
        opened,
        reused,
        closed,
        waited,
        alive,
    } = totals(&gathered.hosts);
    let total = gathered.total;
    println!(course.system;
        "total {total} opened {opened} leased again {reused} closed {closed} waited {waited} \
            alive {alive}"
    )
    .ok()?;
    Some(total == alive && opened.saturating_sub(closed) == alive && closed <= opened)
}
