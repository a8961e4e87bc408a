//! Jobs that a runner runs over a pool, and what stops them.

use crate::checks::check_eq;
use crate::driving::{
    GOOD, KEEP, NOW, OK, WANT, cache_with_other, check_pool, close, closed, dial_of,
    dial_of_two_answers, job_at, leased, opened, pool_of, returned, want_of, wire_of,
};
use conn_log::Cause;
use exchange::{Answer, Done, Fault, JobControl, JobRun, JobRunner, JobStop};
use exchange_memory::{FixedClock, Halt, MemoryDial};
use futures::task::{Doorbell, Solo};
use persistence::Method;
use std::alloc::AllocGlobal;
use std::process::Abort;
use std::random::RandomSource;
use std::sync::atomic::{AtomicU64, Ordering};

/// Stops a job before or after so many polls, and counts what it is told.
#[derive(Drop)]
struct PollCount {
    most_begun: u64,
    most_pending: u64,
    begun: AtomicU64,
    polls: AtomicU64,
    pending: AtomicU64,
    waits: AtomicU64,
}

impl PollCount {
    fn new(most_begun: u64, most_pending: u64) -> PollCount {
        PollCount {
            most_begun,
            most_pending,
            begun: AtomicU64::new(0),
            polls: AtomicU64::new(0),
            pending: AtomicU64::new(0),
            waits: AtomicU64::new(0),
        }
    }
}

impl JobControl for PollCount {
    type Reason = &'static str;

    ghost use Rattle.std.specs.Prelude.{⊤};

    ghost stops_for = { λ count reason. ⊤ };

    fn begin(&self) {
        self.begun.fetch_add(1, Ordering::SeqCst);
    }

    fn stop_before_poll(&self) -> Option<&'static str> {
        (self.polls.fetch_add(1, Ordering::SeqCst) == self.most_begun).then_some("before")
    }

    fn stop_after_poll(&self) -> Option<&'static str> {
        (self.pending.fetch_add(1, Ordering::SeqCst) == self.most_pending).then_some("after")
    }

    fn wait_for_grant(&self, rings: u64) {
        self.waits
            .fetch_add(1u64.saturating_add(rings), Ordering::SeqCst);
    }

    fn stop_at_last(&self) -> &'static str {
        "last"
    }
}

/// More polls than any run here takes.
const MANY: u64 = 1_000;

// A runner that has run no job.
fn runner_of<R: Abort + AllocGlobal + RandomSource>(rt: &R) -> JobRunner {
    let task = Solo::new(rt, Doorbell::spinning()).expect(rt, "a task");
    JobRunner::new(rt.alloc(), task)
}

#[test]
fn a_runner_runs_two_jobs_over_one_connection(rt: HostRuntime) {
    let mut dial = dial_of_two_answers(&rt);
    let mut pool = pool_of(&rt, 1);
    let clock = FixedClock { now: NOW };
    let control = PollCount::new(MANY, MANY);
    let mut runner = runner_of(&rt);
    for number in 1..3 {
        let job = job_at(&rt, 0, Method::Get, "http://example.com/", want_of(number));
        let ran = runner.run(&job, &mut pool, &mut dial, &clock, &control);
        let answer = Answer {
            reused: number == 2,
            ..GOOD
        };
        let good = JobRun {
            done: Done::Good(answer),
            retried: false,
            stop: None,
        };
        check_eq(&rt, ran, Ok(good));
    }
    let begun = control.begun.load(Ordering::SeqCst);
    let polls = control.polls.load(Ordering::SeqCst);
    let pending = control.pending.load(Ordering::SeqCst);
    check_eq(&rt, (begun, polls, pending), (2, 3, 1));
    check_pool(
        &rt,
        &pool,
        &[
            opened(1, want_of(1), NOW),
            returned(1, KEEP, NOW),
            leased(1, want_of(2), NOW),
            returned(1, KEEP, NOW),
        ],
    );
}

/// A job that stops: before or after how many polls, whether the first turn fails, why it stops,
/// and whether its transfer had begun.
struct Row {
    most_begun: u64,
    most_pending: u64,
    turn_fails: bool,
    stop: JobStop<&'static str>,
    has_begun: bool,
}

const TABLE: [Row; 4] = [
    Row {
        most_begun: 0,
        most_pending: MANY,
        turn_fails: false,
        stop: JobStop::Control("before"),
        has_begun: false,
    },
    Row {
        most_begun: 1,
        most_pending: MANY,
        turn_fails: false,
        stop: JobStop::Control("before"),
        has_begun: true,
    },
    Row {
        most_begun: MANY,
        most_pending: 0,
        turn_fails: true,
        stop: JobStop::Control("after"),
        has_begun: true,
    },
    Row {
        most_begun: MANY,
        most_pending: MANY,
        turn_fails: true,
        stop: JobStop::TurnFailed,
        has_begun: true,
    },
];

#[test]
fn a_job_that_stops_is_cancelled(rt: HostRuntime) {
    for row in &TABLE {
        check_stop(&rt, row);
    }
}

fn check_stop<R: Abort + AllocGlobal + RandomSource>(rt: &R, row: &Row) {
    let mut wire = wire_of(rt, OK);
    wire.halt_read(1, Halt::NotYet);
    let mut dial = dial_of(rt, wire);
    if row.turn_fails {
        dial.fail_turn(1);
    }
    let mut pool = pool_of(rt, 1);
    let clock = FixedClock { now: NOW };
    let control = PollCount::new(row.most_begun, row.most_pending);
    let mut runner = runner_of(rt);
    let job = job_at(rt, 0, Method::Get, "http://example.com/", WANT);
    let ran = runner.run(&job, &mut pool, &mut dial, &clock, &control);
    let cancelled = JobRun {
        done: Done::Bad(Fault::Cancelled),
        retried: false,
        stop: Some(row.stop),
    };
    check_eq(rt, ran, Ok(cancelled));
    if row.has_begun {
        let entries = [opened(1, WANT, NOW), closed(1, Cause::Dropped, NOW)];
        check_pool(rt, &pool, &entries);
    } else {
        check_pool(rt, &pool, &[]);
    }
}

#[test]
fn a_job_waits_for_a_grant(rt: HostRuntime) {
    let mut cache = cache_with_other(&rt, 1, wire_of(&rt, OK));
    cache.release_after(2);
    let mut dial = MemoryDial::new(rt.alloc());
    let clock = FixedClock { now: NOW };
    let control = PollCount::new(MANY, MANY);
    let mut runner = runner_of(&rt);
    let job = job_at(&rt, 0, Method::Get, "http://example.com/", WANT);
    let ran = runner.run(&job, &mut cache, &mut dial, &clock, &control);
    let _pool = close(&rt, cache);
    let answer = Answer {
        reused: true,
        ..GOOD
    };
    let good = JobRun {
        done: Done::Good(answer),
        retried: false,
        stop: None,
    };
    check_eq(&rt, ran, Ok(good));
    check_eq(&rt, control.waits.load(Ordering::SeqCst), 2);
}
