//! Runs over a pool and connections in memory, with their whole reports.

ghost use Rattle.std.specs.Prelude.{◌<◌, length};
ghost use Rattle.std.specs.List.{All};

use crate::checks::check_eq;
use crate::driving::{OK, dial_of, job_at, pool_of, want_of, wire_of};
use exchange::{Clock, Done, Job, Prepared, Ready};
use exchange_memory::{Halt, MemoryDial, MemoryWire};
use futures::task::{Doorbell, Solo};
use persistence::Method;
use run_loop::{Draw, Jobs, MicroClock, Results, RunEnd, RunLoop, Span, Timer, Until, is_late};
use std::alloc::{AllocGlobal, Global};
use std::fmt::Write;
use std::process::Abort;
use std::random::RandomSource;
use std::sync::Wait;
use std::sync::atomic::{AtomicU64, Ordering};

/// Jobs that are due at once; each has its place as its number.
#[derive(Drop)]
struct Listed {
    alloc: Global,
    jobs: Vec<Job>,
    // What the job of a number would be that has no place.
    other: Job,
    drawn: Vec<u64>,
    ghost below: { All (λ number. number < length drawn.items) drawn.items },
}

impl Listed {
    fn new<R: Abort + AllocGlobal>(rt: &R, count: u64) -> Listed {
        let mut jobs = Vec::new(rt.alloc());
        for number in 0..count {
            jobs.push(get(rt, number)).expect(rt, "memory");
        }
        Listed {
            alloc: rt.alloc(),
            jobs,
            other: get(rt, count),
            drawn: Vec::with_capacity(rt.alloc(), 8).expect(rt, "memory"),
        }
    }
}

// A GET of the host by that transfer.
fn get<R: Abort + AllocGlobal>(rt: &R, transfer: u64) -> Job {
    job_at(rt, 0, Method::Get, "http://example.com/", want_of(transfer))
}

impl Jobs for Listed {
    ghost use Rattle.std.specs.Prelude.{⊤, slice_index_or};

    ghost job_at = { λ listed number. slice_index_or listed.jobs.items number listed.other };

    ghost drawn = { λ listed. listed.drawn.items };

    ghost is_over = { λ listed. ⊤ };

    ghost holds_none = { λ listed. ⊤ };

    ghost kept = { λ listed. tt };

    fn draw(&mut self, _now: u64) -> Draw {
        let number = self.drawn.len();
        if number >= self.jobs.len() {
            return Draw::Over;
        }
        let Ok(()) = self.drawn.push(number as u64) else {
            return Draw::Over;
        };
        Draw::Job(number as u64)
    }

    fn draw_early(&mut self) -> Option<u64> {
        None
    }

    fn prepare(&self, number: u64, spare: Option<Prepared>) -> Result<Prepared, Option<Prepared>> {
        let Some(job) = self.jobs.get(number as usize) else {
            return Err(spare);
        };
        if job.want.transfer != number {
            return Err(spare);
        }
        let Some(used) = spare else {
            return Prepared::new(self.alloc, job).map_err(|_| None);
        };
        used.again(job).map_err(|(left, _)| Some(left))
    }
}

/// A line for each result.
#[derive(Drop)]
struct Report {
    text: String,
    lines: u64,
    /// Whether no moment of a job is before an earlier one.
    is_ordered: bool,
}

impl Report {
    // A report without lines.
    fn new(alloc: Global) -> Report {
        Report {
            text: String::new(alloc),
            lines: 0,
            is_ordered: true,
        }
    }
}

// Whether the moments of a job stand in their order.
fn is_ordered(span: Span) -> bool {
    let leased = span.phases.leased.unwrap_or(span.began);
    let open = span.phases.open.unwrap_or(leased);
    let first_byte = span.phases.first_byte.unwrap_or(open);
    span.began <= leased && leased <= open && open <= first_byte && first_byte <= span.ended
}

impl Results for Report {
    ghost use Rattle.std.specs.Prelude.{⊤};

    ghost took = { λ old new number done span. ⊤ };

    fn take(&mut self, number: u64, done: Done, span: Span) {
        self.lines = self.lines.saturating_add(1);
        self.is_ordered &= is_ordered(span);
        let _ = match done {
            Done::Good(answer) => {
                let use_of = if answer.reused { "reused" } else { "new" };
                writeln!(
                    self.text,
                    "{number}: {}, {} bytes, {use_of}",
                    answer.status, answer.body_len
                )
            }
            Done::Bad(fault) => writeln!(self.text, "{number}: {fault:?}"),
        };
    }
}

/// It ends a run after so many looks, or breaks it off, and stands still else.
#[derive(Drop)]
struct Looks {
    left: AtomicU64,
    is_fault: bool,
}

impl Clock for Looks {
    ghost use Rattle.std.specs.Prelude.{⊤};

    ghost tells = { λ looks moment. ⊤ };

    fn now(&self) -> u64 {
        7
    }

    fn micros(&self) -> u64 {
        0
    }
}

impl MicroClock for Looks {
    ghost use Rattle.std.specs.Prelude.{⊤};

    ghost tells_micros = { λ clock moment. ⊤ };

    fn moment(&self) -> u64 {
        self.micros()
    }
}

impl Timer for Looks {
    ghost use Rattle.std.specs.Prelude.{⊤};

    ghost may_stop = { λ looks job. ⊤ };

    fn stops(&self, _number: u64, _began: u64, _now: u64) -> bool {
        false
    }

    fn is_over(&self) -> bool {
        self.left.fetch_sub(1, Ordering::SeqCst) == 0 && !self.is_fault
    }

    fn is_broken_off(&self) -> bool {
        self.left.load(Ordering::SeqCst) > MANY && self.is_fault
    }
}

/// It stops the job of one number so long after it began. Each look takes five milliseconds.
#[derive(Drop)]
struct Limited {
    micros: AtomicU64,
    number: u64,
    limit: u64,
}

impl Clock for Limited {
    ghost use Rattle.std.specs.Prelude.{⊤};

    ghost tells = { λ limited moment. ⊤ };

    fn now(&self) -> u64 {
        7
    }

    fn micros(&self) -> u64 {
        self.micros.fetch_add(5_000, Ordering::SeqCst)
    }
}

impl MicroClock for Limited {
    ghost use Rattle.std.specs.Prelude.{⊤};

    ghost tells_micros = { λ clock moment. ⊤ };

    fn moment(&self) -> u64 {
        self.micros()
    }
}

impl Timer for Limited {
    ghost use Rattle.std.specs.Prelude.{◌≡◌};

    ghost may_stop = { λ limited job. job ≡ limited.number };

    fn stops(&self, number: u64, began: u64, now: u64) -> bool {
        number == self.number && is_late(began, now, self.limit)
    }

    fn is_over(&self) -> bool {
        false
    }
}

/// More looks than any run here takes.
const MANY: u64 = 1_000;

// A connection that answers so many requests, and has nothing yet at its first read.
fn wire_for<R: Abort + AllocGlobal>(rt: &R, requests: u32) -> MemoryWire {
    let mut responses = Vec::new(rt.alloc());
    for _ in 0..requests {
        responses.extend_from_slice(OK).expect(rt, "memory");
    }
    let mut wire = wire_of(rt, &responses);
    wire.set_most_read(OK.len());
    wire.halt_read(1, Halt::NotYet);
    wire
}

// A dial of one connection that answers so many requests.
fn dial_for<R: Abort + AllocGlobal>(rt: &R, requests: u32) -> MemoryDial {
    dial_of(rt, wire_for(rt, requests))
}

// A dial of two such connections, whose turns find nothing for a while.
fn slow_dial<R: Abort + AllocGlobal>(rt: &R) -> MemoryDial {
    let mut dial = dial_for(rt, 4);
    dial.add(wire_for(rt, 4)).expect(rt, "memory");
    let script = [Ready::Nothing; 40];
    dial.tell(&script).expect(rt, "memory");
    dial
}

// Carries out so many jobs at two places, over a host that may have one connection; the timer ends
// the run after so many looks.
fn run_of<R: Abort + AllocGlobal + RandomSource + Wait>(
    rt: &R,
    count: u64,
    looks: u64,
    is_fault: bool,
    dial: &mut MemoryDial,
) -> (RunEnd, Report) {
    let timer = Looks {
        left: AtomicU64::new(looks),
        is_fault,
    };
    run_by(rt, count, &timer, dial)
}

// The same by a timer.
fn run_by<R: Abort + AllocGlobal + RandomSource + Wait, T: Timer>(
    rt: &R,
    count: u64,
    timer: &T,
    dial: &mut MemoryDial,
) -> (RunEnd, Report) {
    let task = Solo::new(rt, Doorbell::spinning()).expect(rt, "a task");
    let mut pool = pool_of(rt, 1);
    let mut jobs = Listed::new(rt, count);
    let mut report = Report::new(rt.alloc());
    let places = RunLoop::new(rt.alloc(), 2, 1, task).expect(rt, "memory");
    let end = places.run(rt, &mut pool, dial, &mut jobs, &mut report, timer);
    (end, report)
}

#[test]
fn two_places_share_one_connection(rt: HostRuntime) {
    let mut dial = dial_for(&rt, 4);
    let (end, report) = run_of(&rt, 4, MANY, false, &mut dial);
    check_eq(&rt, end, RunEnd::Complete);
    check_eq(
        &rt,
        report.text.as_str(),
        "0: 200, 2 bytes, new\n\
         1: 200, 2 bytes, reused\n\
         2: 200, 2 bytes, reused\n\
         3: 200, 2 bytes, reused\n",
    );
}

#[test]
fn a_run_that_is_stopped_cancels_what_is_under_way(rt: HostRuntime) {
    let mut dial = dial_for(&rt, 4);
    let (end, report) = run_of(&rt, 4, 1, false, &mut dial);
    check_eq(&rt, end, RunEnd::Stopped);
    check_eq(&rt, report.text.as_str(), "1: Cancelled\n0: Cancelled\n");
}

#[test]
fn a_run_that_is_broken_off_cancels_what_is_under_way(rt: HostRuntime) {
    let mut dial = dial_for(&rt, 4);
    let (end, report) = run_of(&rt, 4, 1, true, &mut dial);
    check_eq(&rt, end, RunEnd::BrokenOff);
    check_eq(&rt, report.text.as_str(), "1: Cancelled\n0: Cancelled\n");
}

/// The event that a call waits for, and the results of two jobs when it returns.
static EVENTS: [(Until, &str); 3] = [
    (Until::Begun, ""),
    (Until::Freed, "0: 200, 2 bytes, new\n"),
    (
        Until::Ended,
        "0: 200, 2 bytes, new\n\
         1: 200, 2 bytes, reused\n",
    ),
];

// Carries out two jobs by a call that returns after that event, and another call until their end.
// Returns the report of the first call, and that of both.
fn run_after<R: Abort + AllocGlobal + RandomSource + Wait>(
    rt: &R,
    until: Until,
) -> (String, String) {
    let task = Solo::new(rt, Doorbell::spinning()).expect(rt, "a task");
    let timer = Looks {
        left: AtomicU64::new(MANY),
        is_fault: false,
    };
    let mut pool = pool_of(rt, 1);
    let mut dial = dial_for(rt, 2);
    let mut jobs = Listed::new(rt, 2);
    let mut report = Report::new(rt.alloc());
    // with a place more than jobs, the first round finds that no job is left
    let mut run = RunLoop::new(rt.alloc(), 3, 1, task).expect(rt, "memory");
    let end = run.run_on(
        until,
        rt,
        &mut pool,
        &mut dial,
        &mut jobs,
        &mut report,
        &timer,
    );
    check_eq(rt, end, RunEnd::Complete);
    let first = String::from_str(rt.alloc(), report.text.as_str()).expect(rt, "memory");
    let end = run.finish(rt, &mut pool, &mut dial, &mut jobs, &mut report, &timer);
    check_eq(rt, end, RunEnd::Complete);
    (first, report.text)
}

#[test]
fn a_call_returns_after_what_it_waits_for(rt: HostRuntime) {
    for (until, lines) in &EVENTS {
        let (first, both) = run_after(&rt, *until);
        check_eq(&rt, first.as_str(), *lines);
        check_eq(
            &rt,
            both.as_str(),
            "0: 200, 2 bytes, new\n\
             1: 200, 2 bytes, reused\n",
        );
    }
}

// Two ends, and the worse of them.
static WORSE: [(RunEnd, RunEnd, RunEnd); 7] = [
    (RunEnd::Complete, RunEnd::Complete, RunEnd::Complete),
    (RunEnd::Complete, RunEnd::Stopped, RunEnd::Stopped),
    (RunEnd::Complete, RunEnd::TurnFailed, RunEnd::TurnFailed),
    (RunEnd::Stopped, RunEnd::BrokenOff, RunEnd::BrokenOff),
    (RunEnd::Stopped, RunEnd::TurnFailed, RunEnd::TurnFailed),
    (RunEnd::BrokenOff, RunEnd::BrokenOff, RunEnd::BrokenOff),
    (RunEnd::BrokenOff, RunEnd::TurnFailed, RunEnd::TurnFailed),
];

#[test]
fn the_worse_of_two_ends(rt: HostRuntime) {
    for (one, other, worse) in &WORSE {
        check_eq(&rt, one.or_worse(*other), *worse);
        check_eq(&rt, other.or_worse(*one), *worse);
    }
}

#[test]
fn a_turn_that_fails_ends_a_run(rt: HostRuntime) {
    let mut dial = dial_for(&rt, 4);
    dial.fail_turn(1);
    let (end, report) = run_of(&rt, 4, MANY, false, &mut dial);
    check_eq(&rt, end, RunEnd::TurnFailed);
    check_eq(&rt, report.text.as_str(), "1: Cancelled\n0: Cancelled\n");
}

/// The job that is over its limit, and the report of four jobs.
static LIMITS: [(u64, &str); 4] = [
    // the one that has the connection: the next one opens another
    (
        0,
        "0: Cancelled\n\
         1: 200, 2 bytes, new\n\
         2: 200, 2 bytes, reused\n\
         3: 200, 2 bytes, reused\n",
    ),
    // the one that waits for it
    (
        1,
        "1: Cancelled\n\
         0: 200, 2 bytes, new\n\
         2: 200, 2 bytes, reused\n\
         3: 200, 2 bytes, reused\n",
    ),
    // one that has not begun by then
    (
        2,
        "0: 200, 2 bytes, new\n\
         1: 200, 2 bytes, reused\n\
         2: 200, 2 bytes, reused\n\
         3: 200, 2 bytes, reused\n",
    ),
    // none
    (
        9,
        "0: 200, 2 bytes, new\n\
         1: 200, 2 bytes, reused\n\
         2: 200, 2 bytes, reused\n\
         3: 200, 2 bytes, reused\n",
    ),
];

#[test]
fn a_job_over_its_limit_is_cancelled(rt: HostRuntime) {
    for (number, lines) in &LIMITS {
        let mut dial = slow_dial(&rt);
        let timer = Limited {
            micros: AtomicU64::new(0),
            number: *number,
            limit: 100_000,
        };
        let (end, report) = run_by(&rt, 4, &timer, &mut dial);
        check_eq(&rt, end, RunEnd::Complete);
        check_eq(&rt, report.text.as_str(), *lines);
        assert!(rt; report.is_ordered, "{number}");
    }
}

/// It stands still, and counts how often the loop came to have waiters, and to have none.
#[derive(Drop)]
struct Noted {
    began: AtomicU64,
    ended: AtomicU64,
}

impl Clock for Noted {
    ghost use Rattle.std.specs.Prelude.{⊤};

    ghost tells = { λ noted moment. ⊤ };

    fn now(&self) -> u64 {
        7
    }

    fn micros(&self) -> u64 {
        0
    }
}

impl MicroClock for Noted {
    ghost use Rattle.std.specs.Prelude.{⊤};

    ghost tells_micros = { λ clock moment. ⊤ };

    fn moment(&self) -> u64 {
        self.micros()
    }
}

impl Timer for Noted {
    ghost may_stop = { λ noted job. ⊥ };

    fn stops(&self, _number: u64, _began: u64, _now: u64) -> bool {
        false
    }

    fn is_over(&self) -> bool {
        false
    }

    fn note_waiters(&self, has_waiters: bool) {
        let count = if has_waiters {
            &self.began
        } else {
            &self.ended
        };
        count.fetch_add(1, Ordering::SeqCst);
    }
}

/// Maximum number of connections to the host; true if one of two transfers has to wait.
static WAITS: [(u32, bool); 2] = [(1, true), (2, false)];

#[test]
fn a_loop_records_whether_it_has_waiters(rt: HostRuntime) {
    for (limit, waits) in &WAITS {
        let mut dial = slow_dial(&rt);
        let timer = Noted {
            began: AtomicU64::new(0),
            ended: AtomicU64::new(0),
        };
        let task = Solo::new(&rt, Doorbell::spinning()).expect(&rt, "a task");
        let mut pool = pool_of(&rt, *limit);
        let mut jobs = Listed::new(&rt, 4);
        let mut report = Report::new(rt.alloc());
        let places = RunLoop::new(rt.alloc(), 2, 1, task).expect(&rt, "memory");
        let end = places.run(&rt, &mut pool, &mut dial, &mut jobs, &mut report, &timer);
        check_eq(&rt, end, RunEnd::Complete);
        check_eq(&rt, report.lines, 4);
        let began = timer.began.load(Ordering::SeqCst);
        check_eq(&rt, began > 0, *waits);
        check_eq(&rt, timer.ended.load(Ordering::SeqCst), began);
    }
}

/// A report whose output blocks for two seconds at each line.
#[derive(Drop)]
struct Blocking<'a> {
    report: Report,
    clock: &'a Limited,
}

impl Results for Blocking<'_> {
    ghost use Rattle.std.specs.Prelude.{⊤};

    ghost took = { λ old new number done span. ⊤ };

    fn take(&mut self, number: u64, done: Done, span: Span) {
        self.report.take(number, done, span);
        self.clock.micros.fetch_add(2_000_000, Ordering::SeqCst);
    }
}

#[test]
fn a_blocked_output_does_not_count_against_a_limit(rt: HostRuntime) {
    let mut wire = wire_for(&rt, 2);
    // the second job's response has not arrived when its request is sent
    wire.halt_read(2, Halt::NotYet);
    let mut dial = dial_of(&rt, wire);
    let script = [Ready::Nothing; 8];
    dial.tell(&script).expect(&rt, "memory");
    let timer = Limited {
        micros: AtomicU64::new(0),
        number: 1,
        limit: 1_000_000,
    };
    let task = Solo::new(&rt, Doorbell::spinning()).expect(&rt, "a task");
    let mut pool = pool_of(&rt, 1);
    let mut jobs = Listed::new(&rt, 2);
    let mut results = Blocking {
        report: Report::new(rt.alloc()),
        clock: &timer,
    };
    let places = RunLoop::new(rt.alloc(), 2, 1, task).expect(&rt, "memory");
    let end = places.run(&rt, &mut pool, &mut dial, &mut jobs, &mut results, &timer);
    check_eq(&rt, end, RunEnd::Complete);
    check_eq(
        &rt,
        results.report.text.as_str(),
        "0: 200, 2 bytes, new\n\
         1: 200, 2 bytes, reused\n",
    );
}
