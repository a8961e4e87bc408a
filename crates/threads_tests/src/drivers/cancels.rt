//! Jobs that the gate cancels: nothing that they held is left.

use crate::checks::check_eq;
use crate::drivers::gates::{StopsAt, StopsWaiting};
use crate::drivers::jobs::{JOBS, SETUP, Setup};
use crate::drivers::logs::check_cancelled_logs;
use crate::drivers::peers::Peer;
use crate::drivers::whole::{Whole, whole_run};
use crate::making::{plan_of, push};
use exchange::{Done, Fault};
use std::alloc::AllocGlobal;
use std::marker::Brand;
use std::process::Abort;
use std::sync::atomic::AtomicU64;

/// A gate that cancels each job when it is asked for the nth time, or up to so many times later.
pub(crate) fn gate_of<R: Abort + AllocGlobal>(rt: &R, nth: u64, later: u64) -> StopsAt {
    let mut asked = Vec::new(rt.alloc());
    for _ in 0..JOBS {
        push(rt, &mut asked, AtomicU64::new(0));
    }
    StopsAt { nth, later, asked }
}

/// Each job has to have been cancelled.
pub(crate) fn check_cancelled<R: Abort>(rt: &R, results: &[Done], name: &str) {
    assert_eq!(rt; results.len() as u64, JOBS, "{name}");
    let is_cancelled = |done: &Done| *done == Done::Bad(Fault::Cancelled);
    assert!(rt; results.iter().all(is_cancelled), "{name}: {results:?}");
}

// When each job is cancelled, how much later at most, what its peer would do, and whether no
// connection is ever opened.
struct Row {
    name: &'static str,
    nth: u64,
    later: u64,
    peer: Peer,
    opens_none: bool,
}

static ROWS: [Row; 5] = [
    Row {
        name: "at once, where the peer answers",
        nth: 1,
        later: 0,
        peer: Peer::Answers,
        opens_none: true,
    },
    Row {
        name: "at once",
        nth: 1,
        later: 0,
        peer: Peer::KeepsSilent,
        opens_none: true,
    },
    Row {
        name: "at the second ask",
        nth: 2,
        later: 0,
        peer: Peer::KeepsSilent,
        opens_none: false,
    },
    Row {
        name: "at the third ask",
        nth: 3,
        later: 0,
        peer: Peer::KeepsSilent,
        opens_none: false,
    },
    Row {
        name: "at a drawn ask",
        nth: 1,
        later: 7,
        peer: Peer::KeepsSilent,
        opens_none: false,
    },
];

#[test]
fn each_job_is_cancelled(rt: HostRuntime) {
    for row in &ROWS {
        let setup = Setup {
            peer: row.peer,
            ..SETUP
        };
        let plan = plan_of(&rt, 0, setup.total, setup.hosts);
        let gate = gate_of(&rt, row.nth, row.later);
        let whole = whole_run::<Brand, StopsAt, HostRuntime>(&rt, plan, &setup, &gate);
        let name = row.name;
        check_cancelled(&rt, whole.results(&rt, setup.workers, name), name);
        check_cancelled_logs(&rt, &whole.logs, name);
        let counts = (whole.all.reused, whole.all.opened == 0);
        assert_eq!(rt; counts, (0, row.opens_none), "{name}");
    }
}

// Job 0 has to be answered and job 1 cancelled, which was granted so many connections.
fn check_waiting<R: Abort>(rt: &R, whole: &Whole, opened: u64, name: &str) {
    let results = whole.results(rt, 2, name);
    assert_eq!(rt; (results.len(), whole.hosts.len()), (2, 2));
    let is_good = matches!(results[0], Done::Good(_));
    let is_cancelled = results[1] == Done::Bad(Fault::Cancelled);
    assert!(rt; is_good && is_cancelled, "{name}: {results:?}");
    let (first, second) = (whole.hosts[0], whole.hosts[1]);
    check_eq(rt, (first.opened, first.closed, first.waited), (1, 1, 0));
    check_eq(
        rt,
        (second.opened, second.closed, second.waited),
        (opened, opened, 1),
    );
}

// Whether job 1 was granted what it waits for, and how many connections were opened at its host.
static WAITING: [(&str, bool, u64); 2] = [("not granted", false, 0), ("granted", true, 1)];

// Job 1 waits for the connection that job 0 holds, and is cancelled: before it is granted one, or
// after. Nothing else is closed but what it was granted, and the connection of job 0.
#[test]
fn one_that_waits_is_cancelled(rt: HostRuntime) {
    let setup = Setup {
        jobs: 2,
        for_bytes: true,
        peer: Peer::AnswersLater,
        ..SETUP
    };
    for row in &WAITING {
        let (name, is_granted, opened) = *row;
        let plan = plan_of(&rt, 0, setup.total, setup.hosts);
        let gate = StopsWaiting::new(is_granted);
        let whole = whole_run::<Brand, StopsWaiting, HostRuntime>(&rt, plan, &setup, &gate);
        assert!(rt;
            gate.came_in_time(),
            "{name}: not in time, as where memory for a thread is short"
        );
        check_waiting(&rt, &whole, opened, name);
    }
}
