//! Runs whose jobs all end alike, and what each result tells.

use crate::drivers::jobs::{SETUP, Setup};
use crate::drivers::logs::check_logs;
use crate::drivers::peers::Peer;
use crate::drivers::whole::whole_run;
use crate::making::plan_of;
use driver::NoGate;
use exchange::{Done, Fault};
use std::marker::Brand;
use std::process::Abort;

// A run, and what it leaves.
struct Row {
    name: &'static str,
    setup: Setup,
    // How often a connection was opened or leased again.
    starts: u64,
    // How often one was opened, where that is known.
    opened: Option<u64>,
}

static ROWS: [Row; 5] = [
    Row {
        name: "two hosts share one connection",
        setup: Setup { jobs: 200, ..SETUP },
        starts: 200,
        opened: None,
    },
    Row {
        name: "each read fails",
        setup: Setup {
            peer: Peer::Breaks,
            ..SETUP
        },
        starts: 20,
        opened: Some(20),
    },
    Row {
        name: "each job gets its own answer",
        setup: Setup {
            workers: 4,
            hosts: 3,
            total: 2,
            jobs: 100,
            for_bytes: true,
            ..SETUP
        },
        starts: 100,
        opened: None,
    },
    Row {
        name: "one host has one connection",
        setup: Setup {
            workers: 4,
            hosts: 1,
            jobs: 2_000,
            ..SETUP
        },
        starts: 2_000,
        opened: None,
    },
    Row {
        name: "no jobs",
        setup: Setup {
            workers: 3,
            hosts: 1,
            total: 0,
            jobs: 0,
            ..SETUP
        },
        starts: 0,
        opened: Some(0),
    },
];

// Each job has to end as that peer has it.
fn check_results<R: Abort>(rt: &R, row: &Row, results: &[Done]) {
    let name = row.name;
    assert_eq!(rt; results.len() as u64, row.setup.jobs, "{name}");
    for (number, done) in results.iter().enumerate() {
        let bytes = if row.setup.for_bytes {
            number as u64
        } else {
            0
        };
        let is_right = match done {
            Done::Good(answer) => {
                let told = (answer.status, answer.body_len, answer.retried);
                row.setup.peer == Peer::Answers && told == (200, bytes, false)
            }
            Done::Bad(fault) => row.setup.peer == Peer::Breaks && *fault == Fault::Read,
        };
        assert!(rt; is_right, "{name}: {number}: {done:?}");
    }
}

#[test]
fn each_job_has_its_result(rt: HostRuntime) {
    for row in &ROWS {
        let (name, setup) = (row.name, &row.setup);
        let plan = plan_of(&rt, 0, setup.total, setup.hosts);
        let whole = whole_run::<Brand, NoGate, HostRuntime>(&rt, plan, setup, &NoGate);
        check_results(&rt, row, whole.results(&rt, setup.workers, name));
        check_logs(&rt, &whole.logs, setup.peer, name);
        let opened = whole.all.opened;
        let counts = (opened.saturating_add(whole.all.reused), opened);
        let expected = (row.starts, row.opened.unwrap_or(opened));
        assert_eq!(rt; counts, expected, "{name}");
    }
}
