//! Runs of one worker, whose logs are known entry by entry.

use crate::drivers::jobs::{SETUP, Setup};
use crate::drivers::logs::{Kinds, NO_ENTRIES, check_logs};
use crate::drivers::peers::Peer;
use crate::drivers::whole::whole_run;
use crate::making::plan_of;
use driver::NoGate;
use std::marker::Brand;

// A run of five jobs at two hosts, and the log that it leaves at each.
struct Row {
    name: &'static str,
    setup: Setup,
    logs: [Kinds; 2],
}

/// Five jobs by one worker: three at host 0, two at host 1.
const ALONE: Setup = Setup {
    workers: 1,
    jobs: 5,
    ..SETUP
};

static ROWS: [Row; 3] = [
    Row {
        name: "each connection makes room for the next",
        setup: ALONE,
        logs: [
            Kinds {
                opened: 3,
                returned: 3,
                evicted: 2,
                ..NO_ENTRIES
            },
            Kinds {
                opened: 2,
                returned: 2,
                evicted: 2,
                ..NO_ENTRIES
            },
        ],
    },
    Row {
        name: "each host reuses its connection",
        setup: Setup { total: 0, ..ALONE },
        logs: [
            Kinds {
                opened: 1,
                leased: 2,
                returned: 3,
                ..NO_ENTRIES
            },
            Kinds {
                opened: 1,
                leased: 1,
                returned: 2,
                ..NO_ENTRIES
            },
        ],
    },
    Row {
        name: "each read fails",
        setup: Setup {
            peer: Peer::Breaks,
            ..ALONE
        },
        logs: [
            Kinds {
                opened: 3,
                dropped: 3,
                ..NO_ENTRIES
            },
            Kinds {
                opened: 2,
                dropped: 2,
                ..NO_ENTRIES
            },
        ],
    },
];

#[test]
fn each_log_tells_of_its_jobs(rt: HostRuntime) {
    for row in &ROWS {
        let (name, setup) = (row.name, &row.setup);
        let plan = plan_of(&rt, 1, setup.total, setup.hosts);
        let whole = whole_run::<Brand, NoGate, HostRuntime>(&rt, plan, setup, &NoGate);
        check_logs(&rt, &whole.logs, setup.peer, name);
        assert_eq!(rt; whole.logs.len(), row.logs.len(), "{name}");
        for (log, kinds) in whole.logs.iter().zip(row.logs.iter()) {
            assert_eq!(rt; log.kinds, *kinds, "{name}");
        }
    }
}
