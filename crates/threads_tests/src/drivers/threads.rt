//! How many workers a run may have, and the fault of one of them, which ends it.

use crate::checks::check_eq;
use crate::drivers::jobs::{SETUP, Setup};
use crate::drivers::peers::Peer;
use crate::drivers::whole::{check_good, whole_run};
use crate::making::plan_of;
use driver::{DriverFault, NoGate};
use std::marker::Brand;

// How many workers there are, and whether that is refused.
static ROWS: [(u32, bool); 4] = [(0, true), (1, false), (64, false), (65, true)];

#[test]
fn there_are_one_to_sixty_four_workers(rt: HostRuntime) {
    for row in &ROWS {
        let (workers, is_refused) = *row;
        let setup = Setup {
            workers,
            total: 0,
            jobs: 130,
            ..SETUP
        };
        let plan = plan_of(&rt, 0, setup.total, setup.hosts);
        let whole = whole_run::<Brand, NoGate, HostRuntime>(&rt, plan, &setup, &NoGate);
        if is_refused {
            let refusal = (Some(DriverFault::BadWorkers), 0);
            assert_eq!(rt; whole.refusal(), refusal, "{workers}");
        } else {
            check_good(&rt, whole.results(&rt, workers, "workers"), 130);
        }
    }
}

// The first worker's dial takes no turn, while all wait for answers that never come.
#[test]
fn a_failed_turn_ends_all(rt: HostRuntime) {
    for workers in 1..4u32 {
        let setup = Setup {
            workers,
            total: 0,
            peer: Peer::KeepsSilent,
            fails_turns: true,
            ..SETUP
        };
        let plan = plan_of(&rt, 0, setup.total, setup.hosts);
        let whole = whole_run::<Brand, NoGate, HostRuntime>(&rt, plan, &setup, &NoGate);
        let refusal = (Some(DriverFault::Poll), workers as usize);
        assert_eq!(rt; whole.refusal(), refusal, "{workers}");
        check_eq(&rt, whole.all.reused, 0);
    }
}
