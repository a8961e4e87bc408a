//! Workers go on at once: a job may begin only once another one has ended, whichever is drawn
//! first.

use crate::checks::check_eq;
use crate::drivers::gates::{InOrder, Moment};
use crate::drivers::jobs::{SETUP, Setup};
use crate::drivers::whole::{check_good, whole_run};
use crate::making::plan_of;
use std::marker::Brand;

// Of three jobs, which one ends first, and which one begins then.
static ORDERS: [(u64, u64); 2] = [(2, 1), (1, 2)];

#[test]
fn one_begins_once_another_has_ended(rt: HostRuntime) {
    let setup = Setup {
        hosts: 3,
        total: 0,
        jobs: 3,
        for_bytes: true,
        ..SETUP
    };
    for row in &ORDERS {
        let (first, then) = *row;
        let plan = plan_of(&rt, 0, setup.total, setup.hosts);
        let gate = InOrder {
            first,
            then,
            end: Moment::new(),
        };
        let whole = whole_run::<Brand, InOrder, HostRuntime>(&rt, plan, &setup, &gate);
        check_good(&rt, whole.results(&rt, setup.workers, "in order"), 3);
        assert!(rt;
            gate.end.came_in_time(),
            "{then} begins before {first} has ended, as where memory for a thread is short"
        );
        check_eq(&rt, whole.all.opened, 3);
    }
}
