//! What one thread sees of a shared cache, and no clause says: that calls succeed in ample memory,
//! which connection is closed for room, what hosts that wait get, and how accounts are balanced.

use crate::caches::keeper::{Row, Step, run_all};
use crate::caches::thread_desk::{Said, Stream, WANT};
use crate::checks::check_eq;
use budget::{Limits, Refusal};
use conn_log::{Cause, Want};
use shared_cache::Plan;

static ROWS: [Row; 9] = [
    Row {
        name: "one waits for the total, and passes are missing",
        limits: (0, 1, 4),
        hosts: 2,
        steps: &[
            (Step::Get(1, 0, 0), Said::Opened(1, 0)),
            (Step::Get(2, 1, 1), Said::Waits),
            (Step::Look(0), Said::Look(1, 0, 1, 0, false)),
            (Step::Look(1), Said::Look(0, 0, 0, 1, true)),
            (Step::Gather, Said::Refused(Refusal::Busy(2))),
            (Step::Drop(1, 2), Said::Done),
            (Step::Claim(2), Said::Opened(1, 2)),
            (Step::Gather, Said::Refused(Refusal::Busy(1))),
            (Step::Drop(2, 3), Said::Done),
            (Step::Gather, Said::Refused(Refusal::PassesMissing)),
        ],
        account: Some((0, 0, &[(1, 0, 1, 0, 0), (1, 0, 1, 1, 0)])),
    },
    Row {
        name: "who waits for the host leaves",
        limits: (1, 0, 4),
        hosts: 1,
        steps: &[
            (Step::Get(1, 0, 0), Said::Opened(1, 0)),
            (Step::Get(2, 0, 0), Said::Waits),
            (Step::Claim(2), Said::Still),
            (Step::Leave(2, 1), Said::Left),
            (Step::Back(1, 2), Said::Done),
        ],
        account: Some((1, 1, &[(1, 0, 0, 1, 1)])),
    },
    Row {
        name: "no call takes a site that is not there",
        limits: (0, 0, 4),
        hosts: 2,
        steps: &[
            (Step::Get(1, 2, 0), Said::Refused(Refusal::BadSite)),
            (Step::Get(1, u32::MAX, 0), Said::Refused(Refusal::BadSite)),
            (Step::Limit(1, 2, 0), Said::Refused(Refusal::BadSite)),
            (Step::Limit(65_536, 2, 0), Said::Refused(Refusal::BadSite)),
            (Step::Look(2), Said::Refused(Refusal::BadSite)),
            (Step::Look(7), Said::Refused(Refusal::BadSite)),
            (Step::Told(0), Said::Told(None, 0, 0)),
            (Step::Told(1), Said::Told(None, 0, 0)),
        ],
        account: Some((0, 0, &[])),
    },
    Row {
        name: "what was spent with a pass that is given up is missing",
        limits: (0, 0, 4),
        hosts: 1,
        steps: &[
            (Step::Get(1, 0, 0), Said::Opened(1, 0)),
            (Step::Back(1, 1), Said::Done),
            (Step::Discard, Said::Done),
            (Step::Told(0), Said::Told(None, 0, 0)),
            (Step::Get(2, 0, 2), Said::Reused(1, 2)),
            (Step::Drop(2, 3), Said::Done),
            (Step::PutBy, Said::Done),
            (Step::Gather, Said::Refused(Refusal::PassesMissing)),
        ],
        account: None,
    },
    Row {
        name: "a pass with which nothing was spent may be given up",
        limits: (0, 0, 4),
        hosts: 1,
        steps: &[
            (Step::Get(1, 0, 0), Said::Opened(1, 0)),
            (Step::Discard, Said::Done),
            (Step::Drop(1, 1), Said::Done),
        ],
        account: Some((0, 0, &[(1, 0, 1, 0, 0)])),
    },
    Row {
        name: "two passes add up",
        limits: (0, 0, 4),
        hosts: 1,
        steps: &[
            (Step::Get(1, 0, 0), Said::Opened(1, 0)),
            (Step::Get(2, 0, 0), Said::Opened(2, 0)),
            (Step::Back(1, 1), Said::Done),
            (Step::PutBy, Said::Done),
            (Step::Told(0), Said::Told(None, 0, 0)),
            (Step::Back(2, 2), Said::Done),
            (Step::Gather, Said::Refused(Refusal::PassesMissing)),
        ],
        account: Some((2, 2, &[(2, 0, 0, 0, 2)])),
    },
    // as long idle as the prune allows, and as long open
    Row {
        name: "a prune is of all hosts",
        limits: (0, 0, 4),
        hosts: 3,
        steps: &[
            (Step::Get(1, 0, 0), Said::Opened(1, 0)),
            (Step::Get(2, 0, 0), Said::Opened(2, 0)),
            (Step::Get(3, 2, 0), Said::Opened(1, 0)),
            (Step::Back(1, 5), Said::Done),
            (Step::Back(2, 9), Said::Done),
            (Step::Back(3, 6), Said::Done),
            (Step::Prune(9, 4, 9), Said::Number(0)),
            (Step::Prune(10, 3, 0), Said::Number(2)),
            (Step::Entry(0, 4), Said::Closed(10, 1, Cause::Pruned)),
            (Step::Entry(2, 2), Said::Closed(10, 1, Cause::Pruned)),
            (Step::Upkeep, Said::Number(0)),
            (Step::Look(0), Said::Look(1, 1, 0, 0, false)),
            (Step::Prune(10, 100, 9), Said::Number(1)),
        ],
        account: Some((0, 0, &[(2, 0, 2, 0, 0), (0, 0, 0, 0, 0), (1, 0, 1, 0, 0)])),
    },
    Row {
        name: "what may not be leased again is closed",
        limits: (0, 0, 4),
        hosts: 1,
        steps: &[
            (Step::Ask(FORBIDS, 0, 0), Said::Opened(1, 0)),
            (Step::Back(9, 1), Said::Done),
            (Step::Entry(0, 2), Said::Closed(1, 1, Cause::Forbidden)),
            (Step::Get(2, 0, 2), Said::Opened(2, 2)),
            (Step::BackToClose(2, 3), Said::Done),
            (Step::Entry(0, 5), Said::Closed(3, 2, Cause::NotPersistent)),
        ],
        account: Some((0, 0, &[(2, 0, 2, 0, 0)])),
    },
    Row {
        name: "there may be 1,024 hosts",
        limits: (0, 0, 4),
        hosts: 1_024,
        steps: &[
            (Step::Get(1, 1_024, 0), Said::Refused(Refusal::BadSite)),
            (Step::Look(1_024), Said::Refused(Refusal::BadSite)),
            (Step::Look(1_023), Said::Look(0, 0, 0, 0, false)),
            (Step::Prune(1, 0, 0), Said::Number(0)),
        ],
        account: Some((0, 0, &[])),
    },
];

/// What transfer 9 wants, whose connection is not leased again.
const FORBIDS: Want = Want {
    transfer: 9,
    forbid_reuse: true,
    ..WANT
};

#[test]
fn one_thread_sees_that(rt: HostRuntime) {
    run_all(&rt, rt.alloc(), &ROWS);
}

#[test]
fn a_plan_is_for_1024_hosts_at_most(rt: HostRuntime) {
    let limits = Limits::new(0, 0, 4).expect(&rt, "memory");
    for &(hosts, expected) in &[
        (0, Ok(0)),
        (1_024, Ok(1_024)),
        (1_025, Err(Refusal::BadSite)),
    ] {
        let made: Result<Plan<Stream>, Refusal> = Plan::new(rt.alloc(), limits, hosts);
        check_eq(&rt, made.map(|plan| plan.hosts()), expected);
    }
}
