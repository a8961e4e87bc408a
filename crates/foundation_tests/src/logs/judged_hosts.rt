//! Several hosts under one total limit: each entry is judged at its host.
use crate::checks::check_eq;
use crate::logs::entries::{Happened, Step, closed, entry_of, leased, limited, waited};
use budget::Limits;
use conn_log::Cause;
use log_judge::{Fault, Monitor, Violation};
use std::alloc::Global;
use std::process::Abort;

/// A monitor of so many hosts at which these steps were taken: at most two connections are open
/// at each host, two in total, and one is kept.
fn monitor_of(
    rt: &impl Abort,
    alloc: Global,
    hosts: u32,
    steps: &[(u32, Step)],
) -> Result<Monitor, Fault> {
    let limits = Limits::new(2, 2, 1).expect(rt, "limits");
    let Ok(mut monitor) = Monitor::new(alloc, limits, hosts) else {
        return Err(Fault::Memory);
    };
    for (site, happened) in steps {
        assert!(rt; *site < monitor.len());
        monitor.step(*site, entry_of(happened))?;
    }
    Ok(monitor)
}

/// Two hosts: a connection is in use at the first, and idle at the second.
static IDLE_AT_ONE: [(u32, Step); 3] = [
    (0, (5, Happened::Opened(1, 1))),
    (1, (0, Happened::Opened(1, 1))),
    (1, (3, Happened::Returned(1))),
];

#[test]
fn an_entry_is_judged_at_its_host(rt: HostRuntime) {
    let mut monitor = monitor_of(&rt, rt.alloc(), 2, &IDLE_AT_ONE).expect(&rt, "memory");
    assert_eq!(rt; monitor.len(), 2);
    let broken = Violation::BesideIdle { count: 1 };
    check_eq(
        &rt,
        monitor.step(1, waited(2, 3)),
        Err(Fault::Broken(broken)),
    );
    let broken = Violation::Earlier { last: 5 };
    check_eq(
        &rt,
        monitor.step(0, limited(1, 4)),
        Err(Fault::Broken(broken)),
    );
    check_eq(&rt, monitor.host(1).idle_len(), 1);
    monitor.step(1, leased(1, 3, 3)).expect(&rt, "memory");
    monitor
        .step(0, closed(1, Cause::Dropped, 5))
        .expect(&rt, "memory");
    check_eq(
        &rt,
        (monitor.host(0).open_len(), monitor.first_unrest()),
        (0, None),
    );
}
