//! Rules that entries break, at small logs of one host: each event is taken once, and two rules are
//! broken that depend on a connection's number, which an audit chooses itself. The traces of
//! `tests/traces` break the others.
use crate::checks::check_eq;
use crate::logs::entries::{Happened, Step, entry_of, get};
use conn_log::{Cause, Entry, Want};
use log_judge::{Fault, HostMonitor, Violation};
use std::alloc::Global;
use std::process::Abort;

/// Asks which rule the entry breaks, and takes it: both say the same.
fn step(rt: &impl Abort, host: &mut HostMonitor, entry: Entry) -> Result<Option<Violation>, Fault> {
    let broken = host.first_broken(&entry);
    match host.step(entry) {
        Ok(()) => assert_eq!(rt; broken, None, "{entry:?}"),
        Err(Fault::Broken(violation)) => assert_eq!(rt; broken, Some(violation), "{entry:?}"),
        Err(Fault::Memory) => return Err(Fault::Memory),
    }
    Ok(broken)
}

/// A host of that limit at which these steps were taken.
fn host_of(
    rt: &impl Abort,
    alloc: Global,
    limit: u32,
    steps: &[Step],
) -> Result<HostMonitor, Fault> {
    let Ok(mut host) = HostMonitor::new(alloc, limit) else {
        return Err(Fault::Memory);
    };
    for happened in steps {
        let broken = step(rt, &mut host, entry_of(happened))?;
        check_eq(rt, broken, None);
    }
    Ok(host)
}

/// How many connections are open and idle, the limit, and the first waiter.
fn answers(host: &HostMonitor) -> (u64, u64, u32, Option<Want>) {
    (
        host.open_len(),
        host.idle_len(),
        host.limit(),
        host.first_waiter(),
    )
}

/// One of each event at least, two connections and four waiters.
static EACH_EVENT: [Step; 16] = [
    (0, Happened::Opened(1, 1)),
    (1, Happened::Waited(2)),
    (2, Happened::Returned(1)),
    (2, Happened::Leased(1, 2)),
    (4, Happened::Returned(1)),
    (122, Happened::Leased(1, 3)),
    (123, Happened::Limited(2)),
    (124, Happened::Opened(2, 4)),
    (125, Happened::Waited(5)),
    (125, Happened::Waited(6)),
    (126, Happened::Left(5)),
    (127, Happened::ReturnedToClose(1)),
    (129, Happened::Closed(1, Cause::NotPersistent)),
    (129, Happened::Opened(3, 6)),
    (130, Happened::Closed(2, Cause::Dropped)),
    (131, Happened::Returned(3)),
];

/// What happens after them.
static LAST_EVENTS: [Step; 3] = [
    (131, Happened::Closed(3, Cause::Pruned)),
    (131, Happened::Limited(0)),
    (131, Happened::Waited(7)),
];

#[test]
fn each_event_is_taken(rt: HostRuntime) {
    let mut host = host_of(&rt, rt.alloc(), 1, &EACH_EVENT).expect(&rt, "memory");
    check_eq(&rt, answers(&host), (1, 1, 2, None));
    for happened in &LAST_EVENTS {
        let broken = step(&rt, &mut host, entry_of(happened)).expect(&rt, "memory");
        check_eq(&rt, broken, None);
    }
    check_eq(&rt, answers(&host), (0, 0, 0, Some(get(7))));
}

/// A limit, what happens under it, what happens last, and the rule that this breaks.
type Row = (u32, &'static [Step], Step, Violation);

const ONE: [Step; 1] = [(0, Happened::Opened(1, 1))];

static ROWS: [Row; 2] = [
    (
        4,
        &ONE,
        (0, Happened::Opened(3, 2)),
        Violation::NotNext { next: 2 },
    ),
    (4, &[], (0, Happened::Leased(1, 1)), Violation::NotOpen),
];

#[test]
fn the_first_broken_rule_is_told(rt: HostRuntime) {
    for (limit, before, last, expected) in &ROWS {
        let mut host = host_of(&rt, rt.alloc(), *limit, before).expect(&rt, "memory");
        let broken = step(&rt, &mut host, entry_of(last)).expect(&rt, "memory");
        check_eq(&rt, broken, Some(*expected));
    }
}
