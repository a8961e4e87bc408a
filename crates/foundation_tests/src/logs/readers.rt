//! What the plain readers answer at small logs.
use crate::checks::check_eq;
use crate::logs::entries::{Happened, Step, entries_of, log_of};
use conn_log::{Cause, Log, Stamp, holder, idle_oldest, open_count, waiting_len};

/// How many connections are open, how many transfers wait, since when the oldest connection is idle
/// and its number, and who holds connection 1.
type Answers = (usize, usize, Option<(u64, u32)>, Option<u64>);

fn answers(log: &Log) -> Answers {
    let oldest = idle_oldest(log, 3).map(|stamp: Stamp| (stamp.since, stamp.number));
    (open_count(log), waiting_len(log), oldest, holder(log, 1))
}

const REUSE_THEN_DROP: [Step; 4] = [
    (0, Happened::Opened(1, 1)),
    (2, Happened::Returned(1)),
    (3, Happened::Leased(1, 2)),
    (4, Happened::Closed(1, Cause::Dropped)),
];

const BOTH_IDLE: [Step; 4] = [
    (0, Happened::Opened(1, 1)),
    (0, Happened::Opened(2, 2)),
    (5, Happened::Returned(1)),
    (9, Happened::Returned(2)),
];

const WAIT_THEN_CLAIM: [Step; 4] = [
    (0, Happened::Opened(1, 1)),
    (5, Happened::Waited(2)),
    (10, Happened::Returned(1)),
    (10, Happened::Leased(1, 2)),
];

const ONE_LEAVES: [Step; 4] = [
    (0, Happened::Opened(1, 1)),
    (1, Happened::Waited(2)),
    (2, Happened::Waited(3)),
    (4, Happened::Left(2)),
];

/// Steps, how many of them are taken, and what is answered then.
static ROWS: [(&[Step], usize, Answers); 7] = [
    (&REUSE_THEN_DROP, 0, (0, 0, None, None)),
    (&REUSE_THEN_DROP, 2, (1, 0, Some((2, 1)), None)),
    (&REUSE_THEN_DROP, 4, (0, 0, None, None)),
    (&BOTH_IDLE, 4, (2, 0, Some((5, 1)), None)),
    (&WAIT_THEN_CLAIM, 2, (1, 1, None, Some(1))),
    (&WAIT_THEN_CLAIM, 4, (1, 0, None, Some(2))),
    (&ONE_LEAVES, 4, (1, 1, None, Some(1))),
];

#[test]
fn readers_scan_the_log(rt: HostRuntime) {
    for (steps, len, expected) in &ROWS {
        let steps = steps.get(..*len).unwrap_or(&[]);
        let entries = entries_of(rt.alloc(), steps).expect(&rt, "memory");
        let log = log_of(&rt, rt.alloc(), &entries).expect(&rt, "memory");
        check_eq(&rt, &answers(&log), expected);
    }
}
