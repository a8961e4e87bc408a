//! What the counts of small logs are.
use crate::checks::check_eq;
use crate::logs::entries::{Happened, Step, entries_of, log_of};
use conn_log::{Cause, Counts};

/// Connections opened, leased again and closed, and transfers that began to wait.
pub(crate) fn counted(opened: u64, reused: u64, closed: u64, waited: u64) -> Counts {
    Counts {
        opened,
        reused,
        closed,
        waited,
    }
}

const REUSE_THEN_DROP: [Step; 4] = [
    (0, Happened::Opened(1, 1)),
    (2, Happened::Returned(1)),
    (3, Happened::Leased(1, 2)),
    (4, Happened::Closed(1, Cause::Dropped)),
];

const ROOM_IS_MADE: [Step; 5] = [
    (0, Happened::Opened(1, 1)),
    (0, Happened::Opened(2, 2)),
    (5, Happened::Returned(1)),
    (6, Happened::Closed(1, Cause::HostRoom)),
    (6, Happened::Opened(3, 3)),
];

const ONE_LEAVES: [Step; 6] = [
    (0, Happened::Opened(1, 1)),
    (1, Happened::Waited(2)),
    (2, Happened::Waited(3)),
    (4, Happened::Left(2)),
    (5, Happened::Returned(1)),
    (5, Happened::Leased(1, 3)),
];

/// Steps, how many of them are taken, and the counts: connections opened, leased again and closed,
/// and transfers that began to wait.
static ROWS: [(&[Step], usize, [u64; 4]); 6] = [
    (&REUSE_THEN_DROP, 0, [0, 0, 0, 0]),
    (&REUSE_THEN_DROP, 3, [1, 1, 0, 0]),
    (&REUSE_THEN_DROP, 4, [1, 1, 1, 0]),
    (&ROOM_IS_MADE, 5, [3, 0, 1, 0]),
    (&ONE_LEAVES, 4, [1, 0, 0, 2]),
    (&ONE_LEAVES, 6, [1, 1, 0, 2]),
];

#[test]
fn a_log_counts_what_happened(rt: HostRuntime) {
    for (steps, len, numbers) in &ROWS {
        let steps = steps.get(..*len).unwrap_or(&[]);
        let entries = entries_of(rt.alloc(), steps).expect(&rt, "memory");
        let log = log_of(&rt, rt.alloc(), &entries).expect(&rt, "memory");
        let [opened, reused, closed, waited] = *numbers;
        let expected = counted(opened, reused, closed, waited);
        check_eq(
            &rt,
            (log.counts(), Counts::of(&entries)),
            (expected, expected),
        );
    }
}
