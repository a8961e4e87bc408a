//! What a pass is told by each kind of call: what the last call at a host answered, how many calls
//! answered, and how many leases were spent.

use crate::caches::keeper::{Row, Step, run_all};
use crate::caches::thread_desk::{KEEP, Said, WANT};
use budget::Refusal;
use bundle::Did;
use conn_log::{Cause, Entry, Event, Want};

// The answer of an acquire, of a give back or of the like: the entry that it wrote.
macro_rules! wrote {
    ($moment:expr, $event:expr) => {
        Some(Did::Wrote(Entry {
            moment: $moment,
            event: $event,
        }))
    };
}

// That of an acquire that opens a connection.
macro_rules! opened {
    ($moment:expr, $connection:expr, $transfer:expr) => {
        wrote!(
            $moment,
            Event::Opened {
                connection: $connection,
                want: Want {
                    transfer: $transfer,
                    ..WANT
                },
            }
        )
    };
}

macro_rules! waited {
    ($moment:expr, $transfer:expr) => {
        wrote!(
            $moment,
            Event::Waited {
                want: Want {
                    transfer: $transfer,
                    ..WANT
                },
            }
        )
    };
}

macro_rules! returned {
    ($moment:expr, $connection:expr) => {
        wrote!(
            $moment,
            Event::Returned {
                connection: $connection,
                facts: KEEP,
            }
        )
    };
}

// That of a call with which a lease, or what was granted, ends without a response.
macro_rules! ended {
    ($moment:expr, $connection:expr, $cause:expr) => {
        wrote!(
            $moment,
            Event::Closed {
                connection: $connection,
                cause: $cause,
            }
        )
    };
}

macro_rules! limited {
    ($moment:expr, $limit:expr) => {
        wrote!($moment, Event::Limit { limit: $limit })
    };
}

macro_rules! pruned {
    ($now:expr, $max_age:expr, $max_life:expr, $closed:expr) => {
        Some(Did::Pruned {
            now: $now,
            max_age: $max_age,
            max_life: $max_life,
            closed: $closed,
        })
    };
}

const LEASED_AGAIN: Event = Event::Leased {
    connection: 1,
    want: Want {
        transfer: 2,
        ..WANT
    },
};

static ROWS: [Row; 4] = [
    Row {
        name: "each call at a host tells what it answered",
        limits: (2, 0, 4),
        hosts: 2,
        steps: &[
            (Step::Get(1, 0, 5), Said::Opened(1, 5)),
            (Step::Told(0), Said::Told(opened!(5, 1, 1), 1, 0)),
            (Step::Get(1, 0, 5), Said::Refused(Refusal::TransferBusy)),
            (Step::Told(0), Said::Told(Some(Did::Busy(1)), 2, 0)),
            (Step::Get(2, 0, 6), Said::Opened(2, 6)),
            (Step::Get(3, 0, 7), Said::Waits),
            (Step::Told(0), Said::Told(waited!(7, 3), 4, 0)),
            (Step::Claim(3), Said::Still),
            (Step::Told(0), Said::Told(Some(Did::Still(3)), 5, 0)),
            (Step::Back(1, 9), Said::Done),
            (Step::Told(0), Said::Told(returned!(9, 1), 6, 1)),
            (Step::Claim(3), Said::Reused(1, 9)),
            (Step::Told(0), Said::Told(Some(Did::Claimed(3)), 7, 1)),
            (Step::Drop(2, 10), Said::Done),
            (
                Step::Told(0),
                Said::Told(ended!(10, 2, Cause::Dropped), 8, 2),
            ),
            (Step::Drop(3, 11), Said::Done),
            (Step::Told(1), Said::Told(None, 0, 0)),
        ],
        account: Some((0, 0, &[(2, 1, 2, 1, 0)])),
    },
    Row {
        name: "a ticket that is withdrawn tells what it came to",
        limits: (1, 0, 4),
        hosts: 1,
        steps: &[
            (Step::Get(1, 0, 0), Said::Opened(1, 0)),
            (Step::Get(2, 0, 1), Said::Waits),
            (Step::Get(3, 0, 1), Said::Waits),
            (Step::Leave(2, 2), Said::Left),
            (
                Step::Told(0),
                Said::Told(wrote!(2, Event::Left { transfer: 2 }), 4, 0),
            ),
            (Step::Drop(1, 3), Said::Done),
            (Step::Leave(3, 4), Said::Withdrawn(2)),
            (
                Step::Told(0),
                Said::Told(ended!(4, 2, Cause::Withdrawn), 6, 2),
            ),
        ],
        account: Some((0, 0, &[(2, 0, 2, 2, 0)])),
    },
    // 65,536 is no limit, so nothing is told, and 0 is kept as 65,535
    Row {
        name: "a change of the limit tells it, or what is held",
        limits: (2, 0, 4),
        hosts: 2,
        steps: &[
            (Step::Get(1, 1, 0), Said::Opened(1, 0)),
            (Step::Get(2, 1, 0), Said::Opened(2, 0)),
            (Step::Limit(1, 1, 1), Said::Refused(Refusal::Busy(2))),
            (Step::Told(1), Said::Told(Some(Did::Held(2)), 3, 0)),
            (Step::Limit(65_536, 1, 1), Said::Refused(Refusal::BadLimit)),
            (Step::Told(1), Said::Told(Some(Did::Held(2)), 3, 0)),
            (Step::Limit(3, 1, 2), Said::Done),
            (Step::Told(1), Said::Told(limited!(2, 3), 4, 0)),
            (Step::Limit(0, 1, 3), Said::Done),
            (Step::Told(1), Said::Told(limited!(3, 65_535), 5, 0)),
            (Step::Told(0), Said::Told(None, 0, 0)),
            (Step::Drop(1, 4), Said::Done),
            (Step::Drop(2, 4), Said::Done),
        ],
        account: Some((0, 0, &[(0, 0, 0, 0, 0), (2, 0, 2, 0, 0)])),
    },
    Row {
        name: "a prune tells each host what was closed there",
        limits: (0, 0, 4),
        hosts: 3,
        steps: &[
            (Step::Get(1, 0, 0), Said::Opened(1, 0)),
            (Step::Back(1, 5), Said::Done),
            (Step::Get(2, 0, 6), Said::Reused(1, 6)),
            (Step::Told(0), Said::Told(wrote!(6, LEASED_AGAIN), 3, 1)),
            (Step::Back(2, 7), Said::Done),
            (Step::Get(3, 2, 0), Said::Opened(1, 0)),
            (Step::Back(3, 12), Said::Done),
            (Step::Prune(18, 10, 0), Said::Number(1)),
            (Step::Told(0), Said::Told(pruned!(18, 10, 0, 1), 5, 2)),
            (Step::Told(1), Said::Told(pruned!(18, 10, 0, 0), 1, 0)),
            (Step::Told(2), Said::Told(pruned!(18, 10, 0, 0), 3, 1)),
            (Step::Upkeep, Said::Number(0)),
            (Step::Told(1), Said::Told(pruned!(18, 10, 0, 0), 1, 0)),
        ],
        account: Some((1, 1, &[(1, 1, 1, 0, 0), (0, 0, 0, 0, 0), (1, 0, 0, 0, 1)])),
    },
];

#[test]
fn a_pass_is_told_that(rt: HostRuntime) {
    run_all(&rt, rt.alloc(), &ROWS);
}
