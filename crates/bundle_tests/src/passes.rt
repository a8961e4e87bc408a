//! What a pass remembers of each host: what the last call there answered, how many calls answered,
//! and how many leases were spent with it.

use crate::desk::{Desk, KEEP, WANT};
use crate::keeper::{Row, Said, Step, run};
use budget::Refusal;
use bundle::Did;
use conn_log::{Cause, Entry, Event, Want};

// The answer of an acquire, of a give back or of the like: the entry that it wrote.
macro_rules! wrote {
    ($moment:expr, $event:expr) => {
        Some(Did::Wrote(Entry {
            moment: $moment,
            event: $event,
        }))
    };
}

// That of an acquire that opens a connection.
macro_rules! opened {
    ($moment:expr, $connection:expr, $transfer:expr) => {
        wrote!(
            $moment,
            Event::Opened {
                connection: $connection,
                want: Want {
                    transfer: $transfer,
                    ..WANT
                },
            }
        )
    };
}

macro_rules! waited {
    ($moment:expr, $transfer:expr) => {
        wrote!(
            $moment,
            Event::Waited {
                want: Want {
                    transfer: $transfer,
                    ..WANT
                },
            }
        )
    };
}

macro_rules! returned {
    ($moment:expr, $connection:expr) => {
        wrote!(
            $moment,
            Event::Returned {
                connection: $connection,
                facts: KEEP,
            }
        )
    };
}

// That of a call with which a lease, or what was granted, ends without a response.
macro_rules! ended {
    ($moment:expr, $connection:expr, $cause:expr) => {
        wrote!(
            $moment,
            Event::Closed {
                connection: $connection,
                cause: $cause,
            }
        )
    };
}

// That of a prune.
macro_rules! pruned {
    ($now:expr, $max_age:expr, $max_life:expr, $closed:expr) => {
        Some(Did::Pruned {
            now: $now,
            max_age: $max_age,
            max_life: $max_life,
            closed: $closed,
        })
    };
}

const LEASED_AGAIN: Event = Event::Leased {
    connection: 1,
    want: Want {
        transfer: 3,
        ..WANT
    },
};

// The hosts are 0 and 2 of three, and the pass has a seat at both.
static ROWS: [Row; 8] = [
    (
        "a pass has an account for each host",
        (4, 0, 4),
        1,
        &[
            (Step::Get(1, 0), Said::Opened(1, 0)),
            (Step::Get(2, 0), Said::Opened(2, 0)),
            (Step::Other, Said::Done),
            (Step::Get(1, 5), Said::Opened(1, 5)),
            (Step::Told(0), Said::Told(opened!(0, 2, 2), 2, 0)),
            (Step::Told(2), Said::Told(opened!(5, 1, 1), 1, 0)),
            (Step::Back(1, 6), Said::Freed(false)),
            (Step::Told(2), Said::Told(returned!(6, 1), 2, 1)),
            (Step::Counts, Said::Counts(1, 1, 0)),
            (Step::Other, Said::Done),
            (Step::Drop(1, 7), Said::Freed(true)),
            (
                Step::Told(0),
                Said::Told(ended!(7, 1, Cause::Dropped), 3, 1),
            ),
            (Step::Counts, Said::Counts(2, 1, 1)),
            (Step::Back(2, 8), Said::Freed(false)),
            (Step::Told(0), Said::Told(returned!(8, 2), 4, 2)),
            (Step::Told(1), Said::Told(None, 0, 0)),
        ],
    ),
    // the connection numbers that are left are two
    (
        "acquires tell what came of them",
        (1, 0, 4),
        u32::MAX - 1,
        &[
            (Step::Get(1, 5), Said::Opened(4_294_967_294, 5)),
            (
                Step::Told(0),
                Said::Told(opened!(5, 4_294_967_294, 1), 1, 0),
            ),
            (Step::Get(2, 5), Said::Waits),
            (Step::Told(0), Said::Told(waited!(5, 2), 2, 0)),
            (Step::Get(1, 5), Said::Refused(Refusal::TransferBusy)),
            (Step::Told(0), Said::Told(Some(Did::Busy(1)), 3, 0)),
            (Step::Get(2, 5), Said::Refused(Refusal::TransferBusy)),
            (Step::Told(0), Said::Told(Some(Did::Busy(2)), 4, 0)),
            (Step::Get(3, 5), Said::Refused(Refusal::Exhausted)),
            (Step::Told(0), Said::Told(Some(Did::Exhausted(3)), 5, 0)),
            (Step::Leave(2, 6), Said::Freed(false)),
            (Step::Drop(1, 6), Said::Freed(true)),
        ],
    ),
    // the connection that came back is leased once more
    (
        "claims and ends of leases tell so",
        (1, 0, 4),
        1,
        &[
            (Step::Get(1, 0), Said::Opened(1, 0)),
            (Step::Get(2, 1), Said::Waits),
            (Step::Claim(2), Said::Still),
            (Step::Told(0), Said::Told(Some(Did::Still(2)), 3, 0)),
            (Step::Back(1, 2), Said::Freed(false)),
            (Step::Told(0), Said::Told(returned!(2, 1), 4, 1)),
            (Step::Claim(2), Said::Reused(1, 2)),
            (Step::Told(0), Said::Told(Some(Did::Claimed(2)), 5, 1)),
            (Step::Back(2, 3), Said::Freed(false)),
            (Step::Get(3, 4), Said::Reused(1, 4)),
            (Step::Told(0), Said::Told(wrote!(4, LEASED_AGAIN), 7, 2)),
            (Step::Counts, Said::Counts(3, 2, 1)),
            (Step::Drop(3, 5), Said::Freed(true)),
            (
                Step::Told(0),
                Said::Told(ended!(5, 1, Cause::Dropped), 8, 3),
            ),
        ],
    ),
    (
        "withdrawing what was granted spends it",
        (1, 0, 4),
        1,
        &[
            (Step::Get(1, 0), Said::Opened(1, 0)),
            (Step::Get(2, 1), Said::Waits),
            (Step::Get(3, 1), Said::Waits),
            (Step::Leave(2, 2), Said::Freed(false)),
            (
                Step::Told(0),
                Said::Told(wrote!(2, Event::Left { transfer: 2 }), 4, 0),
            ),
            (Step::Drop(1, 3), Said::Freed(false)),
            (Step::Leave(3, 4), Said::Freed(true)),
            (
                Step::Told(0),
                Said::Told(ended!(4, 2, Cause::Withdrawn), 6, 2),
            ),
            (Step::Counts, Said::Counts(2, 2, 0)),
        ],
    ),
    // 65,536 is no limit, so nothing is told
    (
        "limits and prunes tell what they did",
        (2, 0, 4),
        1,
        &[
            (Step::Get(1, 0), Said::Opened(1, 0)),
            (Step::Get(2, 0), Said::Opened(2, 0)),
            (Step::Limit(1, 1), Said::Refused(Refusal::Busy(2))),
            (Step::Told(0), Said::Told(Some(Did::Held(2)), 3, 0)),
            (Step::Limit(65_536, 1), Said::Refused(Refusal::BadLimit)),
            (Step::Told(0), Said::Told(Some(Did::Held(2)), 3, 0)),
            (Step::Limit(0, 1), Said::Freed(false)),
            (
                Step::Told(0),
                Said::Told(wrote!(1, Event::Limit { limit: 65_535 }), 4, 0),
            ),
            (Step::Limit(2, 1), Said::Freed(false)),
            (
                Step::Told(0),
                Said::Told(wrote!(1, Event::Limit { limit: 2 }), 5, 0),
            ),
            (Step::Back(1, 5), Said::Freed(false)),
            (Step::Back(2, 6), Said::Freed(false)),
            (Step::Prune(15, 10, 0), Said::Pruned(0)),
            (Step::Told(0), Said::Told(pruned!(15, 10, 0, 0), 8, 2)),
            (Step::Prune(16, 10, 0), Said::Pruned(1)),
            (Step::Told(0), Said::Told(pruned!(16, 10, 0, 1), 9, 2)),
            (Step::Prune(17, 100, 16), Said::Pruned(1)),
            (Step::Told(0), Said::Told(pruned!(17, 100, 16, 1), 10, 2)),
        ],
    ),
    (
        "a stranger is told of",
        (1, 0, 4),
        1,
        &[
            (Step::Get(1, 0), Said::Opened(1, 0)),
            (Step::Get(2, 1), Said::Waits),
            (Step::Other, Said::Done),
            (Step::Claim(2), Said::Stranger),
            (Step::Told(2), Said::Told(Some(Did::Stranger(2)), 1, 0)),
            (Step::Leave(2, 2), Said::Stranger),
            (Step::Told(2), Said::Told(Some(Did::Stranger(2)), 2, 0)),
            (Step::Told(0), Said::Told(waited!(1, 2), 2, 0)),
            (Step::Other, Said::Done),
            (Step::Leave(2, 3), Said::Freed(false)),
            (Step::Drop(1, 3), Said::Freed(true)),
        ],
    ),
    (
        "an acquire that is halfway tells nothing",
        (0, 1, 4),
        1,
        &[
            (Step::Get(1, 0), Said::Opened(1, 0)),
            (Step::Get(2, 1), Said::NoRoom),
            (Step::Retry(2), Said::NoRoom),
            (Step::Told(0), Said::Told(opened!(0, 1, 1), 1, 0)),
            (Step::LastTry(3), Said::Waits),
            (Step::Told(0), Said::Told(waited!(3, 2), 2, 0)),
            (Step::Leave(2, 4), Said::Freed(false)),
            (Step::Drop(1, 4), Said::Freed(true)),
        ],
    ),
    (
        "a lease that comes back is not spent",
        (0, 0, 1),
        1,
        &[
            (Step::Get(1, 0), Said::Opened(1, 0)),
            (Step::Get(2, 0), Said::Opened(2, 0)),
            (Step::Back(1, 1), Said::Freed(false)),
            (Step::Back(2, 2), Said::NotKept),
            (Step::Told(0), Said::Told(returned!(1, 1), 3, 1)),
            (Step::Counts, Said::Counts(2, 1, 1)),
            (Step::BackOrClose(2, 3), Said::Freed(true)),
            (Step::Told(0), Said::Told(returned!(3, 2), 4, 2)),
        ],
    ),
];

#[test]
fn a_pass_is_told_that(rt: HostRuntime) {
    for row in &ROWS {
        let (name, limits, first, steps) = *row;
        let desk = Desk::of_two(rt.alloc(), limits, first, 3, (0, 2)).expect(&rt, "memory");
        run(&rt, rt.alloc(), desk, name, steps);
    }
}
