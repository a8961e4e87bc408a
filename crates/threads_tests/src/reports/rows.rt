//! Reports, byte for byte. The texts are what another program's formatting to eight places gives of
//! these numbers.

use crate::checks::check_eq;
use crate::making::ANSWER;
use budget::Refusal;
use exchange::{Answer, Done, Fault};
use load_report::report_of;
use shared_cache::HostCount;

/// What a report is of, and its text.
pub(crate) type Row = (&'static [HostCount], &'static [Done], &'static str);

/// A host at which nothing happened.
const NOTHING: HostCount = HostCount {
    opened: 0,
    reused: 0,
    closed: 0,
    waited: 0,
    alive: 0,
};

/// A transfer that ended with a whole response of two bytes.
pub(crate) const NEW: Done = Done::Good(ANSWER);

/// The same over a connection that was used before.
pub(crate) const REUSED: Done = Done::Good(Answer {
    reused: true,
    ..ANSWER
});

/// No transfer was begun, and there is no host.
const EMPTY: Row = (
    &[],
    &[],
    "all        0       0       0       0       0       0\n\
    jobs       0       0       0       0       0\n",
);

/// Five transfers to one host.
pub(crate) const FIVE: Row = (
    &[HostCount {
        opened: 2,
        reused: 3,
        closed: 2,
        waited: 1,
        alive: 0,
    }],
    &[NEW, REUSED, NEW, REUSED, REUSED],
    "host       0       2       3       2       1       0\n\
    all        1       2       3       2       1       0\n\
    jobs       5       0       3       0      10\n",
);

/// Numbers of seven, eight and nine digits, faults, and requests that were sent once more.
const LONG: Row = (
    &[
        HostCount {
            opened: 3,
            reused: 1,
            closed: 1,
            waited: 0,
            alive: 2,
        },
        NOTHING,
        HostCount {
            opened: 12_345_678,
            reused: 123_456_789,
            closed: 99_999_999,
            waited: 100_000_000,
            alive: 9_999_999,
        },
    ],
    &[
        Done::Bad(Fault::Dial),
        Done::Good(Answer {
            body_len: 1_048_576,
            retried: true,
            ..ANSWER
        }),
        Done::Bad(Fault::Refused(Refusal::TransferBusy)),
        Done::Good(Answer {
            body_len: 0,
            reused: true,
            retried: true,
            ..ANSWER
        }),
        REUSED,
        Done::Bad(Fault::Cancelled),
    ],
    "host       0       3       1       1       0       2\n\
    host       1       0       0       0       0       0\n\
    host       21234567812345678999999999100000000 9999999\n\
    all        31234568112345679010000000010000000010000001\n\
    jobs       6       3       2       2 1048578\n",
);

/// Sums at the greatest u64 and past it.
const GREATEST: Row = (
    &[
        HostCount {
            opened: 18_446_744_073_709_551_615,
            reused: 18_446_744_073_709_551_614,
            alive: 1,
            ..NOTHING
        },
        HostCount {
            opened: 18_446_744_073_709_551_615,
            reused: 1,
            closed: 1,
            ..NOTHING
        },
        HostCount {
            reused: 1,
            waited: 10_000_000_000_000_000_000,
            ..NOTHING
        },
    ],
    &[
        Done::Good(Answer {
            body_len: 18_446_744_073_709_551_615,
            ..ANSWER
        }),
        REUSED,
    ],
    "host       01844674407370955161518446744073709551614       0       0       1\n\
    host       118446744073709551615       1       1       0       0\n\
    host       2       0       1       010000000000000000000       0\n\
    all        31844674407370955161518446744073709551615       110000000000000000000       1\n\
    jobs       2       0       1       018446744073709551615\n",
);

/// Bodies that are as long as the greatest u64 together, and no host.
const EXACT: Row = (
    &[],
    &[
        Done::Good(Answer {
            body_len: 18_446_744_073_709_551_614,
            ..ANSWER
        }),
        Done::Good(Answer {
            body_len: 1,
            ..ANSWER
        }),
        Done::Bad(Fault::Cut),
    ],
    "all        0       0       0       0       0       0\n\
    jobs       3       1       0       018446744073709551615\n",
);

static ROWS: [Row; 5] = [EMPTY, FIVE, LONG, GREATEST, EXACT];

#[test]
fn reports_have_these_bytes(rt: HostRuntime) {
    for row in &ROWS {
        let (hosts, results, expected) = *row;
        let text = report_of(rt.alloc(), hosts, results).expect(&rt, "memory");
        check_eq(&rt, text.as_str(), expected);
    }
}
