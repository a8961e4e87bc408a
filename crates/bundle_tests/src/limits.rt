//! What no clause says of a limit that changes: that it does in ample memory, what comes of it for
//! those that wait, and what the lobby then lists.

use crate::desk::Desk;
use crate::keeper::{Row, Said, Step, run};
use budget::{Refusal, Try};
use conn_log::Cause;

static ROWS: [Row; 5] = [
    // 0 is none, and what was closed gave its place among the kept ones back
    (
        "a lowered limit closes the oldest first",
        (0, 0, 2),
        1,
        &[
            (Step::Get(1, 0), Said::Opened(1, 0)),
            (Step::Get(2, 0), Said::Opened(2, 0)),
            (Step::Get(3, 0), Said::Opened(3, 0)),
            (Step::Back(1, 4), Said::Freed(false)),
            (Step::Back(2, 5), Said::Freed(false)),
            (Step::Limit(2, 6), Said::Freed(true)),
            (Step::Entry(5), Said::Closed(6, 1, Cause::HostRoom)),
            (Step::Entry(6), Said::Limited(6, 2)),
            (Step::Limit(65_536, 7), Said::Refused(Refusal::BadLimit)),
            (Step::Look, Said::Look(2, 1, 1, 0, false)),
            (Step::Limit(1, 8), Said::Freed(true)),
            (Step::Oldest, Said::NoneIdle),
            (Step::Limit(0, 9), Said::Freed(false)),
            (Step::Entry(9), Said::Limited(9, 65_535)),
            (Step::Limit(65_535, 9), Said::Freed(false)),
            (Step::Get(4, 9), Said::Opened(4, 9)),
            (Step::Back(3, 9), Said::Freed(false)),
            (Step::Back(4, 9), Said::Freed(false)),
            (Step::Look, Said::Look(2, 2, 0, 0, false)),
        ],
    ),
    // the budget has room for one of the two; while the host is queued its turn has to come,
    // whatever its limit, and at its limit it is not queued
    (
        "a raised limit waits for the total",
        (1, 2, 4),
        1,
        &[
            (Step::Get(1, 0), Said::Opened(1, 0)),
            (Step::Get(2, 1), Said::Waits),
            (Step::Get(3, 2), Said::Waits),
            (Step::Limit(3, 3), Said::Freed(false)),
            (Step::Entry(3), Said::Limited(3, 3)),
            (Step::Lobby, Said::Lobby(true, Some(7))),
            (Step::Claim(2), Said::Opened(2, 3)),
            (Step::Limit(4, 4), Said::Freed(false)),
            (Step::Lobby, Said::Lobby(true, Some(7))),
            (Step::Limit(2, 5), Said::Freed(false)),
            (Step::Lobby, Said::Lobby(false, None)),
            (Step::Drop(1, 6), Said::Freed(false)),
            (Step::Claim(3), Said::Opened(3, 6)),
            (Step::Drop(2, 7), Said::Freed(true)),
            (Step::Drop(3, 7), Said::Freed(true)),
        ],
    ),
    (
        "a limit raised without room queues the host",
        (1, 1, 4),
        1,
        &[
            (Step::Get(1, 0), Said::Opened(1, 0)),
            (Step::Get(2, 1), Said::Waits),
            (Step::Lobby, Said::Lobby(false, None)),
            (Step::Limit(2, 2), Said::Freed(false)),
            (Step::Lobby, Said::Lobby(true, Some(7))),
            (Step::Listed(7), Said::Was(true)),
            (Step::Leave(2, 3), Said::Freed(false)),
            (Step::Lobby, Said::Lobby(false, None)),
            (Step::Listed(7), Said::Was(false)),
            (Step::Back(1, 4), Said::Freed(false)),
            (Step::Get(3, 5), Said::Reused(1, 5)),
            (Step::Drop(3, 6), Said::Freed(true)),
        ],
    ),
    // at the limit it waits, without a place in the lobby
    (
        "an acquire that is halfway outlasts a change",
        (2, 1, 4),
        1,
        &[
            (Step::Get(1, 0), Said::Opened(1, 0)),
            (Step::Get(2, 1), Said::NoRoom),
            (Step::Limit(1, 2), Said::Freed(false)),
            (Step::Back(1, 3), Said::Freed(false)),
            (Step::LastTry(4), Said::Reused(1, 4)),
            (Step::Drop(2, 5), Said::Freed(true)),
        ],
    ),
    (
        "a queued host waits for its turn",
        (2, 1, 4),
        1,
        &[
            (Step::OpenElsewhere, Said::Elsewhere(Try::Got)),
            (Step::Get(1, 0), Said::NoRoom),
            (Step::LastTry(0), Said::Waits),
            (Step::CloseElsewhere, Said::Done),
            (Step::Limit(3, 1), Said::Freed(false)),
            (Step::Look, Said::Look(0, 0, 0, 1, true)),
            (Step::Serve(2), Said::Turn(Some(Try::Got))),
            (Step::Claim(1), Said::Opened(1, 2)),
            (Step::Drop(1, 3), Said::Freed(true)),
        ],
    ),
];

#[test]
fn a_change_of_the_limit_comes_to_that(rt: HostRuntime) {
    for row in &ROWS {
        let (name, limits, first, steps) = *row;
        let desk = Desk::new(rt.alloc(), limits, first).expect(&rt, "memory");
        run(&rt, rt.alloc(), desk, name, steps);
    }
}
