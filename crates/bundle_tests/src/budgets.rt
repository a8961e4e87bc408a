//! What no clause says of a host under a budget: that calls succeed in ample memory, and what comes
//! of them where the budget has no room.

use crate::desk::{Desk, WANT};
use crate::keeper::{Row, Said, Step, run};
use budget::{Refusal, Try};
use conn_log::{Cause, Want};

// Wants of another lane, which no connection of lane 0 fits.
const OTHER_LANE: Want = Want {
    transfer: 2,
    lane: 1,
    ..WANT
};

const FOURTH: Want = Want {
    transfer: 4,
    ..OTHER_LANE
};

const FIFTH: Want = Want {
    transfer: 5,
    ..OTHER_LANE
};

// What transfer 3 wants of connections that may have been idle for so long.
const OF_AGE: Want = Want {
    transfer: 3,
    max_age: 118,
    ..WANT
};

// What the total limits, at two hosts.
static TOTALS: [Row; 8] = [
    (
        "two hosts share one connection",
        (0, 1, 4),
        1,
        &[
            (Step::Get(1, 0), Said::Opened(1, 0)),
            (Step::Other, Said::Done),
            (Step::Get(2, 1), Said::NoRoom),
            (Step::Retry(1), Said::NoRoom),
            (Step::Get(2, 1), Said::Refused(Refusal::TransferBusy)),
            (Step::LastTry(1), Said::Waits),
            (Step::Lobby, Said::Lobby(true, Some(3))),
            (Step::Serve(2), Said::Turn(Some(Try::Full))),
            (Step::Other, Said::Done),
            (Step::Drop(1, 3), Said::Freed(true)),
            (Step::Other, Said::Done),
            (Step::Serve(3), Said::Turn(Some(Try::Got))),
            (Step::Lobby, Said::Lobby(false, None)),
            (Step::Claim(2), Said::Opened(1, 3)),
            (Step::Drop(2, 4), Said::Freed(true)),
        ],
    ),
    // where another one waits the budget is not asked; the permit of the fifth goes to the sixth,
    // which leaves the lobby with it; who is granted what it waited for leaves, and the next one
    // has its permit
    (
        "hosts take turns",
        (0, 1, 4),
        1,
        &[
            (Step::Get(1, 0), Said::Opened(1, 0)),
            (Step::Other, Said::Done),
            (Step::Get(2, 1), Said::NoRoom),
            (Step::Retry(1), Said::NoRoom),
            (Step::LastTry(1), Said::Waits),
            (Step::Get(3, 2), Said::Waits),
            (Step::Get(4, 2), Said::Waits),
            (Step::Other, Said::Done),
            (Step::Drop(1, 5), Said::Freed(true)),
            (Step::Get(5, 5), Said::Opened(2, 5)),
            (Step::Get(6, 5), Said::NoRoom),
            (Step::Retry(5), Said::NoRoom),
            (Step::LastTry(5), Said::Waits),
            (Step::Serve(5), Said::Turn(None)),
            (Step::Drop(5, 6), Said::Freed(false)),
            (Step::Lobby, Said::Lobby(false, Some(3))),
            (Step::Leave(6, 7), Said::Freed(true)),
            (Step::Other, Said::Done),
            (Step::Serve(7), Said::Turn(Some(Try::Got))),
            (Step::Lobby, Said::Lobby(true, Some(3))),
            (Step::Leave(3, 8), Said::Freed(false)),
            (Step::Listed(3), Said::Was(true)),
            (Step::Leave(2, 8), Said::Freed(false)),
            (Step::Lobby, Said::Lobby(false, None)),
            (Step::Claim(4), Said::Opened(2, 8)),
            (Step::Drop(4, 9), Said::Freed(true)),
        ],
    ),
    // what its holder closes goes to the next one of the host, which leaves the lobby
    (
        "the first host goes to the end",
        (0, 1, 4),
        1,
        &[
            (Step::OpenElsewhere, Said::Elsewhere(Try::Got)),
            (Step::Get(2, 1), Said::NoRoom),
            (Step::Retry(1), Said::NoRoom),
            (Step::LastTry(1), Said::Waits),
            (Step::Get(3, 1), Said::Waits),
            (Step::Other, Said::Done),
            (Step::Get(4, 1), Said::NoRoom),
            (Step::Retry(1), Said::NoRoom),
            (Step::LastTry(1), Said::Waits),
            (Step::Lobby, Said::Lobby(true, Some(7))),
            (Step::CloseElsewhere, Said::Done),
            (Step::Other, Said::Done),
            (Step::Serve(2), Said::Turn(Some(Try::Got))),
            (Step::Lobby, Said::Lobby(true, Some(3))),
            (Step::Listed(7), Said::Was(true)),
            (Step::Look, Said::Look(1, 0, 1, 1, true)),
            (Step::Claim(2), Said::Opened(1, 2)),
            (Step::Drop(2, 3), Said::Freed(false)),
            (Step::Listed(7), Said::Was(false)),
            (Step::Leave(3, 4), Said::Freed(true)),
            (Step::Other, Said::Done),
            (Step::Serve(5), Said::Turn(Some(Try::Got))),
            (Step::Lobby, Said::Lobby(false, None)),
            (Step::Claim(4), Said::Opened(1, 5)),
            (Step::Back(4, 6), Said::Freed(false)),
        ],
    ),
    (
        "the last try takes an idle one of the host",
        (4, 1, 4),
        1,
        &[
            (Step::Get(1, 0), Said::Opened(1, 0)),
            (Step::Back(1, 2), Said::Freed(false)),
            (Step::Ask(OTHER_LANE, 3), Said::NoRoom),
            (Step::Length, Said::Length(2)),
            (Step::LastTry(3), Said::Opened(2, 3)),
            (Step::Entry(2), Said::Closed(3, 1, Cause::TotalRoom)),
            (Step::Back(2, 4), Said::Freed(false)),
        ],
    ),
    // the transfer is free again, and so are the permits
    (
        "another try may find an idle one",
        (4, 1, 1),
        1,
        &[
            (Step::Get(1, 0), Said::Opened(1, 0)),
            (Step::Get(2, 1), Said::NoRoom),
            (Step::Back(1, 2), Said::Freed(false)),
            (Step::Retry(3), Said::Reused(1, 3)),
            (Step::Drop(2, 4), Said::Freed(true)),
            (Step::Get(2, 5), Said::Opened(2, 5)),
            (Step::Back(2, 6), Said::Freed(false)),
            (Step::Look, Said::Look(1, 1, 0, 0, false)),
        ],
    ),
    (
        "another try may find room",
        (4, 1, 1),
        1,
        &[
            (Step::Get(1, 0), Said::Opened(1, 0)),
            (Step::Get(2, 1), Said::NoRoom),
            (Step::Drop(1, 2), Said::Freed(true)),
            (Step::Retry(3), Said::Opened(2, 3)),
            (Step::Drop(2, 4), Said::Freed(true)),
            (Step::Get(2, 5), Said::Opened(3, 5)),
            (Step::Back(2, 6), Said::Freed(false)),
            (Step::Look, Said::Look(1, 1, 0, 0, false)),
        ],
    ),
    (
        "a number is kept for who is halfway",
        (0, 1, 4),
        u32::MAX - 1,
        &[
            (Step::Get(1, 0), Said::Opened(4_294_967_294, 0)),
            (Step::Get(2, 1), Said::NoRoom),
            (Step::Get(2, 1), Said::Refused(Refusal::TransferBusy)),
            (Step::Get(3, 1), Said::Refused(Refusal::Exhausted)),
            (Step::Drop(1, 2), Said::Freed(true)),
            (Step::Retry(2), Said::Opened(4_294_967_295, 2)),
            (Step::Drop(2, 3), Said::Freed(true)),
        ],
    ),
    // nothing is kept for what came back
    (
        "a use that ends frees its permit",
        (1, 1, 1),
        1,
        &[
            (Step::Get(1, 0), Said::Opened(1, 0)),
            (Step::Get(2, 0), Said::Waits),
            (Step::BackToClose(1, 1), Said::Freed(false)),
            (Step::Claim(2), Said::Opened(2, 1)),
            (Step::BackToClose(2, 2), Said::Freed(true)),
            (Step::Get(3, 3), Said::Opened(3, 3)),
            (Step::Back(3, 3), Said::Freed(false)),
            (Step::Look, Said::Look(1, 1, 0, 0, false)),
        ],
    ),
];

// What the number of those that are kept limits, and what ends for its age.
static KEPT: [Row; 6] = [
    (
        "the oldest goes where no more are kept",
        (0, 0, 1),
        1,
        &[
            (Step::Get(1, 0), Said::Opened(1, 0)),
            (Step::Get(2, 0), Said::Opened(2, 0)),
            (Step::Back(1, 4), Said::Freed(false)),
            (Step::Back(2, 5), Said::NotKept),
            (Step::Back(2, 5), Said::NotKept),
            (Step::Back(2, 5), Said::NotKept),
            (Step::Length, Said::Length(3)),
            (Step::Evict(5, 1, 5), Said::Was(false)),
            (Step::Evict(4, 1, 5), Said::Was(true)),
            (Step::Evict(4, 1, 5), Said::Was(false)),
            (Step::Entry(3), Said::Closed(5, 1, Cause::CacheFull)),
            (Step::Back(2, 5), Said::Freed(false)),
            (Step::Oldest, Said::Oldest(5, 2)),
        ],
    ),
    // its transfer holds what was not kept still
    (
        "what was not kept comes again",
        (0, 0, 1),
        1,
        &[
            (Step::Get(1, 0), Said::Opened(1, 0)),
            (Step::Get(2, 0), Said::Opened(2, 0)),
            (Step::Back(1, 1), Said::Freed(false)),
            (Step::Back(2, 2), Said::NotKept),
            (Step::Get(2, 2), Said::Refused(Refusal::TransferBusy)),
            (Step::Get(3, 3), Said::Reused(1, 3)),
            (Step::Back(2, 4), Said::Freed(false)),
            (Step::Back(3, 5), Said::NotKept),
            (Step::Drop(3, 6), Said::Freed(true)),
            (Step::Get(4, 7), Said::Reused(2, 7)),
            (Step::Drop(4, 8), Said::Freed(true)),
        ],
    ),
    (
        "what is not kept is closed where that is asked",
        (0, 0, 1),
        1,
        &[
            (Step::Get(1, 0), Said::Opened(1, 0)),
            (Step::Get(2, 0), Said::Opened(2, 0)),
            (Step::BackOrClose(1, 4), Said::Freed(false)),
            (Step::BackOrClose(2, 5), Said::Freed(true)),
            (Step::Entry(4), Said::Closed(5, 2, Cause::CacheFull)),
            (Step::Look, Said::Look(1, 1, 0, 0, false)),
        ],
    ),
    // one may be kept still, since nothing was kept for the third; a lease of what is kept gives
    // its place back
    (
        "what is handed on is not kept",
        (2, 0, 1),
        1,
        &[
            (Step::Get(1, 0), Said::Opened(1, 0)),
            (Step::Get(2, 0), Said::Opened(2, 0)),
            (Step::Get(3, 1), Said::Waits),
            (Step::Back(1, 2), Said::Freed(false)),
            (Step::Claim(3), Said::Reused(1, 2)),
            (Step::Back(2, 3), Said::Freed(false)),
            (Step::BackOrClose(3, 3), Said::Freed(true)),
            (Step::Get(4, 4), Said::Reused(2, 4)),
            (Step::Get(5, 4), Said::Opened(3, 4)),
            (Step::Back(5, 5), Said::Freed(false)),
            (Step::Drop(4, 6), Said::Freed(true)),
        ],
    ),
    // the places of the two that are closed are free again
    (
        "a prune goes on behind the young",
        (0, 0, 3),
        1,
        &[
            (Step::Get(1, 0), Said::Opened(1, 0)),
            (Step::Get(2, 0), Said::Opened(2, 0)),
            (Step::Get(3, 50), Said::Opened(3, 50)),
            (Step::Back(3, 60), Said::Freed(false)),
            (Step::Back(2, 65), Said::Freed(false)),
            (Step::Back(1, 70), Said::Freed(false)),
            (Step::Prune(99, 118, 100), Said::Pruned(0)),
            (Step::Prune(100, 118, 80), Said::Pruned(2)),
            (Step::Entry(6), Said::Closed(100, 2, Cause::Pruned)),
            (Step::Entry(7), Said::Closed(100, 1, Cause::Pruned)),
            (Step::Look, Said::Look(1, 1, 0, 0, false)),
            (Step::Ask(FOURTH, 101), Said::Opened(4, 101)),
            (Step::Ask(FIFTH, 101), Said::Opened(5, 101)),
            (Step::Back(4, 102), Said::Freed(false)),
            (Step::Back(5, 102), Said::Freed(false)),
            (Step::Prune(103, 0, 0), Said::Pruned(3)),
        ],
    ),
    // the budget has room for another one, and for no third
    (
        "an acquire closes all that are too old",
        (0, 2, 2),
        1,
        &[
            (Step::Get(1, 0), Said::Opened(1, 0)),
            (Step::Get(2, 0), Said::Opened(2, 0)),
            (Step::Back(2, 5), Said::Freed(false)),
            (Step::Back(1, 5), Said::Freed(false)),
            (Step::Ask(OF_AGE, 130), Said::Opened(3, 130)),
            (Step::Entry(4), Said::Closed(130, 1, Cause::TooOld)),
            (Step::Entry(5), Said::Closed(130, 2, Cause::TooOld)),
            (Step::Get(4, 131), Said::Opened(4, 131)),
            (Step::Get(5, 131), Said::NoRoom),
            (Step::Retry(131), Said::NoRoom),
            (Step::LastTry(131), Said::Waits),
            (Step::Leave(5, 131), Said::Freed(false)),
            (Step::Drop(3, 132), Said::Freed(true)),
            (Step::Drop(4, 132), Said::Freed(true)),
        ],
    ),
];

#[test]
fn two_hosts_share_the_total_so(rt: HostRuntime) {
    for row in &TOTALS {
        let (name, limits, first, steps) = *row;
        let desk = Desk::new(rt.alloc(), limits, first).expect(&rt, "memory");
        run(&rt, rt.alloc(), desk, name, steps);
    }
}

#[test]
fn a_host_keeps_so_many_so_long(rt: HostRuntime) {
    for row in &KEPT {
        let (name, limits, first, steps) = *row;
        let desk = Desk::new(rt.alloc(), limits, first).expect(&rt, "memory");
        run(&rt, rt.alloc(), desk, name, steps);
    }
}
