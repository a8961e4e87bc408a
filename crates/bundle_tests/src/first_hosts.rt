//! Rows of the hosts 0 and 1, as they are written.

use crate::desk::Desk;
use crate::keeper::{Row, Said, Step, run};
use budget::{Refusal, Try};

static ROWS: [Row; 2] = [
    (
        "one host under another's total",
        (0, 1, 4),
        1,
        &[
            (Step::Get(1, 0), Said::Opened(1, 0)),
            (Step::Other, Said::Done),
            (Step::Get(2, 0), Said::NoRoom),
            (Step::LastTry(0), Said::Waits),
            (Step::Lobby, Said::Lobby(true, Some(1))),
            (Step::Other, Said::Done),
            (Step::Drop(1, 0), Said::Freed(true)),
            (Step::Other, Said::Done),
            (Step::Serve(0), Said::Turn(Some(Try::Got))),
            (Step::Lobby, Said::Lobby(false, None)),
            (Step::Claim(2), Said::Opened(1, 0)),
            (Step::Drop(2, 0), Said::Freed(true)),
        ],
    ),
    (
        "the last connection number",
        (1, 0, 65_535),
        u32::MAX,
        &[
            (Step::Get(1, 0), Said::Opened(4_294_967_295, 0)),
            (Step::Get(2, 0), Said::Refused(Refusal::Exhausted)),
            (Step::Drop(1, 0), Said::Freed(true)),
        ],
    ),
];

#[test]
fn the_first_two_hosts_do_so(rt: HostRuntime) {
    for row in &ROWS {
        let (name, limits, first, steps) = *row;
        let desk = Desk::of_two(rt.alloc(), limits, first, 3, (0, 1)).expect(&rt, "memory");
        run(&rt, rt.alloc(), desk, name, steps);
    }
}
