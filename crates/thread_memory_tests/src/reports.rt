//! A report that is out of memory. The test passes whichever allocation fails.

use crate::checks::check_eq;
use crate::making::KEEP;
use budget::Refusal;
use exchange::{Answer, Done};
use load_report::report_of;
use shared_cache::HostCount;

/// What happened at the one host.
static HOSTS: [HostCount; 1] = [HostCount {
    opened: 2,
    reused: 3,
    closed: 2,
    waited: 1,
    alive: 0,
}];

/// A transfer that ended with a whole response of two bytes.
const NEW: Done = Done::Good(Answer {
    status: 200,
    body_len: 2,
    facts: KEEP,
    reused: false,
    retried: false,
});

/// The same over a connection that was used before.
const REUSED: Done = Done::Good(Answer {
    status: 200,
    body_len: 2,
    facts: KEEP,
    reused: true,
    retried: false,
});

static RESULTS: [Done; 5] = [NEW, REUSED, NEW, REUSED, REUSED];

/// The report is refused for lack of memory, and is whole when it is asked for again.
#[test]
fn want_of_memory_refuses_a_report(rt: HostRuntime) {
    let text = match report_of(rt.alloc(), &HOSTS, &RESULTS) {
        Ok(text) => text,
        Err(refusal) => {
            check_eq(&rt, refusal, Refusal::Memory);
            report_of(rt.alloc(), &HOSTS, &RESULTS).expect(&rt, "memory")
        }
    };
    check_eq(
        &rt,
        text.as_str(),
        "host       0       2       3       2       1       0\n\
        all        1       2       3       2       1       0\n\
        jobs       5       0       3       0      10\n",
    );
}
