//! What a host's log hands out as it is cut, and what is known of it after that.

ghost use Rattle.std.specs.Prelude.{◌≡◌};

use crate::checks::check_eq;
use crate::desk::{Desk, KEEP, Stream, WANT, asked, drop_lease, give_back, lease_of, leased};
use budget::Refusal;
use conn_log::{Counts, Entry, Event, Want, holder, idle_oldest, open_count, waiting_len};
use std::process::Abort;

/// What is handed out; where memory runs out nothing changes, and it comes the second time.
pub(crate) fn cut_at_last(rt: &impl Abort, desk: &mut Desk<Stream>) -> Vec<Entry>
    ensures same { desk.new ≡ desk.old }
{
    let entries = desk.bundle.log().len();
    let before = desk.bundle.look();
    match desk.cut() {
        Ok(part) => part,
        Err(refusal) => {
            check_eq(rt, refusal, Refusal::Memory);
            check_eq(rt, desk.bundle.log().len(), entries);
            check_eq(rt, desk.bundle.look(), before);
            desk.cut().expect(rt, "memory")
        }
    }
}

// A connection is used, its host's log is cut, and it is used again.
#[test]
fn a_host_goes_on_after_a_cut(rt: HostRuntime) {
    let mut desk = Desk::of_host(rt.alloc(), 4, 1).expect(&rt, "memory");
    let first = leased(&rt, &mut desk, 1, 0);
    give_back(&rt, &mut desk, first, 5);
    let part = cut_at_last(&rt, &mut desk);
    let returned = Entry {
        moment: 5,
        event: Event::Returned {
            connection: 1,
            facts: KEEP,
        },
    };
    check_eq(&rt, (part.len(), part.get(1).copied()), (2, Some(returned)));
    check_eq(&rt, desk.bundle.log().len(), 0);
    let want = Want {
        transfer: 2,
        max_age: 118,
        ..WANT
    };
    let lease = lease_of(&rt, asked(&rt, &mut desk, want, 6));
    check_eq(&rt, (lease.number(), lease.reused()), (1, true));
    let log = desk.bundle.log();
    let counts = Counts {
        opened: 1,
        reused: 1,
        closed: 0,
        waited: 0,
    };
    check_eq(
        &rt,
        (open_count(log), waiting_len(log), log.counts()),
        (1, 0, counts),
    );
    check_eq(&rt, (holder(log, 1), idle_oldest(log, 7)), (Some(2), None));
    let leased = Entry {
        moment: 6,
        event: Event::Leased {
            connection: 1,
            want,
        },
    };
    let part = cut_at_last(&rt, &mut desk);
    check_eq(&rt, (part.len(), part.first().copied()), (1, Some(leased)));
    assert!(rt; cut_at_last(&rt, &mut desk).is_empty());
    drop_lease(&rt, &mut desk, lease, 6);
}
