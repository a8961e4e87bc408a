//! What no clause says of streams: one is dropped for each connection that is closed with its
//! stream here, and no other one.

ghost use Rattle.std.specs.Prelude.{◌≡◌};

use crate::checks::check_eq;
use crate::desk::{Desk, KEEP, accept, asked, lease_of, spent, want_of};
use bundle::Lease;
use conn_log::Want;
use std::cell::Cell;
use std::process::Abort;

// A stream that counts its end.
struct Counted<'a>(&'a Cell<u32>);

impl Drop for Counted<'_> {
    fn drop(self) {
        self.0.set(self.0.get().saturating_add(1));
        let Counted(_) = self;
    }
}

// A lease with a stream; a new connection has a new one.
fn leased<'a>(
    rt: &impl Abort,
    desk: &mut Desk<Counted<'a>>,
    want: Want,
    now: u64,
    ends: &'a Cell<u32>,
) -> Lease<Counted<'a>>
    ensures made_here { result.tables ≡ desk.old.here }
    ensures same { desk.new ≡ desk.old }
{
    let mut lease = lease_of(rt, asked(rt, desk, want, now));
    if !lease.has_stream() {
        lease.attach(Counted(ends));
    }
    lease
}

fn give_back<'a>(rt: &impl Abort, desk: &mut Desk<Counted<'a>>, lease: Lease<Counted<'a>>, now: u64)
    requires here { lease.tables ≡ desk.old.here }
    ensures same { desk.new ≡ desk.old }
{
    spent(rt, desk.give_back(rt, lease, KEEP, now, false));
}

// So many streams were dropped.
fn check_ends(rt: &impl Abort, ends: &Cell<u32>, expected: u32) {
    check_eq(rt, ends.get(), expected);
}

#[test]
fn each_closing_drops_one_stream(rt: HostRuntime) {
    let ends = Cell::new(0);
    let mut desk = Desk::new(rt.alloc(), (3, 0, 4), 1).expect(&rt, "memory");
    let first = leased(&rt, &mut desk, want_of(1), 0, &ends);
    let second = leased(&rt, &mut desk, want_of(2), 0, &ends);
    let third = leased(&rt, &mut desk, want_of(3), 0, &ends);
    give_back(&rt, &mut desk, first, 1);
    give_back(&rt, &mut desk, second, 2);
    check_ends(&rt, &ends, 0);
    // a lease that is dropped, one idle for room, one too old, one above a limit
    accept(&rt, desk.abandon(third, 3));
    check_ends(&rt, &ends, 1);
    let again = leased(&rt, &mut desk, want_of(4), 4, &ends);
    give_back(&rt, &mut desk, again, 5);
    check_ends(&rt, &ends, 1);
    check_eq(&rt, desk.set_host_limit(2, 6).is_ok(), true);
    let fresh = Want {
        fresh: true,
        ..want_of(5)
    };
    let fresh = leased(&rt, &mut desk, fresh, 7, &ends);
    check_ends(&rt, &ends, 2);
    check_eq(&rt, desk.set_host_limit(1, 8).is_ok(), true);
    check_ends(&rt, &ends, 3);
    give_back(&rt, &mut desk, fresh, 9);
    check_eq(&rt, desk.prune(20, 10, 0), 1);
    check_ends(&rt, &ends, 4);
}
