//! What no clause says: that calls succeed in ample memory, and that streams come back with their
//! own connections.

ghost use Rattle.std.specs.Prelude.{◌≡◌, IsSome, None, Some};

use crate::desk::{
    Desk, Stream, asked, give_back, lease_of, leased, leave, still, stray, stream_of, stream_under,
    ticket_of, waits, want_of,
};
use crate::keeper::{Row, Said, Step, run};
use budget::Refusal;
use bundle::Lease;
use conn_log::{Cause, Want};
use std::test::Fail;

static CALLS: [Row; 5] = [
    (
        "the newest is reused, and an abandoned connection closed",
        (4, 0, 65_535),
        1,
        &[
            (Step::Get(1, 0), Said::Opened(1, 0)),
            (Step::Get(2, 0), Said::Opened(2, 0)),
            (Step::Back(2, 5), Said::Freed(false)),
            (Step::Back(1, 9), Said::Freed(false)),
            (Step::Oldest, Said::Oldest(5, 2)),
            (Step::Get(3, 1_000), Said::Reused(1, 1_000)),
            (Step::Look, Said::Look(2, 1, 1, 0, false)),
            (Step::Drop(3, 2_000), Said::Freed(true)),
            (Step::Length, Said::Length(6)),
            (Step::Entry(5), Said::Closed(2_000, 1, Cause::Dropped)),
        ],
    ),
    (
        "the last number is used once",
        (1, 0, 65_535),
        u32::MAX,
        &[
            (Step::Get(1, 0), Said::Opened(4_294_967_295, 0)),
            (Step::Get(1, 0), Said::Refused(Refusal::TransferBusy)),
            (Step::Get(2, 0), Said::Refused(Refusal::Exhausted)),
            (Step::Back(1, 1), Said::Freed(false)),
            (Step::Get(2, 2), Said::Refused(Refusal::Exhausted)),
        ],
    ),
    (
        "a number is kept for each that waits",
        (1, 0, 65_535),
        u32::MAX - 1,
        &[
            (Step::Get(1, 0), Said::Opened(4_294_967_294, 0)),
            (Step::Get(2, 1), Said::Waits),
            (Step::Get(2, 1), Said::Refused(Refusal::TransferBusy)),
            (Step::Get(3, 1), Said::Refused(Refusal::Exhausted)),
            (Step::Drop(1, 2), Said::Freed(false)),
            (Step::Claim(2), Said::Opened(4_294_967_295, 2)),
            (Step::Drop(2, 3), Said::Freed(true)),
        ],
    ),
    // what came back has its own stream, and what was opened has none
    (
        "who came first is served first, with what comes back",
        (1, 0, 65_535),
        1,
        &[
            (Step::Get(1, 0), Said::Opened(1, 0)),
            (Step::Get(2, 1), Said::Waits),
            (Step::Get(3, 2), Said::Waits),
            (Step::Look, Said::Look(1, 0, 1, 2, false)),
            (Step::Back(1, 3), Said::Freed(false)),
            (Step::Claim(3), Said::Still),
            (Step::Claim(2), Said::Reused(1, 3)),
            (Step::Drop(2, 4), Said::Freed(false)),
            (Step::Claim(3), Said::Opened(2, 4)),
            (Step::Drop(3, 5), Said::Freed(true)),
            (Step::Look, Said::Look(0, 0, 0, 0, false)),
        ],
    ),
    (
        "granted connections keep their own streams",
        (2, 0, 65_535),
        1,
        &[
            (Step::Get(1, 0), Said::Opened(1, 0)),
            (Step::Get(2, 0), Said::Opened(2, 0)),
            (Step::Get(3, 1), Said::Waits),
            (Step::Get(4, 1), Said::Waits),
            (Step::Back(2, 2), Said::Freed(false)),
            (Step::Back(1, 3), Said::Freed(false)),
            (Step::Claim(4), Said::Reused(1, 3)),
            (Step::Drop(4, 4), Said::Freed(true)),
            (Step::Claim(3), Said::Reused(2, 2)),
            (Step::Drop(3, 4), Said::Freed(true)),
        ],
    ),
];

#[test]
fn calls_are_answered_so(rt: HostRuntime) {
    for row in &CALLS {
        let (name, limits, first, steps) = *row;
        let desk = Desk::new(rt.alloc(), limits, first).expect(&rt, "memory");
        run(&rt, rt.alloc(), desk, name, steps);
    }
}

#[test]
fn a_ticket_may_be_a_stranger(rt: HostRuntime) {
    let mut here = Desk::of_host(rt.alloc(), 1, 1).expect(&rt, "memory");
    let mut there = Desk::of_host(rt.alloc(), 1, 1).expect(&rt, "memory");
    let holder_here = leased(&rt, &mut here, 1, 0);
    let holder_there = leased(&rt, &mut there, 1, 0);
    let ticket = waits(&rt, &mut here, 2, 1);
    // the other host knows nothing of the transfer
    let Err(refused) = there.withdraw(ticket, 1) else {
        panic!(rt; "the ticket was taken");
    };
    let ticket = refused.keep();
    // it waits there too, for something else
    let want = Want {
        lane: 1,
        ..want_of(2)
    };
    let other = ticket_of(&rt, asked(&rt, &mut there, want, 1));
    let ticket = stray(&rt, &mut there, ticket).keep();
    // where it was taken it still waits
    let ticket = still(&rt, &mut here, ticket);
    leave(&rt, &mut here, ticket, 2);
    give_back(&rt, &mut here, holder_here, 2);
    leave(&rt, &mut there, other, 2);
    give_back(&rt, &mut there, holder_there, 2);
}

// Writes through the stream that the lease may have.
fn put_stream(lease: &mut Lease<Stream>, stream: Stream)
    ensures put { IsSome lease.old.stream → lease.new ≡ record lease.old { stream = Some stream } }
    ensures none { lease.old.stream ≡ None → lease.new ≡ lease.old }
{
    if let Some(own) = lease.stream_mut() {
        *own = stream;
    }
}

#[test]
fn a_lease_lends_its_stream(rt: HostRuntime) -> Result<(), Fail> {
    let mut desk = Desk::of_host(rt.alloc(), 1, 1)?;
    let mut lease = lease_of(&rt, asked(&rt, &mut desk, want_of(1), 0));
    assert_eq!(rt; stream_of(&mut lease), None);
    lease.attach(Stream(1));
    put_stream(&mut lease, Stream(9));
    assert_eq!(rt; stream_of(&mut lease), Some(Stream(9)));
    assert_eq!(rt;
        (lease.site(), lease.number(), lease.want(), lease.reused()),
        (7, 1, want_of(1), false)
    );
    give_back(&rt, &mut desk, lease, 5);
    let again = leased(&rt, &mut desk, 2, 6);
    assert_eq!(rt;
        stream_under(&rt, &mut desk, again, 6),
        (1, Some(Stream(9)))
    );
    Ok(())
}
