//! Calls of one host, out of memory. Each of these tests passes whichever allocation fails: the
//! refusal says so and changes nothing, the call succeeds when it comes again, and spending takes
//! no memory. In the last one all memory may be refused from some moment on.

ghost use Rattle.std.specs.Prelude.{◌≡◌, IfSome};
ghost use Rattle.bundle.specs.Lease.{IsMadeAt};
ghost use Rattle.bundle.specs.Replies.{GivesLease};

use crate::checks::check_eq;
use crate::desk::{Desk, HOST, booking_of, lease_of, ticket_of, with_stream};
use budget::{Pass, Refusal, Try};
use bundle::{Booking, Bundle, Changed, Did, Got, Lease, Shortage, Snapshot, Ticket};
use conn_log::{Entry, Stamp, Want};
use std::alloc::Global;
use std::process::Abort;

// Any connection of lane 0 will do for that transfer.
fn want_of(transfer: u64) -> Want {
    Want {
        transfer,
        lane: 0,
        max_age: u64::MAX,
        max_life: 0,
        fresh: false,
        forbid_reuse: false,
    }
}

// A desk under those limits; if memory is refused once, it comes the second time.
fn new_at_last(rt: &impl Abort, alloc: Global, limits: (u32, u32, u32)) -> Desk {
    match Desk::new(alloc, limits) {
        Ok(desk) => desk,
        Err(refusal) => {
            check_eq(rt, refusal, Refusal::Memory);
            Desk::new(alloc, limits).expect(rt, "memory")
        }
    }
}

#[test]
fn want_of_memory_refuses_a_new_host(rt: HostRuntime) {
    let made: Result<Bundle<u32>, Refusal> = Bundle::new(rt.alloc(), 4, HOST, 1);
    let bundle = match made {
        Ok(bundle) => bundle,
        Err(refusal) => {
            check_eq(&rt, refusal, Refusal::Memory);
            Bundle::new(rt.alloc(), 4, HOST, 1).expect(&rt, "memory")
        }
    };
    check_eq(&rt, (bundle.host(), bundle.log().len()), (HOST, 0));
}

#[test]
fn want_of_memory_refuses_a_new_pass(rt: HostRuntime) {
    let mut pass = match Pass::new(rt.alloc(), 8) {
        Ok(pass) => pass,
        Err(refusal) => {
            check_eq(&rt, refusal, Refusal::Memory);
            Pass::new(rt.alloc(), 8).expect(&rt, "memory")
        }
    };
    // a seat takes no memory
    if let Ok(mut bundle) = Bundle::<u32>::new(rt.alloc(), 4, HOST, 1) {
        bundle.enrol(&mut pass);
        check_eq(
            &rt,
            (pass.is_enrolled(7), pass.is_enrolled(0)),
            (true, false),
        );
    }
    check_eq(&rt, (pass.spent(7), pass.calls(7)), (0, 0));
    pass.discard();
}

// The length of the host's log, what it looks like, and what the pass remembers of it: the last
// answer, the number of answers, and the number of leases spent.
type Shown = (usize, Snapshot, (Option<Did>, u64, u64));

fn shown(rt: &impl Abort, desk: &Desk) -> Shown {
    let (pass, host) = (&desk.pass, HOST as usize);
    assert!(rt; host < pass.hosts());
    (
        desk.bundle.log().len(),
        desk.bundle.look(),
        (pass.last(host), pass.calls(host), pass.spent(host)),
    )
}

// A call was out of memory, and changed nothing.
fn check_refused(rt: &impl Abort, desk: &Desk, refusal: Refusal, before: Shown) {
    check_eq(rt, (refusal, shown(rt, desk)), (Refusal::Memory, before));
}

// Acquires; if memory runs out nothing changes, and it comes again.
fn acquired_at_last(rt: &impl Abort, desk: &mut Desk, transfer: u64) -> Got<u32>
    ensures made_here { GivesLease result (IsMadeAt desk.old) }
    ensures same { desk.new ≡ desk.old }
{
    let before = shown(rt, desk);
    match desk.acquire(want_of(transfer), 0) {
        Ok(got) => got,
        Err(refusal) => {
            check_refused(rt, desk, refusal, before);
            desk.acquire(want_of(transfer), 0).expect(rt, "an answer")
        }
    }
}

fn leased_at_last(rt: &impl Abort, desk: &mut Desk, transfer: u64) -> Lease<u32>
    ensures made_here { result.tables ≡ desk.old }
    ensures same { desk.new ≡ desk.old }
{
    lease_of(rt, acquired_at_last(rt, desk, transfer))
}

fn waits_at_last(rt: &impl Abort, desk: &mut Desk, transfer: u64) -> Ticket
    ensures same { desk.new ≡ desk.old }
{
    ticket_of(rt, acquired_at_last(rt, desk, transfer))
}

#[test]
fn want_of_memory_refuses_an_acquire(rt: HostRuntime) {
    let mut desk = new_at_last(&rt, rt.alloc(), (40, 0, 40));
    for transfer in 0..40 {
        let lease = leased_at_last(&rt, &mut desk, transfer);
        desk.give_back(&rt, lease, 0);
        let again = leased_at_last(&rt, &mut desk, transfer);
        check_eq(&rt, again.reused(), true);
        desk.drop_lease(&rt, again, 0);
    }
    check_eq(&rt, desk.bundle.log().len(), 160);
}

#[test]
fn want_of_memory_refuses_a_wait(rt: HostRuntime) {
    let mut desk = new_at_last(&rt, rt.alloc(), (1, 0, 4));
    let lease = leased_at_last(&rt, &mut desk, 1);
    let first = waits_at_last(&rt, &mut desk, 2);
    let second = waits_at_last(&rt, &mut desk, 3);
    for transfer in 4..40 {
        let ticket = waits_at_last(&rt, &mut desk, transfer);
        desk.leave(&rt, ticket, 0);
    }
    desk.drop_lease(&rt, lease, 0);
    let served = desk.claim(&rt, first);
    desk.leave(&rt, second, 0);
    desk.drop_lease(&rt, served, 0);
    check_eq(&rt, desk.bundle.log().len(), 79);
}

#[test]
fn want_of_memory_leaves_no_booking(rt: HostRuntime) {
    let mut desk = new_at_last(&rt, rt.alloc(), (0, 1, 4));
    let lease = leased_at_last(&rt, &mut desk, 1);
    for transfer in 2..40 {
        let booking = booking_of(&rt, acquired_at_last(&rt, &mut desk, transfer));
        // another try and the last one take no memory, nor does a turn
        let booking = booking_of(&rt, desk.retry(&rt, booking, 0));
        let ticket = ticket_of(&rt, desk.retry_at_last(&rt, booking, 0));
        check_eq(&rt, desk.serve_queued(0).is_some(), true);
        desk.leave(&rt, ticket, 0);
    }
    desk.drop_lease(&rt, lease, 0);
    check_eq(&rt, desk.bundle.log().len(), 78);
}

// Cuts the host's log; if memory runs out nothing changes, and it comes the second time.
fn cut_at_last(rt: &impl Abort, desk: &mut Desk) -> Vec<Entry>
    ensures same { desk.new ≡ desk.old }
{
    let before = shown(rt, desk);
    match desk.cut() {
        Ok(part) => part,
        Err(refusal) => {
            check_refused(rt, desk, refusal, before);
            desk.cut().expect(rt, "memory")
        }
    }
}

#[test]
fn want_of_memory_refuses_a_cut(rt: HostRuntime) {
    let mut desk = new_at_last(&rt, rt.alloc(), (4, 0, 4));
    let lease = leased_at_last(&rt, &mut desk, 1);
    check_eq(&rt, cut_at_last(&rt, &mut desk).len(), 1);
    desk.drop_lease(&rt, lease, 0);
    check_eq(&rt, cut_at_last(&rt, &mut desk).len(), 1);
}

// Changes the limit; if memory runs out nothing changes, and it comes again.
fn limit_at_last(rt: &impl Abort, desk: &mut Desk, limit: u32) -> Changed
    ensures same { desk.new ≡ desk.old }
{
    let before = shown(rt, desk);
    match desk.set_host_limit(limit, 0) {
        Ok(changed) => changed,
        Err(refusal) => {
            check_refused(rt, desk, refusal, before);
            desk.set_host_limit(limit, 0).expect(rt, "an answer")
        }
    }
}

#[test]
fn want_of_memory_refuses_a_new_limit(rt: HostRuntime) {
    let mut desk = new_at_last(&rt, rt.alloc(), (1, 0, 4));
    let first = leased_at_last(&rt, &mut desk, 1);
    let second = waits_at_last(&rt, &mut desk, 2);
    let done = Changed::Done { freed: false };
    check_eq(&rt, limit_at_last(&rt, &mut desk, 2), done);
    let second = desk.claim(&rt, second);
    desk.give_back(&rt, first, 0);
    let freed = Changed::Done { freed: true };
    check_eq(&rt, limit_at_last(&rt, &mut desk, 1), freed);
    for limit in 2..40 {
        check_eq(&rt, limit_at_last(&rt, &mut desk, limit), done);
    }
    desk.drop_lease(&rt, second, 0);
    check_eq(&rt, desk.bundle.log().len(), 46);
}

// A lease of a new connection, with its stream, if there is memory for it.
fn leased_or_none(rt: &impl Abort, desk: &mut Desk, transfer: u64) -> Option<Lease<u32>>
    ensures made_here { IfSome result (λ lease. lease.tables ≡ desk.old) }
    ensures same { desk.new ≡ desk.old }
{
    match desk.acquire(want_of(transfer), 0) {
        Ok(got) => Some(with_stream(lease_of(rt, got))),
        Err(refusal) => {
            check_eq(rt, refusal, Refusal::Memory);
            None
        }
    }
}

// Two transfers have the connections that there may be in all, and a third one was refused for
// room. It tries again, waits, has a turn for which there is no room, and is granted the connection
// that the first one gives back. None of it takes memory.
fn third_of(rt: &impl Abort, desk: &mut Desk, first: Lease<u32>, booking: Booking) -> Lease<u32>
    requires first { first.tables ≡ desk.old }
    ensures made_here { result.tables ≡ desk.old }
    ensures same { desk.new ≡ desk.old }
{
    let booking = booking_of(rt, desk.retry(rt, booking, 0));
    let ticket = ticket_of(rt, desk.retry_at_last(rt, booking, 0));
    check_eq(rt, desk.serve_queued(0), Some(Try::Full));
    desk.give_back(rt, first, 1);
    let third = desk.claim(rt, ticket);
    check_eq(rt, third.reused(), true);
    third
}

// What the second one gives back makes room; nor does this take memory.
fn spend_all(
    rt: &impl Abort,
    desk: &mut Desk,
    second: Lease<u32>,
    third: Lease<u32>,
    short: Shortage,
)
    requires second { second.tables ≡ desk.old }
    requires third { third.tables ≡ desk.old }
{
    desk.give_back(rt, second, 2);
    let oldest = Stamp {
        since: 2,
        host: HOST,
        number: 2,
    };
    check_eq(rt, desk.evict_oldest(oldest, short, 3), true);
    desk.give_back(rt, third, 4);
    check_eq(rt, (desk.prune(9), desk.bundle.log().len()), (1, 9));
}

// From the first refusal on there may be no memory at all.
#[test]
fn want_of_memory_for_good_spends_all(rt: HostRuntime) {
    let Ok(mut desk) = Desk::new(rt.alloc(), (0, 2, 4)) else {
        return;
    };
    let Some(first) = leased_or_none(&rt, &mut desk, 1) else {
        return;
    };
    let Some(second) = leased_or_none(&rt, &mut desk, 2) else {
        desk.give_back(&rt, first, 1);
        check_eq(&rt, desk.prune(9), 1);
        return;
    };
    match desk.acquire(want_of(3), 0) {
        Ok(Got::NoRoom(no_room)) => {
            let (booking, short) = no_room.part();
            let third = third_of(&rt, &mut desk, first, booking);
            spend_all(&rt, &mut desk, second, third, short);
        }
        Ok(_got) => panic!(rt; "there is room"),
        Err(refusal) => {
            check_eq(&rt, refusal, Refusal::Memory);
            desk.give_back(&rt, first, 1);
            desk.give_back(&rt, second, 2);
            check_eq(&rt, desk.prune(9), 2);
        }
    }
}
