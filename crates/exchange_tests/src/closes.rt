//! Transfers of a slab that are closed where they stand: who goes on, and in which order.

ghost use Rattle.std.specs.Prelude.{◌≡◌};
ghost use Rattle.cache.specs.PoolCalls.{home_of};
ghost use Rattle.transfer_slab.specs.Slabs.{AreKept};
ghost use Rattle.exchange.specs.Worlds.{world_of};
ghost use Rattle.exchange_memory.specs.Memory.{IsUntouched, HappenedTo};

use crate::checks::check_eq;
use crate::driving::{MOST_POLLS, NOW, OK, pool_of, prepared_at, want_of, wire_of};
use cache::Pool;
use exchange::{Done, Fault};
use exchange_memory::{FixedClock, Halt, MemoryDial, MemoryWire};
use futures::task::{Doorbell, Poll, Solo};
use persistence::Method;
use std::alloc::AllocGlobal;
use std::fmt::Write;
use std::process::Abort;
use std::random::RandomSource;
use std::time::Duration;
use transfer_slab::Slab;

const CLOCK: FixedClock = FixedClock { now: NOW };

/// How many transfers there are: the first one has the only connection, the others wait for it in
/// the order of their numbers.
const TRANSFERS: u64 = 5;

/// A close at a place, and what comes of it.
struct Row {
    /// Whether the transfers were polled before.
    is_polled: bool,
    /// The place that is closed.
    place: usize,
    /// Whether a lease or a ticket was spent by the close.
    has_spent: bool,
    /// The transfers that end, in their order.
    ends: &'static str,
}

static ROWS: [Row; 6] = [
    // the one that has the connection
    Row {
        is_polled: true,
        place: 0,
        has_spent: true,
        ends: "1 2 3 4 9 ",
    },
    // the first waiter
    Row {
        is_polled: true,
        place: 1,
        has_spent: true,
        ends: "0 2 3 4 9 ",
    },
    // a waiter in the middle
    Row {
        is_polled: true,
        place: 2,
        has_spent: true,
        ends: "0 1 3 4 9 ",
    },
    // the last waiter
    Row {
        is_polled: true,
        place: 4,
        has_spent: true,
        ends: "0 1 2 3 9 ",
    },
    // one that has neither lease nor ticket yet
    Row {
        is_polled: false,
        place: 1,
        has_spent: false,
        ends: "0 2 3 4 9 ",
    },
    // a place that is not there
    Row {
        is_polled: true,
        place: 5,
        has_spent: false,
        ends: "0 1 2 3 4 9 ",
    },
];

// A transfer of that number joins: its place.
fn join<R: Abort + AllocGlobal>(
    rt: &R,
    slab: &mut Slab<MemoryWire>,
    pool: &Pool<MemoryWire>,
    transfer: u64,
) -> Option<usize>
    requires kept { AreKept (world_of (λ wire site transfer. IsUntouched wire) HappenedTo
        (λ moment. moment ≡ 7)) (home_of pool.now) slab.old.slots }
    ensures kept { AreKept (world_of (λ wire site transfer. IsUntouched wire) HappenedTo
        (λ moment. moment ≡ 7)) (home_of pool.now) slab.new.slots }
{
    let parts = prepared_at(rt, 0, Method::Get, "http://example.com/", want_of(transfer));
    slab.join(parts, pool, &CLOCK).ok()
}

// A dial of two connections that answer each request, after a first read that finds nothing.
fn answering_dial<R: Abort + AllocGlobal>(rt: &R) -> MemoryDial {
    let mut dial = MemoryDial::new(rt.alloc());
    for _ in 0..2 {
        let mut responses = Vec::new(rt.alloc());
        for _ in 0..TRANSFERS + 1 {
            responses.extend_from_slice(OK).expect(rt, "memory");
        }
        let mut wire = wire_of(rt, &responses);
        wire.set_most_read(OK.len());
        wire.halt_read(1, Halt::NotYet);
        dial.add(wire).expect(rt, "memory");
    }
    dial
}

// Polls until none is due, and writes which transfers end.
fn poll_due<R: Abort>(
    rt: &R,
    task: &Solo,
    slab: &mut Slab<MemoryWire>,
    pool: &mut Pool<MemoryWire>,
    dial: &mut MemoryDial,
    text: &mut String,
)
    requires kept { AreKept (world_of (λ wire site transfer. IsUntouched wire) HappenedTo
        (λ moment. moment ≡ 7)) (home_of pool.old) slab.old.slots }
    ensures kept { AreKept (world_of (λ wire site transfer. IsUntouched wire) HappenedTo
        (λ moment. moment ≡ 7)) (home_of pool.new) slab.new.slots }
{
    let mut cx = task.begin();
    for _ in 0..MOST_POLLS {
        if !slab.has_due() {
            break;
        }
        if let Some(ended) = slab.poll_next(&mut cx, pool, dial, &CLOCK) {
            let number = ended.parts.transfer();
            write!(text, "{number} ").expect(rt, "memory");
        }
    }
    let turn: Poll<()> = cx.yield_now();
    cx.end(&turn);
}

// Polls until none is due, if the row's transfers are polled before its close.
fn poll_before<R: Abort>(
    rt: &R,
    task: &Solo,
    slab: &mut Slab<MemoryWire>,
    pool: &mut Pool<MemoryWire>,
    dial: &mut MemoryDial,
    row: &Row,
    text: &mut String,
)
    requires kept { AreKept (world_of (λ wire site transfer. IsUntouched wire) HappenedTo
        (λ moment. moment ≡ 7)) (home_of pool.old) slab.old.slots }
    ensures kept { AreKept (world_of (λ wire site transfer. IsUntouched wire) HappenedTo
        (λ moment. moment ≡ 7)) (home_of pool.new) slab.new.slots }
{
    if !row.is_polled {
        return;
    }
    poll_due(rt, task, slab, pool, dial, text);
}

// Polls and takes turns until all transfers have ended.
fn poll_all<R: Abort>(
    rt: &R,
    task: &Solo,
    slab: &mut Slab<MemoryWire>,
    pool: &mut Pool<MemoryWire>,
    dial: &mut MemoryDial,
    text: &mut String,
)
    requires kept { AreKept (world_of (λ wire site transfer. IsUntouched wire) HappenedTo
        (λ moment. moment ≡ 7)) (home_of pool.old) slab.old.slots }
    ensures kept { AreKept (world_of (λ wire site transfer. IsUntouched wire) HappenedTo
        (λ moment. moment ≡ 7)) (home_of pool.new) slab.new.slots }
{
    for _ in 0..MOST_POLLS {
        if slab.is_empty() {
            return;
        }
        poll_due(rt, task, slab, pool, dial, text);
        take_turn(slab, pool, dial);
    }
}

// Takes a turn of the dial.
fn take_turn(slab: &mut Slab<MemoryWire>, _pool: &Pool<MemoryWire>, dial: &mut MemoryDial)
    requires kept { AreKept (world_of (λ wire site transfer. IsUntouched wire) HappenedTo
        (λ moment. moment ≡ 7)) (home_of _pool.now) slab.old.slots }
    ensures kept { AreKept (world_of (λ wire site transfer. IsUntouched wire) HappenedTo
        (λ moment. moment ≡ 7)) (home_of _pool.now) slab.new.slots }
{
    let _ = slab.turn(dial, Duration::ZERO);
}

// All transfers of the beginning join, each behind the one before.
fn join_all<R: Abort + AllocGlobal>(rt: &R, slab: &mut Slab<MemoryWire>, pool: &Pool<MemoryWire>)
    requires kept { AreKept (world_of (λ wire site transfer. IsUntouched wire) HappenedTo
        (λ moment. moment ≡ 7)) (home_of pool.now) slab.old.slots }
    ensures kept { AreKept (world_of (λ wire site transfer. IsUntouched wire) HappenedTo
        (λ moment. moment ≡ 7)) (home_of pool.now) slab.new.slots }
{
    for transfer in 0..TRANSFERS {
        let joined = join(rt, slab, pool, transfer);
        check_eq(rt, joined, Some(transfer as usize));
    }
}

// Closes the transfer at the row's place; the next one to join takes the place.
fn close_at<R: Abort + AllocGlobal>(
    rt: &R,
    slab: &mut Slab<MemoryWire>,
    pool: &mut Pool<MemoryWire>,
    dial: &mut MemoryDial,
    row: &Row,
)
    requires kept { AreKept (world_of (λ wire site transfer. IsUntouched wire) HappenedTo
        (λ moment. moment ≡ 7)) (home_of pool.old) slab.old.slots }
    ensures kept { AreKept (world_of (λ wire site transfer. IsUntouched wire) HappenedTo
        (λ moment. moment ≡ 7)) (home_of pool.new) slab.new.slots }
{
    let _ = slab.take_spent();
    let closed = slab.close_at(row.place, pool, dial, &CLOCK);
    check_eq(rt, slab.take_spent(), row.has_spent);
    assert!(rt; !slab.take_spent());
    if let Some((done, parts)) = closed {
        check_eq(rt, done, Done::Bad(Fault::Cancelled));
        check_eq(rt, parts.transfer(), row.place as u64);
    } else {
        check_eq(rt, row.place, TRANSFERS as usize);
    }
    check_eq(rt, slab.transfer_at(row.place), None);
    let joined = join(rt, slab, pool, 9);
    check_eq(rt, joined, Some(row.place));
    check_eq(rt, slab.transfer_at(row.place), Some(9));
}

// Which transfers end behind the row's close, in their order.
fn ends_of<R: Abort + AllocGlobal + RandomSource>(rt: &R, row: &Row) -> String {
    let task = Solo::new(rt, Doorbell::spinning()).expect(rt, "a task");
    let mut dial = answering_dial(rt);
    let mut pool = pool_of(rt, 1);
    let mut slab = Slab::new(rt.alloc()).expect(rt, "memory");
    let mut text = String::new(rt.alloc());
    join_all(rt, &mut slab, &pool);
    poll_before(rt, &task, &mut slab, &mut pool, &mut dial, row, &mut text);
    close_at(rt, &mut slab, &mut pool, &mut dial, row);
    poll_all(rt, &task, &mut slab, &mut pool, &mut dial, &mut text);
    slab.close(&mut pool, &mut dial, &CLOCK);
    text
}

#[test]
fn others_go_on_in_their_order_behind_a_close(rt: HostRuntime) {
    for row in &ROWS {
        let text = ends_of(&rt, row);
        check_eq(&rt, text.as_str(), row.ends);
    }
}
