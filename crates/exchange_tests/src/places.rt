//! Which places of a slab its rounds poll, by what its dial tells after each turn.

ghost use Rattle.std.specs.Prelude.{◌≡◌};
ghost use Rattle.cache.specs.PoolCalls.{home_of};
ghost use Rattle.transfer_slab.specs.Slabs.{AreKept};
ghost use Rattle.exchange.specs.Worlds.{world_of};
ghost use Rattle.exchange_memory.specs.Memory.{IsUntouched, HappenedTo};

use crate::checks::check_eq;
use crate::driving::{MOST_POLLS, NOW, OK, pool_of, prepared_at, want_of, wire_of};
use cache::Pool;
use conn_log::Want;
use exchange::{Place, Ready};
use exchange_memory::{FixedClock, Halt, MemoryDial, MemoryWire};
use futures::task::{Doorbell, Poll, Solo};
use persistence::Method;
use std::alloc::AllocGlobal;
use std::fmt::Write;
use std::process::Abort;
use std::random::RandomSource;
use std::time::Duration;
use transfer_slab::Slab;

const CLOCK: FixedClock = FixedClock { now: NOW };

/// Three responses, each of which one read gives whole.
const THREE: &[u8] = b"HTTP/1.1 200 OK\r\nContent-Length: 2\r\n\r\nok\
    HTTP/1.1 200 OK\r\nContent-Length: 2\r\n\r\nok\
    HTTP/1.1 200 OK\r\nContent-Length: 2\r\n\r\nok";

/// How many transfers there are at first: each parks once, in its first read, and then ends.
const TRANSFERS: u64 = 3;

/// What a turn tells in place of a transfer if it can't tell.
const ALL: (u32, u32) = (u32::MAX, 0);

/// What a dial tells, and which places are polled then.
struct Row {
    /// How many connections the host may have; 0 is any number.
    most: u32,
    /// Whether a turn is taken before the first round, while all are due.
    turns_first: bool,
    /// How many transfers join behind those that have ended.
    joins: u64,
    /// The places that each turn tells of, and which of their transfers: later ones can't tell.
    turns: &'static [&'static [(u32, u32)]],
    /// The places that were polled before each turn, in their order.
    transcript: &'static str,
}

static ROWS: [Row; 8] = [
    // one is told of after the other
    Row {
        most: 0,
        turns_first: false,
        joins: 0,
        turns: &[&[(2, 1)], &[], &[(1, 1), (0, 1)]],
        transcript: "0 1 2 | 2 | | 1 0 | ",
    },
    // a dial that can't tell
    Row {
        most: 0,
        turns_first: false,
        joins: 0,
        turns: &[],
        transcript: "0 1 2 | 0 1 2 | ",
    },
    // a place that is not there, and one told of twice
    Row {
        most: 0,
        turns_first: false,
        joins: 0,
        turns: &[&[(9, 1), (1, 1), (1, 1)]],
        transcript: "0 1 2 | 1 | 0 2 | ",
    },
    // the transfer before, at a place where another one stands
    Row {
        most: 0,
        turns_first: false,
        joins: 1,
        turns: &[&[(1, 1)], &[(1, 1)], &[(1, 2)]],
        transcript: "0 1 2 | 1 1 | | 1 | 0 2 | ",
    },
    // a place where none stands any more
    Row {
        most: 0,
        turns_first: false,
        joins: 0,
        turns: &[&[(0, 1)], &[(0, 1)]],
        transcript: "0 1 2 | 0 | | 1 2 | ",
    },
    // a place that is due: once it has been polled it is polled once more
    Row {
        most: 0,
        turns_first: true,
        joins: 0,
        turns: &[&[(1, 1)]],
        transcript: "| 0 1 2 1 | 0 2 | ",
    },
    // waiters in the middle: each gets its connection in its turn
    Row {
        most: 1,
        turns_first: false,
        joins: 0,
        turns: &[&[(2, 1), (1, 1)], &[(0, 1)]],
        transcript: "0 1 2 | | 0 1 2 | ",
    },
    // a turn that can't tell of others
    Row {
        most: 0,
        turns_first: false,
        joins: 1,
        turns: &[&[(2, 1), ALL], &[(2, 2)]],
        transcript: "0 1 2 | 2 0 1 2 | 2 | ",
    },
];

// A transfer of that number joins. One that joins behind another wants a new connection.
fn join<R: Abort + AllocGlobal>(
    rt: &R,
    slab: &mut Slab<MemoryWire>,
    pool: &Pool<MemoryWire>,
    transfer: u64,
)
    requires kept { AreKept (world_of (λ wire site transfer. IsUntouched wire) HappenedTo
        (λ moment. moment ≡ 7)) (home_of pool.now) slab.old.slots }
    ensures kept { AreKept (world_of (λ wire site transfer. IsUntouched wire) HappenedTo
        (λ moment. moment ≡ 7)) (home_of pool.now) slab.new.slots }
{
    let fresh = transfer > TRANSFERS;
    let want = Want {
        fresh,
        ..want_of(transfer)
    };
    let parts = prepared_at(rt, 0, Method::Get, "http://example.com/", want);
    let joined = slab.join(parts, pool, &CLOCK);
    assert!(rt; joined.is_ok());
}

// Polls until none is due; behind those that end, so many join.
fn poll_due<R: Abort + AllocGlobal>(
    rt: &R,
    task: &Solo,
    slab: &mut Slab<MemoryWire>,
    pool: &mut Pool<MemoryWire>,
    dial: &mut MemoryDial,
    joins: u64,
) -> u64
    requires kept { AreKept (world_of (λ wire site transfer. IsUntouched wire) HappenedTo
        (λ moment. moment ≡ 7)) (home_of pool.old) slab.old.slots }
    ensures kept { AreKept (world_of (λ wire site transfer. IsUntouched wire) HappenedTo
        (λ moment. moment ≡ 7)) (home_of pool.new) slab.new.slots }
{
    let mut left = joins;
    let mut cx = task.begin();
    for _ in 0..MOST_POLLS {
        if !slab.has_due() {
            break;
        }
        let ended = slab.poll_next(&mut cx, pool, dial, &CLOCK);
        if ended.is_some() && left > 0 {
            left -= 1;
            join(rt, slab, pool, TRANSFERS + 1);
        }
    }
    let turn: Poll<()> = cx.yield_now();
    cx.end(&turn);
    left
}

// Writes the places that the dial was told of since there were so many, before a turn.
fn write_places<R: Abort>(rt: &R, text: &mut String, dial: &MemoryDial, seen: usize) {
    for place in dial.places().iter().skip(seen) {
        let index = place.index;
        write!(text, "{index} ").expect(rt, "memory");
    }
    text.push_str("| ").expect(rt, "memory");
}

// Writes behind a script what one turn tells.
fn write_turn<R: Abort>(rt: &R, script: &mut Vec<Ready>, turn: &[(u32, u32)]) {
    for &told in turn {
        if told == ALL {
            script.push(Ready::All).expect(rt, "memory");
            return;
        }
        let (index, joined) = told;
        let place = Place { index, joined };
        script.push(Ready::At(place)).expect(rt, "memory");
    }
    script.push(Ready::Nothing).expect(rt, "memory");
}

// A dial whose turns tell that, and whose wires answer after their first read.
fn telling_dial<R: Abort + AllocGlobal>(rt: &R, turns: &[&[(u32, u32)]]) -> MemoryDial {
    let mut dial = MemoryDial::new(rt.alloc());
    for _ in 0..TRANSFERS + 1 {
        let mut wire = wire_of(rt, THREE);
        wire.set_most_read(OK.len());
        wire.halt_read(1, Halt::NotYet);
        dial.add(wire).expect(rt, "memory");
    }
    let mut script = Vec::new(rt.alloc());
    for turn in turns {
        write_turn(rt, &mut script, turn);
    }
    dial.tell(&script).expect(rt, "memory");
    dial.note_places(100).expect(rt, "memory");
    dial
}

// Takes a turn of the dial.
fn take_turn(slab: &mut Slab<MemoryWire>, _pool: &Pool<MemoryWire>, dial: &mut MemoryDial)
    requires kept { AreKept (world_of (λ wire site transfer. IsUntouched wire) HappenedTo
        (λ moment. moment ≡ 7)) (home_of _pool.now) slab.old.slots }
    ensures kept { AreKept (world_of (λ wire site transfer. IsUntouched wire) HappenedTo
        (λ moment. moment ≡ 7)) (home_of _pool.now) slab.new.slots }
{
    let _ = slab.turn(dial, Duration::ZERO);
}

// All transfers of the beginning join.
fn join_all<R: Abort + AllocGlobal>(rt: &R, slab: &mut Slab<MemoryWire>, pool: &Pool<MemoryWire>)
    requires kept { AreKept (world_of (λ wire site transfer. IsUntouched wire) HappenedTo
        (λ moment. moment ≡ 7)) (home_of pool.now) slab.old.slots }
    ensures kept { AreKept (world_of (λ wire site transfer. IsUntouched wire) HappenedTo
        (λ moment. moment ≡ 7)) (home_of pool.now) slab.new.slots }
{
    for transfer in 0..TRANSFERS {
        join(rt, slab, pool, transfer);
    }
}

// Polls and takes turns until all transfers have ended, and writes which places were polled.
fn poll_all<R: Abort + AllocGlobal>(
    rt: &R,
    task: &Solo,
    slab: &mut Slab<MemoryWire>,
    pool: &mut Pool<MemoryWire>,
    dial: &mut MemoryDial,
    joins: u64,
    text: &mut String,
)
    requires kept { AreKept (world_of (λ wire site transfer. IsUntouched wire) HappenedTo
        (λ moment. moment ≡ 7)) (home_of pool.old) slab.old.slots }
    ensures kept { AreKept (world_of (λ wire site transfer. IsUntouched wire) HappenedTo
        (λ moment. moment ≡ 7)) (home_of pool.new) slab.new.slots }
{
    let mut left = joins;
    for _ in 0..MOST_POLLS {
        if slab.is_empty() {
            return;
        }
        let seen = dial.places().len();
        left = poll_due(rt, task, slab, pool, dial, left);
        write_places(rt, text, dial, seen);
        take_turn(slab, pool, dial);
    }
}

// Which places are polled before each turn, until all transfers have ended.
fn transcript_of<R: Abort + AllocGlobal + RandomSource>(rt: &R, row: &Row) -> String {
    let task = Solo::new(rt, Doorbell::spinning()).expect(rt, "a task");
    let mut dial = telling_dial(rt, row.turns);
    let mut pool = pool_of(rt, row.most);
    let mut slab = Slab::new(rt.alloc()).expect(rt, "memory");
    let mut text = String::new(rt.alloc());
    join_all(rt, &mut slab, &pool);
    if row.turns_first {
        take_turn(&mut slab, &pool, &mut dial);
        write_places(rt, &mut text, &dial, 0);
    }
    poll_all(
        rt, &task, &mut slab, &mut pool, &mut dial, row.joins, &mut text,
    );
    slab.close(&mut pool, &mut dial, &CLOCK);
    text
}

#[test]
fn rounds_poll_what_the_dial_tells_of(rt: HostRuntime) {
    for row in &ROWS {
        let text = transcript_of(&rt, row);
        check_eq(&rt, text.as_str(), row.transcript);
    }
}
