//! What a row of a table of exchanges has, and the one runner of such rows.

use crate::driving::{
    GOOD, NOW, OK, WANT, cache_of, cache_with_idle, cache_with_other, check_front, check_last,
    check_log, close, dial_of, prepared_at, run, wire_of,
};
use budget::Refusal;
use conn_log::{Entry, Want};
use exchange::{Done, Stage};
use exchange_memory::{FakeCache, Halt, MemoryDial, MemoryWire};
use persistence::Method;
use std::alloc::AllocGlobal;
use std::process::Abort;
use std::random::RandomSource;

/// Bytes that a peer answers: a front, so many times the same bytes, and an end.
pub(crate) struct Text {
    pub(crate) front: &'static [u8],
    pub(crate) bytes: &'static [u8],
    pub(crate) times: u32,
    pub(crate) end: &'static [u8],
}

/// No bytes.
pub(crate) const NOTHING: Text = Text {
    front: &[],
    bytes: &[],
    times: 0,
    end: &[],
};

/// Which connections there are before an exchange begins, and which its dial gives.
#[derive(Clone, Copy)]
pub(crate) enum Start {
    /// None, and each dial fails.
    Unreachable,
    /// None, and the dial gives the row's wire.
    New,
    /// An idle one, which has the row's wire. A dial gives a wire that answers that, or fails.
    Idle(Option<&'static [u8]>),
    /// Another transfer has one with the row's wire, and gives it back once a claim had to wait.
    /// The host may have so many, or any number if it is 0; a dial fails.
    Taken(u32),
}

/// What doesn't do what it would at the call that [`run_row`] is told.
pub(crate) enum Halted {
    Nothing,
    Dial(Halt),
    Read(Halt),
    Write(Halt),
}

/// An exchange, and what comes of it.
pub(crate) struct Row {
    pub(crate) name: &'static str,
    pub(crate) start: Start,
    pub(crate) site: u32,
    pub(crate) method: Method,
    pub(crate) want: Want,
    /// What the row's wire answers.
    pub(crate) answer: Text,
    pub(crate) most_read: usize,
    pub(crate) most_written: usize,
    pub(crate) halted: Halted,
    /// What the cache refuses, at its acquire of that number, counted from one.
    pub(crate) refused: Option<(u64, Refusal)>,
    /// What it waits for whenever it is pending.
    pub(crate) waits_on: Stage,
    /// How often it is pending, if that is looked at.
    pub(crate) pending: Option<u32>,
    pub(crate) done: Done,
    /// The log of the first host: the whole, or its front where its last entry is given.
    pub(crate) log: &'static [Entry],
    pub(crate) last: Option<Entry>,
    /// The wires that were not dialled.
    pub(crate) left: usize,
}

/// A GET by transfer 1 over a new connection, which all goes well, but for the log.
pub(crate) const GET: Row = Row {
    name: "",
    start: Start::New,
    site: 0,
    method: Method::Get,
    want: WANT,
    answer: Text {
        front: OK,
        ..NOTHING
    },
    most_read: usize::MAX,
    most_written: usize::MAX,
    halted: Halted::Nothing,
    refused: None,
    waits_on: Stage::Turn,
    pending: Some(0),
    done: Done::Good(GOOD),
    log: &[],
    last: None,
    left: 0,
};

// The bytes of a text.
fn bytes_of<R: Abort + AllocGlobal>(rt: &R, text: &Text) -> Vec<u8> {
    let mut all = text.front.to_vec(rt.alloc()).expect(rt, "memory");
    for _ in 0..text.times {
        all.extend_from_slice(text.bytes).expect(rt, "memory");
    }
    all.extend_from_slice(text.end).expect(rt, "memory");
    all
}

// The cache and the dial of a row whose wire is that.
fn started<R: Abort + AllocGlobal>(
    rt: &R,
    start: Start,
    wire: MemoryWire,
) -> (FakeCache<MemoryWire>, MemoryDial) {
    match start {
        Start::Unreachable => (cache_of(rt), MemoryDial::new(rt.alloc())),
        Start::New => (cache_of(rt), dial_of(rt, wire)),
        Start::Idle(None) => (cache_with_idle(rt, wire), MemoryDial::new(rt.alloc())),
        Start::Idle(Some(second)) => (cache_with_idle(rt, wire), dial_of(rt, wire_of(rt, second))),
        Start::Taken(most) => {
            let mut cache = cache_with_other(rt, most, wire);
            cache.release_after(1);
            (cache, MemoryDial::new(rt.alloc()))
        }
    }
}

/// Runs the exchange of a row, whose wire answers that; what is halted is so at the nth call.
pub(crate) fn run_row<R: Abort + AllocGlobal + RandomSource>(
    rt: &R,
    row: &Row,
    nth: u64,
    answer: &[u8],
) {
    let mut wire = wire_of(rt, answer);
    wire.set_most_read(row.most_read);
    wire.set_most_written(row.most_written);
    match row.halted {
        Halted::Read(halt) => wire.halt_read(nth, halt),
        Halted::Write(halt) => wire.halt_write(nth, halt),
        _ => {}
    }
    let (mut cache, mut dial) = started(rt, row.start, wire);
    if let Halted::Dial(halt) = row.halted {
        dial.halt_dial(nth, halt);
    }
    if let Some((nth, refusal)) = row.refused {
        cache.refuse_acquire(nth, refusal);
    }
    let parts = prepared_at(rt, row.site, row.method, "http://example.com/", row.want);
    let (done, pending) = run(rt, parts, &mut cache, &mut dial, row.waits_on);
    assert_eq!(rt;
        (done, pending, dial.left()),
        (row.done, row.pending.unwrap_or(pending), row.left),
        "{}, call {nth}, {} bytes",
        row.name,
        answer.len()
    );
    match row.last {
        Some(last) => {
            check_front(rt, cache.pool(), row.log);
            check_last(rt, &cache, last);
        }
        None => check_log(rt, &cache, row.log),
    }
    let _ = close(rt, cache);
}

/// Runs the exchanges of a table; what is halted is so at the nth call.
pub(crate) fn run_rows<R: Abort + AllocGlobal + RandomSource>(rt: &R, rows: &[Row], nth: u64) {
    for row in rows {
        run_row(rt, row, nth, &bytes_of(rt, &row.answer));
    }
}
