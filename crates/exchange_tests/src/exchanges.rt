//! Exchanges over wires in memory, in tables: what was expected was read off the standards by hand.

use crate::driving::{BEFORE, GOOD, KEEP, NOW, OK, WANT};
use crate::rows::{GET, Halted, NOTHING, Row, Start, Text, run_row, run_rows};
use budget::Refusal;
use conn_log::{Cause, Entry, Event, Want};
use exchange::{Answer, Done, Fault, Stage};
use exchange_memory::Halt;
use persistence::{Facts, Framing, Method};

macro_rules! opened {
    ($connection:expr, $want:expr, $moment:expr) => {
        Entry {
            moment: $moment,
            event: Event::Opened {
                connection: $connection,
                want: $want,
            },
        }
    };
}

macro_rules! returned {
    ($connection:expr, $facts:expr, $moment:expr) => {
        Entry {
            moment: $moment,
            event: Event::Returned {
                connection: $connection,
                facts: $facts,
            },
        }
    };
}

macro_rules! closed {
    ($connection:expr, $cause:expr) => {
        Entry {
            moment: NOW,
            event: Event::Closed {
                connection: $connection,
                cause: $cause,
            },
        }
    };
}

// The facts of a response without a body.
const NO_BODY: Facts = Facts {
    framing: Framing::NoBody,
    ..KEEP
};

// The facts of a response in chunks.
const CHUNKED: Facts = Facts {
    framing: Framing::Chunked,
    ..KEEP
};

const SURPLUS: Facts = Facts {
    surplus: true,
    ..KEEP
};

const BOTH_LENGTHS: Facts = Facts {
    both_lengths: true,
    ..CHUNKED
};

// The facts where the request said that it closes.
const CLOSING: Facts = Facts {
    request_close: true,
    ..KEEP
};

// What transfer 1 wants where its connection may not be used again.
const FORBIDDING: Want = Want {
    forbid_reuse: true,
    ..WANT
};

// What the transfer wanted that had a connection before.
const WANT_BEFORE: Want = Want {
    transfer: BEFORE,
    ..WANT
};

const OPENED: Entry = opened!(1, WANT, NOW);

const RETURNED: Entry = returned!(1, KEEP, NOW);

const DROPPED: Entry = closed!(1, Cause::Dropped);

const CUT: Entry = closed!(1, Cause::Cut);

const NOT_PERSISTENT: Entry = closed!(1, Cause::NotPersistent);

// The first connection was opened for another transfer, and given back.
const OPENED_BEFORE: Entry = opened!(1, WANT_BEFORE, 0);

const RETURNED_BEFORE: Entry = returned!(1, KEEP, 0);

const LEASED: Entry = Entry {
    moment: NOW,
    event: Event::Leased {
        connection: 1,
        want: WANT,
    },
};

const WAITED: Entry = Entry {
    moment: NOW,
    event: Event::Waited { want: WANT },
};

// A new connection, for the second try.
const OPENED_AGAIN: Entry = opened!(
    2,
    Want {
        fresh: true,
        ..WANT
    },
    NOW
);

// What a response answers that was read over a connection used before.
const REUSED: Answer = Answer {
    reused: true,
    ..GOOD
};

const RETRIED: Done = Done::Good(Answer {
    retried: true,
    ..GOOD
});

// The log where the second try goes well.
const TRIED_AGAIN: &[Entry] = &[
    OPENED_BEFORE,
    RETURNED_BEFORE,
    LEASED,
    DROPPED,
    OPENED_AGAIN,
    returned!(2, KEEP, NOW),
];

const EMPTY: &[u8] = b"HTTP/1.1 200 OK\r\nContent-Length: 0\r\n";

const IN_CHUNKS: &[u8] = b"HTTP/1.1 200 OK\r\nTransfer-Encoding: chunked\r\n\r\n";

const INTERIM: &[u8] = b"HTTP/1.1 100 Continue\r\n\r\n";

static PENDING: [Row; 5] = [
    // 140 bytes: the first poll asks, dials, sends and reads 61 of them, and the second reads 64
    Row {
        name: "a poll takes 64 steps",
        answer: Text {
            front: b"HTTP/1.1 200 OK\r\nContent-Length: 100\r\n\r\n",
            bytes: b"x",
            times: 100,
            end: &[],
        },
        most_read: 1,
        pending: Some(2),
        done: Done::Good(Answer {
            body_len: 100,
            ..GOOD
        }),
        log: &[OPENED, RETURNED],
        ..GET
    },
    Row {
        name: "a dial is not ready",
        halted: Halted::Dial(Halt::NotYet),
        waits_on: Stage::Dialling,
        pending: Some(1),
        log: &[OPENED, RETURNED],
        ..GET
    },
    Row {
        name: "a write is not ready",
        halted: Halted::Write(Halt::NotYet),
        waits_on: Stage::Sending,
        pending: Some(1),
        log: &[OPENED, RETURNED],
        ..GET
    },
    Row {
        name: "a read is not ready",
        halted: Halted::Read(Halt::NotYet),
        waits_on: Stage::Reading,
        pending: Some(1),
        log: &[OPENED, RETURNED],
        ..GET
    },
    Row {
        name: "no connection is free",
        start: Start::Taken(1),
        waits_on: Stage::Grant,
        pending: Some(1),
        done: Done::Good(REUSED),
        log: &[OPENED_BEFORE, WAITED, RETURNED, LEASED, RETURNED],
        ..GET
    },
];

#[test]
fn a_pending_exchange_goes_on(rt: HostRuntime) {
    run_rows(&rt, &PENDING, 1);
}

static CONNECTIONS: [Row; 9] = [
    Row {
        name: "a dial fails",
        start: Start::Unreachable,
        done: Done::Bad(Fault::Dial),
        log: &[OPENED, DROPPED],
        ..GET
    },
    // 200 bytes
    Row {
        name: "a connection is reused",
        start: Start::Idle(None),
        answer: Text {
            front: b"HTTP/1.1 200 OK\r\nDate: Tue, 15 Nov 1994 08:12:31 GMT\r\nServer: example\r\n",
            bytes: b"Content-Type: text/html\r\nCache-Control: max-age=60\r\nContent-Length: 55\r\n\r\n",
            times: 1,
            end: b"<html><head><title>A</title></head><body></body></html>",
        },
        done: Done::Good(Answer {
            body_len: 55,
            ..REUSED
        }),
        log: &[OPENED_BEFORE, RETURNED_BEFORE, LEASED, RETURNED],
        ..GET
    },
    Row {
        name: "a reused connection had ended, and a new one answers",
        start: Start::Idle(Some(OK)),
        answer: NOTHING,
        done: RETRIED,
        log: TRIED_AGAIN,
        ..GET
    },
    Row {
        name: "a reused connection had ended, and a new one answers HEAD",
        start: Start::Idle(Some(b"HTTP/1.1 200 OK\r\nContent-Length: 2\r\n\r\n")),
        method: Method::Head,
        answer: NOTHING,
        done: Done::Good(Answer {
            body_len: 0,
            facts: NO_BODY,
            retried: true,
            ..GOOD
        }),
        log: &[
            OPENED_BEFORE,
            RETURNED_BEFORE,
            LEASED,
            DROPPED,
            OPENED_AGAIN,
            returned!(2, NO_BODY, NOW),
        ],
        ..GET
    },
    Row {
        name: "a reused connection had ended, and the cache has no memory for a new one",
        start: Start::Idle(Some(OK)),
        answer: NOTHING,
        refused: Some((2, Refusal::Memory)),
        done: Done::Bad(Fault::Refused(Refusal::Memory)),
        log: &[OPENED_BEFORE, RETURNED_BEFORE, LEASED, DROPPED],
        left: 1,
        ..GET
    },
    Row {
        name: "the cache has no number left for a connection",
        refused: Some((1, Refusal::Exhausted)),
        done: Done::Bad(Fault::Refused(Refusal::Exhausted)),
        left: 1,
        ..GET
    },
    Row {
        name: "a reused connection had ended, and a new one ends as well",
        start: Start::Idle(Some(&[])),
        answer: NOTHING,
        done: Done::Bad(Fault::Cut),
        log: &[
            OPENED_BEFORE,
            RETURNED_BEFORE,
            LEASED,
            DROPPED,
            OPENED_AGAIN,
        ],
        last: Some(closed!(2, Cause::Cut)),
        ..GET
    },
    Row {
        name: "the cache has no such host",
        start: Start::Taken(0),
        site: 1,
        done: Done::Bad(Fault::Refused(Refusal::BadSite)),
        log: &[OPENED_BEFORE],
        ..GET
    },
    Row {
        name: "the transfer has a connection already",
        start: Start::Taken(0),
        want: WANT_BEFORE,
        done: Done::Bad(Fault::Refused(Refusal::TransferBusy)),
        log: &[OPENED_BEFORE],
        ..GET
    },
];

#[test]
fn an_exchange_asks_for_a_connection(rt: HostRuntime) {
    run_rows(&rt, &CONNECTIONS, 1);
}

static WHOLE: [Row; 5] = [
    Row {
        name: "a response to HEAD has no body",
        method: Method::Head,
        answer: Text {
            front: b"HTTP/1.1 200 OK\r\nContent-Length: 2\r\n\r\n",
            ..NOTHING
        },
        done: Done::Good(Answer {
            body_len: 0,
            facts: NO_BODY,
            ..GOOD
        }),
        log: &[OPENED, returned!(1, NO_BODY, NOW)],
        ..GET
    },
    Row {
        name: "a head of 16,384 bytes",
        answer: Text {
            front: b"HTTP/1.1 200 OK\r\nContent-Length: 0\r\nA: ",
            bytes: b"x",
            times: 16_341,
            end: b"\r\n\r\n",
        },
        done: Done::Good(Answer {
            body_len: 0,
            ..GOOD
        }),
        log: &[OPENED, RETURNED],
        ..GET
    },
    Row {
        name: "100 fields",
        answer: Text {
            front: EMPTY,
            bytes: b"A: b\r\n",
            times: 99,
            end: b"\r\n",
        },
        done: Done::Good(Answer {
            body_len: 0,
            ..GOOD
        }),
        log: &[OPENED, RETURNED],
        ..GET
    },
    Row {
        name: "eight interim heads",
        answer: Text {
            front: &[],
            bytes: INTERIM,
            times: 8,
            end: OK,
        },
        log: &[OPENED, RETURNED],
        ..GET
    },
    Row {
        name: "a chunk line of 1,024 bytes",
        answer: Text {
            front: b"HTTP/1.1 200 OK\r\nTransfer-Encoding: chunked\r\n\r\n2;",
            bytes: b"x",
            times: 1_020,
            end: b"\r\nok\r\n0\r\n\r\n",
        },
        done: Done::Good(Answer {
            facts: CHUNKED,
            ..GOOD
        }),
        log: &[OPENED, returned!(1, CHUNKED, NOW)],
        ..GET
    },
];

#[test]
fn a_response_that_is_whole(rt: HostRuntime) {
    run_rows(&rt, &WHOLE, 1);
}

static LAST: [Row; 3] = [
    Row {
        name: "more bytes come with the response",
        answer: Text {
            front: OK,
            bytes: b"HTTP/1.1 200 OK\r\n\r\n",
            times: 1,
            end: &[],
        },
        done: Done::Good(Answer {
            facts: SURPLUS,
            ..GOOD
        }),
        log: &[OPENED, returned!(1, SURPLUS, NOW), NOT_PERSISTENT],
        ..GET
    },
    Row {
        name: "the response has both lengths",
        answer: Text {
            front: b"HTTP/1.1 200 OK\r\nContent-Length: 2\r\nTransfer-Encoding: chunked\r\n\r\n",
            bytes: b"2\r\nok\r\n0\r\n\r\n",
            times: 1,
            end: &[],
        },
        done: Done::Good(Answer {
            facts: BOTH_LENGTHS,
            ..GOOD
        }),
        log: &[OPENED, returned!(1, BOTH_LENGTHS, NOW), NOT_PERSISTENT],
        ..GET
    },
    Row {
        name: "the transfer forbids reuse",
        want: FORBIDDING,
        done: Done::Good(Answer {
            facts: CLOSING,
            ..GOOD
        }),
        log: &[
            opened!(1, FORBIDDING, NOW),
            returned!(1, CLOSING, NOW),
            closed!(1, Cause::Forbidden),
        ],
        ..GET
    },
];

// Responses that are whole, and after which their connection is not used again.
#[test]
fn a_response_that_ends_its_connection(rt: HostRuntime) {
    run_rows(&rt, &LAST, 1);
}

// A response that can't be read: its connection is closed.
const BAD: Row = Row {
    done: Done::Bad(Fault::BadResponse),
    log: &[OPENED],
    last: Some(CUT),
    ..GET
};

static UNREADABLE: [Row; 5] = [
    Row {
        name: "a head of 16,384 bytes that does not end there",
        answer: Text {
            front: b"HTTP/1.1 200 OK\r\nA: ",
            bytes: b"x",
            times: 16_364,
            end: &[],
        },
        ..BAD
    },
    Row {
        name: "a 101st field",
        answer: Text {
            front: b"HTTP/1.1 200 OK\r\n",
            bytes: b"A: b\r\n",
            times: 101,
            end: &[],
        },
        ..BAD
    },
    Row {
        name: "a ninth interim head",
        answer: Text {
            bytes: INTERIM,
            times: 9,
            ..NOTHING
        },
        ..BAD
    },
    Row {
        name: "a chunk line of 1,025 bytes that does not end there",
        answer: Text {
            front: b"HTTP/1.1 200 OK\r\nTransfer-Encoding: chunked\r\n\r\n1;",
            bytes: b"x",
            times: 1_023,
            end: &[],
        },
        ..BAD
    },
    Row {
        name: "a chunk of 2^64 bytes",
        answer: Text {
            front: IN_CHUNKS,
            bytes: b"10000000000000000\r\n",
            times: 1,
            end: &[],
        },
        ..BAD
    },
];

#[test]
fn a_response_that_is_bad(rt: HostRuntime) {
    run_rows(&rt, &UNREADABLE, 1);
}

static CUT_SHORT: Row = Row {
    name: "a response that is cut",
    done: Done::Bad(Fault::Cut),
    log: &[OPENED],
    last: Some(CUT),
    ..GET
};

#[test]
fn a_response_that_is_cut(rt: HostRuntime) {
    for len in 0..OK.len() {
        run_row(&rt, &CUT_SHORT, 1, &OK[..len]);
    }
}

// A byte at each call.
const BY_BYTES: Row = Row {
    most_read: 1,
    most_written: 1,
    pending: None,
    ..GET
};

static AT_ANY_CALL: [Row; 3] = [
    Row {
        name: "a write to a new connection fails",
        halted: Halted::Write(Halt::Fault),
        done: Done::Bad(Fault::Write),
        log: &[OPENED, DROPPED],
        ..BY_BYTES
    },
    Row {
        name: "a read from a new connection fails",
        halted: Halted::Read(Halt::Fault),
        done: Done::Bad(Fault::Read),
        log: &[OPENED, DROPPED],
        ..BY_BYTES
    },
    Row {
        name: "a write to a reused connection fails",
        start: Start::Idle(Some(OK)),
        halted: Halted::Write(Halt::Fault),
        done: RETRIED,
        log: TRIED_AGAIN,
        ..BY_BYTES
    },
];

static AT_THE_FIRST_READ: [Row; 1] = [Row {
    name: "the first read from a reused connection fails",
    start: Start::Idle(Some(OK)),
    halted: Halted::Read(Halt::Fault),
    done: RETRIED,
    log: TRIED_AGAIN,
    ..BY_BYTES
}];

static AFTER_A_BYTE: [Row; 1] = [Row {
    name: "a later read from a reused connection fails",
    start: Start::Idle(Some(OK)),
    halted: Halted::Read(Halt::Fault),
    done: Done::Bad(Fault::Read),
    log: &[OPENED_BEFORE, RETURNED_BEFORE, LEASED, DROPPED],
    left: 1,
    ..BY_BYTES
}];

#[test]
fn a_failed_wire_is_tried_again_before_any_byte(rt: HostRuntime) {
    run_rows(&rt, &AT_THE_FIRST_READ, 1);
    // The request and the response have more bytes than that.
    for nth in 1..37 {
        run_rows(&rt, &AT_ANY_CALL, nth);
    }
    for nth in 2..37 {
        run_rows(&rt, &AFTER_A_BYTE, nth);
    }
}
