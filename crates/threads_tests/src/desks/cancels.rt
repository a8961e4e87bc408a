//! What a cancel leaves at the host, by where its exchange stands. Another desk of the same cache
//! may have the connection that it waits for.

ghost use Rattle.std.specs.Prelude.{◌≡◌};
ghost use Rattle.cache_trait.specs.Homes.{IsMadeBy};

use crate::checks::check_eq;
use crate::desks::connections::{
    NOW, OK, OPENED, RETURNED, check_log, dial_of, gathered, last_at_first, wire_of,
};
use crate::desks::driving::{give_up, prepared};
use crate::making::{WANT, cache_of, pass_of, plan_of, want_of};
use bundle::{Acquired, Did, Lease};
use cache_trait::Cache;
use conn_log::{Cause, Entry, Event, Want};
use exchange::{Exchange, Stage};
use exchange_memory::{FixedClock, Halt, MemoryDial, MemoryWire};
use futures::task::{Doorbell, Solo};
use shared_cache::{Desk, Names, Plan};
use std::alloc::AllocGlobal;
use std::marker::Brand;
use std::process::Abort;
use std::random::RandomSource;
use std::sync::Wait;

// The transfer of the other desk.
const OTHER: u64 = 99;

// When the other desk gives its connection up, and when the exchange is cancelled.
const GIVEN_UP: u64 = 8;

const CANCELLED: u64 = 9;

// Where an exchange stands as it is cancelled.
#[derive(Clone, Copy, PartialEq, Eq)]
enum Standing {
    NotPolled,
    Ready,
    // It waits for the connection that the other desk has, which gives it up afterwards.
    Waiting,
    // The other desk gave that up before, so that one was opened for the exchange, which has not
    // claimed it.
    Granted,
    // It has a lease, and waits on that.
    Leased(Stage),
}

// What the first host's log has then, once the other desk has nothing either; what the pass of the
// exchange's desk was told last there; and how many connections are open.
struct Row {
    name: &'static str,
    standing: Standing,
    log: &'static [Entry],
    last: Option<Did>,
    open: u64,
}

const DROPPED: Entry = Entry {
    moment: CANCELLED,
    event: Event::Closed {
        connection: 1,
        cause: Cause::Dropped,
    },
};

// The connection that the other desk opens first, and its end.
const OPENED_BEFORE: Entry = Entry {
    moment: 0,
    event: Event::Opened {
        connection: 1,
        want: Want {
            transfer: OTHER,
            ..WANT
        },
    },
};

const DROPPED_BEFORE: Entry = Entry {
    moment: GIVEN_UP,
    ..DROPPED
};

const WAITED: Entry = Entry {
    moment: NOW,
    event: Event::Waited { want: WANT },
};

const LEFT: Entry = Entry {
    moment: CANCELLED,
    event: Event::Left { transfer: 1 },
};

// The connection that is opened for the transfer that waits, and its end.
const GRANTED: Entry = Entry {
    moment: GIVEN_UP,
    event: Event::Opened {
        connection: 2,
        want: WANT,
    },
};

const WITHDRAWN: Entry = Entry {
    moment: CANCELLED,
    event: Event::Closed {
        connection: 2,
        cause: Cause::Withdrawn,
    },
};

static ROWS: [Row; 8] = [
    Row {
        name: "before the first poll",
        standing: Standing::NotPolled,
        log: &[],
        last: None,
        open: 0,
    },
    Row {
        name: "after it was ready",
        standing: Standing::Ready,
        log: &[OPENED, RETURNED],
        last: Some(Did::Wrote(RETURNED)),
        open: 1,
    },
    // the other desk gives up as the clock stands at 8, and no entry is older than the one before
    Row {
        name: "still waiting",
        standing: Standing::Waiting,
        log: &[OPENED_BEFORE, WAITED, LEFT, DROPPED],
        last: Some(Did::Wrote(LEFT)),
        open: 0,
    },
    Row {
        name: "granted and unclaimed",
        standing: Standing::Granted,
        log: &[OPENED_BEFORE, WAITED, DROPPED_BEFORE, GRANTED, WITHDRAWN],
        last: Some(Did::Wrote(WITHDRAWN)),
        open: 0,
    },
    Row {
        name: "dialling",
        standing: Standing::Leased(Stage::Dialling),
        log: &[OPENED, DROPPED],
        last: Some(Did::Wrote(DROPPED)),
        open: 0,
    },
    Row {
        name: "sending",
        standing: Standing::Leased(Stage::Sending),
        log: &[OPENED, DROPPED],
        last: Some(Did::Wrote(DROPPED)),
        open: 0,
    },
    Row {
        name: "reading",
        standing: Standing::Leased(Stage::Reading),
        log: &[OPENED, DROPPED],
        last: Some(Did::Wrote(DROPPED)),
        open: 0,
    },
    Row {
        name: "asking for another turn",
        standing: Standing::Leased(Stage::Turn),
        log: &[OPENED, DROPPED],
        last: Some(Did::Wrote(DROPPED)),
        open: 0,
    },
];

// A dial with one wire, by which an exchange comes to stand there.
fn dial_for<R: Abort + AllocGlobal>(rt: &R, standing: Standing) -> MemoryDial {
    let mut wire = wire_of(rt, OK);
    match standing {
        Standing::Leased(Stage::Sending) => wire.halt_write(1, Halt::NotYet),
        Standing::Leased(Stage::Reading) => wire.halt_read(1, Halt::NotYet),
        Standing::Leased(Stage::Turn) => {
            wire.set_most_written(1);
            wire.set_most_read(1);
        }
        _ => {}
    }
    let mut dial = dial_of(rt, wire);
    if standing == Standing::Leased(Stage::Dialling) {
        dial.halt_dial(1, Halt::NotYet);
    }
    dial
}

// Cancels an exchange over that desk where it stands so; the other desk has nothing.
fn cancel_alone<N: Names, R: Wait + Abort + AllocGlobal + RandomSource>(
    rt: &R,
    standing: Standing,
    desk: &mut Desk<'_, MemoryWire, N, R>,
) {
    let solo = Solo::new(rt, Doorbell::spinning()).expect(rt, "a task");
    let clock = FixedClock { now: NOW };
    let mut dial = dial_for(rt, standing);
    let mut exchange = Exchange::new(prepared(rt), desk, &mut dial, &clock);
    if standing != Standing::NotPolled {
        let mut cx = solo.begin();
        let polled = exchange.poll(&mut cx);
        cx.end(&polled);
        check_eq(rt, polled.is_ready(), standing == Standing::Ready);
    }
    if let Standing::Leased(stage) = standing {
        check_eq(rt, exchange.waits_on(), stage);
    }
    let _ = exchange.cancel(CANCELLED);
}

// The same where it waits for the connection that the other desk has, which gives it up before or
// after.
fn cancel_waiting<N: Names, R: Wait + Abort + AllocGlobal + RandomSource>(
    rt: &R,
    gives_up_before: bool,
    desk: &mut Desk<'_, MemoryWire, N, R>,
    other: &mut Desk<'_, MemoryWire, N, R>,
) {
    let lease = lease_of(rt, other);
    let solo = Solo::new(rt, Doorbell::spinning()).expect(rt, "a task");
    let clock = FixedClock { now: NOW };
    let mut dial = MemoryDial::new(rt.alloc());
    let mut exchange = Exchange::new(prepared(rt), desk, &mut dial, &clock);
    let mut cx = solo.begin();
    let polled = exchange.poll(&mut cx);
    cx.end(&polled);
    check_eq(rt, exchange.waits_on(), Stage::Grant);
    if gives_up_before {
        give_up(rt, other, lease, GIVEN_UP);
        let _ = exchange.cancel(CANCELLED);
    } else {
        let _ = exchange.cancel(CANCELLED);
        give_up(rt, other, lease, GIVEN_UP);
    }
}

// The connection that the other desk has.
fn lease_of<N: Names, R: Wait + Abort>(
    rt: &R,
    other: &mut Desk<'_, MemoryWire, N, R>,
) -> Lease<MemoryWire>
    ensures { IsMadeBy N.names.hosts result.site result.tables }
{
    match Cache::acquire(other, 0, want_of(OTHER), 0) {
        Ok(Acquired::Lease(lease)) => lease,
        Ok(Acquired::Wait(_ticket)) => panic!(rt; "it has to wait"),
        Err(refusal) => panic!(rt; "{refusal}"),
    }
}

// A row, by two desks of a cache of that plan.
fn run_row<N: Names, R: Wait + Abort + AllocGlobal + RandomSource>(
    rt: &R,
    row: &Row,
    plan: Plan<MemoryWire>,
)
    requires { plan ≡ N.names }
{
    let cache = cache_of::<MemoryWire, N, R>(rt, plan);
    let mut desk = Desk::new(&cache, rt, pass_of(rt, &cache));
    let mut other = Desk::new(&cache, rt, pass_of(rt, &cache));
    match row.standing {
        Standing::Waiting => cancel_waiting(rt, false, &mut desk, &mut other),
        Standing::Granted => cancel_waiting(rt, true, &mut desk, &mut other),
        standing => cancel_alone(rt, standing, &mut desk),
    }
    let name = row.name;
    check_log(rt, &cache, 0, row.log, name);
    let (first, second) = (desk.into_pass(), other.into_pass());
    assert_eq!(rt; last_at_first(rt, &first), row.last, "{name}");
    let gathered = gathered(rt, cache, first, second);
    assert_eq!(rt;
        (gathered.total, gathered.kept),
        (row.open, row.open),
        "{name}"
    );
}

#[test]
fn a_cancel_leaves_that(rt: HostRuntime) {
    for row in &ROWS {
        let plan = plan_of(&rt, 1, 0, 1);
        run_row::<Brand, HostRuntime>(&rt, row, plan);
    }
}
