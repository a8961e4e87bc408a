//! Requests over sockets of both kinds, and what comes of them.

ghost use Rattle.std.specs.Prelude.{IfSome};
ghost use Rattle.exchange.specs.Answers.{IsUnused};

use crate::peer::{Behaviour, Peer, addresses_of, target_of};
use budget::Limits;
use cache::Pool;
use conn_log::Want;
use exchange::{Clock, Dial, Done, Exchange, Fault, Job, Prepared, Reason, Wire};
use futures::task::{Doorbell, Solo};
use persistence::Method;
use socket::{Addresses, PolledDial, SystemClock, WaitingDial};
use std::process::Abort;

/// More polls than a request here takes.
const MOST_POLLS: u32 = 200;

/// What comes of a request.
#[derive(Clone, Copy, Debug, PartialEq, Eq)]
enum Outcome {
    /// An answer over a new connection.
    New,
    /// An answer over a connection that was used before.
    Reused,
    /// An answer over a new connection, since the one that was used before failed.
    Retried,
    /// None, and why.
    Bad(Fault, Option<Reason>),
}

/// What the server does at the first request, and what comes of it and of the second one, which is
/// always answered.
struct Row {
    behaviour: Behaviour,
    first: Outcome,
    second: Outcome,
    /// How many connections were opened.
    opened: u64,
}

static ROWS: [Row; 7] = [
    Row {
        behaviour: Behaviour::Answers,
        first: Outcome::New,
        second: Outcome::Reused,
        opened: 1,
    },
    Row {
        behaviour: Behaviour::SaysMore,
        first: Outcome::New,
        second: Outcome::New,
        opened: 2,
    },
    Row {
        behaviour: Behaviour::SaysMoreLater,
        first: Outcome::New,
        second: Outcome::Retried,
        opened: 2,
    },
    Row {
        behaviour: Behaviour::AnswersAndEnds,
        first: Outcome::New,
        second: Outcome::Retried,
        opened: 2,
    },
    Row {
        behaviour: Behaviour::EndsItsAnswer,
        first: Outcome::New,
        second: Outcome::New,
        opened: 2,
    },
    Row {
        behaviour: Behaviour::Cuts,
        first: Outcome::Bad(Fault::Cut, None),
        second: Outcome::New,
        opened: 2,
    },
    Row {
        behaviour: Behaviour::Resets,
        first: Outcome::Bad(Fault::Read, Some(Reason::Reset)),
        second: Outcome::New,
        opened: 2,
    },
];

// What came of a request that ended so, for that reason if it failed.
fn outcome_of(done: Done, reason: Option<Reason>) -> Outcome {
    match done {
        Done::Good(answer) => {
            if answer.retried {
                Outcome::Retried
            } else if answer.reused {
                Outcome::Reused
            } else {
                Outcome::New
            }
        }
        Done::Bad(fault) => Outcome::Bad(fault, reason),
    }
}

/// A request to the server at that port, prepared, if there is memory for it.
pub(crate) fn prepared(rt: &HostRuntime, transfer: u64, port: u16) -> Option<Prepared>
    ensures { IfSome result IsUnused }
{
    let want = Want::of(transfer);
    let job = Job {
        site: 0,
        want,
        method: Method::Get,
        target: target_of(rt, "127.0.0.1", port)?,
    };
    Prepared::new(rt.alloc(), &job).ok()
}

// What comes of a request, where the server does that whenever the request waits for it.
fn requested<W: Wire, D: Dial<W>, K: Clock>(
    task: &Solo,
    peer: &mut Peer,
    behaviour: Behaviour,
    parts: Prepared,
    pool: &mut Pool<W>,
    dial: &mut D,
    clock: &K,
) -> Outcome
    requires { IsUnused parts }
{
    let mut exchange = Exchange::new(parts, pool, dial, clock);
    for _ in 0..MOST_POLLS {
        let mut context = task.begin();
        let polled = exchange.poll(&mut context);
        context.end(&polled);
        if polled.is_ready() || peer.does(behaviour).is_err() {
            break;
        }
        let _ = exchange.turn();
    }
    let reason = exchange.reason();
    let (done, _, _, _) = exchange.close(0);
    outcome_of(done, reason)
}

// What comes of the two requests of a row, if there is memory and the server behaves so.
fn outcomes<W: Wire, D: Dial<W>>(
    rt: &HostRuntime,
    behaviour: Behaviour,
    peer: &mut Peer,
    dial: &mut D,
) -> Option<(Outcome, Outcome)> {
    let task = Solo::new(rt, Doorbell::spinning()).ok()?;
    let limits = Limits::new(0, 0, 4).ok()?;
    let mut pool: Pool<W> = Pool::new(rt.alloc(), limits, 1).ok()?;
    let clock = SystemClock::new(rt).ok()?;
    let port = peer.port().ok()?;
    let parts = prepared(rt, 1, port)?;
    let next = prepared(rt, 2, port)?;
    let first = requested(&task, peer, behaviour, parts, &mut pool, dial, &clock);
    peer.says_more_later(behaviour).ok()?;
    let second = requested(
        &task,
        peer,
        Behaviour::Answers,
        next,
        &mut pool,
        dial,
        &clock,
    );
    Some((first, second))
}

/// A server, and the addresses of its one site, if there is memory for them.
pub(crate) fn peer_of(rt: &HostRuntime) -> Option<(Peer, Addresses)> {
    let peer = Peer::new(rt).ok()?;
    let addresses = addresses_of(rt, "127.0.0.1", peer.port().ok()?)?;
    Some((peer, addresses))
}

// The outcomes of a row's requests, and how many connections were opened, are as it says.
fn check_row(rt: &impl Abort, row: &Row, found: ((Outcome, Outcome), u64)) {
    let expected = ((row.first, row.second), row.opened);
    assert_eq!(rt; found, expected, "{:?}", row.behaviour);
}

#[test]
fn requests_go_over_waiting_sockets(rt: HostRuntime) {
    for row in &ROWS {
        let (mut peer, addresses) = peer_of(&rt).expect(&rt, "a server");
        let mut dial = WaitingDial::new(&rt, rt.alloc(), addresses).expect(&rt, "a dial");
        let outcomes = outcomes(&rt, row.behaviour, &mut peer, &mut dial);
        let outcomes = outcomes.expect(&rt, "a server that behaves so");
        check_row(&rt, row, (outcomes, dial.opened()));
    }
}

#[test]
fn requests_go_over_polled_sockets(rt: HostRuntime) {
    for row in &ROWS {
        let (mut peer, addresses) = peer_of(&rt).expect(&rt, "a server");
        let mut dial = PolledDial::new(&rt, rt.alloc(), addresses).expect(&rt, "a dial");
        let outcomes = outcomes(&rt, row.behaviour, &mut peer, &mut dial);
        let outcomes = outcomes.expect(&rt, "a server that behaves so");
        check_row(&rt, row, (outcomes, dial.opened()));
    }
}
