//! The moments of a transfer, and why its connection failed.

use crate::checks::check_eq;
use crate::driving::{NOW, OK, dial_of, pool_of, pool_with_idle, prepared, wire_of};
use exchange::{Clock, Phases, Reason, Transfer};
use exchange_memory::{Halt, MemoryDial, MemoryWire};
use futures::task::{Doorbell, Solo};
use std::alloc::AllocGlobal;
use std::process::Abort;
use std::sync::atomic::{AtomicU64, Ordering};

/// A clock that tells these moments, one after another.
#[derive(Drop)]
struct ListedClock {
    moments: &'static [u64],
    told: AtomicU64,
}

impl Clock for ListedClock {
    ghost use Rattle.std.specs.Prelude.{⊤};

    ghost tells = { λ clock moment. ⊤ };

    fn now(&self) -> u64 {
        NOW
    }

    fn micros(&self) -> u64 {
        let place = self.told.fetch_add(1, Ordering::SeqCst);
        self.moments.get(place as usize).copied().unwrap_or(0)
    }
}

/// What the peer of a connection does once it is read.
#[derive(Clone, Copy, Debug, PartialEq, Eq)]
enum Peer {
    Answers,
    Ends,
    Resets,
}

/// The connections of a transfer, and what it tells once it has ended.
struct Row {
    name: &'static str,
    /// The idle one, if there is one.
    idle: Option<Peer>,
    /// The one that is opened, if one can be.
    dialled: Option<Peer>,
    /// All moments that the clock is asked for.
    moments: &'static [u64],
    leased: Option<u64>,
    open: Option<u64>,
    first_byte: Option<u64>,
    reason: Option<Reason>,
}

/// A transfer over a new connection.
const ROW: Row = Row {
    name: "a new connection",
    idle: None,
    dialled: Some(Peer::Answers),
    moments: &[10, 20, 30],
    leased: Some(10),
    open: Some(20),
    first_byte: Some(30),
    reason: None,
};

static ROWS: [Row; 9] = [
    ROW,
    Row {
        name: "a reused connection",
        idle: Some(Peer::Answers),
        moments: &[10, 20],
        open: Some(10),
        first_byte: Some(20),
        ..ROW
    },
    // the moments of the second try replace those of the first
    Row {
        name: "a retry",
        idle: Some(Peer::Ends),
        moments: &[10, 20, 30, 40],
        leased: Some(20),
        open: Some(30),
        first_byte: Some(40),
        ..ROW
    },
    Row {
        name: "a retry after a reset",
        idle: Some(Peer::Resets),
        moments: &[10, 20, 30, 40],
        leased: Some(20),
        open: Some(30),
        first_byte: Some(40),
        ..ROW
    },
    Row {
        name: "a retry that is refused",
        idle: Some(Peer::Resets),
        dialled: None,
        moments: &[10, 20],
        leased: Some(20),
        open: None,
        first_byte: None,
        reason: Some(Reason::Refused),
    },
    Row {
        name: "a refused connection",
        dialled: None,
        moments: &[10],
        open: None,
        first_byte: None,
        reason: Some(Reason::Refused),
        ..ROW
    },
    Row {
        name: "a reset",
        dialled: Some(Peer::Resets),
        moments: &[10, 20],
        first_byte: None,
        reason: Some(Reason::Reset),
        ..ROW
    },
    Row {
        name: "a cut",
        dialled: Some(Peer::Ends),
        moments: &[10, 20],
        first_byte: None,
        ..ROW
    },
    Row {
        name: "a clock that falls",
        moments: &[30, 20, 10],
        leased: Some(30),
        open: Some(30),
        ..ROW
    },
];

// A connection to such a peer.
fn wire_to<R: Abort + AllocGlobal>(rt: &R, peer: Peer) -> MemoryWire {
    let response: &[u8] = match peer {
        Peer::Answers => OK,
        Peer::Ends | Peer::Resets => &[],
    };
    let mut wire = wire_of(rt, response);
    if peer == Peer::Resets {
        wire.halt_read(1, Halt::Fault);
    }
    wire
}

#[test]
fn a_transfer_tells_its_phases(rt: HostRuntime) {
    for row in &ROWS {
        let mut pool = match row.idle {
            Some(peer) => pool_with_idle(&rt, 0, wire_to(&rt, peer)),
            None => pool_of(&rt, 0),
        };
        let mut dial = match row.dialled {
            Some(peer) => dial_of(&rt, wire_to(&rt, peer)),
            None => MemoryDial::new(rt.alloc()),
        };
        let clock = ListedClock {
            moments: row.moments,
            told: AtomicU64::new(0),
        };
        let solo = Solo::new(&rt, Doorbell::spinning()).expect(&rt, "a task");
        let mut transfer = Transfer::new(prepared(&rt));
        let mut context = solo.begin();
        let polled = transfer.poll(&mut context, &mut pool, &mut dial, &clock);
        context.end(&polled);
        let told = (transfer.phases(), transfer.reason());
        let (_done, _) = transfer.close(NOW, &mut pool, &mut dial);
        let phases = Phases {
            leased: row.leased,
            open: row.open,
            first_byte: row.first_byte,
        };
        assert!(rt; polled.is_ready(), "{}", row.name);
        assert_eq!(rt; told, (phases, row.reason), "{}", row.name);
        let asked = clock.told.load(Ordering::SeqCst);
        assert_eq!(rt; asked, row.moments.len() as u64, "{}", row.name);
    }
}

/// Reasons, and their words.
static REASONS: [(Reason, &str); 4] = [
    (Reason::Refused, "refused"),
    (Reason::Unreachable, "unreachable"),
    (Reason::TimedOut, "timed out"),
    (Reason::Reset, "reset"),
];

#[test]
fn a_reason_has_its_words(rt: HostRuntime) {
    for (reason, words) in &REASONS {
        let text = format!(in rt.alloc(); "{reason}").expect(&rt, "memory");
        check_eq(&rt, text.as_str(), *words);
    }
}
