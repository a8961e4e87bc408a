//! Connections in memory, whose peer answers each request with an empty body, and the clock. They
//! take no memory.

ghost use Rattle.std.specs.Prelude.{◌≡◌, ⊤};
ghost use Rattle.std.specs.Prelude.{length, ◌≤◌};
ghost use Rattle.streams.specs.RisingCounts.{Rises};
ghost use Rattle.exchange.specs.Wires.{Reads};
ghost use Rattle.exchange.specs.Dialling.{OnReadFault};

use bundle::Lease;
use exchange::{Clock, Dial, Dialled, Read, Turned, Wire, Written};
use futures::task::Source;
use std::time::Duration;

/// A peer's answer.
const ANSWER: &[u8] = b"HTTP/1.1 200 OK\r\nContent-Length: 0\r\n\r\n";

/// A connection to such a peer.
#[derive(Drop)]
pub(crate) struct PeerWire {
    // A request came that is not answered yet.
    is_asked: bool,
    failures: u64,
    source: Source,
}

impl Wire for PeerWire {
    ghost untouched = { λ wire site transfer. ⊤ };

    ghost happened = { λ old new happening. ⊤ };

    ghost failures = { λ wire. wire.failures };

    ghost source_name = { λ wire. wire.source.id };

    fn read(&mut self, buffer: &mut [u8]) -> Read {
        if !self.is_asked {
            return Read::NotYet;
        }
        if buffer.len() < ANSWER.len() {
            self.failures = self.failures.saturating_add(1);
            return Read::Fault;
        }
        self.is_asked = false;
        buffer[..ANSWER.len()].copy_from_slice(ANSWER);
        Read::Bytes(ANSWER.len())
    }

    fn write(&mut self, bytes: &[u8]) -> Written {
        self.is_asked = true;
        Written::Took(bytes.len())
    }

    fn source(&self) -> &Source {
        &self.source
    }
}

/// What opens them.
#[derive(Drop)]
pub(crate) struct PeerDial {
    opened: u64,
    source: Source,
}

impl PeerDial {
    pub(crate) fn new() -> PeerDial {
        PeerDial {
            opened: 0,
            source: Source::new(),
        }
    }
}

impl Dial<PeerWire> for PeerDial {
    ghost use Rattle.std.specs.Prelude.{⊤};
    ghost use Rattle.exchange.specs.Dialling.{shows_counts};

    ghost shown = { λ dial. shows_counts 0 dial.opened 0 dial.source.id };

    ghost turned = { λ old new. ⊤ };

    fn dial(&mut self, _lease: &Lease<PeerWire>) -> Dialled<PeerWire> {
        self.opened = self.opened.saturating_add(1);
        Dialled::Up(PeerWire {
            is_asked: false,
            failures: 0,
            source: Source::new(),
        })
    }

    fn give_up(&mut self, _lease: &Lease<PeerWire>) {}

    fn adopt(&mut self, _wire: &mut PeerWire) {}

    fn turn(&mut self, _most: Duration) -> Turned {
        Turned::Done
    }

    fn source(&self) -> &Source {
        &self.source
    }
}

/// The second that the clock of each run tells.
pub(crate) const NOW: u64 = 7;

/// A clock that stands still.
#[derive(Drop)]
pub(crate) struct Still;

impl Clock for Still {
    ghost use Rattle.std.specs.Prelude.{⊤};

    ghost tells = { λ clock moment. ⊤ };

    fn now(&self) -> u64 {
        NOW
    }

    fn micros(&self) -> u64 {
        NOW * 1_000_000
    }
}
