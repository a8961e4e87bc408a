//! Connections in memory, whose peer is the same however often one is dialled. They take no memory.

ghost use Rattle.std.specs.Prelude.{◌≡◌, ⊤};
ghost use Rattle.streams.specs.RisingCounts.{Rises};
ghost use Rattle.exchange.specs.Wires.{Reads};
ghost use Rattle.exchange.specs.Dialling.{OnReadFault};

use bundle::Lease;
use exchange::{Dial, Dialled, Read, Turned, Wire, Written};
use futures::task::Source;
use std::time::Duration;

/// A peer's answer, but for the length of its body, which has two digits: a blank may stand in
/// place of the first (RFC 9112, section 5).
const HEAD: &[u8] = b"HTTP/1.1 200 OK\r\nContent-Length:  0\r\n\r\n";

/// Where the two digits stand.
const TENS: usize = 33;

const ONES: usize = 34;

/// What a peer does with requests.
#[derive(Clone, Copy, PartialEq, Eq)]
pub(crate) enum Peer {
    /// It answers each with as many bytes as the path names, below 100.
    Answers,
    /// The same, but only the second read finds its answer.
    AnswersLater,
    /// It answers none.
    KeepsSilent,
    /// It breaks the connection, so that each read fails.
    Breaks,
}

/// A connection to such a peer.
#[derive(Drop)]
pub(crate) struct PeerWire {
    peer: Peer,
    // How many bytes the request asked for that is not answered yet.
    asked: Option<u8>,
    // The next read finds nothing.
    is_early: bool,
    failures: u64,
    source: Source,
}

// The number that a request's path names, below 100.
fn number_of(request: &[u8]) -> u8 {
    let mut number: u8 = 0;
    for &byte in request.iter().skip(b"GET /".len()) {
        if !byte.is_ascii_digit() {
            break;
        }
        number = number % 10 * 10 + (byte - b'0');
    }
    number
}

impl PeerWire {
    fn new(peer: Peer) -> PeerWire {
        PeerWire {
            peer,
            asked: None,
            is_early: false,
            failures: 0,
            source: Source::new(),
        }
    }

    // Counts a failure.
    fn fail(&mut self)
        ensures rises { Rises self.old.failures self.new.failures }
        ensures source { self.new.source ≡ self.old.source }
    {
        self.failures = self.failures.saturating_add(1);
    }

    // Answers so many bytes, at once: the buffer has to have room for them.
    fn answer(&mut self, number: u8, buffer: &mut [u8]) -> Read
        ensures reads { Reads buffer.new (λ happening. ⊤) result }
        ensures fault { OnReadFault result (Rises self.old.failures self.new.failures) }
    {
        let count = HEAD.len() + number as usize;
        if number >= 100 || buffer.len() < count {
            self.fail();
            return Read::Fault;
        }
        buffer[..HEAD.len()].copy_from_slice(HEAD);
        if number >= 10 {
            buffer[TENS] = b'0' + number / 10;
        }
        buffer[ONES] = b'0' + number % 10;
        buffer[HEAD.len()..count].fill(b'x');
        Read::Bytes(count)
    }
}

impl Wire for PeerWire {
    ghost untouched = { λ wire site transfer. ⊤ };

    ghost happened = { λ old new happening. ⊤ };

    ghost failures = { λ wire. wire.failures };

    ghost source_name = { λ wire. wire.source.id };

    fn read(&mut self, buffer: &mut [u8]) -> Read {
        if self.peer == Peer::Breaks {
            self.fail();
            return Read::Fault;
        }
        if self.is_early {
            self.is_early = false;
            return Read::NotYet;
        }
        match self.asked.take() {
            Some(number) => self.answer(number, buffer),
            None => Read::NotYet,
        }
    }

    fn write(&mut self, bytes: &[u8]) -> Written {
        if self.peer != Peer::KeepsSilent {
            self.asked = Some(number_of(bytes));
        }
        self.is_early = self.peer == Peer::AnswersLater;
        Written::Took(bytes.len())
    }

    fn source(&self) -> &Source {
        &self.source
    }
}

/// What opens them.
#[derive(Drop)]
pub(crate) struct PeerDial {
    peer: Peer,
    fails_turns: bool,
    opened: u64,
    turn_failures: u64,
    source: Source,
}

impl PeerDial {
    /// A dial to that peer, each of whose turns fails or none.
    pub(crate) fn new(peer: Peer, fails_turns: bool) -> PeerDial {
        PeerDial {
            peer,
            fails_turns,
            opened: 0,
            turn_failures: 0,
            source: Source::new(),
        }
    }
}

impl Dial<PeerWire> for PeerDial {
    ghost use Rattle.std.specs.Prelude.{⊤};
    ghost use Rattle.exchange.specs.Dialling.{shows_counts};

    ghost shown = { λ dial. shows_counts 0 dial.opened dial.turn_failures dial.source.id };

    ghost turned = { λ old new. ⊤ };

    fn dial(&mut self, _lease: &Lease<PeerWire>) -> Dialled<PeerWire> {
        self.opened = self.opened.saturating_add(1);
        Dialled::Up(PeerWire::new(self.peer))
    }

    fn give_up(&mut self, _lease: &Lease<PeerWire>) {}

    fn adopt(&mut self, _wire: &mut PeerWire) {}

    fn turn(&mut self, _most: Duration) -> Turned {
        if self.fails_turns {
            self.turn_failures = self.turn_failures.saturating_add(1);
            return Turned::Fault;
        }
        Turned::Done
    }

    fn source(&self) -> &Source {
        &self.source
    }
}
