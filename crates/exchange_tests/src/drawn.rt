//! Connections whose pieces, delays, faults and ends are drawn: a peer answers each request with as
//! many bytes as its path names.

ghost use Rattle.std.specs.Prelude.{◌≡◌, ◌≤◌, length, ⊤};
ghost use Rattle.streams.specs.RisingCounts.{Rises};

use bundle::Lease;
use exchange::{Dial, Dialled, Read, Turned, Wire, Written};
use exchange_memory::Halt;
use futures::task::Source;
use rand_core::utils::NextWord;
use rand_pcg::Pcg32;
use std::alloc::{AllocError, Global};
use std::time::Duration;

// What happens at a call in place of what it would do.
fn drawn_halt(random: &mut Pcg32) -> Option<Halt> {
    match random.next_word() % 256 {
        0 => Some(Halt::Fault),
        1 => Some(Halt::End),
        2..=33 => Some(Halt::NotYet),
        _ => None,
    }
}

/// A connection to such a peer.
#[derive(Drop)]
pub(crate) struct DrawnWire {
    alloc: Global,
    random: Pcg32,
    request: Vec<u8>,
    response: Vec<u8>,
    // How many bytes of the response were read.
    place: usize,
    failures: u64,
    source: Source,
    ghost in_range: { place ≤ length response.items },
}

impl DrawnWire {
    fn new(alloc: Global, seed: u64, stream: u64) -> DrawnWire {
        DrawnWire {
            alloc,
            random: Pcg32::new(seed, stream),
            request: Vec::new(alloc),
            response: Vec::new(alloc),
            place: 0,
            failures: 0,
            source: Source::new(),
        }
    }

    // Counts a failure.
    fn fail(&mut self)
        ensures rises { Rises self.old.failures self.new.failures }
        ensures source { self.new.source ≡ self.old.source }
    {
        self.failures = self.failures.saturating_add(1);
    }

    // The number that the request's path names.
    fn number(&self) -> usize {
        let mut number: usize = 0;
        for &byte in self.request.iter().skip(b"GET /".len()) {
            if !byte.is_ascii_digit() {
                break;
            }
            number = number
                .saturating_mul(10)
                .saturating_add((byte - b'0') as usize);
        }
        number
    }

    // Answers the request, once it is whole.
    fn answer(&mut self) -> Result<(), AllocError>
        ensures source { self.new.source ≡ self.old.source }
        ensures failures { self.new.failures ≡ self.old.failures }
    {
        if !self.request.ends_with(b"\r\n\r\n") {
            return Ok(());
        }
        let number = self.number();
        let text = format!(in self.alloc; "HTTP/1.1 200 OK\r\nContent-Length: {number}\r\n\r\n")?;
        let mut response = text.as_bytes().to_vec(self.alloc)?;
        for _ in 0..number {
            response.push(b'x')?;
        }
        self.response = response;
        self.place = 0;
        self.request.clear();
        Ok(())
    }
}

impl Wire for DrawnWire {
    ghost untouched = { λ wire site transfer. ⊤ };

    ghost happened = { λ old new happening. ⊤ };

    ghost failures = { λ wire. wire.failures };

    ghost source_name = { λ wire. wire.source.id };

    fn read(&mut self, buffer: &mut [u8]) -> Read {
        match drawn_halt(&mut self.random) {
            Some(Halt::NotYet) => return Read::NotYet,
            Some(Halt::End) => return Read::End,
            Some(Halt::Fault) => {
                self.fail();
                return Read::Fault;
            }
            None => {}
        }
        let most = (self.random.next_word() % 400) as usize + 1;
        let left = self.response.len() - self.place;
        let count = left.min(most).min(buffer.len());
        if count == 0 {
            return Read::NotYet;
        }
        let end = self.place + count;
        buffer[..count].copy_from_slice(&self.response[self.place..end]);
        self.place = end;
        Read::Bytes(count)
    }

    fn write(&mut self, bytes: &[u8]) -> Written {
        match drawn_halt(&mut self.random) {
            Some(Halt::NotYet) => return Written::NotYet,
            Some(_) => {
                self.fail();
                return Written::Fault;
            }
            None => {}
        }
        let most = (self.random.next_word() % 20) as usize + 1;
        let count = most.min(bytes.len());
        if self.request.extend_from_slice(&bytes[..count]).is_err() || self.answer().is_err() {
            self.fail();
            return Written::Fault;
        }
        Written::Took(count)
    }

    fn source(&self) -> &Source {
        &self.source
    }
}

/// What opens them.
#[derive(Drop)]
pub(crate) struct DrawnDial {
    alloc: Global,
    seed: u64,
    random: Pcg32,
    opened: u64,
    failures: u64,
    source: Source,
}

impl DrawnDial {
    /// A dial whose draws begin with that seed.
    pub(crate) fn new(alloc: Global, seed: u64) -> DrawnDial {
        DrawnDial {
            alloc,
            seed,
            random: Pcg32::new(seed, 0),
            opened: 0,
            failures: 0,
            source: Source::new(),
        }
    }

    /// How many connections it has opened.
    pub(crate) fn opened(&self) -> u64 {
        self.opened
    }
}

impl Dial<DrawnWire> for DrawnDial {
    ghost use Rattle.std.specs.Prelude.{⊤};
    ghost use Rattle.exchange.specs.Dialling.{shows_counts};

    ghost shown = { λ dial. shows_counts dial.failures dial.opened 0 dial.source.id };

    ghost turned = { λ old new. ⊤ };

    fn dial(&mut self, _lease: &Lease<DrawnWire>) -> Dialled<DrawnWire> {
        match drawn_halt(&mut self.random) {
            Some(Halt::NotYet) => return Dialled::NotYet,
            Some(_) => {
                self.failures = self.failures.saturating_add(1);
                return Dialled::Fault;
            }
            None => {}
        }
        self.opened = self.opened.saturating_add(1);
        Dialled::Up(DrawnWire::new(self.alloc, self.seed, self.opened))
    }

    fn give_up(&mut self, _lease: &Lease<DrawnWire>) {}

    fn adopt(&mut self, _wire: &mut DrawnWire) {}

    fn turn(&mut self, _most: Duration) -> Turned {
        Turned::Done
    }

    fn source(&self) -> &Source {
        &self.source
    }
}
