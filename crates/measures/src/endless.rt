//! Connections whose peer answers each request with the same 200 bytes.

ghost use Rattle.std.specs.Prelude.{⊤};

use bundle::Lease;
use exchange::{Dial, Dialled, Read, Turned, Wire, Written};
use futures::task::Source;
use std::time::Duration;

/// What the peer answers: 200 bytes.
pub(crate) const RESPONSE: &[u8] = b"HTTP/1.1 200 OK\r\nDate: Tue, 15 Nov 1994 08:12:31 GMT\r\n\
    Server: example\r\nContent-Type: text/html\r\nCache-Control: max-age=60\r\n\
    Content-Length: 55\r\n\r\n<html><head><title>A</title></head><body></body></html>";

/// A connection to such a peer.
#[derive(Drop)]
pub(crate) struct EndlessWire {
    source: Source,
}

impl Wire for EndlessWire {
    ghost untouched = { λ wire site transfer. ⊤ };

    ghost happened = { λ old new happening. ⊤ };

    ghost failures = { λ wire. 0 };

    ghost source_name = { λ wire. wire.source.id };

    fn read(&mut self, buffer: &mut [u8]) -> Read {
        let count = RESPONSE.len().min(buffer.len());
        buffer[..count].copy_from_slice(&RESPONSE[..count]);
        Read::Bytes(count)
    }

    fn write(&mut self, bytes: &[u8]) -> Written {
        Written::Took(bytes.len())
    }

    fn source(&self) -> &Source {
        &self.source
    }
}

/// What opens them.
#[derive(Drop)]
pub(crate) struct EndlessDial {
    opened: u64,
    source: Source,
}

impl EndlessDial {
    /// A dial that has opened none.
    pub(crate) fn new() -> EndlessDial {
        EndlessDial {
            opened: 0,
            source: Source::new(),
        }
    }

    /// How many it has opened.
    pub(crate) fn opened(&self) -> u64 {
        self.opened
    }
}

impl Dial<EndlessWire> for EndlessDial {
    ghost use Rattle.std.specs.Prelude.{⊤};
    ghost use Rattle.exchange.specs.Dialling.{shows_counts};

    ghost shown = { λ dial. shows_counts 0 dial.opened 0 dial.source.id };

    ghost turned = { λ old new. ⊤ };

    fn dial(&mut self, _lease: &Lease<EndlessWire>) -> Dialled<EndlessWire> {
        self.opened = self.opened.saturating_add(1);
        Dialled::Up(EndlessWire {
            source: Source::new(),
        })
    }

    fn give_up(&mut self, _lease: &Lease<EndlessWire>) {}

    fn adopt(&mut self, _wire: &mut EndlessWire) {}

    fn turn(&mut self, _most: Duration) -> Turned {
        Turned::Done
    }

    fn source(&self) -> &Source {
        &self.source
    }
}
