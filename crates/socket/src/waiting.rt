//! Connections whose reads and writes wait, at most ten milliseconds each.

ghost use Rattle.std.specs.Prelude.{◌≡◌, IfSome, IfOk};

use crate::addresses::Addresses;
use crate::connection::{Connection, is_readable};
use crate::connector::{Connector, MOST_WAIT_MILLISECONDS};
use crate::dialled_socket::DialledSocket;
use bundle::Lease;
use exchange::{Dial, Dialled, Read, Reason, Turned, Wire, Written};
use futures::task::Source;
use std::alloc::Global;
use std::io;
use std::net::{Net, TcpStream};
use std::time::Duration;

/// A connection over a socket whose reads and writes wait, at most ten milliseconds each. A request
/// and its answer take two system calls, and a reused one's look takes a third. It is a wire over
/// every stream, whose bytes contracts may know, but only one over the system's socket can be made.
#[derive(Drop)]
pub struct WaitingWire<S = TcpStream> {
    stream: S,
    connection: Connection,
    source: Source,
}

impl WaitingWire<TcpStream> {
    // A connection that is open, if the system lets it wait.
    fn new(socket: DialledSocket) -> Option<WaitingWire>
        ensures { IfSome result (λ wire. wire.connection ≡ socket.connection) }
    {
        let (stream, connection) = socket.into_parts();
        let stream = TcpStream::from(stream);
        let most = Some(Duration::from_millis(MOST_WAIT_MILLISECONDS));
        stream.set_nodelay(true).ok()?;
        stream.set_nonblocking(false).ok()?;
        stream.set_read_timeout(most).ok()?;
        stream.set_write_timeout(most).ok()?;
        Some(WaitingWire {
            stream,
            connection,
            source: Source::new(),
        })
    }
}

impl<S: io::Read + io::Write + Drop> Wire for WaitingWire<S> {
    ghost use Rattle.socket.specs.Sockets.{IsUntouched};
    ghost use Rattle.socket.specs.Streams.{HappensOver};

    ghost untouched = { λ wire site transfer. IsUntouched wire.connection site transfer };

    ghost happened = { λ old new happening. HappensOver S.contents S.remaining old.connection
        new.connection old.stream new.stream happening };

    ghost failures = { λ wire. wire.connection.failures };

    ghost source_name = { λ wire. wire.source.id };

    fn read(&mut self, buffer: &mut [u8]) -> Read {
        self.connection.read(&mut self.stream, buffer)
    }

    fn write(&mut self, bytes: &[u8]) -> Written {
        self.connection.write(&mut self.stream, bytes)
    }

    fn reason(&self) -> Option<Reason> {
        self.connection.reason()
    }

    fn source(&self) -> &Source {
        &self.source
    }
}

/// What opens connections whose reads and writes wait. It connects without waiting, through a
/// poller of its own.
#[derive(Drop)]
pub struct WaitingDial<'n, N: Net> {
    connector: Connector<'n, N>,
    source: Source,
}

impl<'n, N: Net> WaitingDial<'n, N> {
    /// What opens connections to these addresses.
    ///
    /// # Errors
    ///
    /// There is no memory for it, or the system gives no poller.
    pub fn new(net: &'n N, alloc: Global, addresses: Addresses) -> io::Result<Self>
        ensures addresses { IfOk result (λ dial. dial.connector.addresses ≡ addresses) }
        ensures counts { IfOk result (λ dial.
            dial.connector.counts ≡ record { opened = 0; failures = 0; turn_failures = 0 }) }
    {
        Ok(WaitingDial {
            connector: Connector::new(net, alloc, addresses)?,
            source: Source::new(),
        })
    }

    /// How many connections it has opened; the count stays at the greatest `u64`.
    pub fn opened(&self) -> u64
        ensures { result ≡ self.now.connector.counts.opened }
    {
        self.connector.counts.opened
    }

    /// How many connections it could not open; the count stays at the greatest `u64`.
    pub fn failures(&self) -> u64
        ensures { result ≡ self.now.connector.counts.failures }
    {
        self.connector.counts.failures
    }
}

impl<'n, N: Net> Dial<WaitingWire> for WaitingDial<'n, N> {
    ghost use Rattle.std.specs.Prelude.{◌≡◌};
    ghost use Rattle.socket.specs.Dials.{DialsSocket, dial_shown};

    ghost shown = { λ dial. dial_shown dial.connector.counts dial.connector.pending
        dial.source.id };

    ghost turned = { λ old new. (new.connector.pending ≡ old.connector.pending)
        × (new.connector.addresses ≡ old.connector.addresses) };

    fn dial(&mut self, lease: &Lease<WaitingWire>) -> Dialled<WaitingWire>
        ensures { DialsSocket (λ wire. wire.connection) result lease.now.site
            lease.now.start.want.transfer self.old.connector self.new.connector self.old.source.id
            self.new.source.id }
    {
        match self.connector.connect(lease.site(), lease.transfer()) {
            Dialled::Up(socket) => self.connector.counts.note(WaitingWire::new(socket)),
            Dialled::NotYet => Dialled::NotYet,
            Dialled::Fault => Dialled::Fault,
        }
    }

    fn reason(&self) -> Option<Reason> {
        self.connector.reason
    }

    fn give_up(&mut self, lease: &Lease<WaitingWire>) {
        self.connector.give_up(lease.transfer());
    }

    fn adopt(&mut self, wire: &mut WaitingWire) {
        wire.connection.check_idle(is_readable(&wire.stream));
    }

    fn turn(&mut self, most: Duration) -> Turned {
        if !self.connector.has_begun() {
            return Turned::Done;
        }
        self.connector.wait(most)
    }

    fn source(&self) -> &Source {
        &self.source
    }
}
