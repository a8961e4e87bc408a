//! Connections whose reads and writes never wait, in an event loop.

ghost use Rattle.std.specs.Prelude.{◌≡◌, ◌≢◌, ℕ, IfSome, IfOk, OnOk, OnErr};
ghost use Rattle.socket.specs.Hosts.{KeepsHosts, addresses_at};

use crate::addresses::Addresses;
use crate::alarm::PolledAlarm;
use crate::connection::{Connection, is_readable};
use crate::connector::Connector;
use crate::dialled_socket::DialledSocket;
use crate::places::{Places, token_of};
use bundle::Lease;
use exchange::{Dial, Dialled, Place, Read, Ready, Reason, Turned, Wire, Written};
use futures::task::Source;
use mio::net::TcpStream;
use mio::unix::SourceFd;
use mio::{Interest, Registry, Token};
use std::alloc::{AllocError, Global};
use std::io;
use std::net::{Net, SocketAddr};
use std::os::fd::AsRawFd;
use std::sync::Arc;
use std::time::Duration;

/// A connection over a socket whose reads and writes never wait. The poller of the dial that drives
/// it knows it, and ends a turn once more can be read than before, or once a send buffer that was
/// full has room. The first read after a write that took bytes asks nobody: what comes is told by
/// a turn. It is a wire over every stream, whose bytes contracts may know, but only one over the
/// system's socket can be made.
#[derive(Drop)]
pub struct PolledWire<S = TcpStream> {
    stream: S,
    connection: Connection,
    // What knows it.
    registry: Arc<Registry>,
    source: Source,
    arrivals: Arrivals,
}

/// What is known of bytes that came: those that come after a look that found none are told by a
/// turn.
#[derive(Clone, Copy, Debug, PartialEq, Eq)]
enum Arrivals {
    /// A look found none, and nothing was written or read since.
    LookedFor,
    /// A look found none; bytes were written since, and nothing was read.
    Awaited,
    /// Only a read tells.
    Unknown,
}

impl Arrivals {
    // What is known of them once a write has answered so. One that had to wait ends its poll, and a
    // turn before the next poll may tell of what came.
    fn after(self, written: Written) -> Arrivals {
        match (self, written) {
            (Arrivals::LookedFor | Arrivals::Awaited, Written::Took(_)) => Arrivals::Awaited,
            _ => Arrivals::Unknown,
        }
    }
}

impl PolledWire<TcpStream> {
    // A connection that is open, if that registry takes it.
    fn new(socket: DialledSocket, registry: &Arc<Registry>) -> Option<PolledWire>
        ensures { IfSome result (λ wire. wire.connection ≡ socket.connection) }
    {
        let known = Arc::clone(registry).ok()?;
        let (mut stream, connection) = socket.into_parts();
        stream.set_nodelay(true).ok()?;
        let token = token_of(&stream);
        registry
            .register(&mut stream, token, Interest::READABLE)
            .ok()?;
        Some(PolledWire {
            stream,
            connection,
            registry: known,
            source: Source::new(),
            arrivals: Arrivals::LookedFor,
        })
    }

    // The token that it is registered by.
    fn token(&self) -> Token {
        token_of(&self.stream)
    }

    // Has that registry know it, and no other; whether it does.
    fn move_to(&mut self, registry: &Arc<Registry>) -> bool
        ensures { self.new.connection ≡ self.old.connection }
    {
        if self.registry.as_raw_fd() == registry.as_raw_fd() {
            return true;
        }
        let Ok(known) = Arc::clone(registry) else {
            return false;
        };
        let _ = self.registry.deregister(&mut self.stream);
        let token = self.token();
        let registered = registry.register(&mut self.stream, token, Interest::READABLE);
        if registered.is_err() {
            return false;
        }
        self.registry = known;
        true
    }
}

impl<S: AsRawFd> PolledWire<S> {
    // Has its poller end a turn once bytes can be written too; whether it will. It is not told to
    // stop: the poller tells of room once a send buffer that was full has some, and not before.
    fn awaits_room(&self) -> bool {
        let descriptor = self.stream.as_raw_fd();
        let both = Interest::READABLE | Interest::WRITABLE;
        self.registry
            .reregister(&mut SourceFd(&descriptor), token_of(&self.stream), both)
            .is_ok()
    }
}

impl<S: io::Read + io::Write + AsRawFd + Drop> Wire for PolledWire<S> {
    ghost use Rattle.socket.specs.Sockets.{IsUntouched};
    ghost use Rattle.socket.specs.Streams.{HappensOver};

    ghost untouched = { λ wire site transfer. IsUntouched wire.connection site transfer };

    ghost happened = { λ old new happening. HappensOver S.contents S.remaining old.connection
        new.connection old.stream new.stream happening };

    ghost failures = { λ wire. wire.connection.failures };

    ghost source_name = { λ wire. wire.source.id };

    fn read(&mut self, buffer: &mut [u8]) -> Read {
        let awaited = self.arrivals == Arrivals::Awaited;
        self.arrivals = Arrivals::Unknown;
        if awaited && self.connection.is_fit() {
            return Read::NotYet;
        }
        self.connection.read(&mut self.stream, buffer)
    }

    fn write(&mut self, bytes: &[u8]) -> Written {
        let written = self.connection.write(&mut self.stream, bytes);
        self.arrivals = self.arrivals.after(written);
        match written {
            Written::NotYet if !self.awaits_room() => {
                self.connection.fail(None);
                Written::Fault
            }
            _ => written,
        }
    }

    fn reason(&self) -> Option<Reason> {
        self.connection.reason()
    }

    fn source(&self) -> &Source {
        &self.source
    }
}

/// What opens connections whose reads and writes never wait, and sees when they can be read.
#[derive(Drop)]
pub struct PolledDial<'n, N: Net> {
    connector: Connector<'n, N>,
    registry: Arc<Registry>,
    places: Places,
    source: Source,
}

impl<'n, N: Net> PolledDial<'n, N> {
    /// What opens connections to these addresses.
    ///
    /// # Errors
    ///
    /// There is no memory for it, or the system gives no poller.
    pub fn new(net: &'n N, alloc: Global, addresses: Addresses) -> io::Result<Self>
        ensures addresses { IfOk result (λ dial. dial.connector.addresses ≡ addresses) }
        ensures counts { IfOk result (λ dial.
            dial.connector.counts ≡ record { opened = 0; failures = 0; turn_failures = 0 }) }
    {
        let connector = Connector::new(net, alloc, addresses)?;
        let registry = Arc::new(alloc, connector.registry().try_clone()?)?;
        Ok(PolledDial {
            connector,
            registry,
            places: Places::new(alloc),
            source: Source::new(),
        })
    }

    /// What ends its turns from another thread.
    ///
    /// # Errors
    ///
    /// The system gives no descriptor for it.
    pub fn alarm(&self) -> io::Result<PolledAlarm> {
        PolledAlarm::new(&self.registry)
    }

    /// Sets the addresses of the host at `place`. A dial in progress there tries the next of them
    /// if its address fails.
    ///
    /// # Errors
    ///
    /// Out of memory. Each host has the addresses that it had.
    pub fn set_host(
        &mut self,
        alloc: Global,
        place: u32,
        addresses: Vec<SocketAddr>,
    ) -> Result<(), AllocError>
        ensures set { OnOk result (addresses_at self.new.connector.addresses.hosts.items place
            ≡ addresses.items) }
        ensures others { OnOk result ((other : ℕ) → other ≢ place →
            addresses_at self.new.connector.addresses.hosts.items other
            ≡ addresses_at self.old.connector.addresses.hosts.items other) }
        ensures unchanged { OnErr result (KeepsHosts self.old.connector.addresses.hosts.items
            self.new.connector.addresses.hosts.items) }
        ensures counts { self.new.connector.counts ≡ self.old.connector.counts }
        ensures pending { self.new.connector.pending ≡ self.old.connector.pending }
        ensures source { self.new.source ≡ self.old.source }
    {
        self.connector.addresses.set(alloc, place, addresses)
    }

    /// How many connections it has opened; the count stays at the greatest `u64`.
    pub fn opened(&self) -> u64
        ensures { result ≡ self.now.connector.counts.opened }
    {
        self.connector.counts.opened
    }

    /// How many connections it could not open; the count stays at the greatest `u64`.
    pub fn failures(&self) -> u64
        ensures { result ≡ self.now.connector.counts.failures }
    {
        self.connector.counts.failures
    }
}

impl<'n, N: Net> Dial<PolledWire> for PolledDial<'n, N> {
    ghost use Rattle.std.specs.Prelude.{◌≡◌};
    ghost use Rattle.socket.specs.Dials.{DialsSocket, dial_shown};

    ghost shown = { λ dial. dial_shown dial.connector.counts dial.connector.pending
        dial.source.id };

    ghost turned = { λ old new. (new.connector.pending ≡ old.connector.pending)
        × (new.connector.addresses ≡ old.connector.addresses) };

    fn dial(&mut self, lease: &Lease<PolledWire>) -> Dialled<PolledWire>
        ensures { DialsSocket (λ wire. wire.connection) result lease.now.site
            lease.now.start.want.transfer self.old.connector self.new.connector self.old.source.id
            self.new.source.id }
    {
        match self.connector.connect(lease.site(), lease.transfer()) {
            Dialled::Up(socket) => {
                self.places.note(socket.token());
                self.connector
                    .counts
                    .note(PolledWire::new(socket, &self.registry))
            }
            Dialled::NotYet => {
                if let Some(token) = self.connector.token_of(lease.transfer()) {
                    self.places.note(token);
                }
                Dialled::NotYet
            }
            Dialled::Fault => Dialled::Fault,
        }
    }

    fn reason(&self) -> Option<Reason> {
        self.connector.reason
    }

    fn give_up(&mut self, lease: &Lease<PolledWire>) {
        self.connector.give_up(lease.transfer());
    }

    fn adopt(&mut self, wire: &mut PolledWire) {
        self.places.note(wire.token());
        let is_known = wire.move_to(&self.registry);
        wire.arrivals = Arrivals::LookedFor;
        wire.connection
            .check_idle(!is_known || is_readable(&wire.stream));
    }

    fn turn(&mut self, most: Duration) -> Turned {
        self.connector.wait(most)
    }

    fn set_place(&mut self, place: Place) {
        self.places.set_current(place);
    }

    fn next_ready(&mut self) -> Ready {
        match self.connector.next_ready() {
            Some(token) => self.places.ready(token),
            None => Ready::Nothing,
        }
    }

    fn source(&self) -> &Source {
        &self.source
    }
}
