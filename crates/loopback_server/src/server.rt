//! The server, and its event loop.

ghost use Rattle.std.specs.Prelude.{◌≡◌, IfOk, length};

use crate::connections::Connections;
use mio::net::TcpListener;
use mio::{Events, Interest, Poll, Registry, Token};
use std::alloc::Global;
use std::io;
use std::marker::Model;
use std::net::{IpAddr, Ipv4Addr, Net, SocketAddr};
use std::sync::Wait;
use std::sync::atomic::{AtomicBool, Ordering};
use std::time::Duration;

/// How many milliseconds pass at most before the server looks whether it is to end.
const MOST_MILLISECONDS: u64 = 10;

/// How many events one turn takes. What is left is seen by the next turn.
const MOST_EVENTS: usize = 64;

/// A server that listens, on one port of 127.0.0.1 for each site. Contracts see it as its ports.
///
/// Each request is answered by `HTTP/1.1 200 OK`, `Content-Length: 2`, an empty line and `ok`, and
/// the connection stays open unless the request has the connection option `close`. A connection
/// whose peer ends it, or sends what is no request or a head of more than 16,384 bytes or 100
/// fields, is closed once the requests before were answered.
#[derive(Drop)]
pub struct Server {
    poll: Poll,
    events: Events,
    ports: Vec<u16>,
    // The token of each is its site.
    listeners: Vec<TcpListener>,
    connections: Connections,
}

impl Model for Server {
    ghost use Rattle.std.specs.Prelude.{ℕ, List};

    ghost Value = { List ℕ };

    ghost view = { λ server. server.ports.items };
}

impl Server {
    /// Listens, at one port for each of that many sites. Connections may be opened from then on,
    /// and wait until it serves.
    ///
    /// # Errors
    ///
    /// There is no memory for it, or the system gives no poller or port.
    pub fn listen<N: Net>(net: &N, alloc: Global, sites: u32) -> io::Result<Server>
        ensures { IfOk result (λ server. length server ≡ sites) }
    {
        let poll = Poll::new(net)?;
        let events = Events::with_capacity(alloc, MOST_EVENTS)?;
        let connections = Connections::new(alloc, sites as usize)?;
        let mut ports = Vec::new(alloc);
        let mut listeners = Vec::new(alloc);
        for site in 0..sites as usize {
            let (listener, port) = listener_at(net, poll.registry(), Token(site))?;
            listeners.push(listener)?;
            ports.push(port)?;
        }
        Ok(Server {
            poll,
            events,
            ports,
            listeners,
            connections,
        })
    }

    /// The port of each site.
    pub fn ports(&self) -> &[u16]
        ensures { result.now ≡ self.now }
    {
        self.ports.as_slice()
    }

    /// Serves until `ended` is true, which it sees within about ten milliseconds, and closes all
    /// connections and ports then. An allocation failure closes the connection that it was for, and
    /// no other. It answers how many requests came at the port of each site.
    ///
    /// # Errors
    ///
    /// The system refuses to tell which sockets are ready, or gives no connection though one waits,
    /// as where descriptors run out. All is closed then as well.
    pub fn serve<R: Wait>(mut self, rt: &R, ended: &AtomicBool) -> io::Result<Vec<u64>> {
        for _ in rt.forever() {
            if ended.load(Ordering::SeqCst) {
                break;
            }
            self.turn()?;
        }
        let Server {
            poll: _,
            events: _,
            ports: _,
            listeners: _,
            connections,
        } = self;
        Ok(connections.into_requests())
    }

    // Waits until a socket is ready, for at most ten milliseconds, and does what can be done.
    fn turn(&mut self) -> io::Result<()> {
        let most = Duration::from_millis(MOST_MILLISECONDS);
        self.poll.poll(&mut self.events, Some(most))?;
        let registry = self.poll.registry();
        for event in self.events.iter() {
            let token = event.token();
            match self.listeners.get_mut(token.0) {
                Some(listener) => self.connections.take_from(listener, registry, token)?,
                None => self.connections.advance(registry, token),
            }
        }
        Ok(())
    }
}

/// A listener at some port of 127.0.0.1, and that port. The registry tells under the token when a
/// connection waits there.
fn listener_at<N: Net>(
    net: &N,
    registry: &Registry,
    token: Token,
) -> io::Result<(TcpListener, u16)> {
    let any_port = SocketAddr::new(IpAddr::V4(Ipv4Addr::LOCALHOST), 0);
    let mut listener = TcpListener::bind(net, any_port)?;
    let port = listener.local_addr()?.port();
    registry.register(&mut listener, token, Interest::READABLE)?;
    Ok((listener, port))
}
