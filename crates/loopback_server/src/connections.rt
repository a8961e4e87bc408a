//! The connections that peers have opened.

use crate::connection::{Connection, Next};
use crate::request::MOST_FIELDS;
use httparse::spans::{EMPTY_HEADER_SPAN, HeaderSpan};
use mio::net::{TcpListener, TcpStream};
use mio::{Interest, Registry, Token};
use slab::Slab;
use std::alloc::{AllocError, Global};
use std::io::{self, ErrorKind};

/// How many connections are taken from one listener in a row.
const MOST_TAKEN: u32 = 64;

/// The connections. The token of one is its key, past the tokens of the listeners.
#[derive(Drop)]
pub(crate) struct Connections {
    alloc: Global,
    listeners: usize,
    slab: Slab<Connection>,
    // Where the fields of a head are written.
    spans: Vec<HeaderSpan>,
    // How many requests came at the port of each site.
    requests: Vec<u64>,
}

impl Connections {
    /// No connections, beside that many listeners.
    ///
    /// # Errors
    ///
    /// There is no memory for them.
    pub(crate) fn new(alloc: Global, listeners: usize) -> Result<Connections, AllocError> {
        Ok(Connections {
            alloc,
            listeners,
            slab: Slab::new(alloc),
            spans: vec![in alloc; EMPTY_HEADER_SPAN; MOST_FIELDS]?,
            requests: vec![in alloc; 0u64; listeners]?,
        })
    }

    /// Takes the connections that wait at the listener of that token. One for which there is no
    /// memory is closed. The registry tells again if others wait.
    ///
    /// # Errors
    ///
    /// The system gives no connection though one may wait, as where descriptors run out; or the
    /// registry refuses to tell.
    pub(crate) fn take_from(
        &mut self,
        listener: &mut TcpListener,
        registry: &Registry,
        token: Token,
    ) -> io::Result<()> {
        for _ in 0..MOST_TAKEN {
            match listener.accept() {
                Ok((stream, _)) => {
                    let _ = self.add(token.0, stream, registry);
                }
                Err(error) => match error.kind() {
                    ErrorKind::WouldBlock => break,
                    // Its peer gave it up, or a signal came: others may wait.
                    ErrorKind::ConnectionAborted | ErrorKind::Interrupted => {}
                    _ => return Err(error),
                },
            }
        }
        registry.reregister(listener, token, Interest::READABLE)
    }

    // Adds a connection, which came at that site's port.
    fn add(&mut self, site: usize, stream: TcpStream, registry: &Registry) -> io::Result<()> {
        self.slab.reserve(1)?;
        let Some(token) = self.slab.vacant_key().checked_add(self.listeners) else {
            return Err(AllocError.into());
        };
        let connection = Connection::new(self.alloc, site, stream, registry, Token(token))?;
        self.slab.insert_reserved(connection);
        Ok(())
    }

    /// Goes on with the connection of that token, if it is still there. One that ends is closed.
    pub(crate) fn advance(&mut self, registry: &Registry, token: Token) {
        let Some(key) = token.0.checked_sub(self.listeners) else {
            return;
        };
        let Some(connection) = self.slab.get_mut(key) else {
            return;
        };
        let Some(requests) = self.requests.get_mut(connection.site()) else {
            return;
        };
        let is_open = match connection.advance(self.spans.as_mut_slice(), requests) {
            Next::Waits => true,
            Next::More => connection.reregister(registry, token).is_ok(),
            Next::Ends => false,
        };
        if !is_open {
            let _ = self.slab.try_remove(key);
        }
    }
    /// How many requests came at the port of each site. All connections are closed.
    pub(crate) fn into_requests(self) -> Vec<u64> {
        let Connections {
            alloc: _,
            listeners: _,
            slab: _,
            spans: _,
            requests,
        } = self;
        requests
    }
}
