//! Sockets that were begun for a transfer. Only here are a socket and what is known of it paired.

ghost use Rattle.std.specs.Prelude.{◌≡◌, true, IfOk};
ghost use Rattle.socket.specs.Sockets.{IsUntouched, IsDialledTo};

use crate::connection::Connection;
use crate::places::token_of;
use crate::reasons::reason_of;
use exchange::Reason;
use mio::net::TcpStream;
use mio::{Interest, Registry, Token};
use std::io;
use std::io::ErrorKind;
use std::net::{Net, SocketAddr};

/// Whether a connection is open.
#[derive(Clone, Copy, Debug, PartialEq, Eq)]
pub(crate) enum Progress {
    Open,
    NotYet,
    /// It cannot be opened, for that reason if the system said why.
    Failed(Option<Reason>),
}

/// A socket that was begun for a transfer, to an address of the host of a site.
#[derive(Drop)]
pub(crate) struct DialledSocket {
    stream: TcpStream,
    connection: Connection,
}

impl DialledSocket {
    /// Begins a connection to that address, for that transfer and site.
    ///
    /// # Errors
    ///
    /// The system refuses it.
    pub(crate) fn begin<N: Net>(
        net: &N,
        address: SocketAddr,
        site: u32,
        transfer: u64,
    ) -> io::Result<DialledSocket>
        ensures untouched { IfOk result (λ socket. IsUntouched socket.connection site transfer) }
        ensures address { IfOk result (λ socket. socket.connection.address ≡ address) }
    {
        Ok(DialledSocket {
            stream: TcpStream::connect(net, address)?,
            connection: Connection::new(address, site, transfer),
        })
    }

    /// Whether it was begun for that transfer, to the host of that site, which has these addresses.
    pub(crate) fn is_for(&self, addresses: &[SocketAddr], site: u32, transfer: u64) -> bool
        ensures { result ≡ true → IsDialledTo addresses.now self.now.connection site transfer }
    {
        self.connection.is_for(addresses, site, transfer)
    }

    /// Whether it is open (the manual page connect(2), at EINPROGRESS).
    pub(crate) fn progress(&self) -> Progress {
        match self.stream.take_error() {
            Ok(None) => {}
            Ok(Some(error)) => return Progress::Failed(reason_of(error.kind())),
            Err(error) => return Progress::Failed(reason_of(error.kind())),
        }
        match self.stream.peer_addr() {
            Ok(_) => Progress::Open,
            Err(error) => {
                if error.kind() == ErrorKind::NotConnected {
                    Progress::NotYet
                } else {
                    Progress::Failed(reason_of(error.kind()))
                }
            }
        }
    }

    /// The token that it is registered by.
    pub(crate) fn token(&self) -> Token {
        token_of(&self.stream)
    }

    /// Has that registry tell once it is open or has failed; whether it will.
    pub(crate) fn register(&mut self, registry: &Registry) -> bool
        ensures { self.new.connection ≡ self.old.connection }
    {
        let token = self.token();
        registry
            .register(&mut self.stream, token, Interest::WRITABLE)
            .is_ok()
    }

    /// The registry tells nothing of it any more.
    pub(crate) fn deregister(&mut self, registry: &Registry)
        ensures { self.new.connection ≡ self.old.connection }
    {
        let _ = registry.deregister(&mut self.stream);
    }

    /// The socket, and what is known of it.
    pub(crate) fn into_parts(self) -> (TcpStream, Connection)
        ensures { result.1 ≡ self.connection }
    {
        let DialledSocket { stream, connection } = self;
        (stream, connection)
    }
}
