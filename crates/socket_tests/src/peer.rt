//! A server of one thread, which does what a test says.

use conn_key::{CountedMemory, Target, read_target};
use socket::Addresses;
use std::alloc::AllocGlobal;
use std::io;
use std::io::{Read, Write};
use std::net::{IpAddr, Ipv4Addr, SocketAddr, TcpListener, TcpStream};

/// A whole response with a body of two bytes.
pub(crate) const OK: &[u8] = b"HTTP/1.1 200 OK\r\nContent-Length: 2\r\n\r\nok";

/// A response whose body of two bytes ends with the connection.
const ENDLESS: &[u8] = b"HTTP/1.1 200 OK\r\n\r\nok";

/// More reads than it takes to empty a socket.
const MOST_READS: u32 = 10_000;

/// A whole response that nobody asked for.
const UNASKED: &[u8] = b"HTTP/1.1 200 OK\r\nContent-Length: 7\r\n\r\nunasked";

/// How a server behaves once a request has come.
#[derive(Clone, Copy, Debug, PartialEq, Eq)]
pub(crate) enum Behaviour {
    /// It answers, and keeps the connection.
    Answers,
    /// It answers, and sends a whole response that nobody asked for at once.
    SaysMore,
    /// It answers, and sends a whole response that nobody asked for once the first was read.
    SaysMoreLater,
    /// It answers, and then ends the connection.
    AnswersAndEnds,
    /// It answers without a length, and ends the connection with the answer's last bytes.
    EndsItsAnswer,
    /// It ends the connection after a front of its answer.
    Cuts,
    /// It ends the connection and has not read the request, so that the system resets it.
    Resets,
}

/// A server.
#[derive(Drop)]
pub(crate) struct Peer {
    listener: TcpListener,
    /// The connection that came last.
    stream: Option<TcpStream>,
}

impl Peer {
    /// A server at some port of 127.0.0.1.
    pub(crate) fn new(rt: &HostRuntime) -> io::Result<Peer> {
        let any_port = SocketAddr::new(IpAddr::V4(Ipv4Addr::LOCALHOST), 0);
        let listener = TcpListener::bind(rt, any_port)?;
        listener.set_nonblocking(true)?;
        Ok(Peer {
            listener,
            stream: None,
        })
    }

    /// Its port.
    pub(crate) fn port(&self) -> io::Result<u16> {
        Ok(self.listener.local_addr()?.port())
    }

    /// Whether a connection has come that it did not take yet; it takes it.
    pub(crate) fn is_connected(&self) -> bool {
        self.listener.accept().is_ok()
    }

    /// Takes the connection that came, if one did, and behaves so on the last one.
    pub(crate) fn does(&mut self, behaviour: Behaviour) -> io::Result<()> {
        if let Ok((stream, _)) = self.listener.accept() {
            stream.set_nonblocking(false)?;
            self.stream = Some(stream);
        }
        let Some(mut stream) = self.stream.take() else {
            return Ok(());
        };
        if behaviour == Behaviour::Resets {
            return Ok(());
        }
        let mut request = [0u8; 200];
        let _ = stream.read(&mut request)?;
        let answer = match behaviour {
            Behaviour::Cuts => &OK[..30],
            Behaviour::EndsItsAnswer => ENDLESS,
            _ => OK,
        };
        stream.write_all(answer)?;
        if behaviour == Behaviour::SaysMore {
            stream.write_all(UNASKED)?;
        }
        let ends = matches!(
            behaviour,
            Behaviour::AnswersAndEnds | Behaviour::EndsItsAnswer | Behaviour::Cuts
        );
        if !ends {
            self.stream = Some(stream);
        }
        Ok(())
    }

    /// Takes the connection that came; it takes nothing from it.
    pub(crate) fn accepts(&mut self) -> io::Result<()> {
        let (stream, _) = self.listener.accept()?;
        stream.set_nonblocking(true)?;
        self.stream = Some(stream);
        Ok(())
    }

    /// Sends an answer on the last connection.
    pub(crate) fn answers(&mut self) -> io::Result<()> {
        match &mut self.stream {
            Some(stream) => stream.write_all(OK),
            None => Ok(()),
        }
    }

    /// Takes all that has come on the last connection; how many bytes.
    pub(crate) fn drains(&mut self) -> usize {
        let Some(stream) = &mut self.stream else {
            return 0;
        };
        let mut buffer = [0u8; 4_096];
        let mut count: usize = 0;
        for _ in 0..MOST_READS {
            match stream.read(&mut buffer) {
                Ok(taken) if taken > 0 => count = count.saturating_add(taken),
                _ => break,
            }
        }
        count
    }

    /// Sends what it says once its response was read, if it does.
    pub(crate) fn says_more_later(&mut self, behaviour: Behaviour) -> io::Result<()> {
        if behaviour == Behaviour::SaysMoreLater
            && let Some(stream) = &mut self.stream
        {
            stream.write_all(UNASKED)?;
        }
        Ok(())
    }
}

/// The target of a host and port, if there is memory for it.
pub(crate) fn target_of(rt: &HostRuntime, host: &str, port: u16) -> Option<Target> {
    let url = format!(in rt.alloc(); "http://{host}:{port}/").ok()?;
    let mut memory = CountedMemory::new(rt.alloc());
    read_target(&mut memory, url.as_str()).ok()
}

/// The addresses of a host and port, if they are known and there is memory for them.
pub(crate) fn addresses_of(rt: &HostRuntime, host: &str, port: u16) -> Option<Addresses> {
    let target = target_of(rt, host, port)?;
    let mut addresses = Addresses::new(rt.alloc());
    addresses.add(&target).ok()?;
    Some(addresses)
}
