//! A client's connection.

use std::io;
use std::io::{Read, Write};
use std::net::{IpAddr, Ipv4Addr, Net, Shutdown, SocketAddr, TcpStream};
use std::time::Duration;

/// The answer to each request.
pub(crate) const ANSWER: &[u8] = b"HTTP/1.1 200 OK\r\nContent-Length: 2\r\n\r\nok";

/// A request that keeps its connection.
pub(crate) const REQUEST: &[u8] = b"GET /k HTTP/1.1\r\nHost: 127.0.0.1\r\n\r\n";

/// How many seconds a read waits at most.
const MOST_SECONDS: u64 = 10;

/// A connection to a server.
#[derive(Drop)]
pub(crate) struct Connection {
    stream: TcpStream,
}

impl Connection {
    /// A connection to that port of 127.0.0.1.
    pub(crate) fn connect(rt: &HostRuntime, port: u16) -> io::Result<Connection> {
        let address = SocketAddr::new(IpAddr::V4(Ipv4Addr::LOCALHOST), port);
        let stream = TcpStream::connect(rt, address)?;
        stream.set_nodelay(true)?;
        stream.set_read_timeout(Some(Duration::from_secs(MOST_SECONDS)))?;
        Ok(Connection { stream })
    }

    /// Sends the bytes, so many in each write.
    pub(crate) fn send(&self, bytes: &[u8], piece: usize) -> io::Result<()> {
        for part in bytes.chunks(piece.max(1)) {
            (&self.stream).write_all(part)?;
        }
        Ok(())
    }

    /// How many answers come, up to that many. What is no answer ends them.
    pub(crate) fn answers(&self, most: usize) -> usize {
        let mut answer = [0u8; ANSWER.len()];
        for count in 0..most {
            if (&self.stream).read_exact(&mut answer).is_err() || answer.as_slice() != ANSWER {
                return count;
            }
        }
        most
    }

    /// It sends no more.
    pub(crate) fn end(&self) -> io::Result<()> {
        self.stream.shutdown(Shutdown::Write)
    }

    /// Whether the server has ended the connection, and said nothing more before.
    pub(crate) fn is_ended(&self) -> bool {
        let mut byte = [0u8; 1];
        match (&self.stream).read(&mut byte) {
            Ok(count) => count == 0,
            Err(error) => error.kind() == io::ErrorKind::ConnectionReset,
        }
    }
}
