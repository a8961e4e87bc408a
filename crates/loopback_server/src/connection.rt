//! One connection: what has come of its peer's requests, and how far they are answered.

ghost use Rattle.std.specs.Prelude.{◌≤◌};
ghost use Rattle.loopback_server.specs.declared.connection.TheConstants.{ANSWER_LEN};

use crate::received::Received;
use crate::request::{Front, front_of};
use httparse::spans::HeaderSpan;
use mio::net::TcpStream;
use mio::{Interest, Registry, Token};
use std::alloc::Global;
use std::io;
use std::io::{Error, ErrorKind, Write};

/// The answer to each request.
const ANSWER: &[u8] = b"HTTP/1.1 200 OK\r\nContent-Length: 2\r\n\r\nok";

/// How many bytes the answer has.
const ANSWER_LEN: usize = ANSWER.len();

/// How many reads, writes and looks at what has come are made for one connection in a row.
const MOST_STEPS: u32 = 32;

/// What comes next on a connection.
#[derive(Clone, Copy, Debug, PartialEq, Eq)]
pub(crate) enum Next {
    /// More can be done at once.
    More,
    /// It waits until its socket is ready.
    Waits,
    /// It is to be closed.
    Ends,
}

/// A connection that a peer has opened.
#[derive(Drop)]
pub(crate) struct Connection {
    /// The site at whose port it came.
    site: usize,
    stream: TcpStream,
    received: Received,
    /// How many bytes of an answer are still to be sent.
    unsent: usize,
    /// Whether it ends with that answer.
    is_last: bool,
    ghost within: { unsent ≤ ANSWER_LEN },
}

impl Connection {
    /// A connection over that socket, which came at that site's port. The registry tells under the
    /// token when the socket becomes ready.
    ///
    /// # Errors
    ///
    /// There is no memory for it, or the system refuses to tell, or to send small answers at once.
    pub(crate) fn new(
        alloc: Global,
        site: usize,
        mut stream: TcpStream,
        registry: &Registry,
        token: Token,
    ) -> io::Result<Connection> {
        let received = Received::new(alloc)?;
        stream.set_nodelay(true)?;
        registry.register(&mut stream, token, Interest::READABLE | Interest::WRITABLE)?;
        Ok(Connection {
            site,
            stream,
            received,
            unsent: 0,
            is_last: false,
        })
    }

    /// Has the registry tell again if its socket is ready.
    ///
    /// # Errors
    ///
    /// The system refuses it.
    pub(crate) fn reregister(&mut self, registry: &Registry, token: Token) -> io::Result<()> {
        let both = Interest::READABLE | Interest::WRITABLE;
        registry.reregister(&mut self.stream, token, both)
    }

    /// The site at whose port it came.
    pub(crate) fn site(&self) -> usize {
        self.site
    }

    /// Answers the requests that have come, in order, until its socket is not ready, and adds to
    /// `requests` how many it begins to answer.
    pub(crate) fn advance(&mut self, spans: &mut [HeaderSpan], requests: &mut u64) -> Next {
        for _ in 0..MOST_STEPS {
            let next = self.step(spans, requests);
            if next != Next::More {
                return next;
            }
        }
        Next::More
    }

    // Sends what is left of an answer, begins the next one, or reads.
    fn step(&mut self, spans: &mut [HeaderSpan], requests: &mut u64) -> Next {
        if self.unsent > 0 {
            return self.send();
        }
        if self.is_last {
            return Next::Ends;
        }
        match front_of(self.received.as_slice(), spans) {
            Front::Request { len, is_last } => {
                *requests = requests.saturating_add(1);
                self.received.drop_front(len);
                self.unsent = ANSWER_LEN;
                self.is_last = is_last;
                Next::More
            }
            Front::Part => self.receive(),
            Front::Other => Next::Ends,
        }
    }

    // Sends what is left of an answer.
    fn send(&mut self) -> Next {
        match self.stream.write(&ANSWER[ANSWER_LEN - self.unsent..]) {
            Ok(0) => Next::Ends,
            Ok(count) => {
                self.unsent -= count;
                Next::More
            }
            Err(error) => after(&error),
        }
    }

    // Reads more of a request. A head for which there is no room is refused: nothing is read then.
    fn receive(&mut self) -> Next {
        match self.received.read_from(&mut self.stream) {
            Ok(0) => Next::Ends,
            Ok(_) => Next::More,
            Err(error) => after(&error),
        }
    }
}

/// What comes next after a read or a write that failed so.
fn after(error: &Error) -> Next {
    match error.kind() {
        ErrorKind::WouldBlock => Next::Waits,
        ErrorKind::Interrupted => Next::More,
        _ => Next::Ends,
    }
}
