//! What comes back for the bytes that a client sends.

use crate::checks::check_eq;
use crate::servers::beside::beside;
use crate::servers::connection::{Connection, REQUEST};
use loopback_server::Server;
use std::alloc::{AllocError, AllocGlobal};
use std::io;

/// What a client sends, and what comes of it.
struct Row {
    text: &'static [u8],
    /// How many bytes go in one write.
    piece: usize,
    /// How many requests are answered.
    answers: usize,
    /// Whether the server keeps the connection then.
    is_kept: bool,
}

/// More than any text has.
const WHOLE: usize = 1_000;

static ROWS: [Row; 15] = [
    // A request in one piece, byte by byte, and cut within its line ends.
    Row {
        text: b"GET /0 HTTP/1.1\r\nHost: localhost\r\n\r\n",
        piece: WHOLE,
        answers: 1,
        is_kept: true,
    },
    Row {
        text: b"GET /0 HTTP/1.1\r\nHost: localhost\r\n\r\n",
        piece: 1,
        answers: 1,
        is_kept: true,
    },
    Row {
        text: b"HEAD / HTTP/1.1\r\n\r\n",
        piece: 16,
        answers: 1,
        is_kept: true,
    },
    // Several requests in one piece, and across pieces.
    Row {
        text: b"GET /0 HTTP/1.1\r\n\r\nGET /1 HTTP/1.1\r\n\r\n",
        piece: WHOLE,
        answers: 2,
        is_kept: true,
    },
    Row {
        text: b"GET /0 HTTP/1.1\r\n\r\nGET /1 HTTP/1.0\r\n\r\nGET /2 HTTP/1.1\r\n\r\n",
        piece: 25,
        answers: 3,
        is_kept: true,
    },
    // The connection option close, and what is none.
    Row {
        text: b"GET /0 HTTP/1.1\r\nConnection: close\r\n\r\n",
        piece: WHOLE,
        answers: 1,
        is_kept: false,
    },
    Row {
        text: b"GET /0 HTTP/1.1\r\nHost: a\r\ncONNECTION: keep-alive ,\t CLOSE \r\n\r\n",
        piece: 1,
        answers: 1,
        is_kept: false,
    },
    Row {
        text: b"GET /0 HTTP/1.1\r\n\r\nGET /1 HTTP/1.1\r\nConnection: close\r\n\r\n",
        piece: WHOLE,
        answers: 2,
        is_kept: false,
    },
    Row {
        text: b"GET /0 HTTP/1.1\r\nConnection: close\r\n\r\nGET /1 HTTP/1.1\r\n\r\n",
        piece: WHOLE,
        answers: 1,
        is_kept: false,
    },
    Row {
        text: b"GET /0 HTTP/1.1\r\nConnection: closed, not close\r\n\r\n",
        piece: WHOLE,
        answers: 1,
        is_kept: true,
    },
    Row {
        text: b"GET /close HTTP/1.1\r\nX-Connection: close\r\n\r\n",
        piece: WHOLE,
        answers: 1,
        is_kept: true,
    },
    // Bytes that are no request.
    Row {
        text: b"HTTP/1.1 200 OK\r\n\r\n",
        piece: WHOLE,
        answers: 0,
        is_kept: false,
    },
    Row {
        text: b"GET /0 HTTP/1.1\r\nno field\r\n\r\n",
        piece: WHOLE,
        answers: 0,
        is_kept: false,
    },
    Row {
        text: b"GET /0 HTTP/1.1\r\n\r\nGET /1 HTTP/2.0\r\n\r\n",
        piece: WHOLE,
        answers: 1,
        is_kept: false,
    },
    Row {
        text: b"GET /0 HTTP/1.1\r\n\r\n\x00",
        piece: 18,
        answers: 1,
        is_kept: false,
    },
];

// How many requests of a text are answered, up to that many, and whether the connection is kept
// then, if it is expected to be.
fn outcome(
    rt: &HostRuntime,
    port: u16,
    text: &[u8],
    piece: usize,
    wanted: (usize, bool),
) -> io::Result<(usize, bool)> {
    let client = Connection::connect(rt, port)?;
    // A server that refuses the text may close before all of it is sent.
    let sent = client.send(text, piece);
    if wanted.1 {
        sent?;
    }
    let answers = client.answers(wanted.0);
    let is_kept = if wanted.1 {
        client.send(REQUEST, WHOLE)?;
        client.answers(1) == 1
    } else {
        !client.is_ended()
    };
    Ok((answers, is_kept))
}

#[test]
fn requests_are_answered_in_order(rt: HostRuntime) {
    let server = Server::listen(&rt, rt.alloc(), 1).expect(&rt, "memory");
    let port = server.ports()[0];
    beside(&rt, server, || -> io::Result<()> {
        for row in &ROWS {
            let wanted = (row.answers, row.is_kept);
            let got = outcome(&rt, port, row.text, row.piece, wanted).expect(&rt, "memory");
            assert_eq!(rt; got, wanted, "{:?}", row.text);
        }
        Ok(())
    })
    .expect(&rt, "memory");
}

/// A head of that many bytes, with that many fields, of which there must be one.
fn head(rt: &HostRuntime, len: usize, fields: usize) -> Result<Vec<u8>, AllocError> {
    let mut head = Vec::new(rt.alloc());
    head.extend_from_slice(b"GET / HTTP/1.1\r\n")?;
    for _ in 1..fields {
        head.extend_from_slice(b"a:b\r\n")?;
    }
    head.extend_from_slice(b"c:")?;
    for _ in head.len()..len.saturating_sub(4) {
        head.push(b'd')?;
    }
    head.extend_from_slice(b"\r\n\r\n")?;
    Ok(head)
}

/// A head of so many bytes with so many fields, and whether it is answered.
static HEADS: [(usize, usize, bool); 5] = [
    (16_384, 1, true),
    (16_385, 1, false),
    (40_000, 1, false),
    (1_000, 100, true),
    (1_000, 101, false),
];

#[test]
fn large_heads_are_refused(rt: HostRuntime) {
    let server = Server::listen(&rt, rt.alloc(), 1).expect(&rt, "memory");
    let port = server.ports()[0];
    beside(&rt, server, || -> io::Result<()> {
        for (len, fields, is_answered) in &HEADS {
            let text = head(&rt, *len, *fields).expect(&rt, "memory");
            check_eq(&rt, text.len(), *len);
            let wanted = (usize::from(*is_answered), *is_answered);
            let got = outcome(&rt, port, text.as_slice(), 5_000, wanted).expect(&rt, "memory");
            assert_eq!(rt; got, wanted, "{len} bytes, {fields} fields");
        }
        Ok(())
    })
    .expect(&rt, "memory");
}
