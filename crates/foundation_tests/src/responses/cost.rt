//! What reading costs: valgrind's callgrind counts the instructions of each call of `feeds_each`,
//! in the order of the tables (docs/measurements.md).
use crate::checks::check_eq;
use persistence::{Method, ResponseReader, persists};
use std::alloc::{AllocError, Global};

const COUNTED: &str = "HTTP/1.1 200 OK\r\nContent-Length: 1000000\r\n\r\n";

const UNTIL_CLOSE: &str = "HTTP/1.1 200 OK\r\n\r\n";

const CHUNKED: &str = "HTTP/1.1 200 OK\r\nTransfer-Encoding: chunked\r\n\r\n";

const IN_CHUNK: &str = "HTTP/1.1 200 OK\r\nTransfer-Encoding: chunked\r\n\r\nfffff\r\n";

/// What came before, and the piece that is counted: a text so many times, and an end; how many
/// bytes of a body it has.
static PIECES: [(&str, &str, usize, &str, u64); 10] = [
    (COUNTED, "x", 1, "", 1),
    (COUNTED, "x", 1_000, "", 1_000),
    (COUNTED, "x", 60_000, "", 60_000),
    (UNTIL_CLOSE, "x", 1, "", 1),
    (UNTIL_CLOSE, "x", 1_000, "", 1_000),
    (UNTIL_CLOSE, "x", 60_000, "", 60_000),
    (IN_CHUNK, "x", 1, "", 1),
    (IN_CHUNK, "x", 1_000, "", 1_000),
    (IN_CHUNK, "x", 60_000, "", 60_000),
    (CHUNKED, "0", 1, "3e8\r\n", 0),
];

/// A head of 197 bytes with six fields, and a body of 12 bytes.
const TYPICAL: &str =
    "HTTP/1.1 200 OK\r\nDate: Sun, 22 Nov 2026 10:15:30 GMT\r\nServer: nginx/1.24.0 (Ubuntu)\r\n\
    Content-Type: text/plain; charset=utf-8\r\nContent-Length: 12\r\nConnection: keep-alive\r\n\
    Cache-Control: no-cache\r\n\r\nhello, world";

/// How many fields a head has, how many bytes the value of each, how many bytes that makes in all,
/// and in pieces of how many bytes they come.
static HEADS: [(usize, usize, usize, usize); 7] = [
    (6, 19, 200, 200),
    (6, 19, 200, 20),
    (42, 37, 2_000, 2_000),
    (42, 37, 2_000, 200),
    (98, 153, 16_000, 16_000),
    (98, 153, 16_000, 1_600),
    (48, 160, 8_186, 1_460),
];

/// Feeds the text in pieces of so many bytes; whether all went well.
#[inline(never)]
fn feeds_each(reader: &mut ResponseReader, text: &[u8], each: usize) -> bool {
    for piece in text.chunks(each.max(1)) {
        if reader.ended() || reader.feed(piece).is_err() {
            return false;
        }
    }
    true
}

#[test]
fn each_piece_is_read(rt: HostRuntime) {
    for row in &PIECES {
        let (before, text, count, end, body_len) = *row;
        let mut reader = ResponseReader::new(rt.alloc(), Method::Get, false).expect(&rt, "memory");
        assert!(rt; !reader.ended());
        assert!(rt; reader.feed(before.as_bytes()).is_ok());
        let piece = repeated(rt.alloc(), "", text, count, end).expect(&rt, "memory");
        assert!(rt; feeds_each(&mut reader, &piece, piece.len()));
        check_eq(&rt, reader.body_len(), body_len);
    }
}

#[test]
fn a_typical_response_is_read(rt: HostRuntime) {
    let mut reader = ResponseReader::new(rt.alloc(), Method::Get, false).expect(&rt, "memory");
    assert!(rt; feeds_each(&mut reader, TYPICAL.as_bytes(), 209));
    check_eq(&rt, reader.status(), Some(200));
    check_eq(&rt, reader.body_len(), 12);
    assert!(rt; persists(&reader.facts()));
}

#[test]
fn each_head_is_read(rt: HostRuntime) {
    for row in &HEADS {
        let (fields, value_len, len, each) = *row;
        let head = head_of(rt.alloc(), fields, value_len).expect(&rt, "memory");
        check_eq(&rt, head.len(), len);
        let mut reader = ResponseReader::new(rt.alloc(), Method::Get, false).expect(&rt, "memory");
        assert!(rt; feeds_each(&mut reader, &head, each));
        check_eq(&rt, reader.status(), Some(404));
    }
}

/// A head with so many fields, each with a value of so many bytes.
fn head_of(alloc: Global, fields: usize, value_len: usize) -> Result<Vec<u8>, AllocError> {
    let field = repeated(alloc, "X-Name: ", "x", value_len, "\r\n")?;
    let mut head = Vec::from_slice(alloc, b"HTTP/1.1 404 Not Found\r\n")?;
    for _ in 0..fields {
        head.extend_from_slice(&field)?;
    }
    head.extend_from_slice(b"\r\n")?;
    Ok(head)
}

/// The start, the piece so many times, and the end.
fn repeated(
    alloc: Global,
    start: &str,
    piece: &str,
    count: usize,
    end: &str,
) -> Result<Vec<u8>, AllocError> {
    let mut bytes = Vec::from_slice(alloc, start.as_bytes())?;
    for _ in 0..count {
        bytes.extend_from_slice(piece.as_bytes())?;
    }
    bytes.extend_from_slice(end.as_bytes())?;
    Ok(bytes)
}
