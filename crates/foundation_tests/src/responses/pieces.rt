//! Readers that are cleared or reset, or that get no memory; and the report of a response in
//! pieces.
use crate::checks::check_eq;
use crate::responses::facts::KEEP;
use persistence::{Facts, Fed, Framing, Method, ReadFault, ResponseReader};
use std::alloc::Global;
use std::process::Abort;

/// What a reader tells of a response.
#[derive(Clone, Copy, Debug, PartialEq, Eq)]
pub(crate) struct Response {
    pub status: Option<u16>,
    pub facts: Facts,
    pub body_len: u64,
}

/// What a reader says of a response, or why it is none.
pub(crate) type Told = Result<Response, ReadFault>;

/// What was asked, the bytes of the response, and whether the connection ends behind them.
#[derive(Clone, Copy)]
pub(crate) struct Sent<'a> {
    pub method: Method,
    pub request_close: bool,
    pub text: &'a [u8],
    pub ended: bool,
}

/// Whole responses, their body length and framing.
static WHOLE: [(&str, u64, Framing); 4] = [
    (
        "HTTP/1.1 200 OK\r\nContent-Length: 2\r\n\r\nok",
        2,
        Framing::Counted,
    ),
    (
        "HTTP/1.1 200 OK\r\nContent-Length: 0\r\n\r\n",
        0,
        Framing::Counted,
    ),
    (
        "HTTP/1.1 200 OK\r\nTransfer-Encoding: chunked\r\n\r\n2\r\nok\r\n0\r\nT: v\r\n\r\n",
        2,
        Framing::Chunked,
    ),
    (
        "HTTP/1.1 200 OK\r\nTransfer-Encoding: chunked\r\n\r\n0\r\n\r\n",
        0,
        Framing::Chunked,
    ),
];

/// What the reader tells of what it was fed.
fn response_of(reader: &ResponseReader) -> Response {
    Response {
        status: reader.status(),
        facts: reader.facts(),
        body_len: reader.body_len(),
    }
}

/// What the reader tells after the piece; `feed` answers `Whole` exactly where the facts say so,
/// and after a fault there is no framing.
pub(crate) fn fed(rt: &impl Abort, reader: &mut ResponseReader, piece: &[u8]) -> Told {
    assert!(rt; !reader.ended());
    match reader.feed(piece) {
        Ok(found) => {
            check_eq(rt, matches!(found, Fed::Whole), reader.facts().whole);
            Ok(response_of(reader))
        }
        Err(fault) => {
            check_eq(rt, reader.facts().framing, Framing::Faulty);
            assert!(rt; !reader.facts().whole);
            Err(fault)
        }
    }
}

/// What the reader tells after the connection's end; nothing changes after a fault.
pub(crate) fn at_end(rt: &impl Abort, reader: &mut ResponseReader, told: Told) -> Told {
    let before = response_of(reader);
    reader.end();
    assert!(rt; reader.ended());
    match told {
        Ok(_) => Ok(response_of(reader)),
        Err(fault) => {
            check_eq(rt, response_of(reader), before);
            Err(fault)
        }
    }
}

/// A reader that was fed the text, in a first piece of so many bytes and pieces of `each` bytes
/// behind it, and what it told last; once it told a fault it tells no other.
fn reader_fed(
    rt: &impl Abort,
    alloc: Global,
    sent: Sent,
    first: usize,
    each: usize,
) -> Result<(ResponseReader, Told), ReadFault> {
    let mut reader = ResponseReader::new(alloc, sent.method, sent.request_close)?;
    let first = first.min(sent.text.len());
    let mut told = fed(rt, &mut reader, &sent.text[..first]);
    for piece in sent.text[first..].chunks(each.max(1)) {
        let next = fed(rt, &mut reader, piece);
        assert!(rt; told.is_ok() || next == told, "another fault");
        told = next;
    }
    if sent.ended {
        told = at_end(rt, &mut reader, told);
    }
    Ok((reader, told))
}

/// What a reader tells of the text in such pieces.
pub(crate) fn told_in_pieces(
    rt: &impl Abort,
    alloc: Global,
    sent: Sent,
    first: usize,
    each: usize,
) -> Told {
    match reader_fed(rt, alloc, sent, first, each) {
        Ok((_, told)) => told,
        Err(fault) => Err(fault),
    }
}

/// Checks what is told in the case. One that fails is printed with the way in which the bytes came
/// and a place or count that goes with it.
pub(crate) fn check_told(
    rt: &impl Abort,
    case: &str,
    way: &str,
    place: usize,
    found: Told,
    expected: Told,
) {
    assert_eq!(rt; found, expected, "{case}, {way} {place}");
}

/// Checks what the reader shows in the case, whatever it told last.
fn check_shown(
    rt: &impl Abort,
    case: &str,
    way: &str,
    place: usize,
    reader: &ResponseReader,
    expected: Response,
) {
    check_told(rt, case, way, place, Ok(response_of(reader)), Ok(expected));
}

/// Checks that the reader tells what a new one tells, before any byte and after the text.
fn check_as_new(
    rt: &impl Abort,
    alloc: Global,
    reader: &mut ResponseReader,
    case: &str,
    sent: Sent,
) -> Result<(), ReadFault> {
    let len = sent.text.len();
    let mut new = ResponseReader::new(alloc, sent.method, sent.request_close)?;
    assert_eq!(rt;
        (reader.ended(), reader.any_byte()),
        (false, false),
        "{case}"
    );
    check_shown(rt, case, "as new before", len, reader, response_of(&new));
    let found = fed(rt, reader, sent.text);
    let expected = fed(rt, &mut new, sent.text);
    check_told(rt, case, "as new at", len, found, expected);
    check_shown(rt, case, "as new after", len, reader, response_of(&new));
    Ok(())
}

/// A fault in a head and one in a body, a part of a head, a whole response with surplus, and one
/// that ended.
static BEFORE: [&str; 5] = [
    "HTTP/1.1 2x0 OK\r\n\r\n",
    "HTTP/1.1 200 OK\r\nTransfer-Encoding: chunked\r\n\r\n2\r\nok\r\nz",
    "\r\nHTTP/1.1 200 OK\r\nA: b\r\n",
    "HTTP/1.1 200 OK\r\nContent-Length: 2\r\n\r\nokay",
    "HTTP/1.1 200 OK\r\n\r\nok",
];

#[test]
fn a_cleared_reader_is_as_new(rt: HostRuntime) {
    for text in &BEFORE {
        for row in &WHOLE {
            let (case, body_len, framing) = *row;
            let sent = Sent {
                method: Method::Get,
                request_close: false,
                text: text.as_bytes(),
                ended: true,
            };
            let (mut reader, _) = reader_fed(&rt, rt.alloc(), sent, 3, 5).expect(&rt, "memory");
            reader.clear();
            let next = Sent {
                text: case.as_bytes(),
                ..sent
            };
            check_as_new(&rt, rt.alloc(), &mut reader, case, next).expect(&rt, "memory");
            assert_eq!(rt;
                (reader.status(), reader.body_len()),
                (Some(200), body_len),
                "{case}"
            );
            assert_eq!(rt;
                (reader.facts().framing, reader.facts().whole),
                (framing, true),
                "{case}"
            );
        }
    }
}

#[test]
fn a_reset_reader_reads_the_response_to_another_request(rt: HostRuntime) {
    let mut reader = ResponseReader::new(rt.alloc(), Method::Head, true).expect(&rt, "memory");
    let text = "HTTP/1.1 200 OK\r\nContent-Length: 2\r\n\r\n";
    let _ = fed(&rt, &mut reader, text.as_bytes());
    reader.end();
    reader.reset(Method::Get, false);
    let case = "HTTP/1.1 200 OK\r\nContent-Length: 2\r\n\r\nok";
    let next = Sent {
        method: Method::Get,
        request_close: false,
        text: case.as_bytes(),
        ended: false,
    };
    check_as_new(&rt, rt.alloc(), &mut reader, case, next).expect(&rt, "memory");
    check_eq(&rt, (reader.facts(), reader.body_len()), (KEEP, 2));
}
