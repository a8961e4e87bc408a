//! Responses that are drawn and come cut at drawn places: of each a reader tells what a reader
//! tells that is fed all its bytes at once, and of an undamaged one what it was drawn to be.
use crate::responses::pieces::{Response, Sent, Told, at_end, check_told, fed, told_in_pieces};
use persistence::{Method, ReadFault, ResponseReader};
use std::alloc::{AllocError, Global};
use std::process::Abort;

/// How often each kind of response is drawn with each kind of damage.
const ROUNDS: usize = 100;

/// How the end of a drawn body is told.
#[derive(Clone, Copy)]
enum Body {
    /// By Content-Length.
    Counted,
    /// It comes in chunks.
    Chunked,
    /// By the connection's end.
    UntilClose,
}

/// What is done to a drawn response.
#[derive(Clone, Copy, PartialEq, Eq)]
enum Damage {
    /// Nothing.
    Nothing,
    /// Its lengths are one too high or one too low.
    Lengths,
    /// One byte is another one.
    Changed,
    /// One byte is left out.
    Removed,
    /// One byte comes twice.
    Doubled,
    /// Its end is left out.
    Cut,
    /// More bytes follow it.
    Longer,
}

/// Each kind of damage. Of the 10 * 7 * 100 = 7,000 responses that are drawn, 1,000 have each of
/// them.
static DAMAGES: [Damage; 7] = [
    Damage::Nothing,
    Damage::Lengths,
    Damage::Changed,
    Damage::Removed,
    Damage::Doubled,
    Damage::Cut,
    Damage::Longer,
];

/// Each kind of response, of which 700 are drawn: the request's method, the bytes before the drawn
/// fields, the status, and the body.
static KINDS: [(Method, &str, u16, Body); 10] = [
    (Method::Get, "HTTP/1.1 200 OK\r\n", 200, Body::Counted),
    (Method::Get, "HTTP/1.1 200 OK\r\n", 200, Body::Chunked),
    (Method::Get, "HTTP/1.1 404 \r\n", 404, Body::UntilClose),
    (
        Method::Get,
        "HTTP/1.1 200 OK\r\nTransfer-Encoding: chunked, gzip\r\n",
        200,
        Body::UntilClose,
    ),
    (Method::Head, "HTTP/1.1 200 OK\r\n", 200, Body::Counted),
    (
        Method::Get,
        "HTTP/1.1 304 Not Modified\r\n",
        304,
        Body::Chunked,
    ),
    (
        Method::Get,
        "HTTP/1.1 103 Early Hints\r\nLink: a\r\n\r\nHTTP/1.1 100 Continue\r\n\r\n\
         HTTP/1.1 200 OK\r\n",
        200,
        Body::Chunked,
    ),
    (
        Method::Get,
        "HTTP/1.0 200 OK\r\nConnection: keep-alive\r\n",
        200,
        Body::Counted,
    ),
    (Method::Get, "HTTP/1.0 200 OK\r\n", 200, Body::Chunked),
    (
        Method::Get,
        "\r\n\nHTTP/1.1 200 OK\r\nContent-Length: 5\r\n",
        200,
        Body::Chunked,
    ),
];

/// Field lines, of heads and of trailer sections.
static FIELDS: [&str; 6] = [
    "Connection: close\r\n",
    "connection: Keep-Alive , x\r\n",
    "A: b\r\n",
    "Date: Sun, 06 Nov 1994 08:49:37 GMT\r\n",
    "Empty:\r\n",
    "X-Y: \t ~!\u{e9} \r\n",
];

/// What bodies are made of.
static CONTENT: [&str; 6] = [
    "x",
    "\r\n",
    "0\r\n\r\n",
    "HTTP/1.1 200 OK\r\n\r\n",
    "\n",
    "hello",
];

/// What may stand between a chunk's size and the CR LF.
static EXTENSIONS: [&str; 6] = ["", "", " \t", ";", ";a=b", "\t;a=\"b\" "];

/// Bytes that may stand in another's place.
static BYTES: [u8; 10] = *b"\r\n 0:;fx\x00\xff";

/// Numbers by a xorshift generator (George Marsaglia, Xorshift RNGs, 2003), the same ones in each
/// run.
#[derive(Drop)]
struct Draws {
    state: u64,
}

impl Draws {
    /// A number below the count, which is not 0.
    fn below(&mut self, count: usize) -> usize {
        self.state ^= self.state << 13;
        self.state ^= self.state >> 7;
        self.state ^= self.state << 17;
        (self.state >> 8) as usize % count.max(1)
    }

    /// One of the texts.
    fn one_of(&mut self, texts: &[&'static str]) -> &'static str {
        let place = self.below(texts.len());
        texts.get(place).copied().unwrap_or("")
    }
}

/// Adds up to `most - 1` of the texts.
fn add_some(
    text: &mut Vec<u8>,
    draws: &mut Draws,
    most: usize,
    choices: &[&'static str],
) -> Result<(), AllocError> {
    for _ in 0..draws.below(most) {
        text.extend_from_slice(draws.one_of(choices).as_bytes())?;
    }
    Ok(())
}

/// The length, or another one.
fn told_length(draws: &mut Draws, len: usize, damage: Damage) -> usize {
    if damage != Damage::Lengths {
        return len;
    }
    if draws.below(2) == 0 {
        len.saturating_add(1)
    } else {
        len.saturating_sub(1)
    }
}

/// Adds chunks, the line of the last one, and a trailer section; answers how many bytes of data
/// they have.
fn add_chunks(
    alloc: Global,
    text: &mut Vec<u8>,
    draws: &mut Draws,
    damage: Damage,
) -> Result<usize, AllocError> {
    let mut len = 0_usize;
    for _ in 0..draws.below(4) {
        let mut content = Vec::from_slice(alloc, b"y")?;
        add_some(&mut content, draws, 6, &CONTENT)?;
        let size = told_length(draws, content.len(), damage);
        let extension = draws.one_of(&EXTENSIONS);
        let line = match draws.below(3) {
            0 => format!(in alloc; "{size:x}{extension}\r\n")?,
            1 => format!(in alloc; "{size:X}{extension}\r\n")?,
            _ => format!(in alloc; "0{size:x}{extension}\r\n")?,
        };
        text.extend_from_slice(line.as_bytes())?;
        text.extend_from_slice(&content)?;
        text.extend_from_slice(b"\r\n")?;
        len = len.saturating_add(content.len());
    }
    let extension = draws.one_of(&EXTENSIONS);
    let line = format!(in alloc; "0{extension}\r\n")?;
    text.extend_from_slice(line.as_bytes())?;
    add_some(text, draws, 3, &FIELDS)?;
    text.extend_from_slice(b"\r\n")?;
    Ok(len)
}

/// What a body is drawn to be that does not come in chunks.
fn draw_content(alloc: Global, draws: &mut Draws) -> Result<Vec<u8>, AllocError> {
    let mut content = Vec::new(alloc);
    add_some(&mut content, draws, 10, &CONTENT)?;
    Ok(content)
}

/// Adds a field with the length, or another one.
fn add_length(
    alloc: Global,
    text: &mut Vec<u8>,
    draws: &mut Draws,
    len: usize,
    damage: Damage,
) -> Result<(), AllocError> {
    let count = told_length(draws, len, damage);
    let field = format!(in alloc; "Content-Length: {count}\r\n")?;
    text.extend_from_slice(field.as_bytes())
}

/// Adds the empty line behind the fields, and the content.
fn add_content(text: &mut Vec<u8>, content: &[u8]) -> Result<(), AllocError> {
    text.extend_from_slice(b"\r\n")?;
    text.extend_from_slice(content)
}

/// Adds drawn fields, those that tell the body's length, and the body; answers how many bytes of
/// content it has.
fn add_rest(
    alloc: Global,
    text: &mut Vec<u8>,
    draws: &mut Draws,
    body: Body,
    damage: Damage,
) -> Result<usize, AllocError> {
    add_some(text, draws, 4, &FIELDS)?;
    if matches!(body, Body::Chunked) {
        text.extend_from_slice(b"Transfer-Encoding: chunked\r\n\r\n")?;
        return add_chunks(alloc, text, draws, damage);
    }
    let content = draw_content(alloc, draws)?;
    if matches!(body, Body::Counted) {
        add_length(alloc, text, draws, content.len(), damage)?;
    }
    add_content(text, &content)?;
    Ok(content.len())
}

/// A response of that kind, before any damage but to its lengths; and how many bytes of content it
/// has.
fn draw_response(
    alloc: Global,
    draws: &mut Draws,
    start: &str,
    body: Body,
    damage: Damage,
) -> Result<(Vec<u8>, usize), AllocError> {
    let mut text = Vec::from_slice(alloc, start.as_bytes())?;
    let len = add_rest(alloc, &mut text, draws, body, damage)?;
    Ok((text, len))
}

/// Does the damage at a drawn place.
fn damage_bytes(text: &mut Vec<u8>, draws: &mut Draws, damage: Damage) -> Result<(), AllocError> {
    let place = draws.below(text.len());
    let Some(byte) = text.get(place).copied() else {
        return Ok(());
    };
    match damage {
        Damage::Nothing | Damage::Lengths => {}
        Damage::Changed => {
            let other = BYTES.get(draws.below(BYTES.len())).copied();
            text[place] = other.unwrap_or(b'x');
        }
        Damage::Removed => {
            text.remove(place);
        }
        Damage::Doubled => text.insert(place, byte)?,
        Damage::Cut => text.truncate(place),
        Damage::Longer => {
            text.push(byte)?;
            add_some(text, draws, 3, &CONTENT)?;
        }
    }
    Ok(())
}

/// What a reader tells of the text, which comes in drawn pieces of less than `width` bytes, some of
/// them empty; once it told a fault it tells no other.
fn told_in_drawn_pieces(
    rt: &impl Abort,
    draws: &mut Draws,
    mut reader: ResponseReader,
    text: &[u8],
    ended: bool,
) -> Told {
    let width = [2, 3, 12, 90, 400]
        .get(draws.below(5))
        .copied()
        .unwrap_or(1);
    let mut rest = text;
    let mut told = fed(rt, &mut reader, b"");
    for _ in 0..text.len() {
        if rest.is_empty() {
            break;
        }
        let (piece, more) = rest.split_at(draws.below(width).min(rest.len()));
        let next = fed(rt, &mut reader, piece);
        assert!(rt; told.is_ok() || next == told, "another fault");
        told = next;
        rest = more;
    }
    let next = fed(rt, &mut reader, rest);
    assert!(rt; told.is_ok() || next == told, "another fault");
    if ended {
        return at_end(rt, &mut reader, next);
    }
    next
}

/// Draws a response of that kind and does the damage; how many bytes of content it had before.
fn draw_damaged(
    alloc: Global,
    draws: &mut Draws,
    start: &str,
    body: Body,
    damage: Damage,
) -> Result<(Vec<u8>, usize), AllocError> {
    let (mut text, len) = draw_response(alloc, draws, start, body, damage)?;
    damage_bytes(&mut text, draws, damage)?;
    Ok((text, len))
}

/// What is told of the response of that number in drawn pieces, checked against what is told of all
/// its bytes at once.
fn told_both_ways(
    rt: &impl Abort,
    alloc: Global,
    draws: &mut Draws,
    number: usize,
    sent: Sent,
) -> Told {
    let at_once = told_in_pieces(rt, alloc, sent, sent.text.len(), 1);
    let reader = ResponseReader::new(alloc, sent.method, sent.request_close)?;
    let found = told_in_drawn_pieces(rt, draws, reader, sent.text, sent.ended);
    check_told(rt, "drawn", "response", number, found, at_once);
    found
}

/// Checks that an undamaged response is what it was drawn to be: its status, where its body ends,
/// and how many bytes of content it has.
fn check_undamaged(
    rt: &impl Abort,
    number: usize,
    sent: Sent,
    response: Response,
    status: u16,
    body: Body,
    len: usize,
) {
    let has_body = sent.method == Method::Get && status != 304;
    let body_len = if has_body { len as u64 } else { 0 };
    let whole = sent.ended || !has_body || !matches!(body, Body::UntilClose);
    assert_eq!(rt; response.status, Some(status), "response {number}");
    assert_eq!(rt; response.body_len, body_len, "response {number}");
    assert_eq!(rt; response.facts.whole, whole, "response {number}");
}

/// Draws the response of that number, and checks what is told of it; of an undamaged one also what
/// it was drawn to be.
fn check_drawn(
    rt: &impl Abort,
    alloc: Global,
    draws: &mut Draws,
    number: usize,
) -> Result<(), ReadFault> {
    let (kinds, damages) = (&KINDS, &DAMAGES);
    let (method, start, status, body) = kinds[number % KINDS.len()];
    let damage = damages[number / KINDS.len() % DAMAGES.len()];
    let Ok((text, len)) = draw_damaged(alloc, draws, start, body, damage) else {
        return Err(ReadFault::Memory);
    };
    let request_close = draws.below(2) == 0;
    let ended = draws.below(2) == 0;
    let sent = Sent {
        method,
        request_close,
        text: &text,
        ended,
    };
    let told = told_both_ways(rt, alloc, draws, number, sent);
    if damage == Damage::Nothing {
        check_undamaged(rt, number, sent, told?, status, body, len);
    }
    Ok(())
}

#[test]
fn drawn_pieces_tell_what_all_bytes_tell(rt: HostRuntime) {
    let mut draws = Draws {
        state: 88_172_645_463_325_252,
    };
    for number in 0..KINDS.len() * DAMAGES.len() * ROUNDS {
        check_drawn(&rt, rt.alloc(), &mut draws, number).expect(&rt, "memory");
    }
}
