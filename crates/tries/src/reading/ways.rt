//! Ways in which a response comes: in two pieces, or byte by byte.

ghost use Rattle.std.specs.Prelude.{◌≡◌, false};

use crate::reports::{Report, Request, agrees, may_both, may_follow};
use persistence::{Fed, ReadFault, ResponseReader};

/// Reads the text in two pieces, of which the first has `len` bytes.
pub(super) fn read_cut(
    reader: &mut ResponseReader,
    request: Request,
    text: &[u8],
    len: usize,
) -> Report {
    let (front, back) = text.split_at(len.min(text.len()));
    reader.reset(request.method, request.close);
    let first = reader.feed(front);
    let steady = agrees(reader, first);
    let last = reader.feed(back);
    finish(reader, last, steady && may_follow(first, last))
}

/// Reads the text byte by byte. After each byte the report has to be one that the bytes so far
/// allow beside that of the other reader, which gets them at once.
///
/// # Errors
///
/// The number of bytes after which the reports differ.
pub(super) fn read_by_bytes(
    reader: &mut ResponseReader,
    other: &mut ResponseReader,
    request: Request,
    text: &[u8],
) -> Result<Report, usize> {
    reader.reset(request.method, request.close);
    let mut fed = reader.feed(b"");
    let mut steady = agrees(reader, fed);
    let mut len = 0usize;
    for piece in text.chunks(1) {
        let next = reader.feed(piece);
        steady = steady && may_follow(fed, next) && agrees(reader, next);
        fed = next;
        len = len.saturating_add(1).min(text.len());
        let front = &text[..len];
        let report = Report::before_end(reader, fed, steady);
        if !may_both(&report, &read_front(other, request, front), front) {
            return Err(len);
        }
    }
    Ok(finish(reader, fed, steady))
}

// Reads bytes at once, and returns the report before the connection ends.
fn read_front(reader: &mut ResponseReader, request: Request, front: &[u8]) -> Report {
    reader.reset(request.method, request.close);
    let fed = reader.feed(front);
    let steady = agrees(reader, fed);
    Report::before_end(reader, fed, steady)
}

// Ends the connection, and returns the report. A fault must stay before that, whatever comes.
fn finish(reader: &mut ResponseReader, fed: Result<Fed, ReadFault>, steady: bool) -> Report
    requires { reader.old.ended ≡ false }
{
    let steady = steady && agrees(reader, fed) && stays(reader, fed);
    Report::at_end(reader, fed, steady)
}

// True if the reader repeats its answer to no byte, and a fault to any bytes.
fn stays(reader: &mut ResponseReader, fed: Result<Fed, ReadFault>) -> bool
    requires { reader.old.ended ≡ false }
    ensures { reader.new.ended ≡ false }
{
    let before = Report::before_end(reader, fed, true);
    let mut same = reader.feed(b"") == fed;
    if fed.is_err() {
        same = reader.feed(b"x") == fed && same;
        same = reader.feed(b"\r\n") == fed && same;
        same = reader.feed(b"HTTP/1.1 204 No Content\r\n\r\n") == fed && same;
    }
    same && Report::before_end(reader, fed, true) == before
}
