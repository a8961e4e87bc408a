//! A response, read at once or in random pieces.

ghost use Rattle.std.specs.Prelude.{◌<◌, ◌≤◌};

use crate::fuzzing::draws::Draws;
use crate::reports::{Report, Request, may_follow};
use persistence::ResponseReader;

/// Maximum lengths of pieces, of which one is drawn for each response. A piece may have a hundredth
/// of the response if that is more.
const WIDTHS: [usize; 6] = [1, 2, 5, 20, 100, 600];

/// Reads the text at once.
pub(crate) fn read_at_once(reader: &mut ResponseReader, request: Request, text: &[u8]) -> Report {
    reader.reset(request.method, request.close);
    let fed = reader.feed(text);
    Report::at_end(reader, fed, true)
}

/// Reads the text in random pieces, some of them empty.
pub(crate) fn read_in_pieces(
    reader: &mut ResponseReader,
    request: Request,
    text: &[u8],
    draws: &mut Draws,
) -> Report {
    let width = width_for(draws, text.len());
    reader.reset(request.method, request.close);
    let mut fed = reader.feed(b"");
    let mut steady = true;
    let mut rest = text;
    while !rest.is_empty() {
        let (piece, more) = rest.split_at(piece_len(draws, width, rest.len()));
        let next = reader.feed(piece);
        steady = steady && may_follow(fed, next);
        fed = next;
        rest = more;
    }
    let last = reader.feed(b"");
    Report::at_end(reader, last, steady && last == fed)
}

// Draws the maximum length of the pieces of a text of that length.
fn width_for(draws: &mut Draws, len: usize) -> usize {
    let width = WIDTHS.get(draws.below(WIDTHS.len())).copied();
    width.unwrap_or(1).max(len / 100)
}

// Draws the length of the next piece: at least one byte, and at most `width`.
fn piece_len(draws: &mut Draws, width: usize, rest: usize) -> usize
    requires { 0 < rest }
    ensures some { 0 < result }
    ensures within { result ≤ rest }
{
    draws.below(width).saturating_add(1).min(rest)
}
