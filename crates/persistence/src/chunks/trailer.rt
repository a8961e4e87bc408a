//! The trailer section of a body in chunks, which comes in pieces (RFC 9112, section 7.1.2).
ghost use Rattle.std.specs.Prelude.{◌<◌, ◌≤◌, ◌++◌, length, IfOk, IfErr, MatchOption};
ghost use Rattle.persistence.specs.Limits.{most_trailer_bytes};
ghost use Rattle.persistence.specs.ReadingHeads.{IsTaken};
ghost use Rattle.persistence.specs.ReadingChunks.{IsTrailerAwaited, EndsTrailer, TellsTrailerStep};
ghost use Rattle.persistence.specs.ReadingChunks.{IsUnfinishedSection, IsFirstInTrailer};

use crate::ReadFault;
use crate::head::lines::is_too_many_fields;
use crate::limits::{MOST_FIELDS, MOST_TRAILER_BYTES};
use crate::reader::buffer::Buffer;
use httparse::Status;
use httparse::spans::{EMPTY_HEADER_SPAN, parse_headers};

/// What a piece adds to a trailer section.
#[derive(Clone, Copy, Debug)]
pub(crate) struct TrailerStep {
    /// How many bytes of the piece belong to the section.
    pub used: usize,
    /// Whether the section is whole.
    pub whole: bool,
}

/// Adds the piece to the bytes of a trailer section, as far as they belong to it; forgets them once
/// it is whole.
pub(crate) fn trailer_step(buffer: &mut Buffer, piece: &[u8]) -> Result<TrailerStep, ReadFault>
    requires awaited { IsTrailerAwaited buffer.old }
    requires short { length buffer.old < most_trailer_bytes }
    ensures taken { IfOk result (λ step. IsTaken piece.now step.used) }
    ensures found { IfOk result (TellsTrailerStep buffer.old piece.now buffer.new) }
    ensures fault { IfErr result (IsFirstInTrailer (buffer.old ++ piece.now)) }
{
    let before = buffer.len();
    let taken = buffer.fill(piece, MOST_TRAILER_BYTES);
    match buffered_section(buffer.bytes()) {
        Ok(None) => {
            if buffer.line_ends() > MOST_FIELDS {
                return Err(ReadFault::TrailerTooLong);
            }
            Ok(TrailerStep {
                used: taken,
                whole: false,
            })
        }
        Ok(Some(len)) => {
            buffer.clear();
            Ok(TrailerStep {
                used: len - before,
                whole: true,
            })
        }
        Err(fault) => Err(fault),
    }
}

// The length of the trailer section that begins the bytes; nothing where it has not come whole yet,
// whatever the number of its fields.
fn buffered_section(front: &[u8]) -> Result<Option<usize>, ReadFault>
    requires { length front.now ≤ most_trailer_bytes }
    ensures found { IfOk result
        (λ found. MatchOption found (IsUnfinishedSection front.now) (EndsTrailer front.now)) }
    ensures fault { IfErr result (IsFirstInTrailer front.now) }
{
    let mut fields = [EMPTY_HEADER_SPAN; MOST_FIELDS];
    match parse_headers(front, &mut fields) {
        Ok(Status::Complete((len, _))) => Ok(Some(len)),
        Ok(Status::Partial) => {
            if front.len() == MOST_TRAILER_BYTES {
                return Err(ReadFault::TrailerTooLong);
            }
            Ok(None)
        }
        Err(error) => {
            if is_too_many_fields(error) {
                return Err(ReadFault::TrailerTooLong);
            }
            Err(ReadFault::BadChunk)
        }
    }
}
