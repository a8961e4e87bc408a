//! A head that comes in pieces.
ghost use Rattle.std.specs.Prelude.{◌≡◌, ◌<◌, ◌≤◌, ◌++◌, length, IfOk, IfErr, MatchOption};
ghost use Rattle.persistence.specs.Limits.{most_fields, most_head_bytes};
ghost use Rattle.persistence.specs.ReadingHeads.{IsTaken, IsAwaited, IsUnfinished, FindsHead};
ghost use Rattle.persistence.specs.ReadingHeads.{TellsHeadStep, IsFirstInHead};

use crate::ReadFault;
use crate::head::Head;
use crate::head::lines::is_too_many_fields;
use crate::limits::{MOST_FIELDS, MOST_HEAD_BYTES};
use crate::reader::buffer::Buffer;
use httparse::Status;
use httparse::spans::{EMPTY_HEADER_SPAN, HeaderSpan, ResponseSpans, parse_response};

/// What a piece adds to a head.
#[derive(Clone, Copy, Debug)]
pub(crate) struct HeadStep {
    /// How many bytes of the piece belong to the head.
    pub used: usize,
    /// What the head says, once it is whole; it may be an interim one.
    pub head: Option<Head>,
}

/// Adds the piece to the bytes of a head, as far as they belong to it; forgets them once the head
/// is whole.
pub(crate) fn head_step(buffer: &mut Buffer, piece: &[u8]) -> Result<HeadStep, ReadFault>
    requires awaited { IsAwaited buffer.old }
    requires short { length buffer.old < most_head_bytes }
    ensures taken { IfOk result (λ step. IsTaken piece.now step.used) }
    ensures found { IfOk result (TellsHeadStep buffer.old piece.now buffer.new) }
    ensures fault { IfErr result (IsFirstInHead (buffer.old ++ piece.now)) }
{
    let mut fields = [EMPTY_HEADER_SPAN; MOST_FIELDS];
    let before = buffer.len();
    let taken = buffer.fill(piece, MOST_HEAD_BYTES);
    match buffered_head(buffer.bytes(), &mut fields) {
        Ok(None) => {
            if buffer.head_line_ends() > MOST_FIELDS + 1 {
                return Err(ReadFault::HeadTooLong);
            }
            Ok(HeadStep {
                used: taken,
                head: None,
            })
        }
        Ok(Some(spans)) => {
            let head = Head::at(buffer.bytes(), &spans, &fields[..spans.headers]);
            buffer.clear();
            Ok(HeadStep {
                used: spans.len - before,
                head: Some(head),
            })
        }
        Err(fault) => Err(fault),
    }
}

// Where the head's parts are, if a head begins the bytes; nothing where it has not come whole yet,
// whatever the number of its fields.
fn buffered_head(
    front: &[u8],
    fields: &mut [HeaderSpan],
) -> Result<Option<ResponseSpans>, ReadFault>
    requires count { length fields.old ≡ most_fields }
    requires short { length front.now ≤ most_head_bytes }
    ensures found { IfOk result
        (λ found. MatchOption found (IsUnfinished front.now) (FindsHead front.now fields.new)) }
    ensures fault { IfErr result (IsFirstInHead front.now) }
{
    match parse_response(front, fields) {
        Ok(Status::Complete(spans)) => Ok(Some(spans)),
        Ok(Status::Partial) => {
            if front.len() == MOST_HEAD_BYTES {
                return Err(ReadFault::HeadTooLong);
            }
            Ok(None)
        }
        Err(error) => {
            if is_too_many_fields(error) {
                return Err(ReadFault::HeadTooLong);
            }
            Err(ReadFault::BadHead)
        }
    }
}
