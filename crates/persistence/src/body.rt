//! A body that comes in pieces (RFC 9112, section 6.3).
ghost use Rattle.std.specs.Prelude.{◌≡◌, ℕ, ◌<◌, List, [], Option, ◌++◌, ◌==◌, length};
ghost use Rattle.std.specs.Prelude.{IfOk, IfErr, MatchOption};
ghost use Rattle.persistence.specs.declared.body.kind.BodyKind.{BodyKind};
ghost use Rattle.persistence.specs.Limits.{most_bytes};
ghost use Rattle.persistence.specs.ReadingBody.{counts_from, LastsFor, BodyAt, len_of};
ghost use Rattle.persistence.specs.ReadingBody.{IsFirstInBody, FixesBody};

mod count;
pub(crate) mod kind;
pub(crate) mod state;

use crate::ReadFault;
use crate::chunks::feed_chunks;
use crate::reader::buffer::Buffer;
use count::{Came, count_piece};
use kind::BodyKind;
use state::{BodyState, ChunkPart, ChunkedBody};

/// A body of that kind of which nothing came yet, where the Content-Length fields give that number;
/// `BadLength` where it is counted and there is no one number.
pub(crate) fn begin_body(kind: BodyKind, counted: Option<u64>) -> Result<BodyState, ReadFault>
    ensures begun { IfOk result (λ state. BodyAt kind counted [] state []) }
    ensures fault { IfErr result (IsFirstInBody kind counted []) }
    ensures fixes { IfErr result (λ _. FixesBody kind counted [] 0) }
{
    match kind {
        BodyKind::NoBody => Ok(begin_counted(0)),
        BodyKind::Counted => match counted {
            Some(count) => Ok(begin_counted(count)),
            None => Err(ReadFault::BadLength),
        },
        BodyKind::Chunked => Ok(BodyState::Chunked {
            chunks: ChunkedBody {
                part: Some(ChunkPart::Line),
                len: 0,
                surplus: false,
            },
        }),
        BodyKind::UntilClose => Ok(BodyState::UntilClose { len: 0 }),
    }
}

// A body of so many bytes, of which none came yet.
fn begin_counted(count: u64) -> BodyState
    ensures { result ≡ counts_from count }
{
    BodyState::Counted {
        count,
        came: Came {
            len: 0,
            whole: count == 0,
            surplus: false,
        },
    }
}

/// Adds the piece to a body; what comes after its end is surplus. `BadLength` where a body that
/// lasts until the connection ends has more bytes than a `u64` counts, `BadChunk` where no chunk or
/// trailer section can come any more, `TrailerTooLong` past 8,192 bytes or 100 fields of a trailer
/// section.
#[inline(always)]
pub(crate) fn feed_body(
    state: &mut BodyState,
    buffer: &mut Buffer,
    piece: &[u8],
) -> Result<(), ReadFault>
    requires known { (kind : BodyKind) × (counted : Option ℕ) × (text : List ℕ)
        × BodyAt kind counted text state.old buffer.old }
    ensures told { (kind : BodyKind) (counted : Option ℕ) (text : List ℕ)
        → BodyAt kind counted text state.old buffer.old
        → IfOk result (λ _. BodyAt kind counted (text ++ piece.now) state.new buffer.new) }
    ensures fault { (kind : BodyKind) (counted : Option ℕ) (text : List ℕ)
        → BodyAt kind counted text state.old buffer.old
        → IfErr result (IsFirstInBody kind counted (text ++ piece.now)) }
    ensures fixes { (kind : BodyKind) (counted : Option ℕ) (text : List ℕ)
        → BodyAt kind counted text state.old buffer.old
        → IfErr result (λ _. FixesBody kind counted (text ++ piece.now) (len_of state.new)) }
{
    match *state {
        BodyState::Counted { count, came } => {
            *state = BodyState::Counted {
                count,
                came: count_piece(count, came, piece),
            };
            Ok(())
        }
        BodyState::Chunked { chunks } => {
            let mut chunks = chunks;
            let fed = feed_chunks(&mut chunks, buffer, piece);
            *state = BodyState::Chunked { chunks };
            fed
        }
        BodyState::UntilClose { len } => {
            let Some(len) = lasting_len(len, piece) else {
                *state = BodyState::UntilClose { len: u64::MAX };
                return Err(ReadFault::BadLength);
            };
            *state = BodyState::UntilClose { len };
            Ok(())
        }
    }
}

// How many bytes came of a body that lasts until the connection ends, after one piece more; nothing
// where a `u64` does not count them.
fn lasting_len(len: u64, piece: &[u8]) -> Option<u64>
    ensures { (text : List ℕ) → LastsFor text len
        → MatchOption result (most_bytes < length (text ++ piece.now))
        (LastsFor (text ++ piece.now)) }
{
    len.checked_add(piece.len() as u64)
}
