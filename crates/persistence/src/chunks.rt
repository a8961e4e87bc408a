//! A body in chunks that comes in pieces (RFC 9112, section 7.1).
ghost use Rattle.std.specs.Prelude.{◌≡◌, ◌<◌, ℕ, false, List, Some, [], ◌++◌, length};
ghost use Rattle.std.specs.Prelude.{IfOk, IfErr};
ghost use Rattle.persistence.specs.ReadingHeads.{IsTaken};
ghost use Rattle.persistence.specs.ReadingChunks.{IsLineDue, IsDataDue, IsLineEndDue, IsTrailerDue};
ghost use Rattle.persistence.specs.ReadingChunks.{IsDue, IsInChunks, TellsStep};
ghost use Rattle.persistence.specs.ReadingChunks.{IsFirstInChunks, FixesData};

mod data;
mod size_line;
mod trailer;

use crate::ReadFault;
use crate::body::state::{ChunkPart, ChunkedBody};
use crate::reader::buffer::Buffer;
use data::{chunk_end_step, data_step};
use size_line::line_step;
use trailer::trailer_step;

/// What a piece adds to a body in chunks.
#[derive(Clone, Copy, Debug)]
pub(crate) struct ChunkStep {
    /// How many bytes of the piece belong to the part that was due.
    pub used: usize,
    /// Where the body stands after them.
    pub chunks: ChunkedBody,
}

/// Adds the piece to a body in chunks.
#[inline(never)]
pub(crate) fn feed_chunks(
    chunks: &mut ChunkedBody,
    buffer: &mut Buffer,
    piece: &[u8],
) -> Result<(), ReadFault>
    requires known { (text : List ℕ) × IsInChunks text chunks.old buffer.old }
    ensures told { (text : List ℕ) → IsInChunks text chunks.old buffer.old
        → IfOk result (λ _. IsInChunks (text ++ piece.now) chunks.new buffer.new) }
    ensures fault { (text : List ℕ) → IsInChunks text chunks.old buffer.old
        → IfErr result (IsFirstInChunks (text ++ piece.now)) }
    ensures fixes { (text : List ℕ) → IsInChunks text chunks.old buffer.old
        → IfErr result (λ _. FixesData (text ++ piece.now) chunks.new.len) }
{
    let mut at = 0;
    while at < piece.len() {
        let Some(part) = chunks.part else {
            chunks.surplus = true;
            return Ok(());
        };
        match chunk_step(part, chunks.len, buffer, &piece[at..]) {
            Ok(step) => {
                *chunks = step.chunks;
                at += step.used;
            }
            Err(fault) => return Err(fault),
        }
    }
    Ok(())
}

// Adds the piece to the part that is due, as far as it belongs to it.
fn chunk_step(
    part: ChunkPart,
    len: u64,
    buffer: &mut Buffer,
    piece: &[u8],
) -> Result<ChunkStep, ReadFault>
    requires some { 0 < length piece.now }
    requires known { (text : List ℕ) × IsDue part text len buffer.old }
    ensures taken { IfOk result (λ step. IsTaken piece.now step.used) }
    ensures told { (text : List ℕ) → IsDue part text len buffer.old
        → IfOk result (TellsStep text piece.now buffer.new) }
    ensures fault { (text : List ℕ) → IsDue part text len buffer.old
        → IfErr result (IsFirstInChunks (text ++ piece.now)) }
    ensures fixes { (text : List ℕ) → IsDue part text len buffer.old
        → IfErr result (λ _. FixesData (text ++ piece.now) len) }
{
    match part {
        ChunkPart::Line => step_in_line(len, buffer, piece),
        ChunkPart::Data { left } => Ok(step_in_data(len, left, piece)),
        ChunkPart::LineEnd { has_cr } => step_in_line_end(len, has_cr, piece),
        ChunkPart::Trailer => step_in_trailer(len, buffer, piece),
    }
}

// What the piece adds to the line before a chunk.
fn step_in_line(len: u64, buffer: &mut Buffer, piece: &[u8]) -> Result<ChunkStep, ReadFault>
    requires known { (text : List ℕ) × IsLineDue text len buffer.old }
    ensures taken { IfOk result (λ step. IsTaken piece.now step.used) }
    ensures told { (text : List ℕ) → IsLineDue text len buffer.old
        → IfOk result (TellsStep text piece.now buffer.new) }
    ensures fault { (text : List ℕ) → IsLineDue text len buffer.old
        → IfErr result (IsFirstInChunks (text ++ piece.now)) }
    ensures fixes { (text : List ℕ) → IsLineDue text len buffer.old
        → IfErr result (λ _. FixesData (text ++ piece.now) len) }
{
    let step = match line_step(buffer, u64::MAX - len, piece) {
        Ok(step) => step,
        Err(fault) => return Err(fault),
    };
    let Some(size) = step.size else {
        return Ok(ChunkStep {
            used: step.used,
            chunks: still_comes(ChunkPart::Line, len),
        });
    };
    if size == 0 {
        return Ok(ChunkStep {
            used: step.used,
            chunks: still_comes(ChunkPart::Trailer, len),
        });
    }
    Ok(ChunkStep {
        used: step.used,
        chunks: still_comes(ChunkPart::Data { left: size }, len),
    })
}

// What the piece adds to a chunk's data of which so much is left.
fn step_in_data(len: u64, left: u64, piece: &[u8]) -> ChunkStep
    requires known { (text : List ℕ) × IsDataDue left text len [] }
    ensures taken { IsTaken piece.now result.used }
    ensures told { (text : List ℕ) → IsDataDue left text len []
        → TellsStep text piece.now [] result }
{
    let used = data_step(left, piece);
    let came = used as u64;
    if came < left {
        return ChunkStep {
            used,
            chunks: still_comes(ChunkPart::Data { left: left - came }, len + came),
        };
    }
    ChunkStep {
        used,
        chunks: still_comes(ChunkPart::LineEnd { has_cr: false }, len + came),
    }
}

// What the first byte of the piece adds to the CR LF after a chunk's data, of which the CR came or
// not.
fn step_in_line_end(len: u64, has_cr: bool, piece: &[u8]) -> Result<ChunkStep, ReadFault>
    requires some { 0 < length piece.now }
    ensures taken { IfOk result (λ step. IsTaken piece.now step.used) }
    ensures told { (text : List ℕ) → IsLineEndDue has_cr text len []
        → IfOk result (TellsStep text piece.now []) }
    ensures fault { (text : List ℕ) → IsLineEndDue has_cr text len []
        → IfErr result (IsFirstInChunks (text ++ piece.now)) }
    ensures fixes { (text : List ℕ) → IsLineEndDue has_cr text len []
        → IfErr result (λ _. FixesData (text ++ piece.now) len) }
{
    match chunk_end_step(has_cr, piece[0]) {
        None => Ok(ChunkStep {
            used: 1,
            chunks: still_comes(ChunkPart::LineEnd { has_cr: true }, len),
        }),
        Some(true) => Ok(ChunkStep {
            used: 1,
            chunks: still_comes(ChunkPart::Line, len),
        }),
        Some(false) => Err(ReadFault::BadChunk),
    }
}

// What the piece adds to the trailer section.
fn step_in_trailer(len: u64, buffer: &mut Buffer, piece: &[u8]) -> Result<ChunkStep, ReadFault>
    requires known { (text : List ℕ) × IsTrailerDue text len buffer.old }
    ensures taken { IfOk result (λ step. IsTaken piece.now step.used) }
    ensures told { (text : List ℕ) → IsTrailerDue text len buffer.old
        → IfOk result (TellsStep text piece.now buffer.new) }
    ensures fault { (text : List ℕ) → IsTrailerDue text len buffer.old
        → IfErr result (IsFirstInChunks (text ++ piece.now)) }
    ensures fixes { (text : List ℕ) → IsTrailerDue text len buffer.old
        → IfErr result (λ _. FixesData (text ++ piece.now) len) }
{
    let step = match trailer_step(buffer, piece) {
        Ok(step) => step,
        Err(fault) => return Err(fault),
    };
    if step.whole {
        return Ok(ChunkStep {
            used: step.used,
            chunks: ChunkedBody {
                part: None,
                len,
                surplus: false,
            },
        });
    }
    Ok(ChunkStep {
        used: step.used,
        chunks: still_comes(ChunkPart::Trailer, len),
    })
}

// A body in chunks of which that part is due, after so much data.
fn still_comes(part: ChunkPart, len: u64) -> ChunkedBody
    ensures { result ≡ record { part = Some part; len = len; surplus = false } }
{
    ChunkedBody {
        part: Some(part),
        len,
        surplus: false,
    }
}
