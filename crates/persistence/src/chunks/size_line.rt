//! The line before a chunk (RFC 9112, section 7.1).
ghost use Rattle.std.specs.Prelude.{◌≡◌, ℕ, ◌<◌, ◌≤◌, ◌++◌, length, not, MatchOption};
ghost use Rattle.std.specs.Prelude.{IfOk, IfErr, IfSome, IfNone};
ghost use Rattle.std.specs.List.{position_or_len};
ghost use Rattle.std.specs.Char.{is_ascii_hexdigit};
ghost use Rattle.httparse.specs.Grammar.{AllPass, is_extension_byte};
ghost use Rattle.persistence.specs.Limits.{most_line_bytes};
ghost use Rattle.persistence.specs.ReadingHeads.{IsTaken};
ghost use Rattle.persistence.specs.ReadingChunks.{begins_crlf as crlf_begins, AwaitsLine};
ghost use Rattle.persistence.specs.ReadingChunks.{begins_extension as extension_begins, FindsLine};
ghost use Rattle.persistence.specs.ReadingChunks.{IsWrittenSize, RefusesLine, TellsLineStep};

use crate::ReadFault;
use crate::head::elements::trim_start;
use crate::limits::MOST_LINE_BYTES;
use crate::number::value_of;
use crate::reader::buffer::Buffer;

/// What a piece adds to the line before a chunk.
#[derive(Clone, Copy, Debug)]
pub(crate) struct LineStep {
    /// How many bytes of the piece belong to the line.
    pub used: usize,
    /// The chunk's size, once the line is whole.
    pub size: Option<u64>,
}

/// The line before a chunk.
#[derive(Clone, Copy, Debug)]
pub(crate) struct SizeLine {
    /// The chunk's size.
    pub size: u64,
    /// The line's length, with its CR LF.
    pub len: usize,
}

/// Adds the piece to the bytes of the line, up to an LF; forgets them once the line is whole.
pub(crate) fn line_step(buffer: &mut Buffer, room: u64, piece: &[u8]) -> Result<LineStep, ReadFault>
    requires awaits { AwaitsLine room buffer.old }
    requires short { length buffer.old < most_line_bytes }
    ensures taken { IfOk result (λ step. IsTaken piece.now step.used) }
    ensures found { IfOk result (TellsLineStep room buffer.old piece.now buffer.new) }
    ensures fault { IfErr result (RefusesLine room (buffer.old ++ piece.now)) }
{
    let before = buffer.len();
    let taken = buffer.fill(&piece[..line_front(piece)], MOST_LINE_BYTES);
    match size_line(buffer.bytes(), room) {
        Ok(None) => Ok(LineStep {
            used: taken,
            size: None,
        }),
        Ok(Some(line)) => {
            buffer.clear();
            Ok(LineStep {
                used: line.len - before,
                size: Some(line.size),
            })
        }
        Err(fault) => Err(fault),
    }
}

// How many bytes stand in the piece up to its first LF, with it.
fn line_front(piece: &[u8]) -> usize
    ensures within { result ≤ length piece.now }
    ensures some { 0 < length piece.now → 0 < result }
{
    match piece.iter().position(|b| *b == b'\n') {
        Some(place) => place + 1,
        None => piece.len(),
    }
}

// The line that begins the text; nothing where it has not come whole yet, and `BadChunk` where no
// line of a size up to `room` can come.
fn size_line(text: &[u8], room: u64) -> Result<Option<SizeLine>, ReadFault>
    ensures found { IfOk result
        (λ found. MatchOption found (AwaitsLine room text.now) (FindsLine room text.now)) }
    ensures fault { IfErr result (RefusesLine room text.now) }
{
    if text.is_empty() {
        return Ok(None);
    }
    let end = line_end(text);
    if end > MOST_LINE_BYTES - 2 {
        return Err(ReadFault::BadChunk);
    }
    let Some(size) = written_size(&text[..end], room) else {
        return Err(ReadFault::BadChunk);
    };
    match begins_crlf(&text[end..]) {
        None => Ok(None),
        Some(true) => Ok(Some(SizeLine { size, len: end + 2 })),
        Some(false) => Err(ReadFault::BadChunk),
    }
}

// Whether CR LF begins the text; nothing where the text ends before that is told.
fn begins_crlf(text: &[u8]) -> Option<bool>
    ensures { result ≡ crlf_begins text.now }
{
    match text {
        [] => None,
        [first] => if *first == b'\r' { None } else { Some(false) },
        [first, second, ..] => Some(*first == b'\r' && *second == b'\n'),
    }
}

// The place of the first CR or LF, or else the text's length.
fn line_end(text: &[u8]) -> usize
    ensures place { result ≡ position_or_len (λ b. not (is_extension_byte b)) text.now }
    ensures bound { result ≤ length text.now }
{
    text.iter()
        .position(|b| *b == b'\r' || *b == b'\n')
        .unwrap_or(text.len())
}

// The place of the first byte that is no hexadecimal digit, or else the text's length.
fn digits_end(text: &[u8]) -> usize
    ensures place { result ≡ position_or_len (λ b. not (is_ascii_hexdigit b)) text.now }
    ensures bound { result ≤ length text.now }
{
    text.iter()
        .position(|b| !b.is_ascii_hexdigit())
        .unwrap_or(text.len())
}

// The size, up to `room`, that the words of a line write: digits, spaces and tabs, and perhaps a
// semicolon and a text.
fn written_size(words: &[u8], room: u64) -> Option<u64>
    requires { AllPass is_extension_byte words.now }
    ensures found { IfSome result (λ size. IsWrittenSize words.now size × (size ≤ room)) }
    ensures none { IfNone result ((size : ℕ) → size ≤ room → ¬ (IsWrittenSize words.now size)) }
{
    let end = digits_end(words);
    if end == 0 {
        return None;
    }
    if !begins_extension(trim_start(&words[end..])) {
        return None;
    }
    value_of(&words[..end], 16, room)
}

// Whether nothing follows the blanks of a line, or an extension.
fn begins_extension(rest: &[u8]) -> bool
    ensures { result ≡ extension_begins rest.now }
{
    match rest {
        [] => true,
        [first, ..] => *first == b';',
    }
}
