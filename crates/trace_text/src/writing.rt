//! Lines of a log, written into a buffer.

ghost use Rattle.std.specs.Prelude.{◌≡◌, ◌+◌, ◌≤◌, ◌<◌, ◌++◌, length, take, drop, true, false};
ghost use Rattle.std.specs.Prelude.{string_bytes};
ghost use Rattle.conn_log.specs.Legal.{LimitAndFirst, IsLegal};
ghost use Rattle.script_text.specs.Printing.{GivesText, entry_line};
ghost use Rattle.trace_text.specs.LogLines.{WritesLines};

use crate::givers::returned_by;
use conn_log::{Entry, Log};
use script_text::{FaultKind, lines_since};
use std::alloc::Global;

/// Why no more lines were written.
#[derive(Clone, Copy, Debug, PartialEq, Eq)]
pub enum Stop {
    /// The next line does not fit.
    Small,
    /// There is no memory for the text of the next line.
    Memory,
}

/// How far a log was told.
#[derive(Clone, Copy, Debug, PartialEq, Eq)]
pub struct Told {
    /// How many entries of its rest were told by now.
    pub place: usize,
    /// How many bytes were written.
    pub written: usize,
    /// Why no more were; `None` once all entries are told.
    pub stop: Option<Stop>,
}

// The line of an entry: that of a log with this entry alone.
fn line_of(alloc: Global, host: u32, by: u64, entry: Entry) -> Result<String, FaultKind>
    ensures { GivesText string_bytes (entry_line host by entry) result }
{
    let Ok(mut log) = Log::new(alloc) else {
        return Err(FaultKind::Memory);
    };
    let Ok(()) = log.reserve(1) else {
        return Err(FaultKind::Memory);
    };
    log.append(entry);
    lines_since(alloc, host, &log, 0, by)
}

// Writes a text behind what was written, if it fits.
fn put(buffer: &mut [u8], written: usize, text: &[u8]) -> bool
    requires { written ≤ length buffer.old }
    ensures text { result ≡ true → buffer.new
        ≡ take written buffer.old ++ (text.now ++ drop (written + length text.now) buffer.old) }
    ensures fits { result ≡ true → written + length text.now ≤ length buffer.old }
    ensures small { result ≡ false → length buffer.old < written + length text.now }
    ensures same { result ≡ false → buffer.new ≡ buffer.old }
{
    if text.len() > buffer.len() - written {
        return false;
    }
    buffer[written..written + text.len()].copy_from_slice(text);
    true
}

/// Writes the lines of a host's log from that place of its rest on, as many whole ones as fit.
/// Behind them the buffer stays as it is.
pub fn write_lines(alloc: Global, host: u32, log: &Log, from: usize, buffer: &mut [u8]) -> Told
    ensures lines { (settings : LimitAndFirst) → IsLegal settings log.now.entries →
        WritesLines host log.now.entries log.now.cut_away from result
        buffer.old buffer.new }
    ensures fits { result.written ≤ length buffer.old }
    ensures len { length buffer.new ≡ length buffer.old }
{
    let mut written = 0;
    for place in from..log.len() {
        let Some(entry) = log.get(place) else {
            unreachable!();
        };
        let by = returned_by(log, place, &entry.event);
        let Ok(line) = line_of(alloc, host, by, entry) else {
            return Told {
                place,
                written,
                stop: Some(Stop::Memory),
            };
        };
        let text = line.as_bytes();
        if !put(buffer, written, text) {
            return Told {
                place,
                written,
                stop: Some(Stop::Small),
            };
        }
        written += text.len();
    }
    Told {
        place: log.len().max(from),
        written,
        stop: None,
    }
}
