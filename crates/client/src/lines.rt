//! Lines of a file of URLs.

ghost use Rattle.std.specs.Prelude.{◌≡◌, ◌<◌, [], true, Some, length, take, IfOk, OnOk};
ghost use Rattle.std.specs.Str.Lines.{strip_carriage_return};
ghost use Rattle.streams.specs.Streams.{CanCount};
ghost use Rattle.std.specs.Prelude.{string_bytes};
ghost use Rattle.std.specs.Str.Lossy.{utf8_lossy};
ghost use Rattle.commands.specs.Urls.{IsBadLine};
ghost use Rattle.client.specs.FileLines.{CountsRead, HasNoLine, HasNumber, IfBad, IsClassOf};
ghost use Rattle.client.specs.FileLines.{IsNextLine, NeedsMore, NumbersLine, ReadsFile};
ghost use Rattle.client.specs.FileLines.{is_skipped, lines_shown, nothing_read};
ghost use Rattle.client.specs.FileLines.{urls_on, urls_returned};

use std::alloc::{AllocError, Global};
use std::str;
use streams::{Source, place_of};

/// Maximum number of bytes of a line that is a URL.
const MOST_BYTES: usize = 2_048;

/// Number of bytes of a read.
const PIECE: usize = 65_536;

/// The next line of a file of URLs.
pub enum Line {
    /// A URL, without its line end, and the number of its line, counted from 1.
    Url(String, u64),
    /// A line that is no URL, with its number: it is too long, or not UTF-8.
    Bad(String, u64),
    /// A line that is skipped: it is empty, or begins with `#`.
    Skipped,
    /// Not read yet.
    Unread,
    /// The end of the file.
    Over,
}

/// The lines of a file of URLs.
#[derive(Drop)]
pub struct UrlLines {
    // Bytes that were read and not returned yet.
    bytes: Vec<u8>,
    // Place of the next line in `bytes`.
    from: usize,
    // Buffer of reads, made by the first read.
    piece: Vec<u8>,
    is_at_end: bool,
    // Number of lines that were returned.
    number: u64,
}

impl UrlLines {
    /// Makes the lines of a file of which nothing was read yet.
    pub fn new(alloc: Global) -> UrlLines
        ensures { lines_shown result ≡ nothing_read }
    {
        UrlLines {
            bytes: Vec::new(alloc),
            from: 0,
            piece: Vec::new(alloc),
            is_at_end: false,
            number: 0,
        }
    }

    /// True if no line is left.
    pub fn is_over(&self) -> bool
        ensures { result ≡ true → HasNoLine (lines_shown self.now) }
    {
        self.is_at_end && self.from >= self.bytes.len()
    }

    /// True if the next line was read whole.
    pub fn has_line(&self) -> bool {
        self.is_at_end || self.pending().contains(&b'\n')
    }

    /// Returns the next line. Its number is one above that of the line before.
    ///
    /// # Errors
    ///
    /// There is no memory for it, or no number: 2^64 lines are never reached.
    pub fn next(&mut self, alloc: Global) -> Result<Line, AllocError>
        ensures next { IfOk result (λ line. IsNextLine line (lines_shown self.old)
            (lines_shown self.new)) }
        ensures number { IfOk result (NumbersLine self.old.number self.new.number) }
        ensures bad { IfOk result (IfBad IsBadLine) }
    {
        let rest = self.pending();
        let end = place_of(b'\n', rest);
        if end == rest.len() && !self.is_at_end {
            return Ok(Line::Unread);
        }
        if rest.is_empty() {
            return Ok(Line::Over);
        }
        let Some(number) = self.number.checked_add(1) else {
            return Err(AllocError);
        };
        let line = classify_line(alloc, rest.split_at(end).0, number)?;
        self.from = self.from.saturating_add(end).saturating_add(1);
        self.number = number;
        Ok(line)
    }

    // The bytes that were read, and not returned yet.
    fn pending(&self) -> &[u8]
        ensures { result.now ≡ (lines_shown self.now).pending }
    {
        self.bytes.get(self.from..).unwrap_or(&[])
    }

    /// Reads more, if no line is there. Returns false if the read failed.
    ///
    /// # Errors
    ///
    /// There is no memory for the bytes of the read.
    pub fn read_on<R: Source>(&mut self, alloc: Global, input: &mut R) -> Result<bool, AllocError>
        requires counts { CanCount (R.source input.old) }
        requires no_line { NeedsMore (lines_shown self.old) }
        ensures counts_on { IfOk result (λ was_read.
            was_read ≡ true → CanCount (R.source input.new)) }
        ensures failures { IfOk result (λ was_read. CountsRead was_read (R.source input.old)
            (R.source input.new)) }
        ensures number { self.new.number ≡ self.old.number }
        ensures reads { OnOk result (ReadsFile [] (lines_shown self.old) (lines_shown self.new)
            (R.source input.old).bytes (R.source input.new).bytes) }
    {
        self.drop_returned();
        self.make_piece(alloc)?;
        let Ok(count) = input.read_some(&mut self.piece) else {
            return Ok(false);
        };
        if count == 0 {
            self.is_at_end = true;
            return Ok(true);
        }
        let read = &self.piece[..count];
        self.bytes.extend_from_slice(read)?;
        Ok(true)
    }

    // Makes the buffer of reads, if there is none.
    fn make_piece(&mut self, alloc: Global) -> Result<(), AllocError>
        ensures piece { OnOk result (0 < length self.new.piece.items) }
        ensures bytes { self.new.bytes.items ≡ self.old.bytes.items }
        ensures from { self.new.from ≡ self.old.from }
        ensures is_at_end { self.new.is_at_end ≡ self.old.is_at_end }
        ensures number { self.new.number ≡ self.old.number }
    {
        if self.piece.is_empty() {
            self.piece = piece(alloc)?;
        }
        Ok(())
    }

    // Drops the bytes of returned lines. Of a line that is too long, it keeps a front that is too
    // long.
    fn drop_returned(&mut self)
        ensures bytes { self.new.bytes.items ≡ take 2050 (lines_shown self.old).pending }
        ensures from { self.new.from ≡ 0 }
        ensures is_at_end { self.new.is_at_end ≡ self.old.is_at_end }
        ensures number { self.new.number ≡ self.old.number }
    {
        let from = self.from.min(self.bytes.len());
        drop(self.bytes.drain(..from));
        self.from = 0;
        self.bytes.truncate(MOST_BYTES + 2);
    }
}

// Makes the buffer of reads.
fn piece(alloc: Global) -> Result<Vec<u8>, AllocError>
    ensures { IfOk result (λ made. 0 < length made.items) }
{
    vec![in alloc; 0; PIECE]
}

// Classifies a line without its line feed: a URL, a bad line, or a line that is skipped.
fn classify_line(alloc: Global, line: &[u8], number: u64) -> Result<Line, AllocError>
    ensures urls { IfOk result (λ one. urls_returned one ≡ Some (urls_on line.now)) }
    ensures class { IfOk result (IsClassOf (strip_carriage_return line.now)) }
    ensures number { IfOk result (HasNumber number) }
    ensures bad { IfOk result (IfBad IsBadLine) }
{
    let line = without_return(line);
    if is_skipped(line) {
        return Ok(Line::Skipped);
    }
    match str::from_utf8(line) {
        Ok(url) if line.len() <= MOST_BYTES => {
            Ok(Line::Url(String::from_str(alloc, url)?, number))
        }
        Ok(_) => Ok(Line::Bad(lossy_front(alloc, line)?, number)),
        Err(_) => Ok(Line::Bad(lossy_front(alloc, line)?, number)),
    }
}

// Returns the text of a line, cut at the maximum length of a URL. Bytes that are not UTF-8 become
// U+FFFD.
fn lossy_front(alloc: Global, line: &[u8]) -> Result<String, AllocError>
    ensures { IfOk result (λ text. string_bytes text ≡ utf8_lossy (take 2048 line.now)) }
{
    String::from_utf8_lossy(alloc, front(line))
}

// The line without a CR at its end.
fn without_return(line: &[u8]) -> &[u8]
    ensures { result.now ≡ strip_carriage_return line.now }
{
    match line {
        [front @ .., b'\r'] => front,
        _ => line,
    }
}

// True if a line is empty, or begins with `#`.
fn is_skipped(line: &[u8]) -> bool
    ensures { result ≡ is_skipped line.now }
{
    match line {
        [] => true,
        [byte, ..] => *byte == b'#',
    }
}

// Returns a line, cut at the maximum length of a URL.
fn front(line: &[u8]) -> &[u8]
    ensures { result.now ≡ take 2048 line.now }
{
    let end = MOST_BYTES.min(line.len());
    &line[..end]
}
