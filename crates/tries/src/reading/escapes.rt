//! Bytes written with escapes: `\r`, `\n`, `\t`, `\\`, `\xNN`, and `\(COUNT PIECE\)` for a piece
//! that is repeated.

use std::alloc::Global;
use std::mem;

/// Maximum length of what a row writes.
const MOST_BYTES: usize = 1_048_576;

/// The bytes so far.
#[derive(Drop)]
struct Bytes {
    bytes: Vec<u8>,
    /// Count and start of the piece that is being written.
    repeated: Option<(usize, usize)>,
}

/// Returns the bytes that the text writes. `None` if it has a bad escape or writes too many bytes,
/// or an allocation fails.
pub(crate) fn bytes_of(alloc: Global, text: &str) -> Option<Vec<u8>> {
    let mut bytes = Bytes {
        bytes: Vec::new(alloc),
        repeated: None,
    };
    let mut rest = text;
    for _ in 0..text.len() {
        rest = bytes.take(alloc, rest)?;
    }
    if bytes.repeated.is_some() || !rest.is_empty() {
        return None;
    }
    Some(mem::replace(&mut bytes.bytes, Vec::new(alloc)))
}

impl Bytes {
    // Adds the bytes up to the first escape and those of the escape, and returns the rest.
    fn take<'t>(&mut self, alloc: Global, text: &'t str) -> Option<&'t str> {
        match text.split_once('\\') {
            Some((plain, escape)) => {
                self.add(plain.as_bytes())?;
                self.take_escape(alloc, escape)
            }
            None => {
                self.add(text.as_bytes())?;
                Some("")
            }
        }
    }

    // Adds the bytes of an escape, which begins after its backslash, and returns the rest.
    fn take_escape<'t>(&mut self, alloc: Global, escape: &'t str) -> Option<&'t str> {
        let (kind, rest) = escape.split_at_checked(1)?;
        match kind {
            "r" => self.add(b"\r")?,
            "n" => self.add(b"\n")?,
            "t" => self.add(b"\t")?,
            "\\" => self.add(b"\\")?,
            "x" => return self.take_hex(rest),
            "(" => return self.begin(rest),
            ")" => self.repeat(alloc)?,
            _ => return None,
        }
        Some(rest)
    }

    // Adds the byte of two hexadecimal digits, and returns the rest.
    fn take_hex<'t>(&mut self, text: &'t str) -> Option<&'t str> {
        let (digits, rest) = text.split_at_checked(2)?;
        let byte = u8::from_str_radix(digits, 16).ok()?;
        self.add(&[byte])?;
        Some(rest)
    }

    // Begins a piece that is repeated, and returns the text after its count.
    fn begin<'t>(&mut self, text: &'t str) -> Option<&'t str> {
        let (count, rest) = text.split_once(' ')?;
        let count = count.parse::<usize>().ok()?;
        if self.repeated.is_some() {
            return None;
        }
        self.repeated = Some((count, self.bytes.len()));
        Some(rest)
    }

    // Ends a piece, and repeats it.
    fn repeat(&mut self, alloc: Global) -> Option<()> {
        let (count, start) = self.repeated.take()?;
        let piece = Vec::from_slice(alloc, self.bytes.get(start..)?).ok()?;
        if count.checked_mul(piece.len())? > MOST_BYTES {
            return None;
        }
        self.bytes.truncate(start);
        for _ in 0..count {
            self.add(&piece)?;
        }
        Some(())
    }

    // Adds bytes.
    fn add(&mut self, bytes: &[u8]) -> Option<()> {
        if self.bytes.len() > MOST_BYTES {
            return None;
        }
        self.bytes.extend_from_slice(bytes).ok()
    }
}
