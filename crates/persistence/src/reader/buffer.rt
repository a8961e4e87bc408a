//! Room for the bytes of a part that has not come whole: a head, the line before a chunk, the CR LF
//! after a chunk's data, or a trailer section.
ghost use Rattle.std.specs.Prelude.{◌≡◌, ℕ, ◌+◌, ◌-◌, ◌≤◌, List, [], ◌++◌, length, take, min, IfOk};
ghost use Rattle.persistence.specs.Limits.{most_head_bytes};
ghost use Rattle.persistence.specs.ReadingHeads.{skip_newlines, line_ends as line_ends_of};

use crate::head::lines::{blank_line_ends, line_ends};
use crate::limits::MOST_HEAD_BYTES;
use std::alloc::{AllocError, Global};
use std::marker::Model;

/// The bytes of a part, in room that was made beforehand: that of a head, the longest part. No
/// byte's line end is counted twice.
#[derive(Debug, Drop)]
pub(crate) struct Buffer {
    bytes: Vec<u8>,
    /// How many bytes, from the first, had their line ends counted.
    counted: usize,
    /// How many lines end in these.
    ends: usize,
}

impl Model for Buffer {
    ghost use Rattle.std.specs.Prelude.{ℕ, List, ◌≡◌, ◌≤◌, length, take, vec_capacity};
    ghost use Rattle.persistence.specs.Limits.{most_head_bytes};
    ghost use Rattle.persistence.specs.ReadingHeads.{line_ends};

    ghost Value = { List ℕ };

    ghost view = { λ buffer. buffer.bytes.items };

    ghost invariant = { λ buffer. record {
      room : most_head_bytes ≤ vec_capacity buffer.bytes;
      within : buffer.counted ≤ length buffer.bytes.items;
      told : buffer.ends ≡ line_ends (take buffer.counted buffer.bytes.items);
    } };
}

impl Buffer {
    /// No bytes, and all the room that will be needed.
    pub fn new(alloc: Global) -> Result<Buffer, AllocError>
        ensures { IfOk result (λ buffer. buffer ≡ []) }
    {
        Ok(Buffer {
            bytes: Vec::with_capacity(alloc, MOST_HEAD_BYTES)?,
            counted: 0,
            ends: 0,
        })
    }

    /// The bytes.
    pub fn bytes(&self) -> &[u8]
        ensures { result.now ≡ self.now }
    {
        self.bytes.as_slice()
    }

    /// How many there are.
    pub fn len(&self) -> usize
        ensures { result ≡ length self.now }
    {
        self.bytes.len()
    }

    /// Forgets them.
    pub fn clear(&mut self)
        ensures { self.new ≡ [] }
    {
        self.bytes.clear();
        self.counted = 0;
        self.ends = 0;
    }

    /// How many lines end in them. It looks at those alone that came since it was asked before.
    pub fn line_ends(&mut self) -> usize
        ensures same { self.new ≡ self.old }
        ensures ends { result ≡ line_ends_of self.old }
    {
        let len = self.bytes.len();
        let more = line_ends(&self.bytes[self.counted..]);
        self.ends += more;
        self.counted = len;
        self.ends
    }

    /// The same without the blank lines that they begin with.
    pub fn head_line_ends(&mut self) -> usize
        ensures same { self.new ≡ self.old }
        ensures ends { result ≡ line_ends_of (skip_newlines self.old) }
    {
        let ends = self.line_ends();
        let blank = blank_line_ends(self.bytes());
        ends - blank
    }

    /// Adds the front of the piece, up to `most` bytes in all; answers how many bytes it took.
    pub fn fill(&mut self, piece: &[u8], most: usize) -> usize
        requires room { most ≤ most_head_bytes }
        requires within { length self.old ≤ most }
        ensures bytes { self.new ≡ self.old ++ take result piece.now }
        ensures taken { result ≡ min (length piece.now) (most - length self.old) }
    {
        let taken = piece.len().min(most - self.bytes.len());
        let Ok(()) = self.bytes.extend_from_slice(&piece[..taken]) else {
            unreachable!()
        };
        taken
    }
}
