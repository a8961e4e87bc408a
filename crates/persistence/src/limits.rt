//! How much of a response a reader takes, so that its memory and its work are bounded. No RFC gives
//! these numbers; they are this project's own choice.

/// The most bytes of a head, with the blank lines before it and its empty line.
pub(crate) const MOST_HEAD_BYTES: usize = 16_384;

/// The most interim heads before a final one.
pub(crate) const MOST_INTERIMS: usize = 8;

/// The most fields of a head, and of a trailer section.
pub(crate) const MOST_FIELDS: usize = 100;

/// The most bytes of the line before a chunk, with its CR LF.
pub(crate) const MOST_LINE_BYTES: usize = 1_024;

/// The most bytes of a trailer section, with its empty line.
pub(crate) const MOST_TRAILER_BYTES: usize = 8_192;
