//! What a reader answers of the bytes fed so far.
use thiserror::Error;

/// What a reader answers of the bytes fed so far, where nothing is wrong with them.
#[derive(Clone, Copy, Debug, PartialEq, Eq)]
pub enum Fed {
    /// The response is not whole yet, or lasts until the connection ends.
    More,
    /// The response is whole; never said of a body that lasts until the connection ends.
    Whole,
}

/// Why bytes are no response that can be read: there is no memory for a reader (`Memory`); what
/// should be a head is none (`BadHead`); the Content-Length fields give no one number, or a body
/// that lasts until the connection ends has more bytes than a `u64` counts (`BadLength`); what
/// should be a chunk or a trailer section is none (`BadChunk`); a head has more than 16,384 bytes
/// or 100 fields (`HeadTooLong`); a ninth interim head came (`TooManyInterims`); a trailer section
/// has more than 8,192 bytes or 100 fields (`TrailerTooLong`).
#[derive(Clone, Copy, Debug, PartialEq, Eq, Error)]
pub enum ReadFault {
    #[error("out of memory")]
    Memory,
    #[error("not the head of a response")]
    BadHead,
    #[error("no valid content length")]
    BadLength,
    #[error("not a valid chunk")]
    BadChunk,
    #[error("a head of more than 16384 bytes or 100 fields")]
    HeadTooLong,
    #[error("more than 8 interim heads")]
    TooManyInterims,
    #[error("a trailer section of more than 8192 bytes or 100 fields")]
    TrailerTooLong,
}
