use persistence::{Facts, ReadFault};
use thiserror::Error;

/// Why a piece of a response was not read on.
#[derive(Clone, Copy, Debug, PartialEq, Eq, Error)]
pub enum FeedError {
    /// No response is read for the slot.
    #[error("no response is read")]
    NoReader,
    /// The connection has ended.
    #[error("the connection has ended")]
    Ended,
    /// The response has a fault.
    #[error("{0}")]
    Fault(ReadFault),
}

/// What the bytes of a response tell so far.
#[derive(Clone, Copy, Debug, PartialEq, Eq)]
pub struct Response {
    /// The status of the final head, once that has come.
    pub status: Option<u16>,
    /// How many bytes of the body have come.
    pub body_len: u64,
    /// What decides whether the connection persists.
    pub facts: Facts,
    /// Whether it persists.
    pub persists: bool,
}
