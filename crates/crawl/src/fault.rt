//! Faults of crawls and networks.

use streams::StreamFault;
use thiserror::Error;

/// A fault of a network.
#[derive(Clone, Copy, Debug, PartialEq, Eq, Error)]
pub enum NetworkFault {
    /// There is no memory for it.
    #[error("out of memory")]
    Memory,
    /// The system cannot wait for connections.
    #[error("poll failed")]
    Poll,
    /// The process or the system has no descriptor left.
    #[error("too few descriptors")]
    Descriptors,
}

/// A fault that ends a crawl before each URL has its line.
#[derive(Clone, Copy, Debug, PartialEq, Eq, Error)]
pub enum CrawlFault {
    /// A read of the URLs failed, or there is no memory for them.
    #[error("{0}")]
    Input(StreamFault),
    /// A line could not be written, or there is no memory for it.
    #[error("{0}")]
    Output(StreamFault),
    #[error("{0}")]
    Network(NetworkFault),
    /// The line of this number is a bad URL; 0 is no line.
    #[error("bad URL")]
    BadUrl(u64),
}
