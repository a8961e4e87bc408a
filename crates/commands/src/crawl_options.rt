//! The options of a crawl.

use persistence::Method;

/// Flags of a crawl.
#[derive(Clone, Copy, Debug, PartialEq, Eq)]
pub struct CrawlFlags {
    /// Each URL gets a new connection.
    pub fresh: bool,
    /// A bad URL gets a line, and does not end the crawl.
    pub skip_bad: bool,
    /// A status of 400 or above counts as failed.
    pub fail: bool,
    /// Lines are JSON.
    pub json: bool,
}

/// Options of a crawl.
#[derive(Clone, Copy, Debug, PartialEq, Eq)]
pub struct CrawlOptions {
    pub method: Method,
    /// Maximum number of transfers in flight.
    pub parallel: u32,
    /// Maximum number of open connections to a host; 0 is no limit.
    pub host_limit: u32,
    /// Maximum number of open connections in total; 0 is no limit.
    pub total: u32,
    /// Maximum idle time of a connection that is reused, in seconds.
    pub max_age: u64,
    /// Maximum age of a connection that is reused, in seconds; 0 is no limit.
    pub max_life: u64,
    /// Time limit of a transfer, in seconds.
    pub timeout: u32,
    pub flags: CrawlFlags,
}

/// The file of a crawl's URLs.
#[derive(Clone, Copy, Debug, PartialEq, Eq)]
pub enum UrlFile {
    /// There is none.
    None,
    /// Its reads do not wait.
    Regular,
    /// A read may wait for the writer, as of a pipe.
    Waiting,
}
