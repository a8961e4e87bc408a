//! Numbers and flags of a load.

/// Numbers of a load, each in its range.
#[derive(Clone, Copy, Debug)]
pub struct LoadNumbers {
    /// Maximum number of requests in flight; if None, one for each thread.
    pub connections: Option<u32>,
    /// Duration in seconds, after the warm-up; if None, the load ends with its last request.
    pub seconds: Option<u32>,
    /// Duration of the warm-up in seconds, which is in no figure.
    pub warmup: u32,
    /// Requests due per second; if None, each is due at once.
    pub rate: Option<u32>,
    /// Time limit of a request in seconds.
    pub timeout: Option<u32>,
    /// Highest share of failed requests without status 5, in hundredths of a percent.
    pub fail_above: Option<u32>,
}

/// Flags of a load.
#[derive(Clone, Copy, Debug)]
pub struct LoadFlags {
    /// Sends HEAD instead of GET.
    pub head: bool,
    /// Reuses no connection.
    pub forbid_reuse: bool,
    /// Counts a status of 400 or above as failed.
    pub fail: bool,
    /// Prints JSON instead of the report.
    pub json: bool,
    /// Prints neither summary nor progress.
    pub quiet: bool,
    /// Prints no progress.
    pub no_progress: bool,
}
