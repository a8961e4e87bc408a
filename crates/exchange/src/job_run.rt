//! How the run of a job ended.

use crate::done::Done;

/// Why the run of a job stopped before its transfer had ended.
#[derive(Clone, Copy, Debug, PartialEq, Eq)]
pub enum JobStop<R> {
    /// Its control stopped it, for that reason.
    Control(R),
    /// A turn of the dial's event loop failed.
    TurnFailed,
}

/// How the run of a job ended.
#[derive(Clone, Copy, Debug, PartialEq, Eq)]
pub struct JobRun<R> {
    /// How its transfer ended; a transfer that was stopped is cancelled.
    pub done: Done,
    /// A new connection was asked for, to try the request once more: the first was reused, and
    /// failed or was ended before any byte of a response.
    pub retried: bool,
    /// Why it stopped before its transfer had ended, if it did.
    pub stop: Option<JobStop<R>>,
}
