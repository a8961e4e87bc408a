//! Why a worker stops a job.

/// Why a worker stops a job.
#[derive(Clone, Copy, Debug, PartialEq, Eq)]
pub(crate) enum Stopped {
    /// The gate ended it.
    Gate,
    /// Another worker had given up.
    Told,
}
