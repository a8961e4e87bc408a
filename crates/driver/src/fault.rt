//! Why a run has no results.

/// Why a run has no results.
#[derive(Clone, Copy, Debug, PartialEq, Eq)]
pub enum DriverFault {
    /// There is no memory for what the run keeps, or to prepare a job.
    Memory,
    /// There are no workers, or more than 64.
    BadWorkers,
    /// A turn of a dial's event loop failed.
    Poll,
    /// Two results bear the number of one job. It is never answered: each number is drawn once.
    Doubled,
    /// A job has no result. It is never answered: all numbers are drawn.
    Missing,
    /// A thread could not be started. It is never answered: if no thread starts, the workers
    /// work one after another.
    Spawn,
}
