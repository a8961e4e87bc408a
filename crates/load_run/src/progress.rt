//! The progress of one thread of a load.

use load_figures::Outcome;
use std::sync::atomic::{AtomicU64, Ordering};

/// The number of jobs that one thread of a load has done so far, for all threads to read.
#[derive(Drop)]
pub(crate) struct Progress {
    done: AtomicU64,
    failed: AtomicU64,
}

impl Progress {
    /// Makes the progress of a thread that has done no job.
    pub(crate) fn new() -> Progress {
        Progress {
            done: AtomicU64::new(0),
            failed: AtomicU64::new(0),
        }
    }

    /// Counts one more job, with that outcome.
    pub(crate) fn add(&self, outcome: Outcome) {
        match outcome {
            Outcome::Stopped => {}
            Outcome::Good => {
                self.done.fetch_add(1, Ordering::SeqCst);
            }
            Outcome::Failed => {
                self.done.fetch_add(1, Ordering::SeqCst);
                self.failed.fetch_add(1, Ordering::SeqCst);
            }
        }
    }

    /// Returns the number of jobs done.
    pub(crate) fn done(&self) -> u64 {
        self.done.load(Ordering::SeqCst)
    }

    /// Returns the number of those jobs that failed.
    pub(crate) fn failed(&self) -> u64 {
        self.failed.load(Ordering::SeqCst)
    }
}
