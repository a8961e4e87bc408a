//! The time for which the transfers of a load wait for connections.

use std::sync::atomic::{AtomicU64, Ordering};

/// The total time for which the transfers of a load waited for connections. It is estimated from
/// the number of waiting transfers at each count.
#[derive(Drop)]
pub(crate) struct WaitSum {
    micros: AtomicU64,
    // The moment of the last count, in microseconds after the start.
    counted: AtomicU64,
}

impl WaitSum {
    /// Makes a sum of 0.
    pub(crate) fn new() -> WaitSum {
        WaitSum {
            micros: AtomicU64::new(0),
            counted: AtomicU64::new(0),
        }
    }

    /// Counts the transfers that wait at that moment, in microseconds after the start. They are
    /// taken to have waited since the last count.
    pub(crate) fn add(&self, waiting: u64, now: u64) {
        let since = now.saturating_sub(self.counted.load(Ordering::SeqCst));
        self.counted.store(now, Ordering::SeqCst);
        let more = waiting.saturating_mul(since);
        let sum = self.micros.load(Ordering::SeqCst).saturating_add(more);
        self.micros.store(sum, Ordering::SeqCst);
    }

    /// Returns the sum of all waits, in microseconds.
    pub(crate) fn micros(&self) -> u64 {
        self.micros.load(Ordering::SeqCst)
    }
}
