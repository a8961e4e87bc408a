//! Sums over requests.

ghost use Rattle.std.specs.Prelude.{⊤};

use exchange::Done;
use run_loop::{Results, Span};

/// Sums over requests.
#[derive(Drop)]
pub(crate) struct Tally {
    /// Number of requests with a good response.
    pub(crate) good: u64,
    /// Number of all others.
    pub(crate) failed: u64,
    /// Number of responses over a connection that had been used before.
    pub(crate) reused: u64,
    /// Number of responses after a retry.
    pub(crate) retried: u64,
    /// Bytes of all bodies.
    pub(crate) bytes: u64,
}

impl Tally {
    /// Returns the sums over no request.
    pub(crate) fn new() -> Tally {
        Tally {
            good: 0,
            failed: 0,
            reused: 0,
            retried: 0,
            bytes: 0,
        }
    }

    /// Adds the other sums.
    pub(crate) fn join(&mut self, other: &Tally) {
        self.good = self.good.saturating_add(other.good);
        self.failed = self.failed.saturating_add(other.failed);
        self.reused = self.reused.saturating_add(other.reused);
        self.retried = self.retried.saturating_add(other.retried);
        self.bytes = self.bytes.saturating_add(other.bytes);
    }

    /// Adds the result of a request.
    pub(crate) fn add(&mut self, done: &Done) {
        match done {
            Done::Good(answer) => {
                self.good = self.good.saturating_add(1);
                self.reused = self.reused.saturating_add(answer.reused as u64);
                self.retried = self.retried.saturating_add(answer.retried as u64);
                self.bytes = self.bytes.saturating_add(answer.body_len);
            }
            Done::Bad(_) => self.failed = self.failed.saturating_add(1),
        }
    }
}

impl Results for Tally {
    ghost took = { λ old new number done span. ⊤ };

    fn take(&mut self, _number: u64, done: Done, _span: Span) {
        self.add(&done);
    }
}
