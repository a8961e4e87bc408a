//! The time limit of a job.

ghost use Rattle.std.specs.Prelude.{◌≡◌, ◌-◌, nat_le};

use std::alloc::{AllocError, Global};

/// The most time between two turns of the dial that counts against time limits, in microseconds. A
/// turn waits for ten milliseconds at most, so a loop that takes longer was held up.
const MOST_COUNTED_MICROS: u64 = 100_000;

/// True if a job that began at `began` has reached its time limit, `limit`, at `now`. All three are
/// in microseconds.
pub fn is_late(began: u64, now: u64, limit: u64) -> bool
    ensures { result ≡ nat_le limit (now - began) }
{
    now.saturating_sub(began) >= limit
}

/// For each place, the moment from which the time limit of the last job there counts: its
/// beginning, later by the time for which the loop was held up since then, because the program was
/// suspended or its output was not read. The loop could not send the job's request meanwhile.
#[derive(Drop)]
pub(crate) struct LimitStarts {
    moments: Vec<u64>,
}

impl LimitStarts {
    /// Returns the moments of `places` places, at which no job has begun.
    ///
    /// # Errors
    ///
    /// There is no memory for them.
    pub(crate) fn new(alloc: Global, places: usize) -> Result<LimitStarts, AllocError> {
        let moments = vec![in alloc; 0; places]?;
        Ok(LimitStarts { moments })
    }

    /// Records that a job begins at that place, at `now`.
    pub(crate) fn set(&mut self, place: usize, now: u64) {
        if let Some(moment) = self.moments.get_mut(place) {
            *moment = now;
        }
    }

    /// Returns the moment from which the time limit of the last job at that place counts.
    pub(crate) fn at(&self, place: usize) -> Option<u64> {
        match self.moments.get(place) {
            Some(moment) => Some(*moment),
            None => None,
        }
    }

    /// Delays all moments by the time for which the loop was held up between two turns of the dial,
    /// which begin at `last` and at `now`, but to `now` at most.
    pub(crate) fn delay(&mut self, last: u64, now: u64) {
        let held_up = now.saturating_sub(last).saturating_sub(MOST_COUNTED_MICROS);
        if held_up == 0 {
            return;
        }
        for moment in self.moments.iter_mut() {
            *moment = moment.saturating_add(held_up).min(now);
        }
    }
}
