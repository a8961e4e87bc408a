//! The moments at which the jobs of a load are due.

ghost use Rattle.std.specs.Prelude.{◌≡◌, ◌<◌, IfNone, IfSome};
ghost use Rattle.load_run.specs.Pace.{due_at, due_before};

/// Microseconds in a second.
const SECOND: u128 = 1_000_000;

/// A rate of jobs per second. Job K is due K / rate seconds after the start.
#[derive(Clone, Copy, Debug)]
pub struct Rate {
    in_second: u32,
    ghost some: { 0 < in_second },
}

impl Rate {
    /// Makes the rate of that many jobs per second; `None` if the number is 0.
    pub fn new(in_second: u32) -> Option<Rate>
        ensures some { IfSome result (λ rate. rate.in_second ≡ in_second) }
        ensures none { IfNone result (in_second ≡ 0) }
    {
        if in_second == 0 {
            return None;
        }
        Some(Rate { in_second })
    }

    /// Returns the moment at which the job of that number is due, in microseconds after the start,
    /// at most 18,446,744,073,709,551,615.
    pub(crate) fn due(self, number: u64) -> u64
        ensures { result ≡ due_at self.in_second number }
    {
        let due = number as u128 * SECOND / self.in_second as u128;
        u64::try_from(due).unwrap_or(u64::MAX)
    }

    /// Returns the number of jobs, out of `jobs`, that are due before that moment, in microseconds
    /// after the start.
    pub(crate) fn due_before(self, jobs: u64, micros: u64) -> u64
        ensures { result ≡ due_before self.in_second jobs micros }
    {
        let rate = self.in_second as u128;
        let due = (micros as u128 * rate + (SECOND - 1)) / SECOND;
        u64::try_from(due).unwrap_or(jobs).min(jobs)
    }
}
