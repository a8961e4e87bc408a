//! The clock of a run, its limits, and the bell between its loops.

use exchange::Clock;

/// A clock of microseconds. The ghost member is its possible readings.
pub trait MicroClock: Clock {
    ghost use Rattle.std.specs.Prelude.{ℕ};

    /// That moment may be a reading of the clock.
    ghost tells_micros: { Self → ℕ → Type 0 };

    /// Returns the microseconds since a fixed moment.
    fn moment(&self) -> u64
        ensures { tells_micros self.now result };
}

/// The clock of a run, its limits, and the bell between its loops.
///
/// The ghost member is the jobs that it may stop.
pub trait Timer: MicroClock {
    ghost use Rattle.std.specs.Prelude.{ℕ};
    ghost use Rattle.std.specs.Bool.{OnTrue};

    /// The job of that number may be stopped.
    ghost may_stop: { Self → ℕ → Type 0 };

    /// True if the job of that number is to be stopped: it has reached its time limit at `now`, or
    /// its result is no longer wanted. `began` is the moment at which it began, delayed by the time
    /// for which the loop was held up since then. `now` is a moment before the last turn of the
    /// dial: all bytes that had arrived by then have been read.
    fn stops(&self, number: u64, began: u64, now: u64) -> bool
        ensures { OnTrue result (may_stop self.now number) };

    /// True if the run is to end now: all jobs are stopped.
    fn is_over(&self) -> bool
        ensures { OnTrue result ((job : ℕ) → may_stop self.now job) };

    /// True if the run is broken off for a fault elsewhere, for example in another loop over the
    /// same cache: all jobs are stopped, including those that `stops` may not stop.
    fn is_broken_off(&self) -> bool {
        false
    }

    /// Number of rings of the bell between the loops over one cache. Once it has risen, the first
    /// transfer that waits at each site checks whether it has its connection.
    fn rings(&self) -> u64 {
        0
    }

    /// Rings that bell, after leases or tickets were spent in this loop, which has heard `heard`
    /// rings. Returns the number that it has heard then: its own ring is included, unless another
    /// loop rang in between. It need not ring while no loop has waiters.
    fn ring(&self, heard: u64) -> u64 {
        heard
    }

    /// Records whether transfers of this loop wait for connections. The loop calls it when that
    /// changes. Its first waiter at each site then checks again whether it has its connection: one
    /// that was granted before the call may have had no ring.
    fn note_waiters(&self, _has_waiters: bool) {}

    /// Lets the bell end the turn of the loop's dial from now on.
    fn fall_asleep(&self) {}

    /// Stops the bell from ending turns. Returns true if it ended one, or is about to.
    fn wake_up(&self) -> bool {
        false
    }

    /// True if it counts the late grants that [`Timer::note_late`] records. The loops of a run then
    /// count who is awake, which costs several shared steps a turn.
    fn counts_late_grants(&self) -> bool {
        false
    }

    /// Number of times that the other loops over the cache have woken up, if all of them are asleep
    /// now: then each ring for a lease or ticket that they spent has arrived.
    fn others_asleep(&self) -> Option<u64> {
        None
    }

    /// Records `grants` connections that no ring announced to their waiters: only the loop's sweep,
    /// or the end of a turn's time, found them.
    fn note_late(&self, _grants: u64) {}

    /// Does other periodic work. Each loop calls it about every ten milliseconds, while it polls no
    /// transfer; several loops may call it at once.
    fn sweep(&self) {}
}
