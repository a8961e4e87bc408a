//! The time of the system.

ghost use Rattle.std.specs.Prelude.{⊤};

use exchange::Clock;
use run_loop::MicroClock;
use std::time::{Duration, Instant};
use std::{io, time};

/// The time since it was made. As a clock it gives whole seconds and microseconds, 0 if the system
/// gives no time. For a run's time limits it gives microseconds, and the greatest `u64` if the
/// system gives no time: then all that began before is late.
#[derive(Drop)]
pub struct SystemClock<'c, C: time::Clock> {
    clock: &'c C,
    // None if the system told no time then.
    start: Option<Instant>,
}

impl<'c, C: time::Clock> SystemClock<'c, C> {
    /// A clock that begins now.
    ///
    /// # Errors
    ///
    /// The system tells no time.
    pub fn new(clock: &'c C) -> io::Result<Self> {
        Ok(SystemClock {
            clock,
            start: Some(Instant::now(clock)?),
        })
    }

    /// A clock that begins now, or stands still at 0 if the system tells no time.
    pub fn or_still(clock: &'c C) -> Self {
        SystemClock {
            clock,
            start: Instant::now(clock).ok(),
        }
    }

    /// How long ago it was made; none if the system tells no time.
    pub fn elapsed(&self) -> Option<Duration> {
        match self.start {
            Some(start) => start.elapsed(self.clock).ok(),
            None => None,
        }
    }

    // Microseconds since it was made, at most the greatest `u64`; none if the system gives no time.
    fn elapsed_micros(&self) -> Option<u64> {
        let elapsed = self.elapsed()?;
        Some(u64::try_from(elapsed.as_micros()).unwrap_or(u64::MAX))
    }

    /// Whether `limit` has passed since it told `since`; it has if the system tells no time.
    pub fn is_past(&self, since: Option<Duration>, limit: Duration) -> bool {
        match (self.elapsed(), since) {
            (Some(now), Some(since)) => now.saturating_sub(since) >= limit,
            _ => true,
        }
    }
}

impl<'c, C: time::Clock> Clock for SystemClock<'c, C> {
    ghost tells = { λ clock moment. ⊤ };

    fn now(&self) -> u64 {
        match self.elapsed() {
            Some(elapsed) => elapsed.as_secs(),
            None => 0,
        }
    }

    fn micros(&self) -> u64 {
        self.elapsed_micros().unwrap_or(0)
    }
}

impl<'c, C: time::Clock> MicroClock for SystemClock<'c, C> {
    ghost tells_micros = { λ clock moment. ⊤ };

    fn moment(&self) -> u64 {
        self.elapsed_micros().unwrap_or(u64::MAX)
    }
}
