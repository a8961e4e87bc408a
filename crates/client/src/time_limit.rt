//! The limit of time of a fetch.

ghost use Rattle.std.specs.Prelude.{⊤};

use exchange::JobControl;
use socket::SystemClock;
use std::time;
use std::time::Duration;

/// Stops a job that takes too long.
#[derive(Drop)]
pub(crate) struct TimeLimit<'t, 'c, C: time::Clock> {
    clock: &'t SystemClock<'c, C>,
    // None if the system told no time then.
    begun: Option<Duration>,
    limit: Duration,
}

impl<'t, 'c, C: time::Clock> TimeLimit<'t, 'c, C> {
    /// The limit of a job that begins now.
    pub(crate) fn new(clock: &'t SystemClock<'c, C>, limit: Duration) -> Self {
        TimeLimit {
            clock,
            begun: clock.elapsed(),
            limit,
        }
    }
}

impl<'t, 'c, C: time::Clock> JobControl for TimeLimit<'t, 'c, C> {
    type Reason = ();

    ghost stops_for = { λ limit reason. ⊤ };

    fn stop_after_poll(&self) -> Option<()> {
        self.clock.is_past(self.begun, self.limit).then_some(())
    }

    // A client is the only one that gives up connections of its pool: a wait would bring none.
    fn wait_for_grant(&self, _rings: u64) {}

    fn stop_at_last(&self) {}
}
