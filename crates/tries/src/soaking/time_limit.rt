//! Time limit of a request.

ghost use Rattle.std.specs.Prelude.{⊤};

use crate::soaking::course::Course;
use exchange::JobControl;
use std::thread;
use std::time::Duration;

/// Seconds after which a request is cancelled.
const MOST_SECONDS: u64 = 60;

/// Stops a request that takes too long.
#[derive(Drop)]
pub(crate) struct TimeLimit<'c, 'n> {
    course: &'c Course<'n>,
    // None if the system's clock failed then.
    begun: Option<Duration>,
}

impl<'c, 'n> TimeLimit<'c, 'n> {
    /// Makes the limit of a request that begins now.
    pub(crate) fn new(course: &'c Course<'n>) -> Self {
        TimeLimit {
            course,
            begun: course.clock.elapsed(),
        }
    }
}

impl<'c, 'n> JobControl for TimeLimit<'c, 'n> {
    type Reason = ();

    ghost stops_for = { λ limit reason. ⊤ };

    fn stop_after_poll(&self) -> Option<()> {
        let most = Duration::from_secs(MOST_SECONDS);
        self.course.clock.is_past(self.begun, most).then_some(())
    }

    fn wait_for_grant(&self, _rings: u64) {
        thread::sleep(self.course.system, Duration::from_millis(1));
    }

    fn stop_at_last(&self) {}
}
