//! A clock over a system that tells no time.

use exchange::Clock;
use run_loop::MicroClock;
use socket::SystemClock;
use std::time::Duration;
use std::{io, time};

/// A system that tells that time, or none.
#[derive(Drop)]
struct System {
    told: Option<Duration>,
}

impl time::Clock for System {
    fn monotonic(&self) -> io::Result<Duration> {
        match self.told {
            Some(told) => Ok(told),
            None => Err(io::ErrorKind::Interrupted.into()),
        }
    }

    fn since_1970(&self) -> io::Result<Duration> {
        self.monotonic()
    }
}

#[test]
fn a_clock_stands_still_if_the_system_tells_no_time(rt: HostRuntime) {
    let system = System { told: None };
    let clock = SystemClock::or_still(&system);
    assert!(rt; clock.now() == 0 && clock.micros() == 0 && clock.elapsed().is_none());
    assert!(rt; clock.moment() == u64::MAX);
    assert!(rt; SystemClock::new(&system).is_err());
    let system = System {
        told: Some(Duration::from_secs(9)),
    };
    let clock = SystemClock::or_still(&system);
    assert!(rt; clock.elapsed() == Some(Duration::from_secs(0)) && clock.moment() == 0);
}
