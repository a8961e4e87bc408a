//! The timer of a run: it stops no job, and counts late grants.

ghost use Rattle.std.specs.Prelude.{⊤};

use exchange::Clock;
use run_loop::{MicroClock, Timer};
use socket::SystemClock;
use std::sync::atomic::{AtomicU64, Ordering};

/// The timer of a run: it stops no job, and counts late grants.
#[derive(Drop)]
pub(crate) struct RunClock<'n> {
    clock: SystemClock<'n, HostRuntime>,
    late: AtomicU64,
}

impl<'n> RunClock<'n> {
    /// Makes a timer that begins now; `None` if the system has no clock.
    pub(crate) fn new(system: &'n HostRuntime) -> Option<RunClock<'n>> {
        let clock = SystemClock::new(system).ok()?;
        Some(RunClock {
            clock,
            late: AtomicU64::new(0),
        })
    }

    /// Number of late grants: no wake-up announced the connection that a waiter got.
    pub(crate) fn late(&self) -> u64 {
        self.late.load(Ordering::SeqCst)
    }
}

impl<'n> Clock for RunClock<'n> {
    ghost tells = { λ clock moment. ⊤ };

    fn now(&self) -> u64 {
        self.clock.now()
    }

    fn micros(&self) -> u64 {
        self.clock.micros()
    }
}

impl<'n> MicroClock for RunClock<'n> {
    ghost tells_micros = { λ clock moment. ⊤ };

    fn moment(&self) -> u64 {
        self.micros()
    }
}

impl<'n> Timer for RunClock<'n> {
    ghost may_stop = { λ clock number. ⊥ };

    fn stops(&self, _number: u64, _began: u64, _now: u64) -> bool {
        false
    }

    fn is_over(&self) -> bool {
        false
    }

    fn counts_late_grants(&self) -> bool {
        true
    }

    fn note_late(&self, grants: u64) {
        self.late.fetch_add(grants, Ordering::SeqCst);
    }
}
