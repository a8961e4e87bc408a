//! The timer of a crawl.

use crate::crawler::Signals;
use exchange::Clock;
use run_loop::{MicroClock, Timer, is_late};
use std::sync::atomic::{AtomicBool, Ordering};

/// The timer of a crawl. It stops a transfer at its time limit, and all transfers once the crawl is
/// over. It wakes up the loop once, for news from outside.
#[derive(Drop)]
pub(crate) struct CrawlTimer<'a, T: MicroClock, S: Signals> {
    pub(crate) clock: &'a T,
    /// The time limit of a transfer, in microseconds.
    pub(crate) limit: u64,
    /// Number of wake-ups before.
    pub(crate) wakeups: u64,
    /// It has woken up the loop.
    pub(crate) has_woken: &'a AtomicBool,
    pub(crate) signals: &'a S,
}

impl<T: MicroClock, S: Signals> Clock for CrawlTimer<'_, T, S> {
    ghost tells = { λ timer moment. T.tells timer.clock.now moment };

    fn now(&self) -> u64 {
        self.clock.now()
    }

    fn micros(&self) -> u64 {
        self.clock.micros()
    }
}

impl<T: MicroClock, S: Signals> MicroClock for CrawlTimer<'_, T, S> {
    ghost tells_micros = { λ timer moment. T.tells_micros timer.clock.now moment };

    fn moment(&self) -> u64 {
        self.clock.moment()
    }
}

impl<T: MicroClock, S: Signals> Timer for CrawlTimer<'_, T, S> {
    ghost use Rattle.std.specs.Prelude.{⊤};

    ghost may_stop = { λ timer number. ⊤ };

    fn stops(&self, _number: u64, began: u64, now: u64) -> bool {
        now == u64::MAX || is_late(began, now, self.limit)
    }

    fn is_over(&self) -> bool {
        self.signals.is_over()
    }

    fn rings(&self) -> u64 {
        if !self.has_woken.load(Ordering::SeqCst) && self.signals.has_news() {
            self.has_woken.store(true, Ordering::SeqCst);
        }
        let more = self.has_woken.load(Ordering::SeqCst) as u64;
        self.wakeups.saturating_add(more)
    }
}
