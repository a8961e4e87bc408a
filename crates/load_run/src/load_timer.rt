//! The timer of a load. It stops jobs, ends the run, and cuts the logs.

ghost use Rattle.std.specs.Prelude.{◌≡◌};
ghost use Rattle.load_run.specs.Stopping.{MayStop};

use crate::load_clock::LoadClock;
use crate::plan::LoadTimes;
use crate::progress::Progress;
use crate::wait_sum::WaitSum;
use crate::watch::{Seen, Watch};
use bundle::Bundle;
use exchange::Clock;
use run_loop::{MicroClock, Timer, is_late};
use shared_cache::{Names, SharedCache};
use socket::{PolledWire, SystemClock};
use std::sync::Wait;
use std::sync::atomic::{AtomicBool, AtomicU64, Ordering};

/// Time between two sweeps, in microseconds.
const SWEEP_MICROS: u64 = 10_000;

/// Time between two cuts of the logs, in microseconds.
const CUT_MICROS: u64 = 100_000;

/// The timer of a load, by the clock `K`: it stops jobs that have reached their time limit, and
/// ends the run once its seconds are up, or if its watcher ends it. Every 100 milliseconds it cuts
/// the log of every host for the watcher, so that memory does not grow with the number of jobs. If
/// several threads sweep at once, one of them does the work.
#[derive(Drop)]
pub(crate) struct LoadTimer<'a, N: Names, R: Wait, V: Watch, K: MicroClock> {
    pub(crate) rt: &'a R,
    pub(crate) clock: K,
    pub(crate) cache: &'a SharedCache<PolledWire, N>,
    pub(crate) times: LoadTimes,
    pub(crate) watch: &'a V,
    /// The progress of each worker.
    pub(crate) progress: &'a [Progress],
    /// The moment of the last sweep, in microseconds.
    pub(crate) swept: AtomicU64,
    /// The moment at which the logs were cut last, in microseconds.
    pub(crate) cut: AtomicU64,
    /// True while a thread cuts the logs.
    pub(crate) is_cutting: AtomicBool,
    pub(crate) waits: WaitSum,
}

impl<'a, N: Names, R: Wait, V: Watch> LoadTimer<'a, N, R, V, LoadClock<'a>> {
    /// Makes the timer of a load that starts now.
    pub(crate) fn new(
        rt: &'a R,
        system: &'a HostRuntime,
        cache: &'a SharedCache<PolledWire, N>,
        times: LoadTimes,
        watch: &'a V,
        progress: &'a [Progress],
    ) -> LoadTimer<'a, N, R, V, LoadClock<'a>>
        ensures times { result.times ≡ times }
        ensures watch { result.watch.now ≡ watch.now }
    {
        LoadTimer {
            rt,
            clock: LoadClock(SystemClock::or_still(system)),
            cache,
            times,
            watch,
            progress,
            swept: AtomicU64::new(0),
            cut: AtomicU64::new(0),
            is_cutting: AtomicBool::new(false),
            waits: WaitSum::new(),
        }
    }
}

impl<N: Names, R: Wait, V: Watch, K: MicroClock> LoadTimer<'_, N, R, V, K> {
    // Reports the progress of the load to the watcher.
    fn report(&self, micros: u64) {
        let mut done = 0u64;
        let mut failed = 0u64;
        for own in self.progress {
            done = done.saturating_add(own.done());
            failed = failed.saturating_add(own.failed());
        }
        self.watch.look(Seen {
            micros,
            done,
            failed,
        });
    }

    // Adds the time for which transfers have waited since the last sweep.
    fn add_waits(&self, micros: u64) {
        let mut waiting = 0u64;
        for site in 0..self.cache.hosts() {
            let counted = self.cache.inspect(
                self.rt,
                site,
                |bundle: &Bundle<PolledWire>| bundle.look().waiting,
            );
            waiting = waiting.saturating_add(counted.unwrap_or(0) as u64);
        }
        self.waits.add(waiting, micros);
    }

    // Cuts the log of every host, and hands the entries to the watcher. Does nothing while another
    // thread cuts, which keeps the entries of each log in order. A log that cannot be cut now is
    // cut the next time.
    fn cut_logs(&self) {
        if self.is_cutting.swap(true, Ordering::SeqCst) {
            return;
        }
        for site in 0..self.cache.hosts() {
            if let Ok(entries) = self.cache.cut(self.rt, site) {
                self.watch.take_log(site, entries);
            }
        }
        self.is_cutting.store(false, Ordering::SeqCst);
    }

    // True if no thread has swept for ten milliseconds, and this one is the first to do so now.
    fn takes_sweep(&self, now: u64) -> bool {
        let swept = self.swept.load(Ordering::SeqCst);
        if now.saturating_sub(swept) < SWEEP_MICROS {
            return false;
        }
        self.swept
            .compare_exchange(swept, now, Ordering::SeqCst, Ordering::SeqCst)
            .is_ok()
    }
}

impl<N: Names, R: Wait, V: Watch, K: MicroClock> Clock for LoadTimer<'_, N, R, V, K> {
    ghost tells = { λ timer moment. K.tells timer.clock moment };

    fn now(&self) -> u64 {
        self.clock.now()
    }

    fn micros(&self) -> u64 {
        self.clock.micros()
    }
}

impl<N: Names, R: Wait, V: Watch, K: MicroClock> MicroClock for LoadTimer<'_, N, R, V, K> {
    ghost tells_micros = { λ timer moment. K.tells_micros timer.clock moment };

    fn moment(&self) -> u64 {
        self.clock.moment()
    }
}

impl<N: Names, R: Wait, V: Watch, K: MicroClock> Timer for LoadTimer<'_, N, R, V, K> {
    ghost may_stop = { λ timer number. MayStop timer.times (V.may_end timer.watch.now) };

    fn stops(&self, _number: u64, began: u64, now: u64) -> bool {
        match self.times.timeout() {
            Some(timeout) => is_late(began, now, timeout),
            None => false,
        }
    }

    fn is_over(&self) -> bool {
        let is_up = match self.times.end() {
            Some(end) => self.moment() >= end,
            None => false,
        };
        is_up || self.watch.is_over()
    }

    fn sweep(&self) {
        let now = self.moment();
        if !self.takes_sweep(now) {
            return;
        }
        self.report(now);
        self.add_waits(now);
        let cut = self.cut.load(Ordering::SeqCst);
        if now.saturating_sub(cut) < CUT_MICROS {
            return;
        }
        self.cut.store(now, Ordering::SeqCst);
        self.cut_logs();
    }
}
