//! The time of a run, as its workers see it.

use crate::bell::Bell;
use crate::faults::Faults;
use crate::many::loop_states::LoopStates;
use crate::many::loops_with_waiters::LoopsWithWaiters;
use exchange::{Alarm, Clock};
use run_loop::{MicroClock, Timer};
use std::sync::atomic::{AtomicU64, Ordering};

/// A run's timer, for one of its workers: a fault that another worker met breaks the run off, and
/// the run's bell ends the turns of the others that sleep.
#[derive(Drop)]
pub(crate) struct RunTimer<'a, T: Timer, A: Alarm> {
    pub(crate) timer: &'a T,
    pub(crate) faults: &'a Faults,
    pub(crate) bell: &'a Bell,
    pub(crate) waiters: &'a LoopsWithWaiters,
    pub(crate) states: &'a LoopStates,
    /// Of each worker, as far as their dials have some.
    pub(crate) alarms: &'a [A],
    /// The worker's number, from 0: the place of its alarm.
    pub(crate) own: usize,
    /// How often its loop has woken up.
    pub(crate) woken: AtomicU64,
}

impl<'a, T: Timer, A: Alarm> RunTimer<'a, T, A> {
    // Counts that the loop has woken up. Returns true if another one rings now.
    fn note_woken(&self) -> bool {
        self.woken.fetch_add(1, Ordering::SeqCst);
        self.states.wake_up();
        self.states.is_ringing()
    }

    // Ends the turns of all others that sleep.
    fn wake_others(&self) {
        for (number, alarm) in self.alarms.iter().enumerate() {
            if number != self.own {
                alarm.ring();
            }
        }
    }
}

impl<'a, T: Timer, A: Alarm> Clock for RunTimer<'a, T, A> {
    ghost tells = { λ timer moment. T.tells timer.timer.now moment };

    fn now(&self) -> u64 {
        self.timer.now()
    }

    fn micros(&self) -> u64 {
        self.timer.micros()
    }
}

impl<'a, T: Timer, A: Alarm> MicroClock for RunTimer<'a, T, A> {
    ghost tells_micros = { λ timer moment. T.tells_micros timer.timer.now moment };

    fn moment(&self) -> u64 {
        self.timer.moment()
    }
}

impl<'a, T: Timer, A: Alarm> Timer for RunTimer<'a, T, A> {
    ghost may_stop = { λ timer job. T.may_stop timer.timer.now job };

    fn stops(&self, number: u64, began: u64, now: u64) -> bool {
        self.timer.stops(number, began, now)
    }

    fn is_over(&self) -> bool {
        self.timer.is_over()
    }

    fn is_broken_off(&self) -> bool {
        self.faults.met()
    }

    fn rings(&self) -> u64 {
        self.bell.rings()
    }

    fn ring(&self, heard: u64) -> u64 {
        if !self.waiters.is_any() {
            return heard;
        }
        let counts = self.timer.counts_late_grants();
        if counts {
            self.states.begin_ring();
        }
        let before = self.bell.ring();
        self.wake_others();
        if counts {
            self.states.end_ring();
        }
        if before == heard {
            heard.wrapping_add(1)
        } else {
            heard
        }
    }

    fn note_waiters(&self, has_waiters: bool) {
        self.waiters.note(has_waiters);
    }

    fn counts_late_grants(&self) -> bool {
        self.timer.counts_late_grants()
    }

    fn fall_asleep(&self) {
        if let Some(alarm) = self.alarms.get(self.own) {
            alarm.fall_asleep();
        }
        if self.timer.counts_late_grants() {
            self.states.fall_asleep();
        }
    }

    fn wake_up(&self) -> bool {
        let is_ringing = self.timer.counts_late_grants() && self.note_woken();
        match self.alarms.get(self.own) {
            Some(alarm) => alarm.wake_up() || is_ringing,
            None => is_ringing,
        }
    }

    fn others_asleep(&self) -> Option<u64> {
        let woken = self.states.woken_if_alone()?;
        Some(woken.saturating_sub(self.woken.load(Ordering::SeqCst)))
    }

    fn note_late(&self, grants: u64) {
        self.timer.note_late(grants);
    }

    fn sweep(&self) {
        self.timer.sweep();
    }
}
