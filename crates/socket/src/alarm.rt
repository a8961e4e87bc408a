//! What ends a turn of a polled dial from another thread.

use exchange::Alarm;
use mio::{Registry, Token, Waker};
use std::io;
use std::sync::atomic::{AtomicBool, Ordering};

/// The token of alarms: no descriptor is as large.
pub(crate) const ALARM: Token = Token(usize::MAX);

/// What ends a turn of a [`crate::PolledDial`] from another thread.
#[derive(Drop)]
pub struct PolledAlarm {
    waker: Waker,
    is_asleep: AtomicBool,
}

impl PolledAlarm {
    // One for that registry.
    pub(crate) fn new(registry: &Registry) -> io::Result<PolledAlarm> {
        Ok(PolledAlarm {
            waker: Waker::new(registry, ALARM)?,
            is_asleep: AtomicBool::new(false),
        })
    }
}

impl Alarm for PolledAlarm {
    fn fall_asleep(&self) {
        self.is_asleep.store(true, Ordering::SeqCst);
    }

    fn wake_up(&self) -> bool {
        !self.is_asleep.swap(false, Ordering::SeqCst)
    }

    fn ring(&self) {
        let is_asleep = self.is_asleep.load(Ordering::SeqCst);
        if is_asleep && self.is_asleep.swap(false, Ordering::SeqCst) {
            let _ = self.waker.wake();
        }
    }
}
