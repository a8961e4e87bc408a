//! A bell on which workers wait for what another one gives up.

use std::sync::Wait;
use std::sync::atomic::{AtomicU64, Ordering};
use std::time::Duration;

/// The longest that a worker waits for the bell, in milliseconds.
const MOST_MILLISECONDS: u64 = 10;

/// A park looks at the low 32 bits of a number alone.
const LOW: u64 = 0x1_0000_0000;

/// It is rung after each transfer that has ended, since what that gave up may have been granted to
/// one that waits.
#[derive(Drop)]
pub(crate) struct Bell {
    // How often it was rung.
    rings: AtomicU64,
    // How many wait for it.
    waiting: AtomicU64,
}

impl Bell {
    pub(crate) fn new() -> Bell {
        Bell {
            rings: AtomicU64::new(0),
            waiting: AtomicU64::new(0),
        }
    }

    /// How often it was rung so far.
    pub(crate) fn rings(&self) -> u64 {
        self.rings.load(Ordering::SeqCst)
    }

    /// Rings it. How often it was rung before.
    pub(crate) fn ring(&self) -> u64 {
        let before = self.rings.fetch_add(1, Ordering::SeqCst);
        if self.waiting.load(Ordering::SeqCst) != 0 {
            self.rings.wake_all();
        }
        before
    }

    /// Waits until it was rung more often than that, 10 milliseconds at most.
    pub(crate) fn wait<R: Wait>(&self, rt: &R, rings: u64) {
        self.waiting.fetch_add(1, Ordering::SeqCst);
        let longest = Duration::from_millis(MOST_MILLISECONDS);
        let low_bits = (rings % LOW) as u32;
        self.rings.park_timeout(rt, low_bits, longest);
        self.waiting.fetch_sub(1, Ordering::SeqCst);
    }
}
