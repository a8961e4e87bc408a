//! What the loops of a run are at.

use std::sync::atomic::{AtomicU64, Ordering};

/// What the loops of a run are at. One that is awake polls transfers, and has not yet rung for what
/// those gave up.
#[derive(Drop)]
pub(crate) struct LoopStates {
    awake: AtomicU64,
    // How often loops have woken up.
    woken: AtomicU64,
    // How many ring now: the bell's count has risen, or will, and not all turns are ended yet.
    ringing: AtomicU64,
}

impl LoopStates {
    /// So many loops are awake, and none has slept yet.
    pub(crate) fn new(loops: u64) -> LoopStates {
        LoopStates {
            awake: AtomicU64::new(loops),
            woken: AtomicU64::new(0),
            ringing: AtomicU64::new(0),
        }
    }

    /// A loop falls asleep.
    pub(crate) fn fall_asleep(&self) {
        self.awake.fetch_sub(1, Ordering::SeqCst);
    }

    /// A loop wakes up.
    pub(crate) fn wake_up(&self) {
        self.woken.fetch_add(1, Ordering::SeqCst);
        self.awake.fetch_add(1, Ordering::SeqCst);
    }

    /// How often loops have woken up, if one alone is awake.
    pub(crate) fn woken_if_alone(&self) -> Option<u64> {
        if self.awake.load(Ordering::SeqCst) == 1 {
            Some(self.woken.load(Ordering::SeqCst))
        } else {
            None
        }
    }

    /// A loop begins to ring.
    pub(crate) fn begin_ring(&self) {
        self.ringing.fetch_add(1, Ordering::SeqCst);
    }

    /// A loop has rung, and has ended the turns of the others.
    pub(crate) fn end_ring(&self) {
        self.ringing.fetch_sub(1, Ordering::SeqCst);
    }

    /// Whether a loop rings now.
    pub(crate) fn is_ringing(&self) -> bool {
        self.ringing.load(Ordering::SeqCst) != 0
    }
}
