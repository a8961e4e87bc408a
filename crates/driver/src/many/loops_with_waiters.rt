//! The loops of a run that have waiters.

use std::sync::atomic::{AtomicU64, Ordering};

/// Number of loops of a run that have waiters. While it is 0, no loop rings.
///
/// No grant is lost: a loop that counts itself checks its waiters afterwards, and a loop that
/// spends a lease reads the number afterwards. So the check finds the grant, or the ring comes.
#[derive(Drop)]
pub(crate) struct LoopsWithWaiters {
    number: AtomicU64,
}

impl LoopsWithWaiters {
    /// Makes the count of a run in which no loop has waiters.
    pub(crate) fn new() -> LoopsWithWaiters {
        LoopsWithWaiters {
            number: AtomicU64::new(0),
        }
    }

    /// Adds a loop that has waiters from now on, or removes one that no longer has any.
    pub(crate) fn note(&self, has_waiters: bool) {
        if has_waiters {
            self.number.fetch_add(1, Ordering::SeqCst);
        } else {
            self.number.fetch_sub(1, Ordering::SeqCst);
        }
    }

    /// True if a loop has waiters.
    pub(crate) fn is_any(&self) -> bool {
        self.number.load(Ordering::SeqCst) != 0
    }
}
