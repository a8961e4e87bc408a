//! Whether any worker has given up, which all workers see.

use std::sync::atomic::{AtomicBool, Ordering};

/// Whether any worker has given up. Once one has, no worker goes on.
#[derive(Drop)]
pub(crate) struct Faults {
    met: AtomicBool,
}

impl Faults {
    pub(crate) fn new() -> Faults {
        Faults {
            met: AtomicBool::new(false),
        }
    }

    /// Whether a worker has given up.
    pub(crate) fn met(&self) -> bool {
        self.met.load(Ordering::SeqCst)
    }

    /// A worker has given up.
    pub(crate) fn meet(&self) {
        self.met.store(true, Ordering::SeqCst);
    }
}
