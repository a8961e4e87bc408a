//! Watchers of a running load.

use conn_log::Entry;

/// Progress of a load.
#[derive(Clone, Copy, Debug, PartialEq, Eq)]
pub struct Seen {
    /// Microseconds since the load began.
    pub micros: u64,
    /// Number of jobs done since the warm-up.
    pub done: u64,
    /// Number of those jobs that failed.
    pub failed: u64,
}

/// A watcher of a running load. It receives the entries of the logs, and may end the load.
///
/// The ghost member is true if it may end the load.
pub trait Watch {
    ghost use Rattle.std.specs.Bool.{OnTrue};

    /// It may end the load.
    ghost may_end: { Self → Type 0 };

    /// True if the load is to end now. All threads call it often.
    fn is_over(&self) -> bool
        ensures { OnTrue result (may_end self.now) };

    /// Receives the progress of the load. One of the threads calls it about every ten milliseconds.
    fn look(&self, _seen: Seen) {}

    /// Receives the next entries of the log of the site with that index, oldest entry first. One
    /// thread calls it at a time, so the entries of each log arrive in order.
    fn take_log(&self, _site: u32, _entries: Vec<Entry>) {}
}

/// A watcher that does nothing.
#[derive(Clone, Copy, Debug)]
pub struct Unwatched;

impl Watch for Unwatched {
    ghost may_end = { λ unwatched. ⊥ };

    fn is_over(&self) -> bool {
        false
    }
}
