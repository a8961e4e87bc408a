//! A transfer of a slab that has ended.

use exchange::{Done, Phases, Prepared, Reason};

/// A transfer of a slab that has ended.
#[derive(Drop)]
pub struct Ended {
    /// The place where it stood, which is free now.
    pub place: usize,
    /// How it ended.
    pub done: Done,
    /// What was prepared; its memory serves another job.
    pub parts: Prepared,
    /// The moments of its progress.
    pub phases: Phases,
    /// Why its connection failed, if it ended by that and the system said why.
    pub reason: Option<Reason>,
}
