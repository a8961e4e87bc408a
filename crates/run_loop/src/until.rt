//! The event that a call of a loop waits for.

/// The event after which a call of `RunLoop::run_on` returns, once no job is left to draw.
#[derive(Clone, Copy, Debug, PartialEq, Eq)]
pub enum Until {
    /// Each job that was drawn has begun, so the call returns at once.
    Begun,
    /// A job has ended, or the bell has rung, since the call began.
    Freed,
    /// No job is under way.
    Ended,
}
