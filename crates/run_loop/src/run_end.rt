//! How a run ends.

ghost use Rattle.std.specs.Prelude.{◌≡◌};
ghost use Rattle.run_loop.specs.Going.{is_complete, is_fault, badness, worse_end};

/// How a run ends.
#[derive(Clone, Copy, Debug, PartialEq, Eq)]
pub enum RunEnd {
    /// No job is left, and each that was drawn has ended.
    Complete,
    /// The timer ended it.
    Stopped,
    /// A turn of the dial failed.
    TurnFailed,
    /// The timer broke it off, for a fault elsewhere.
    BrokenOff,
}

impl RunEnd {
    /// Whether no job is left.
    pub fn is_complete(self) -> bool
        ensures { result ≡ is_complete self }
    {
        matches!(self, RunEnd::Complete)
    }

    /// Whether a fault ended it, here or elsewhere.
    pub fn is_fault(self) -> bool
        ensures { result ≡ is_fault self }
    {
        matches!(self, RunEnd::TurnFailed | RunEnd::BrokenOff)
    }

    /// The worse of two ends: a failed turn is worse than that a run was broken off, which is worse
    /// than that it was stopped, and no end is better than to be complete.
    pub fn or_worse(self, other: RunEnd) -> RunEnd
        ensures { result ≡ worse_end self other }
    {
        if self.badness() <= other.badness() {
            other
        } else {
            self
        }
    }

    /// How bad it is to end so: 0 is to be complete.
    fn badness(self) -> u8
        ensures { result ≡ badness self }
    {
        match self {
            RunEnd::Complete => 0,
            RunEnd::Stopped => 1,
            RunEnd::BrokenOff => 2,
            RunEnd::TurnFailed => 3,
        }
    }
}
