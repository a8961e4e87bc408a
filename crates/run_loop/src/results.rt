//! What takes the results of a run.

use exchange::{Done, Phases, Reason};

/// When a job was under way, in microseconds of the run's timer, and what else its transfer tells.
#[derive(Clone, Copy, Debug, PartialEq, Eq)]
pub struct Span {
    /// The moment at which it began.
    pub began: u64,
    /// The moment at which it had ended, not below any of its phases.
    pub ended: u64,
    /// The moments of its transfer, by the same timer.
    pub phases: Phases,
    /// Why its connection failed, if it ended by that and the system said why.
    pub reason: Option<Reason>,
    /// A new connection was asked for, to try its request once more: the first was reused, and
    /// failed or was ended before any byte of a response.
    pub retried: bool,
}

/// What takes the results of a run, each once. It takes no memory for one: a count, a place in a
/// list, or a line that is printed.
///
/// The ghost member tells contracts which result was taken.
pub trait Results {
    ghost use Rattle.std.specs.Prelude.{ℕ};
    ghost use Rattle.exchange.specs.declared.done.Done.{Done};
    ghost use Rattle.run_loop.specs.declared.results.Span.{Span};

    /// From the one time to the other the result of the job of that number was taken, with that
    /// span, and nothing else was.
    ghost took: { Self → Self → ℕ → Done → Span → Type 0 };

    /// Takes how the job of that number ended, and the span in which it was under way.
    fn take(&mut self, number: u64, done: Done, span: Span)
        ensures { took self.old self.new number done span };
}
