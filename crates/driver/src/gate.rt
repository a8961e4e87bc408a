//! What is told of each job while threads carry out jobs, and may end it.

ghost use Rattle.std.specs.Bool.{OnTrue};

/// What hears of each job, and may end it. All workers call it, each for the jobs that it drew.
///
/// The ghost member tells contracts which jobs it may end.
pub trait Gate {
    ghost use Rattle.std.specs.Prelude.{ℕ};
    ghost use Rattle.std.specs.Bool.{OnTrue};

    /// It may end the job of that number.
    ghost may_stop: { Self → ℕ → Type 0 };

    /// The job of that number will begin.
    fn before(&self, job: u64);

    /// The job of that number has ended, and holds nothing.
    fn after(&self, job: u64);

    /// Whether the job of that number is to end now: its transfer is cancelled. It is asked before
    /// each poll of the transfer, and after each turn of its dial and each park.
    fn stop(&self, job: u64) -> bool
        ensures { OnTrue result (may_stop self.now job) };
}

/// A gate that ends no job.
#[derive(Clone, Copy, Debug)]
pub struct NoGate;

impl Gate for NoGate {
    ghost may_stop = { λ gate job. ⊥ };

    fn before(&self, _job: u64) {}

    fn after(&self, _job: u64) {}

    fn stop(&self, _job: u64) -> bool {
        false
    }
}
