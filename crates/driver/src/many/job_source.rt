//! Where the jobs of a run come from.

use exchange::Prepared;

/// Where the jobs of a run come from, for all its workers: each job is prepared by its number, for
/// the worker that drew it. Workers are numbered from 0, in the order of their tools.
///
/// In contracts, the ghost member is the job of each number, for each worker.
pub trait JobSource {
    ghost use Rattle.std.specs.Prelude.{◌≡◌, ℕ, ◌<◌, length, IfOk, IfErr, IfSome};
    ghost use Rattle.exchange.specs.declared.job.Job.{Job};
    ghost use Rattle.exchange.specs.Answers.{IsPrepared};

    /// The job of that number, for that worker.
    ghost job_at: { Self → ℕ → ℕ → Job };

    /// The moment before which the job of that number does not begin, in microseconds, as the
    /// run's timer counts them.
    fn due(&self, number: u64) -> u64;

    /// Prepares the job of that number for that worker, in the memory of another one if that is
    /// handed in.
    ///
    /// # Errors
    ///
    /// There is no memory for it. The memory of the other one comes back.
    fn prepare(
        &self,
        worker: usize,
        number: u64,
        spare: Option<Prepared>,
    ) -> Result<Prepared, Option<Prepared>>
        requires room { IfSome spare (λ parts. 0 < length parts.buffer.items) }
        ensures ok { IfOk result (IsPrepared (job_at self.now worker number)) }
        ensures number { IfOk result (λ parts. parts.want.transfer ≡ number) }
        ensures err { IfErr result (λ left.
            IfSome left (λ parts. 0 < length parts.buffer.items)) };
}
