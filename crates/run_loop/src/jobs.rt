//! Where a run's jobs come from.

use exchange::Prepared;

/// What a draw of a job answers.
#[derive(Clone, Copy, Debug, PartialEq, Eq)]
pub enum Draw {
    /// The number of a job that is due.
    Job(u64),
    /// No job is due before that moment, in microseconds.
    Later(u64),
    /// No job is left.
    Over,
}

/// Where a run's jobs come from: their numbers are drawn, in rising order, and each job is prepared
/// by its number. A job's number is that of its transfer.
///
/// The ghost members tell contracts the job of each number, which stays, the numbers that were
/// drawn, in this order, whether no job is left, whether no number is set aside, and what else of
/// them stays.
pub trait Jobs {
    ghost use Rattle.std.specs.Prelude.{◌≡◌, ℕ, ◌<◌, List, length, IfOk, IfErr, IfSome};
    ghost use Rattle.exchange.specs.declared.job.Job.{Job};
    ghost use Rattle.exchange.specs.Answers.{IsPrepared};
    ghost use Rattle.run_loop.specs.Drawing.{DrawsNumber, drawn_number, IfOver};

    /// The job of that number.
    ghost job_at: { Self → ℕ → Job };

    /// The numbers that were drawn, in this order.
    ghost drawn: { Self → List ℕ };

    /// No job is left.
    ghost is_over: { Self → Type 0 };

    /// No number of a job that was not due yet is set aside.
    ghost holds_none: { Self → Type 0 };

    /// What else draws leave as it is.
    ghost Kept: { Type 0 } = { Unit {0} };

    ghost kept: { Self → Self.Kept };

    /// Draws the number of the next job, if one is due at that moment, in microseconds.
    fn draw(&mut self, now: u64) -> Draw
        ensures draws { DrawsNumber (drawn_number result) (drawn self.old) (drawn self.new) }
        ensures over { IfOver result (is_over self.new) }
        ensures same { job_at self.new ≡ job_at self.old }
        ensures kept { kept self.new ≡ kept self.old };

    /// Draws the number of a job that was set aside since it was not due yet, if there is one.
    fn draw_early(&mut self) -> Option<u64>
        ensures draws { DrawsNumber result (drawn self.old) (drawn self.new) }
        ensures none { holds_none self.new }
        ensures same { job_at self.new ≡ job_at self.old }
        ensures kept { kept self.new ≡ kept self.old };

    /// Prepares the job of that number, in the memory of another one if that is handed in.
    ///
    /// # Errors
    ///
    /// There is no memory for it. The memory of the other one comes back.
    fn prepare(&self, number: u64, spare: Option<Prepared>) -> Result<Prepared, Option<Prepared>>
        requires room { IfSome spare (λ parts. 0 < length parts.buffer.items) }
        ensures ok { IfOk result (IsPrepared (job_at self.now number)) }
        ensures number { IfOk result (λ parts. parts.want.transfer ≡ number) }
        ensures err { IfErr result (λ left.
            IfSome left (λ parts. 0 < length parts.buffer.items)) };
}
