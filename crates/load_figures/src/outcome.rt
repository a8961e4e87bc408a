//! What a job's end means to a load.

ghost use Rattle.std.specs.Prelude.{◌≡◌};
ghost use Rattle.load_figures.specs.Outcomes.{outcome_of};

use exchange::{Done, Fault};

/// The least status that is an error.
const LEAST_ERROR_STATUS: u16 = 400;

/// What a job's end means to a load.
#[derive(Clone, Copy, Debug, PartialEq, Eq)]
pub enum Outcome {
    /// It was done.
    Good,
    /// It was done, and failed.
    Failed,
    /// It was cancelled as the load ended: it was neither done nor did it fail.
    Stopped,
}

/// What a job's end means to a load. It failed if it has no whole response, or if
/// `fails_statuses` and the response's status is 400 or greater. A job that was cancelled is
/// stopped, but failed if it had taken as long as the time limit. `took_us` are the microseconds
/// from when the job was drawn to its end; `timeout_us` is the time limit in microseconds, 0 for
/// none.
pub fn outcome_of(done: &Done, took_us: u64, timeout_us: u64, fails_statuses: bool) -> Outcome
    ensures { result ≡ outcome_of done.now took_us timeout_us fails_statuses }
{
    match done {
        Done::Good(answer) if fails_statuses && answer.status >= LEAST_ERROR_STATUS => {
            Outcome::Failed
        }
        Done::Good(_) => Outcome::Good,
        Done::Bad(Fault::Cancelled) if timeout_us == 0 || took_us < timeout_us => Outcome::Stopped,
        Done::Bad(_) => Outcome::Failed,
    }
}
