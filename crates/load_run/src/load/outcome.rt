//! Outcomes of loads.

ghost use Rattle.std.specs.Prelude.{◌≡◌, IfOk};
ghost use Rattle.load_run.specs.LoadStatuses.{status_after};

use crate::load::failure::LoadFailure;
use commands::Status;
use std::alloc::{AllocError, Global};

/// The outcome of a load that was carried out.
#[derive(Debug, Drop)]
pub struct LoadOutcome {
    /// The text for standard output: a report, or JSON.
    pub report: String,
    /// The text for standard error: nothing, a summary, or the reason why the load failed.
    pub note: String,
    /// The status with which the program ends, if the report is written whole.
    pub status: u8,
}

impl LoadOutcome {
    /// Returns the outcome after a file was written, or was not. A failure is added to the note,
    /// and the status becomes 4 unless it is another failure's.
    ///
    /// # Errors
    ///
    /// There is no memory for the note.
    pub(crate) fn after_write(
        self,
        alloc: Global,
        written: Result<(), LoadFailure>,
    ) -> Result<LoadOutcome, AllocError>
        ensures report { IfOk result (λ outcome. outcome.report ≡ self.report) }
        ensures status { IfOk result (λ outcome.
            outcome.status ≡ status_after written self.status) }
    {
        let Err(failure) = written else {
            return Ok(self);
        };
        let LoadOutcome {
            report,
            mut note,
            status,
        } = self;
        let line = format!(in alloc; "run: {failure}\n")?;
        note.push_str(line.as_str())?;
        Ok(LoadOutcome {
            report,
            note,
            status: if status == 0 {
                Status::Failed.code()
            } else {
                status
            },
        })
    }
}
