//! Carries out a load, and writes its report.

ghost use Rattle.std.specs.Prelude.{◌≡◌};
ghost use Rattle.load_run.specs.LoadTexts.{RunsLoad};
ghost use Rattle.streams.specs.Streams.{CanCount};

use commands::{LoadPlan, Status};
use load_run::{LoadFailure, LoadFault, LoadOutcome};
use std::alloc::{AllocError, Global};
use std::io::Write;
use streams::{Sink, StreamFault};

/// Runs a load by `load`, and writes its report to `output` and its note, or the reason why there
/// is no report, to `errors`. Returns the status: the load's if the report was written whole, else
/// 4.
pub fn run_load<L: FnOnce(Global, LoadPlan) -> Result<LoadOutcome, LoadFailure>, W: Sink, E: Write>(
    alloc: Global,
    plan: LoadPlan,
    load: L,
    output: &mut W,
    errors: &mut E,
) -> u8
    requires output { CanCount (W.sink output.old) }
    requires load { L.IsAlwaysCallable load }
    ensures { RunsLoad (L.post load alloc) plan
        (W.sink output.old) (W.sink output.new) result }
{
    match load(alloc, plan) {
        Ok(outcome) => {
            let _ = errors.write_all(outcome.note.as_bytes());
            match output.put(outcome.report.as_bytes()) {
                Ok(()) => outcome.status,
                Err(StreamFault::Memory) => failed(errors, AllocError.into()),
                Err(_) => failed(errors, LoadFault::Write.into()),
            }
        }
        Err(failure) => failed(errors, failure),
    }
}

/// Writes the reason why there is no report, and returns the status.
fn failed<E: Write>(errors: &mut E, failure: LoadFailure) -> u8
    ensures { result ≡ 4 }
{
    let _ = writeln!(errors, "run: {failure}");
    Status::Failed.code()
}
