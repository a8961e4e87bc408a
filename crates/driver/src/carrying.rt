//! How a worker carries out one job.

ghost use Rattle.exchange.specs.Dialling.{failed_turns};
ghost use Rattle.std.specs.Prelude.{◌≡◌, ◌+◌, ◌<◌, ◌≤◌, length, IfOk, IsSomeAnd, slice_get};
ghost use Rattle.exchange.specs.Worlds.{world_of};
ghost use Rattle.exchange.specs.Carrying.{EndsItsDials};
ghost use Rattle.driver.specs.Results.{IsResultAt, CarriesOutAt};
ghost use Rattle.driver.specs.Quits.{QuitsOn, answer_at};

use crate::context::RunContext;
use crate::control::WorkerControl;
use crate::gate::Gate;
use crate::quit::Quit;
use crate::stopped::Stopped;
use cache_trait::Cache;
use exchange::{Clock, Dial, Done, JobRunner, JobStop, Wire};
use std::sync::Wait;

/// Carries out the job of that number: how it ended.
pub(crate) fn carry_job<W: Wire, C: Cache<W>, D: Dial<W>, K: Clock, G: Gate, R: Wait>(
    rt: &R,
    shared: &RunContext<'_, K, G>,
    runner: &mut JobRunner,
    cache: &mut C,
    dial: &mut D,
    number: u64,
) -> Result<Done, Quit>
    requires there { number < length shared.now.jobs.now }
    ensures ok { IfOk result (IsResultAt (world_of W.untouched W.happened (K.tells
        shared.now.clock.now)) (G.may_stop shared.now.gate.now) shared.now.jobs.now number) }
    ensures carried { IfOk result (CarriesOutAt C.did (world_of W.untouched W.happened (K.tells
        shared.now.clock.now)) shared.now.jobs.now number cache.old cache.new) }
    ensures home { C.home cache.new ≡ C.home cache.old }
    ensures opens { (D.shown dial.new).opened ≤ (D.shown dial.old).opened + 1 }
    ensures turns { QuitsOn result (failed_turns D.shown dial.old) (failed_turns D.shown dial.new) }
    ensures begun { IsSomeAnd (slice_get shared.now.jobs.now number) (λ job.
        EndsItsDials (D.shown dial.old) (D.shown dial.new) job.want.transfer) }
{
    let job = &shared.jobs[number as usize];
    let control = WorkerControl { rt, shared, number };
    let Ok(ran) = runner.run(job, cache, dial, shared.clock, &control) else {
        return Err(Quit::Memory);
    };
    shared.bell.ring();
    shared.gate.after(number);
    answer(ran.done, ran.stop)
}

// How a job ended, or why its worker gives up, if the job stopped so.
fn answer(done: Done, stop: Option<JobStop<Stopped>>) -> Result<Done, Quit>
    ensures { result ≡ answer_at done stop }
{
    match stop {
        None | Some(JobStop::Control(Stopped::Gate)) => Ok(done),
        Some(JobStop::Control(Stopped::Told)) => Err(Quit::Told),
        Some(JobStop::TurnFailed) => Err(Quit::Poll),
    }
}
