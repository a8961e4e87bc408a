//! Runs jobs one after another.

ghost use Rattle.std.specs.Prelude.{◌≡◌, ◌<◌, ℕ, length, IfOk, OnErr, ⊤};
ghost use Rattle.std.specs.Option.{ForSome};
ghost use Rattle.exchange.specs.Answers.{IsPrepared, IsSameJob};
ghost use Rattle.exchange.specs.Worlds.{world_of};
ghost use Rattle.exchange.specs.Owning.{IsReady, Owns};
ghost use Rattle.exchange.specs.Dialling.{failed_turns};
ghost use Rattle.exchange.specs.Exchanging.{Continues, IsFinished, OpensFew, BeginsItsOwn};
ghost use Rattle.exchange.specs.Carrying.{EndsItsDials, RunsJob, StopsBy, CountsStop};

use crate::job::{Job, Prepared};
use crate::job_control::JobControl;
use crate::job_run::{JobRun, JobStop};
use crate::state::Stage;
use crate::transfer::Transfer;
use crate::wire::{Clock, Dial, Turned, Wire};
use cache_trait::Cache;
use futures::task::Solo;
use std::alloc::{AllocError, Global};
use std::time::Duration;

/// Runs jobs one after another. The memory of one job serves the next.
#[derive(Drop)]
pub struct JobRunner {
    alloc: Global,
    task: Solo,
    spare: Option<Prepared>,
    ghost buffer: { ForSome spare (λ parts. 0 < length parts.buffer.items) },
}

impl JobRunner {
    /// A runner that has run no job. Its polls are those of the task.
    pub fn new(alloc: Global, task: Solo) -> JobRunner {
        JobRunner {
            alloc,
            task,
            spare: None,
        }
    }

    /// Carries out a job: polls its transfer until it has ended, the control stops it, or a turn of
    /// the dial fails. A transfer that was stopped is cancelled. A run opens one connection at
    /// most, and leaves nothing begun for its job at the dial.
    ///
    /// # Errors
    ///
    /// There is no memory to prepare the job. Nothing was done at the cache and the dial then.
    pub fn run<W: Wire, C: Cache<W>, D: Dial<W>, K: Clock, J: JobControl>(
        &mut self,
        job: &Job,
        cache: &mut C,
        dial: &mut D,
        clock: &K,
        control: &J,
    ) -> Result<JobRun<J::Reason>, AllocError>
        ensures runs { IfOk result (RunsJob C.did (world_of W.untouched W.happened (K.tells
            clock.now)) (J.stops_for control.now) job.now cache.old cache.new) }
        ensures home { C.home cache.new ≡ C.home cache.old }
        ensures dials { EndsItsDials (D.shown dial.old) (D.shown dial.new) job.now.want.transfer }
        ensures turns { IfOk result (λ ran. CountsStop ran.stop (failed_turns D.shown dial.old)
            (failed_turns D.shown dial.new)) }
        ensures nothing { OnErr result ((cache.new ≡ cache.old) × (dial.new ≡ dial.old)) }
    {
        let parts = self.prepared(job)?;
        control.begin();
        let mut transfer = Transfer::new(parts);
        let stop = poll_to_its_end(&self.task, &mut transfer, cache, dial, clock, control);
        let now = clock.now();
        let (done, used) = transfer.close(now, cache, dial);
        let retried = used.retried();
        self.spare = Some(used);
        Ok(JobRun {
            done,
            retried,
            stop,
        })
    }

    // The job with the memory for it, that of the last one if there was one.
    fn prepared(&mut self, job: &Job) -> Result<Prepared, AllocError>
        ensures { IfOk result (IsPrepared job.now) }
    {
        match self.spare.take() {
            None => Prepared::new(self.alloc, job),
            Some(used) => match used.again(job) {
                Ok(parts) => Ok(parts),
                Err((parts, error)) => {
                    self.spare = Some(parts);
                    Err(error)
                }
            },
        }
    }
}

// Polls a transfer until it has ended, or is to stop; why it is to stop, if it is.
fn poll_to_its_end<W: Wire, C: Cache<W>, D: Dial<W>, K: Clock, J: JobControl>(
    task: &Solo,
    transfer: &mut Transfer<W>,
    cache: &mut C,
    dial: &mut D,
    clock: &K,
    control: &J,
) -> Option<JobStop<J::Reason>>
    requires owns { Owns (C.home cache.old) transfer.old.parts transfer.old.state }
    requires ready { IsReady transfer.old.parts }
    ensures stops { StopsBy (J.stops_for control.now) (IsFinished transfer.new.state) result }
    ensures home { C.home cache.new ≡ C.home cache.old }
    ensures owns { Owns (C.home cache.new) transfer.new.parts transfer.new.state }
    ensures ready { IsReady transfer.new.parts }
    ensures same_job { IsSameJob transfer.old.parts transfer.new.parts }
    ensures story { Continues C.did (world_of W.untouched W.happened (K.tells clock.now))
        transfer.old.parts transfer.new.parts cache.old cache.new transfer.old.state
        transfer.new.state }
    ensures opens { OpensFew transfer.old.parts transfer.new.parts transfer.old.state
        transfer.new.state (D.shown dial.old).opened (D.shown dial.new).opened }
    ensures begun { BeginsItsOwn (D.shown dial.old).begun (D.shown dial.new).begun
        transfer.old.parts.want.transfer transfer.old.state transfer.new.state }
    ensures turns { CountsStop result (failed_turns D.shown dial.old)
        (failed_turns D.shown dial.new) }
{
    for _ in 0..u64::MAX {
        if let Some(reason) = control.stop_before_poll() {
            return Some(JobStop::Control(reason));
        }
        let rings = control.rings();
        let mut context = task.begin();
        let polled = transfer.poll(&mut context, cache, dial, clock);
        context.end(&polled);
        if polled.is_ready() {
            return None;
        }
        if let Some(stop) = wait(dial, control, transfer.waits_on(), rings) {
            return Some(stop);
        }
    }
    Some(JobStop::Control(control.stop_at_last()))
}

// Waits for what may bring a transfer on, for a grant or by a turn of the dial's event loop; why it
// is to stop, if it is.
fn wait<W: Wire, D: Dial<W>, J: JobControl>(
    dial: &mut D,
    control: &J,
    stage: Stage,
    rings: u64,
) -> Option<JobStop<J::Reason>>
    ensures stops { StopsBy (J.stops_for control.now) ⊤ result }
    ensures opens { (D.shown dial.new).opened ≡ (D.shown dial.old).opened }
    ensures begun { (other : ℕ) → (D.shown dial.new).begun other →
        (D.shown dial.old).begun other }
    ensures still_begun { (other : ℕ) → (D.shown dial.old).begun other →
        (D.shown dial.new).begun other }
    ensures turns { CountsStop result (failed_turns D.shown dial.old)
        (failed_turns D.shown dial.new) }
{
    if let Some(reason) = control.stop_after_poll() {
        return Some(JobStop::Control(reason));
    }
    match stage {
        Stage::Turn => None,
        Stage::Grant => {
            control.wait_for_grant(rings);
            None
        }
        Stage::Dialling | Stage::Sending | Stage::Reading => match dial.turn(Duration::MAX) {
            Turned::Done => None,
            Turned::Fault => Some(JobStop::TurnFailed),
        },
    }
}
