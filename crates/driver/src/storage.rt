//! The storage of a run, which is allocated before it begins, and its workers.

ghost use Rattle.exchange.specs.Dialling.{failed_turns};
ghost use Rattle.std.specs.Prelude.{◌≡◌, ◌+◌, ◌≤◌, length, IfOk, IfErr, []};
ghost use Rattle.std.specs.Prelude.{vec_len, vec_capacity};
ghost use Rattle.std.specs.List.{All, sum_by};
ghost use Rattle.budget.specs.Words.{whole};
ghost use Rattle.run_loop.specs.Draws.{first_seat};
ghost use Rattle.shared_cache.specs.Passes.{IsPassOf, IsNewPass};
ghost use Rattle.driver.specs.Hiring.{IsHired};
ghost use Rattle.driver.specs.Turns.{failed_of};

use crate::fault::DriverFault;
use crate::worker::Worker;
use budget::Pass;
use bundle::Did;
use exchange::{Dial, Done, Fault, JobRunner, Wire};
use futures::task::{Doorbell, Solo};
use run_loop::{JobCounter, JobSeat};
use shared_cache::{Names, SharedCache};
use std::alloc::{AllocError, AllocGlobal, Global};
use std::random::RandomSource;
use std::sync::Wait;

/// The most jobs of a run: the counter has no more numbers.
pub(crate) const MOST_JOBS: u64 = 0x7fff_ffff_ffff_ffff;

/// The storage of a run, which is allocated before it begins.
pub(crate) struct RunStorage<'d, W: Wire, D: Dial<W>> {
    pub(crate) claim: JobCounter,
    pub(crate) seat: JobSeat,
    // The result of each job.
    pub(crate) results: Vec<Done>,
    // A task for each worker.
    pub(crate) tasks: Vec<Solo>,
    // Empty, with room for all workers.
    pub(crate) workers: Vec<Worker<'d, W, D>>,
}

impl<'d, W: Wire, D: Dial<W>> RunStorage<'d, W, D> {
    /// Allocates storage for that number of jobs and of workers.
    ///
    /// # Errors
    ///
    /// An allocation failed, or the system gives no random number.
    pub(crate) fn new<R: RandomSource + AllocGlobal>(
        rt: &R,
        alloc: Global,
        jobs: usize,
        count: usize,
    ) -> Result<Self, AllocError>
        ensures claim { IfOk result (λ room. room.claim.jobs ≡ jobs) }
        ensures seat { IfOk result (λ room. room.seat ≡ first_seat room.claim) }
        ensures results { IfOk result (λ room. vec_len room.results ≡ jobs) }
        ensures tasks { IfOk result (λ room. vec_len room.tasks ≡ count) }
        ensures workers { IfOk result (λ room. room.workers.items ≡ []) }
        ensures capacity { IfOk result (λ room. count ≤ vec_capacity room.workers) }
    {
        let count_of_jobs = jobs as u64;
        if count_of_jobs > MOST_JOBS {
            return Err(AllocError);
        }
        let (claim, seat) = JobCounter::new(alloc, count_of_jobs)?;
        let results = vec![in alloc; Done::Bad(Fault::Cancelled); jobs]?;
        let tasks = tasks_for(rt, alloc, count)?;
        let workers = Vec::with_capacity(alloc, count)?;
        Ok(RunStorage {
            claim,
            seat,
            results,
            tasks,
            workers,
        })
    }
}

/// Makes that number of tasks.
pub(crate) fn tasks_for<R: RandomSource + AllocGlobal>(
    rt: &R,
    alloc: Global,
    count: usize,
) -> Result<Vec<Solo>, AllocError>
    ensures { IfOk result (λ tasks. vec_len tasks ≡ count) }
{
    let mut tasks = Vec::with_capacity(alloc, count)?;
    for _ in 0..count {
        let Ok(task) = Solo::new(rt, Doorbell::spinning()) else {
            return Err(AllocError);
        };
        tasks.push_reserved(task);
    }
    Ok(tasks)
}

/// Makes that number of passes. If an allocation fails, the passes made before come back.
pub(crate) fn passes_for<S: Drop, N: Names, R: Wait>(
    rt: &R,
    alloc: Global,
    cache: &SharedCache<S, N>,
    count: usize,
) -> Result<Vec<Pass<Did>>, (DriverFault, Vec<Pass<Did>>)>
    ensures number { IfOk result (λ passes. vec_len passes ≡ count) }
    ensures passes { IfOk result (λ passes. All (IsPassOf N.names) passes.items) }
    ensures new_passes { IfOk result (λ passes. All IsNewPass passes.items) }
    ensures err { IfErr result (λ refused. (refused.0 ≡ DriverFault.Memory)
        × All (IsPassOf N.names) refused.1.items) }
    ensures fewer { IfErr result (λ refused. vec_len refused.1 ≤ count) }
{
    let Ok(passes) = Vec::with_capacity(alloc, count) else {
        return Err((DriverFault::Memory, Vec::new(alloc)));
    };
    let mut passes = passes;
    for _ in 0..count {
        let Ok(pass) = cache.pass(rt, alloc) else {
            return Err((DriverFault::Memory, passes));
        };
        passes.push_reserved(pass);
    }
    Ok(passes)
}

/// Makes a worker for each dial, with a pass, a task and a seat of its own. The vector of the
/// passes comes back empty.
pub(crate) fn hire<'d, W: Wire, N: Names, D: Dial<W>>(
    alloc: Global,
    claim: &JobCounter,
    seat: &mut JobSeat,
    dials: &'d mut [D],
    passes: Vec<Pass<Did>>,
    tasks: Vec<Solo>,
    workers: &mut Vec<Worker<'d, W, D>>,
) -> Vec<Pass<Did>>
    requires few { length dials.old ≤ 64 }
    requires claim { seat.old ≡ first_seat claim.now }
    requires passes { All (IsPassOf N.names) passes.items }
    requires new_passes { All IsNewPass passes.items }
    requires passes_number { vec_len passes ≡ length dials.old }
    requires tasks { vec_len tasks ≡ length dials.old }
    requires no_workers { workers.old.items ≡ [] }
    requires room { length dials.old ≤ vec_capacity workers.old }
    ensures workers { All (IsHired N.names claim.now) workers.new.items }
    ensures number { vec_len workers.new ≡ length dials.old }
    ensures turns { sum_by failed_of workers.new.items ≡ sum_by (failed_turns D.shown) dials.old }
    ensures seat { seat.new ≡ record (first_seat claim.now) { share = seat.new.share } }
    ensures share { seat.new.share + length dials.old ≡ whole }
    ensures none { result.items ≡ [] }
    ensures room { length dials.old ≤ vec_capacity result }
{
    let mut passes = passes;
    let mut tasks = tasks;
    for dial in dials {
        let Some(pass) = passes.pop() else {
            unreachable!()
        };
        let Some(task) = tasks.pop() else {
            unreachable!()
        };
        let seat = claim.split(seat);
        let runner = JobRunner::new(alloc, task);
        workers.push_reserved(Worker::new(alloc, runner, dial, seat, pass));
    }
    passes
}
