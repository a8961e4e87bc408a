//! What a run with many jobs at once keeps, made before it begins.

ghost use Rattle.exchange.specs.Dialling.{failed_turns};
ghost use Rattle.std.specs.Prelude.{◌≡◌, ◌+◌, ◌<◌, ◌≤◌, reverse, vec_len, []};
ghost use Rattle.std.specs.Prelude.{vec_capacity};
ghost use Rattle.std.specs.Prelude.{IfOk};
ghost use Rattle.std.specs.List.{All};
ghost use Rattle.budget.specs.Words.{whole};
ghost use Rattle.run_loop.specs.Draws.{first_seat};
ghost use Rattle.shared_cache.specs.Passes.{IsPassOf, IsNewPass};
ghost use Rattle.driver.specs.ManyWork.{IsHiredLoop, AllBegin, handed_in};

use crate::many::worker::{Finished, LoopWorker, Ready, Tools};
use crate::storage::{MOST_JOBS, tasks_for};
use budget::Pass;
use bundle::{Did, MOST_HOSTS};
use exchange::{Dial, Wire};
use futures::task::Solo;
use run_loop::{JobCounter, JobSeat, RunLoop};
use shared_cache::Names;
use std::alloc::{AllocError, AllocGlobal, Global};
use std::random::RandomSource;

/// What a run keeps, made before it begins.
pub(crate) struct ManyStorage<W: Wire, D: Dial<W>, F> {
    pub(crate) claim: JobCounter,
    pub(crate) seat: JobSeat,
    /// One for each worker, with its share of the places.
    pub(crate) loops: Vec<RunLoop<W>>,
    /// None yet, with room for all.
    pub(crate) workers: Vec<LoopWorker<W, D, F>>,
    pub(crate) finished: Vec<Finished<D, F>>,
}

/// The storage of a run and its workers, which have not begun.
pub(crate) struct HiredRun<W: Wire, D: Dial<W>, F> {
    pub(crate) claim: JobCounter,
    /// It has drawn nothing. The workers' seats were split from it.
    pub(crate) seat: JobSeat,
    pub(crate) workers: Vec<LoopWorker<W, D, F>>,
    /// None yet, with room for all.
    pub(crate) finished: Vec<Finished<D, F>>,
}

impl<W: Wire, D: Dial<W>, F> ManyStorage<W, D, F> {
    /// For so many jobs, workers and places.
    ///
    /// The error is want of memory, or of random numbers.
    pub(crate) fn new<R: RandomSource + AllocGlobal>(
        rt: &R,
        alloc: Global,
        jobs: u64,
        count: usize,
        places: usize,
    ) -> Result<Self, AllocError>
        requires some { 0 < count }
        ensures claim { IfOk result (λ room. room.claim.jobs ≡ jobs) }
        ensures seat { IfOk result (λ room. room.seat ≡ first_seat room.claim) }
        ensures loops { IfOk result (λ room. vec_len room.loops ≡ count) }
        ensures empty { IfOk result (λ room. All (λ it. it.slab.slots ≡ [])
            room.loops.items) }
        ensures workers { IfOk result (λ room. room.workers.items ≡ []) }
        ensures finished { IfOk result (λ room. room.finished.items ≡ []) }
        ensures capacity { IfOk result (λ room. (count ≤ vec_capacity room.workers)
            × (count ≤ vec_capacity room.finished)) }
    {
        if jobs > MOST_JOBS {
            return Err(AllocError);
        }
        let (claim, seat) = JobCounter::new(alloc, jobs)?;
        let tasks = tasks_for(rt, alloc, count)?;
        let workers = Vec::with_capacity(alloc, count)?;
        let Ok(finished) = Vec::with_capacity(alloc, count) else {
            workers.destroy_empty();
            return Err(AllocError);
        };
        let Ok(loops) = loops_for(alloc, tasks, places) else {
            workers.destroy_empty();
            finished.destroy_empty();
            return Err(AllocError);
        };
        Ok(ManyStorage {
            claim,
            seat,
            loops,
            workers,
            finished,
        })
    }

    /// Makes a worker for each of these tools, each with one of the passes.
    pub(crate) fn hire<N: Names>(
        self,
        tools: Vec<Tools<D, F>>,
        passes: Vec<Pass<Did>>,
    ) -> HiredRun<W, D, F>
        requires few { vec_len tools ≤ 64 }
        requires seat { self.seat ≡ first_seat self.claim }
        requires loops { All (λ it. it.slab.slots ≡ []) self.loops.items }
        requires loops_number { vec_len self.loops ≡ vec_len tools }
        requires passes { All (IsPassOf N.names) passes.items }
        requires new_passes { All IsNewPass passes.items }
        requires passes_number { vec_len passes ≡ vec_len tools }
        requires no_workers { self.workers.items ≡ [] }
        requires none_finished { self.finished.items ≡ [] }
        requires room { (vec_len tools ≤ vec_capacity self.workers)
            × (vec_len tools ≤ vec_capacity self.finished) }
        ensures jobs { result.claim.jobs ≡ self.claim.jobs }
        ensures hired { All (IsHiredLoop N.names result.claim) result.workers.items }
        ensures begun { AllBegin (reverse (handed_in (failed_turns D.shown) tools.items))
            result.workers.items }
        ensures number { vec_len result.workers ≡ vec_len tools }
        ensures seat { result.seat ≡ record (first_seat result.claim)
            { share = result.seat.share } }
        ensures share { result.seat.share + vec_len result.workers ≡ whole }
        ensures finished { result.finished.items ≡ [] }
        ensures capacity { vec_len result.workers ≤ vec_capacity result.finished }
    {
        let ManyStorage {
            claim,
            mut seat,
            loops,
            mut workers,
            finished,
        } = self;
        hire_all::<W, N, D, F>(&claim, &mut seat, tools, loops, passes, &mut workers);
        HiredRun {
            claim,
            seat,
            workers,
            finished,
        }
    }
}

/// How many places that worker has, of so many in all: the first ones have one more if they can't
/// be shared out evenly.
fn places_of(worker: usize, workers: usize, places: usize) -> usize
    requires { 0 < workers }
{
    let each = places / workers;
    if worker < places % workers {
        each + 1
    } else {
        each
    }
}

/// A loop for each task, with its share of the places.
fn loops_for<W: Wire>(
    alloc: Global,
    tasks: Vec<Solo>,
    places: usize,
) -> Result<Vec<RunLoop<W>>, AllocError>
    ensures number { IfOk result (λ loops. vec_len loops ≡ vec_len tasks) }
    ensures empty { IfOk result (λ loops. All (λ it. it.slab.slots ≡ []) loops.items) }
{
    let mut tasks = tasks;
    let count = tasks.len();
    let mut loops = Vec::with_capacity(alloc, count)?;
    while let Some(task) = tasks.pop() {
        let share = places_of(tasks.len(), count, places);
        match RunLoop::new(alloc, share, MOST_HOSTS as usize, task) {
            Ok(made) => loops.push_reserved(made),
            Err(error) => {
                destroy_all(loops);
                return Err(error);
            }
        }
    }
    Ok(loops)
}

/// Ends loops in which nothing is under way.
fn destroy_all<W: Wire>(loops: Vec<RunLoop<W>>)
    requires { All (λ it. it.slab.slots ≡ []) loops.items }
{
    let mut loops = loops;
    while let Some(last) = loops.pop() {
        last.destroy_empty();
    }
    loops.destroy_empty();
}

// Makes a worker for each of the tools, each with its loop, its seat and its pass.
fn hire_all<W: Wire, N: Names, D: Dial<W>, F>(
    claim: &JobCounter,
    seat: &mut JobSeat,
    tools: Vec<Tools<D, F>>,
    loops: Vec<RunLoop<W>>,
    passes: Vec<Pass<Did>>,
    workers: &mut Vec<LoopWorker<W, D, F>>,
)
    requires few { vec_len tools ≤ 64 }
    requires claim { seat.old ≡ first_seat claim.now }
    requires loops { All (λ it. it.slab.slots ≡ []) loops.items }
    requires loops_number { vec_len loops ≡ vec_len tools }
    requires passes { All (IsPassOf N.names) passes.items }
    requires new_passes { All IsNewPass passes.items }
    requires passes_number { vec_len passes ≡ vec_len tools }
    requires no_workers { workers.old.items ≡ [] }
    requires room { vec_len tools ≤ vec_capacity workers.old }
    ensures hired { All (IsHiredLoop N.names claim.now) workers.new.items }
    ensures begun { AllBegin (reverse (handed_in (failed_turns D.shown) tools.items))
        workers.new.items }
    ensures number { vec_len workers.new ≡ vec_len tools }
    ensures seat { seat.new ≡ record (first_seat claim.now) { share = seat.new.share } }
    ensures share { seat.new.share + vec_len tools ≡ whole }
{
    let mut tools = tools;
    let mut loops = loops;
    let mut passes = passes;
    while let Some(own) = tools.pop() {
        let Some(places) = loops.pop() else {
            unreachable!()
        };
        let Some(pass) = passes.pop() else {
            unreachable!()
        };
        let Tools { dial, results } = own;
        workers.push_reserved(LoopWorker::new(Ready {
            places,
            dial,
            results,
            seat: claim.split(seat),
            pass,
        }));
    }
    tools.destroy_empty();
    loops.destroy_empty();
    passes.destroy_empty();
}
