//! A run with many jobs at once over a shared cache.

ghost use Rattle.exchange.specs.Dialling.{failed_turns};
ghost use Rattle.std.specs.Prelude.{◌≡◌, ◌+◌, ◌<◌, ◌≤◌, true, ℕ, List, reverse, vec_len, [], IfOk};
ghost use Rattle.std.specs.Prelude.{vec_capacity, IfErr, IsErrAnd};
ghost use Rattle.std.specs.List.{All};
ghost use Rattle.budget.specs.Words.{whole};
ghost use Rattle.run_loop.specs.Draws.{first_seat};
ghost use Rattle.exchange.specs.Worlds.{world_of};
ghost use Rattle.shared_cache.specs.Passes.{IsPassOf};
ghost use Rattle.run_loop.specs.Moments.{TakesTimed};
ghost use Rattle.driver.specs.ManyWork.{IsManyRun, handed_in, handed_back, are_bad_tools};
ghost use Rattle.driver.specs.ManyWork.{IsHiredLoop, AllBegin, LoopsFrom};
ghost use Rattle.driver.specs.ManyWork.{HaveLooped, HavePasses, IsNotBegunFor};

use crate::bell::Bell;
use crate::fault::DriverFault;
use crate::faults::Faults;
use crate::many::drawn_jobs::DrawnJobs;
use crate::many::gathering::gather_work;
use crate::many::job_source::JobSource;
use crate::many::loop_states::LoopStates;
use crate::many::loops_with_waiters::LoopsWithWaiters;
use crate::many::run_timer::RunTimer;
use crate::many::storage::{HiredRun, ManyStorage};
use crate::many::worker::{Finished, LoopWorker, Ready, Tools, WorkerResult};
use crate::running::MOST_WORKERS;
use crate::storage::passes_for;
use budget::Pass;
use bundle::Did;
use exchange::{Alarm, Dial, Wire};
use run_loop::{JobCounter, Results, RunEnd, Timer};
use shared_cache::{Desk, Names, SharedCache};
use std::alloc::{AllocGlobal, Global};
use std::random::RandomSource;
use std::sync::Wait;
use std::sync::atomic::AtomicU64;
use std::thread::{Threads, for_each_mut};

/// What a run leaves.
pub struct ManyReport<D, F> {
    /// How it ended: as the worker did that ended worst.
    pub end: RunEnd,
    /// How many jobs were drawn: the first ones, each of which has one result.
    pub drawn: u64,
    /// What each worker hands back, in the order in which the tools were handed in.
    pub workers: Vec<Finished<D, F>>,
}

/// What comes back of a run that did not begin.
pub struct NotBegun<D, F> {
    /// Why it did not begin.
    pub fault: DriverFault,
    /// What was handed in.
    pub tools: Vec<Tools<D, F>>,
    /// The passes that were made.
    pub passes: Vec<Pass<Did>>,
}

/// What all workers share, beside the cache.
#[derive(Drop)]
pub(crate) struct Common<'s, S: JobSource, T: Timer> {
    pub(crate) claim: &'s JobCounter,
    pub(crate) source: &'s S,
    pub(crate) timer: &'s T,
    pub(crate) bell: Bell,
    pub(crate) waiters: LoopsWithWaiters,
    pub(crate) states: LoopStates,
    pub(crate) faults: Faults,
}

/// Carries out so many jobs over a shared cache, at most as many at once as there are places. Each
/// of the tools has a worker, in a thread of its own if one can be started, and an even share of
/// the places. A worker draws the number of a job if a place is free and the job is due.
///
/// `alarms` has the alarm of each dial in `tools`, in the same order. While transfers wait for
/// connections, a worker that spends a lease or a ticket wakes the others, so that their waiters
/// check at once. A worker without an alarm checks at most ten milliseconds later.
///
/// # Errors
///
/// [`DriverFault::BadWorkers`] if there are no tools, more than 64, or more than places;
/// [`DriverFault::Memory`] if there is no memory for what the run keeps, or the system gives no
/// random number. Then nothing is done.
pub fn run_many<
    W: Wire + Send,
    N: Names + Send + Sync,
    D: Dial<W> + Send,
    F: Results + Send,
    S: JobSource + Sync,
    T: Timer + Sync,
    A: Alarm + Sync,
    R: Threads + Wait + RandomSource + AllocGlobal + Sync,
>(
    rt: &R,
    alloc: Global,
    cache: &SharedCache<W, N>,
    source: &S,
    jobs: u64,
    places: usize,
    tools: Vec<Tools<D, F>>,
    alarms: &[A],
    timer: &T,
) -> Result<ManyReport<D, F>, NotBegun<D, F>>
    ensures ok { IfOk result (λ report. IsManyRun (world_of W.untouched W.happened (T.tells
        timer.now)) (T.may_stop timer.now) N.names (S.job_at source.now)
        (TakesTimed (T.tells_micros timer.now) F.took) jobs (handed_in
        (failed_turns D.shown) tools.items) (handed_back (failed_turns D.shown)
        report.workers.items) report.end report.drawn) }
    ensures passes_back { IfOk result (λ report. HavePasses N.names report.workers.items) }
    ensures bad_workers { are_bad_tools (vec_len tools) places ≡ true → IsErrAnd result
        (λ refused. (refused.fault ≡ DriverFault.BadWorkers) × (refused.passes.items ≡ [])) }
    ensures err { IfErr result (λ refused.
        IsNotBegunFor (vec_len tools) places refused.fault) }
    ensures tools { IfErr result (λ refused. refused.tools ≡ tools) }
    ensures passes { IfErr result (λ refused. All (IsPassOf N.names) refused.passes.items) }
    ensures fewer { IfErr result (λ refused. vec_len refused.passes ≤ vec_len tools) }
{
    let HiredRun {
        claim,
        seat,
        mut workers,
        finished,
    } = hire_run(rt, alloc, cache, jobs, places, tools)?;
    let common = Common {
        claim: &claim,
        source,
        timer,
        bell: Bell::new(),
        waiters: LoopsWithWaiters::new(),
        states: LoopStates::new(workers.len() as u64),
        faults: Faults::new(),
    };
    loop_at_once(rt, cache, &common, alarms, &mut workers);
    Ok(gather_work::<W, N, D, F, S, T>(&common, seat, workers, finished))
}

// Makes what a run keeps, and hires a worker for each of the tools.
fn hire_run<W: Wire, N: Names, D: Dial<W>, F, R: Wait + RandomSource + AllocGlobal>(
    rt: &R,
    alloc: Global,
    cache: &SharedCache<W, N>,
    jobs: u64,
    places: usize,
    tools: Vec<Tools<D, F>>,
) -> Result<HiredRun<W, D, F>, NotBegun<D, F>>
    ensures some { IfOk result (λ run. 0 < vec_len run.workers) }
    ensures jobs { IfOk result (λ run. run.claim.jobs ≡ jobs) }
    ensures hired { IfOk result (λ run. All (IsHiredLoop N.names run.claim) run.workers.items) }
    ensures begun { IfOk result (λ run.
        AllBegin (reverse (handed_in (failed_turns D.shown) tools.items)) run.workers.items) }
    ensures seat { IfOk result (λ run.
        run.seat ≡ record (first_seat run.claim) { share = run.seat.share }) }
    ensures share { IfOk result (λ run. run.seat.share + vec_len run.workers ≡ whole) }
    ensures finished { IfOk result (λ run. run.finished.items ≡ []) }
    ensures room { IfOk result (λ run. vec_len run.workers ≤ vec_capacity run.finished) }
    ensures bad_workers { are_bad_tools (vec_len tools) places ≡ true → IsErrAnd result
        (λ refused. (refused.fault ≡ DriverFault.BadWorkers) × (refused.passes.items ≡ [])) }
    ensures err { IfErr result (λ refused.
        IsNotBegunFor (vec_len tools) places refused.fault) }
    ensures tools { IfErr result (λ refused. refused.tools ≡ tools) }
    ensures passes { IfErr result (λ refused. All (IsPassOf N.names) refused.passes.items) }
    ensures fewer { IfErr result (λ refused. vec_len refused.passes ≤ vec_len tools) }
{
    let count = tools.len();
    if count == 0 || count > MOST_WORKERS || count > places {
        return Err(NotBegun {
            fault: DriverFault::BadWorkers,
            tools,
            passes: Vec::new(alloc),
        });
    }
    let passes = match passes_for(rt, alloc, cache, count) {
        Ok(passes) => passes,
        Err((fault, passes)) => {
            return Err(NotBegun {
                fault,
                tools,
                passes,
            });
        }
    };
    match ManyStorage::new(rt, alloc, jobs, count, places) {
        Ok(room) => Ok(room.hire::<N>(tools, passes)),
        Err(_) => Err(NotBegun {
            fault: DriverFault::Memory,
            tools,
            passes,
        }),
    }
}

// Lets all work at once.
fn loop_at_once<
    W: Wire + Send,
    N: Names + Send + Sync,
    D: Dial<W> + Send,
    F: Results + Send,
    S: JobSource + Sync,
    T: Timer + Sync,
    A: Alarm + Sync,
    R: Threads + Wait + Sync,
>(
    rt: &R,
    cache: &SharedCache<W, N>,
    common: &Common<'_, S, T>,
    alarms: &[A],
    workers: &mut Vec<LoopWorker<W, D, F>>,
)
    requires some { 0 < vec_len workers.old }
    requires hired { All (IsHiredLoop N.names common.now.claim.now) workers.old.items }
    ensures looped { (begun : List (F × ℕ)) → AllBegin begun workers.old.items →
        HaveLooped (world_of W.untouched W.happened (T.tells common.now.timer.now)) (T.may_stop
        common.now.timer.now) N.names (S.job_at common.now.source.now)
        (TakesTimed (T.tells_micros common.now.timer.now) F.took) common.now.claim.now begun
        workers.new.items }
    ensures number { vec_len workers.new ≡ vec_len workers.old }
{
    let threads = workers.len();
    for_each_mut(
        rt,
        workers,
        threads,
        &|place, worker: &mut LoopWorker<W, D, F>|
            requires { IsHiredLoop N.names common.now.claim.now worker.now }
            ensures { LoopsFrom (world_of W.untouched W.happened (T.tells
                common.entry.now.timer.now)) (T.may_stop common.entry.now.timer.now) N.names
                (S.job_at common.entry.now.source.now) (TakesTimed (T.tells_micros
                common.entry.now.timer.now) F.took) common.entry.now.claim.now
                worker.entry.now worker.exit.now }
        {
            work_in_loop(
                rt,
                cache,
                common,
                alarms,
                worker_number(place, threads),
                worker,
            )
        },
    );
}

// The number of the worker at that place, which is the place of its tools and of its alarm: the
// first worker was hired with the last tools.
fn worker_number(place: usize, workers: usize) -> usize {
    workers.saturating_sub(place).saturating_sub(1)
}

// Runs the loop of the worker of that number, at a new desk.
fn work_in_loop<
    W: Wire,
    N: Names,
    D: Dial<W>,
    F: Results,
    S: JobSource,
    T: Timer,
    A: Alarm,
    R: Wait,
>(
    rt: &R,
    cache: &SharedCache<W, N>,
    common: &Common<'_, S, T>,
    alarms: &[A],
    number: usize,
    worker: &mut LoopWorker<W, D, F>,
)
    requires hired { IsHiredLoop N.names common.now.claim.now worker.old }
    ensures looped { LoopsFrom (world_of W.untouched W.happened (T.tells common.now.timer.now))
        (T.may_stop common.now.timer.now) N.names (S.job_at common.now.source.now)
        (TakesTimed (T.tells_micros common.now.timer.now) F.took) common.now.claim.now worker.old
        worker.new }
{
    let Ready {
        places,
        mut dial,
        mut results,
        seat,
        pass,
    } = worker.begin();
    let mut desk = Desk::new(cache, rt, pass);
    let mut jobs = DrawnJobs::new(common.claim, common.source, number, seat);
    let timer = RunTimer {
        timer: common.timer,
        faults: &common.faults,
        bell: &common.bell,
        waiters: &common.waiters,
        states: &common.states,
        alarms,
        own: number,
        woken: AtomicU64::new(0),
    };
    let end = places.run(rt, &mut desk, &mut dial, &mut jobs, &mut results, &timer);
    if end.is_fault() {
        common.faults.meet();
    }
    worker.leave(WorkerResult {
        dial,
        results,
        seat: jobs.into_seat(),
        pass: desk.into_pass(),
        end,
    });
}
