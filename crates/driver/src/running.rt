//! A run: threads that share a cache, each with a dial and a pass of its own.

ghost use Rattle.exchange.specs.Dialling.{failed_turns};
ghost use Rattle.std.specs.Prelude.{◌≡◌, ◌<◌, length, IfOk, IfErr, IsErrAnd, [], true};
ghost use Rattle.std.specs.Prelude.{vec_len};
ghost use Rattle.std.specs.List.{All, sum_by};
ghost use Rattle.exchange.specs.Worlds.{world_of};
ghost use Rattle.shared_cache.specs.Passes.{IsPassOf};
ghost use Rattle.driver.specs.Faults.{are_bad_workers, ComeBack};
ghost use Rattle.driver.specs.Quits.{QuitsSo};
ghost use Rattle.driver.specs.Running.{IsRun, IsRefusedFor};
ghost use Rattle.driver.specs.Hiring.{IsHired, HasWorked};
ghost use Rattle.driver.specs.Turns.{failed_of, TurnedTogether, DialsTurned};

use crate::bell::Bell;
use crate::collecting::collect;
use crate::context::RunContext;
use crate::fault::DriverFault;
use crate::faults::Faults;
use crate::gate::Gate;
use crate::storage::{RunStorage, hire, passes_for};
use crate::worker::Worker;
use budget::Pass;
use bundle::Did;
use exchange::{Clock, Dial, Done, Job, Wire};
use shared_cache::{Desk, Names, SharedCache};
use std::alloc::{AllocGlobal, Global};
use std::random::RandomSource;
use std::sync::Wait;
use std::thread::{Threads, for_each_mut};

/// The most workers of a run.
pub(crate) const MOST_WORKERS: usize = 64;

/// What a run leaves.
pub struct RunReport {
    /// How each job ended, in the order of the jobs.
    pub results: Vec<Done>,
    /// The passes of all workers, which tell what they spent.
    pub passes: Vec<Pass<Did>>,
}

/// Carries out all jobs over a shared cache: each dial has a worker, in a thread of its own where
/// one can be started, and each worker draws one job after another and carries it out. Each job is
/// carried out once.
///
/// # Errors
///
/// [`DriverFault::BadWorkers`] if there are no dials, or more than 64. [`DriverFault::Memory`]
/// if there is no memory for what the run keeps or to prepare a job, or the system gives no
/// random number, and [`DriverFault::Poll`] if a turn of a dial failed: then each worker cancels
/// what it holds and takes no more jobs. At `Poll` as many passes come back as there are dials, at
/// `Memory` those made so far. What jobs did at the cache stays.
pub fn run<
    W: Wire + Send,
    N: Names + Send + Sync,
    D: Dial<W> + Send,
    K: Clock + Sync,
    G: Gate + Sync,
    R: Threads + Wait + RandomSource + AllocGlobal + Sync,
>(
    rt: &R,
    alloc: Global,
    cache: &SharedCache<W, N>,
    jobs: &[Job],
    dials: &mut [D],
    clock: &K,
    gate: &G,
) -> Result<RunReport, (DriverFault, Vec<Pass<Did>>)>
    ensures ok { IfOk result (IsRun (world_of W.untouched W.happened (K.tells clock.now))
        (G.may_stop gate.now) N.names jobs.now (length dials.old)) }
    ensures bad_workers { are_bad_workers (length dials.old) ≡ true → IsErrAnd result (λ refused.
        (refused.0 ≡ DriverFault.BadWorkers) × (refused.1.items ≡ [])) }
    ensures err { IfErr result (λ refused. IsRefusedFor (length dials.old) refused.0) }
    ensures passes { IfErr result (λ refused. All (IsPassOf N.names) refused.1.items) }
    ensures come_back { IfErr result (λ refused.
        ComeBack refused.0 (vec_len refused.1) (length dials.old)) }
    ensures turns { DialsTurned (failed_turns D.shown) dials.old result }
{
    let count = dials.len();
    if count == 0 || count > MOST_WORKERS {
        return Err((DriverFault::BadWorkers, Vec::new(alloc)));
    }
    let passes = passes_for(rt, alloc, cache, count)?;
    let Ok(room) = RunStorage::new(rt, alloc, jobs.len(), count) else {
        return Err((DriverFault::Memory, passes));
    };
    let RunStorage {
        claim,
        mut seat,
        results,
        tasks,
        mut workers,
    } = room;
    let passes = hire::<W, N, D>(alloc, &claim, &mut seat, dials, passes, tasks, &mut workers);
    let shared = RunContext {
        claim: &claim,
        jobs,
        clock,
        gate,
        bell: Bell::new(),
        faults: Faults::new(),
    };
    work_at_once(rt, cache, &shared, &mut workers);
    collect::<W, N, D, K, G>(&shared, seat, workers, results, passes)
}

// Lets all work at once.
fn work_at_once<
    W: Wire + Send,
    N: Names + Send + Sync,
    D: Dial<W> + Send,
    K: Clock + Sync,
    G: Gate + Sync,
    R: Threads + Wait + Sync,
>(
    rt: &R,
    cache: &SharedCache<W, N>,
    shared: &RunContext<'_, K, G>,
    workers: &mut Vec<Worker<'_, W, D>>,
)
    requires some { 0 < vec_len workers.old }
    requires jobs { shared.now.claim.now.jobs ≡ length shared.now.jobs.now }
    requires hired { All (IsHired N.names shared.now.claim.now) workers.old.items }
    ensures worked { All (HasWorked (world_of W.untouched W.happened (K.tells
        shared.now.clock.now)) (G.may_stop shared.now.gate.now) N.names shared.now.claim.now
        shared.now.jobs.now) workers.new.items }
    ensures number { vec_len workers.new ≡ vec_len workers.old }
    ensures turns { TurnedTogether (sum_by failed_of workers.old.items) workers.new.items }
{
    let threads = workers.len();
    for_each_mut(
        rt,
        workers,
        threads,
        &|_, worker: &mut Worker<'_, W, D>|
            requires { (shared.now.claim.now.jobs ≡ length shared.now.jobs.now)
                × IsHired N.names shared.now.claim.now worker.now }
            ensures { HasWorked (world_of W.untouched W.happened (K.tells
                shared.entry.now.clock.now)) (G.may_stop shared.entry.now.gate.now) N.names
                shared.entry.now.claim.now shared.entry.now.jobs.now worker.exit.now
                × QuitsSo worker.exit.now.quit worker.entry.now.failed worker.exit.now.failed }
        { work(rt, cache, shared, worker) },
    );
}

// Lets one work, at a desk of its own.
fn work<W: Wire, N: Names, D: Dial<W>, K: Clock, G: Gate, R: Wait>(
    rt: &R,
    cache: &SharedCache<W, N>,
    shared: &RunContext<'_, K, G>,
    worker: &mut Worker<'_, W, D>,
)
    requires jobs { shared.now.claim.now.jobs ≡ length shared.now.jobs.now }
    requires hired { IsHired N.names shared.now.claim.now worker.old }
    ensures worked { HasWorked (world_of W.untouched W.happened (K.tells
        shared.now.clock.now)) (G.may_stop shared.now.gate.now) N.names shared.now.claim.now
        shared.now.jobs.now worker.new }
    ensures turns { QuitsSo worker.new.quit worker.old.failed worker.new.failed }
{
    let mut desk = Desk::new(cache, rt, worker.take_pass());
    worker.draw_all(rt, shared, &mut desk);
    worker.put_pass(desk.into_pass());
}
