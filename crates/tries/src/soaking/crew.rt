//! The cache, the threads, and the account.

ghost use Rattle.std.specs.Prelude.{◌≡◌, ◌+◌, ◌<◌, ◌≤◌, IfSome, vec_len, vec_capacity};
ghost use Rattle.std.specs.List.{All};
ghost use Rattle.shared_cache.specs.Passes.{IsPassOf};

use crate::addresses::addresses_of;
use crate::soaking::course::Course;
use crate::soaking::requester::Requester;
use crate::soaking::worker::Worker;
use budget::Pass;
use bundle::Did;
use shared_cache::{Gathered, Names, Plan, SharedCache, discard_all};
use socket::WaitingWire;
use std::alloc::Global;
use std::sync::Wait;
use std::thread;
use std::thread::Threads;

/// Makes requests in that number of threads over a cache of that plan, and gathers the cache.
/// Returns `None` if an allocation fails, if the system gives no poller or no random number, or if
/// the cache can't be gathered.
pub(crate) fn soaked<N: Names + Send + Sync, R: Threads + Wait + Sync>(
    rt: &R,
    course: &Course<'_>,
    plan: Plan<WaitingWire>,
    threads: u32,
) -> Option<Gathered<WaitingWire>>
    requires { plan ≡ N.names }
{
    let alloc = course.system.alloc();
    let Ok(cache) = SharedCache::<WaitingWire, N>::new(alloc, plan) else {
        return None;
    };
    let Some(passes) = worked(rt, alloc, &cache, course, threads) else {
        return None;
    };
    match cache.gather(alloc, passes) {
        Ok(gathered) => Some(gathered),
        Err((_cache, passes, _refusal)) => {
            discard_all(passes);
            None
        }
    }
}

// Makes requests in that number of threads, and returns their passes.
fn worked<N: Names + Send + Sync, R: Threads + Wait + Sync>(
    rt: &R,
    alloc: Global,
    cache: &SharedCache<WaitingWire, N>,
    course: &Course<'_>,
    threads: u32,
) -> Option<Vec<Pass<Did>>>
    ensures { IfSome result (λ passes. All (IsPassOf N.names) passes.items) }
{
    let mut workers = hired(rt, alloc, cache, course, threads)?;
    work_at_once(rt, cache, course, &mut workers);
    passes_of(alloc, workers)
}

// Makes the workers of that number of threads.
fn hired<'n, N: Names, R: Wait>(
    rt: &R,
    alloc: Global,
    cache: &SharedCache<WaitingWire, N>,
    course: &Course<'n>,
    threads: u32,
) -> Option<Vec<Worker<'n, N>>> {
    let mut workers = Vec::with_capacity(alloc, threads as usize).ok()?;
    for index in 0..threads {
        let worker = worker_of(rt, alloc, cache, course, index)?;
        workers.push_reserved(worker);
    }
    Some(workers)
}

// Makes the worker of the thread of that index.
fn worker_of<'n, N: Names, R: Wait>(
    rt: &R,
    alloc: Global,
    cache: &SharedCache<WaitingWire, N>,
    course: &Course<'n>,
    index: u32,
) -> Option<Worker<'n, N>> {
    let addresses = addresses_of(alloc, course.ports)?;
    let requester = Requester::new(course.system, addresses)?;
    let pass = cache.pass(rt, alloc).ok()?;
    Some(Worker::new(u64::from(index), pass, requester))
}

// Runs each worker in a thread.
fn work_at_once<N: Names + Send + Sync, R: Threads + Wait + Sync>(
    rt: &R,
    cache: &SharedCache<WaitingWire, N>,
    course: &Course<'_>,
    workers: &mut [Worker<'_, N>],
) {
    let threads = workers.len().max(1);
    thread::for_each_mut(
        rt,
        workers,
        threads,
        &|_, worker| worker.work(rt, cache, course),
    );
}

// Ends all workers, and returns their passes.
fn passes_of<N: Names>(alloc: Global, workers: Vec<Worker<'_, N>>) -> Option<Vec<Pass<Did>>>
    ensures { IfSome result (λ passes. All (IsPassOf N.names) passes.items) }
{
    let Ok(passes) = Vec::with_capacity(alloc, workers.len()) else {
        return None;
    };
    let mut passes = passes;
    for worker in workers {
        add_pass(&mut passes, worker);
    }
    Some(passes)
}

// Ends a worker, and adds its pass to the others, if the worker has it.
fn add_pass<N: Names>(passes: &mut Vec<Pass<Did>>, worker: Worker<'_, N>)
    requires room { vec_len passes.old < vec_capacity passes.old }
    requires passes { All (IsPassOf N.names) passes.old.items }
    ensures passes { All (IsPassOf N.names) passes.new.items }
    ensures number { vec_len passes.new ≤ vec_len passes.old + 1 }
    ensures room { vec_capacity passes.new ≡ vec_capacity passes.old }
{
    if let Some(pass) = worker.leave() {
        passes.push_reserved(pass);
    }
}
