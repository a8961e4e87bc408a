//! Runs jobs by threads that share one cache over sockets whose reads and writes wait.

ghost use Rattle.std.specs.Prelude.{◌≡◌};

use crate::addresses::addresses_of;
use budget::{Limits, Refusal};
use driver::{NoGate, RunReport, run};
use exchange::{Done, Job};
use shared_cache::{Gathered, Names, Plan, SharedCache, discard_all};
use socket::{SystemClock, WaitingDial, WaitingWire};
use std::alloc::{AllocGlobal, Global};
use std::marker::Brand;
use std::random::RandomSource;
use std::sync::Wait;
use std::thread::Threads;

/// The result of a run.
#[derive(Drop)]
pub(crate) struct Ran {
    /// The result of each job, in the order of the jobs.
    pub(crate) results: Vec<Done>,
    /// The account of the cache.
    pub(crate) gathered: Gathered<WaitingWire>,
}

/// Runs the jobs by `workers` threads, at hosts that listen at these ports of 127.0.0.1. `None` if
/// the run could not begin, or has no account.
pub(crate) fn run_jobs<R: Threads + Wait + RandomSource + AllocGlobal + Sync>(
    threads: &R,
    rt: &HostRuntime,
    limits: Limits,
    ports: &[u16],
    jobs: &[Job],
    workers: u32,
) -> Option<Ran> {
    let alloc = rt.alloc();
    let hosts = u32::try_from(ports.len()).ok()?;
    let planned: Result<Plan<WaitingWire>, Refusal> = Plan::new(alloc, limits, hosts);
    let plan = planned.ok()?;
    let dials = dials_for(rt, alloc, ports, workers)?;
    run_over::<Brand, R>(
        threads,
        alloc,
        plan,
        jobs,
        dials,
        &SystemClock::or_still(rt),
    )
}

// Runs the jobs over the cache of that plan.
fn run_over<N: Names + Send + Sync, R: Threads + Wait + RandomSource + AllocGlobal + Sync>(
    rt: &R,
    alloc: Global,
    plan: Plan<WaitingWire>,
    jobs: &[Job],
    dials: Vec<WaitingDial<'_, HostRuntime>>,
    clock: &SystemClock<'_, HostRuntime>,
) -> Option<Ran>
    requires { plan ≡ N.names }
{
    let made: Result<SharedCache<WaitingWire, N>, (Plan<WaitingWire>, Refusal)> = SharedCache::new(
        alloc, plan,
    );
    let Ok(cache) = made else {
        return None;
    };
    let mut dials = dials;
    let RunReport { results, passes } = match run(
        rt, alloc, &cache, jobs, &mut dials, clock, &NoGate,
    ) {
        Ok(report) => report,
        Err((_fault, passes)) => {
            discard_all(passes);
            return None;
        }
    };
    match cache.gather(alloc, passes) {
        Ok(gathered) => Some(Ran { results, gathered }),
        Err((_cache, passes, _refusal)) => {
            discard_all(passes);
            None
        }
    }
}

// Returns a dial for each worker. `None` if there is none for one of them.
fn dials_for<'n>(
    system: &'n HostRuntime,
    alloc: Global,
    ports: &[u16],
    workers: u32,
) -> Option<Vec<WaitingDial<'n, HostRuntime>>> {
    let mut dials = Vec::new(alloc);
    for _ in 0..workers {
        let addresses = addresses_of(alloc, ports)?;
        let dial = WaitingDial::new(system, alloc, addresses).ok()?;
        dials.push(dial).ok()?;
    }
    Some(dials)
}
