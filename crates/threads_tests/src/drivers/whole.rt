//! A run from its cache's plan to its cache's account, which has to balance.

ghost use Rattle.std.specs.Prelude.{◌≡◌, ◌<◌, vec_len, IfOk, IfErr};
ghost use Rattle.std.specs.List.{All};
ghost use Rattle.shared_cache.specs.Passes.{IsPassOf};

use crate::checks::check_eq;
use crate::drivers::jobs::{Setup, dials_of, jobs_of};
use crate::drivers::logs::{HostLog, logs_of};
use crate::drivers::peers::PeerWire;
use crate::making::{cache_of, gathered_with, pass_of, push};
use budget::{Pass, Refusal};
use bundle::Did;
use driver::{DriverFault, Gate, RunReport, run};
use exchange::{Done, Job};
use exchange_memory::FixedClock;
use load_report::totals;
use shared_cache::{Gathered, HostCount, Names, Plan, SharedCache};
use std::alloc::AllocGlobal;
use std::process::Abort;
use std::random::RandomSource;
use std::sync::Wait;
use std::thread::Threads;

// What a run answers.
type Ran = Result<RunReport, (DriverFault, Vec<Pass<Did>>)>;

/// The moment that the clock of each run tells.
const NOW: u64 = 7;

/// What a run left: how the jobs ended, or why there are no results; how many passes came back; the
/// log of each host; and what happened at all hosts once what was idle had been closed.
#[derive(Drop)]
pub(crate) struct Whole {
    pub(crate) ended: Result<Vec<Done>, DriverFault>,
    pub(crate) passes: usize,
    pub(crate) logs: Vec<HostLog>,
    pub(crate) hosts: Vec<HostCount>,
    pub(crate) all: HostCount,
}

impl Whole {
    /// How the jobs ended: it has to be told, and each worker's pass has to come back.
    pub(crate) fn results<R: Abort>(&self, rt: &R, workers: u32, name: &str) -> &[Done] {
        match &self.ended {
            Ok(results) => {
                assert_eq!(rt; self.passes, workers as usize, "{name}");
                results
            }
            Err(fault) => panic!(rt; "{name}: {fault:?}"),
        }
    }

    /// Why there are no results, and how many passes came back.
    pub(crate) fn refusal(&self) -> (Option<DriverFault>, usize) {
        match &self.ended {
            Ok(_) => (None, self.passes),
            Err(fault) => (Some(*fault), self.passes),
        }
    }
}

/// All of so many jobs have to have gone well.
pub(crate) fn check_good<R: Abort>(rt: &R, results: &[Done], jobs: usize) {
    let all_good = results.iter().all(|done| matches!(done, Done::Good(_)));
    assert!(rt; all_good && results.len() == jobs, "{results:?}");
}

/// Carries out the jobs over a cache of that plan, closes what is idle then, and gathers: nothing
/// may be open.
pub(crate) fn whole_run<
    N: Names + Send + Sync,
    G: Gate + Sync,
    R: Threads + Wait + Abort + RandomSource + AllocGlobal + Sync,
>(rt: &R, plan: Plan<PeerWire>, setup: &Setup, gate: &G) -> Whole
    requires { plan ≡ N.names }
{
    let cache = cache_of::<PeerWire, N, R>(rt, plan);
    let jobs = jobs_of(rt, setup.jobs, setup.hosts, setup.for_bytes);
    let (ended, mut passes) = carry_out(rt, &cache, &jobs, setup, gate);
    let logs = logs_of(rt, &cache, &jobs, NOW);
    let number = passes.len();
    let mut pass = pass_of(rt, &cache);
    let _closed = cache.prune(rt, NOW + 1, 0, 0, &mut pass);
    put_by::<N>(rt, &mut passes, pass);
    let gathered = gathered_of(rt, cache, passes);
    let all = totals(&gathered.hosts);
    check_eq(rt, (gathered.total, gathered.kept, all.alive), (0, 0, 0));
    check_eq(rt, all.opened, all.closed);
    Whole {
        ended,
        passes: number,
        logs,
        hosts: gathered.hosts,
        all,
    }
}

// Carries out the jobs over that cache: how they ended, or why there are no results; and the passes
// that came back.
fn carry_out<
    N: Names + Send + Sync,
    G: Gate + Sync,
    R: Threads + Wait + Abort + RandomSource + AllocGlobal + Sync,
>(
    rt: &R,
    cache: &SharedCache<PeerWire, N>,
    jobs: &[Job],
    setup: &Setup,
    gate: &G,
) -> (Result<Vec<Done>, DriverFault>, Vec<Pass<Did>>)
    ensures { All (IsPassOf N.names) result.1.items }
{
    let mut dials = dials_of(rt, setup);
    let clock = FixedClock { now: NOW };
    let ran = run(rt, rt.alloc(), cache, jobs, &mut dials, &clock, gate);
    parts_of::<N>(ran)
}

// What a run answers, in parts.
fn parts_of<N: Names>(ran: Ran) -> (Result<Vec<Done>, DriverFault>, Vec<Pass<Did>>)
    requires ok { IfOk ran (λ report. All (IsPassOf N.names) report.passes.items) }
    requires err { IfErr ran (λ refused. All (IsPassOf N.names) refused.1.items) }
    ensures { All (IsPassOf N.names) result.1.items }
{
    match ran {
        Ok(RunReport { results, passes }) => (Ok(results), passes),
        Err((fault, passes)) => (Err(fault), passes),
    }
}

// The account of the cache with all its passes. With one of those that spent leases held back there
// is none.
fn gathered_of<N: Names, R: Abort + AllocGlobal>(
    rt: &R,
    cache: SharedCache<PeerWire, N>,
    passes: Vec<Pass<Did>>,
) -> Gathered<PeerWire>
    requires { All (IsPassOf N.names) passes.items }
{
    let mut passes = passes;
    let Some(place) = passes.iter().position(has_spent) else {
        return gathered_with(rt, cache, passes);
    };
    let held_back = take_out::<N>(&mut passes, place);
    match cache.gather(rt.alloc(), passes) {
        Ok(_gathered) => panic!(rt; "gathered without a pass"),
        Err((cache, passes, refusal)) => {
            check_eq(rt, refusal, Refusal::PassesMissing);
            let mut passes = passes;
            put_by::<N>(rt, &mut passes, held_back);
            gathered_with(rt, cache, passes)
        }
    }
}

// Takes the pass in that place out.
fn take_out<N: Names>(passes: &mut Vec<Pass<Did>>, place: usize) -> Pass<Did>
    requires place { place < vec_len passes.old }
    requires passes { All (IsPassOf N.names) passes.old.items }
    ensures taken { IsPassOf N.names result }
    ensures passes { All (IsPassOf N.names) passes.new.items }
{
    passes.swap_remove(place)
}

/// Puts one more pass by.
pub(crate) fn put_by<N: Names>(rt: &impl Abort, passes: &mut Vec<Pass<Did>>, pass: Pass<Did>)
    requires pass { IsPassOf N.names pass }
    requires passes { All (IsPassOf N.names) passes.old.items }
    ensures { All (IsPassOf N.names) passes.new.items }
{
    push(rt, passes, pass);
}

// Whether leases were spent with the pass, at any host.
fn has_spent(pass: &Pass<Did>) -> bool {
    for host in 0..pass.hosts() {
        if pass.spent(host) != 0 {
            return true;
        }
    }
    false
}
