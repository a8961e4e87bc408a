//! A run of jobs by two threads, out of memory. The test passes whichever allocation fails: the run
//! says so, and loses nothing.

ghost use Rattle.std.specs.Prelude.{◌≡◌, ◌<◌, vec_len, IfOk, IfErr};
ghost use Rattle.std.specs.List.{All};
ghost use Rattle.shared_cache.specs.Passes.{IsPassOf};

use crate::checks::check_eq;
use crate::making::{gathered_with, new_cache, new_pass, new_plan, push, put_by, want_of};
use crate::peers::{NOW, PeerDial, PeerWire, Still};
use budget::{Pass, Refusal};
use bundle::Did;
use conn_key::{CountedMemory, Target, read_target};
use driver::{DriverFault, NoGate, RunReport, run};
use exchange::{Done, Fault, Job};
use load_report::totals;
use persistence::Method;
use shared_cache::{Gathered, Names, Plan, SharedCache};
use std::alloc::{AllocGlobal, Global};
use std::marker::Brand;
use std::process::Abort;
use std::random::RandomSource;
use std::sync::Wait;
use std::thread::Threads;

/// Number of jobs, by turns at two hosts.
const JOBS: u64 = 200;

const WORKERS: u32 = 2;

// The target of all jobs; where memory runs out the call comes again.
fn target_of(rt: &impl Abort, alloc: Global) -> Target {
    let url = "http://h.example/0";
    let mut memory = CountedMemory::new(alloc);
    match read_target(&mut memory, url) {
        Ok(target) => target,
        Err(_) => read_target(&mut memory, url).expect(rt, "a target"),
    }
}

fn jobs_of(rt: &impl Abort, alloc: Global) -> Vec<Job> {
    let mut jobs = Vec::new(alloc);
    for transfer in 0..JOBS {
        let job = Job {
            site: (transfer % 2) as u32,
            want: want_of(transfer),
            method: Method::Get,
            target: target_of(rt, alloc),
        };
        push(rt, &mut jobs, job);
    }
    jobs
}

fn dials_of(rt: &impl Abort, alloc: Global) -> Vec<PeerDial> {
    let mut dials = Vec::new(alloc);
    for _worker in 0..WORKERS {
        push(rt, &mut dials, PeerDial::new());
    }
    dials
}

/// How the jobs ended, or why there are no results; and the number of passes that came back.
type Ended = (Result<Vec<Done>, DriverFault>, usize);

// Carries out the jobs over a cache of that plan, closes what is idle then, and gathers: nothing
// may be open.
fn whole_run<N: Names + Send + Sync, R: Threads + Wait + Abort + RandomSource + AllocGlobal + Sync>(
    rt: &R,
    plan: Plan<PeerWire>,
) -> Ended
    requires { plan ≡ N.names }
{
    let cache: SharedCache<PeerWire, N> = new_cache(rt, rt.alloc(), plan);
    let (ended, mut passes) = carry_out(rt, &cache);
    let number = passes.len();
    let mut pass = new_pass(rt, rt.alloc(), &cache);
    let _closed = cache.prune(rt, NOW + 1, 0, 0, &mut pass);
    put_by::<N>(rt, &mut passes, pass);
    let gathered = gathered_of(rt, rt.alloc(), cache, passes);
    let all = totals(&gathered.hosts);
    check_eq(rt, (gathered.total, gathered.kept, all.alive), (0, 0, 0));
    check_eq(rt, all.opened, all.closed);
    (ended, number)
}

// Carries out the jobs over that cache: how they ended, or why there are no results; and the passes
// that came back.
fn carry_out<N: Names + Send + Sync, R: Threads + Wait + Abort + RandomSource + AllocGlobal + Sync>(
    rt: &R,
    cache: &SharedCache<PeerWire, N>,
) -> (Result<Vec<Done>, DriverFault>, Vec<Pass<Did>>)
    ensures { All (IsPassOf N.names) result.1.items }
{
    let jobs = jobs_of(rt, rt.alloc());
    let mut dials = dials_of(rt, rt.alloc());
    match run(rt, rt.alloc(), cache, &jobs, &mut dials, &Still, &NoGate) {
        Ok(RunReport { results, passes }) => (Ok(results), passes),
        Err((fault, passes)) => (Err(fault), passes),
    }
}

// The account of the cache with all its passes. Without one of those that spent leases there is
// none.
fn gathered_of<N: Names>(
    rt: &impl Abort,
    alloc: Global,
    cache: SharedCache<PeerWire, N>,
    passes: Vec<Pass<Did>>,
) -> Gathered<PeerWire>
    requires { All (IsPassOf N.names) passes.items }
{
    let mut passes = passes;
    let Some(place) = passes.iter().position(has_spent) else {
        return gathered_with(rt, alloc, cache, passes);
    };
    let held_back = take_out::<N>(&mut passes, place);
    match cache.gather(alloc, passes) {
        Ok(_gathered) => panic!(rt; "gathered without a pass"),
        Err((cache, passes, refusal)) => {
            check_eq(rt, refusal, Refusal::PassesMissing);
            let mut passes = passes;
            put_by::<N>(rt, &mut passes, held_back);
            gathered_with(rt, alloc, cache, passes)
        }
    }
}

// Takes the pass in that place out.
fn take_out<N: Names>(passes: &mut Vec<Pass<Did>>, place: usize) -> Pass<Did>
    requires place { place < vec_len passes.old }
    requires passes { All (IsPassOf N.names) passes.old.items }
    ensures taken { IsPassOf N.names result }
    ensures passes { All (IsPassOf N.names) passes.new.items }
{
    passes.swap_remove(place)
}

// Returns true if leases were spent with the pass, at any host.
fn has_spent(pass: &Pass<Did>) -> bool {
    for host in 0..pass.hosts() {
        if pass.spent(host) != 0 {
            return true;
        }
    }
    false
}

// Returns true if it went well, or there was no memory for it.
fn is_good_or_refused(done: &Done) -> bool {
    match done {
        Done::Good(answer) => answer.status == 200,
        Done::Bad(fault) => { *fault == Fault::Memory || *fault == Fault::Refused(Refusal::Memory) }
    }
}

#[test]
fn want_of_memory_loses_nothing(rt: HostRuntime) {
    let plan = new_plan(&rt, rt.alloc(), (0, 1, 4), 2);
    let (ended, passes) = whole_run::<Brand, HostRuntime>(&rt, plan);
    match &ended {
        Ok(results) => {
            check_eq(&rt, (results.len(), passes), (200, 2));
            assert!(rt; results.iter().all(is_good_or_refused), "{results:?}");
        }
        Err(fault) => {
            check_eq(&rt, *fault, DriverFault::Memory);
            assert!(rt; passes <= 2);
        }
    }
}
