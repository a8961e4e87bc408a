//! A load: its cache, its run, and its result.

ghost use Rattle.std.specs.Prelude.{◌≡◌, ◌-◌, ◌≤◌, ℕ, [], length, false, ⊤};
ghost use Rattle.std.specs.Prelude.{vec_len, vec_capacity, IfErr, IfOk, OnOk};
ghost use Rattle.std.specs.List.{All};
ghost use Rattle.exchange.specs.Worlds.{world_of};
ghost use Rattle.shared_cache.specs.Gathering.{IsGathered};
ghost use Rattle.shared_cache.specs.Passes.{IsPassOf};
ghost use Rattle.driver.specs.Faults.{are_bad_workers};
ghost use Rattle.driver.specs.ManyWork.{HavePasses};
ghost use Rattle.load_report.specs.Accounts.{site_totals};
ghost use Rattle.load_run.specs.Loading.{IsLoadRefusedFor};
ghost use Rattle.load_run.specs.ManyLoads.{AreLogsIn, Collects, IsLoadedMany, IsLoadedManyBy};
ghost use Rattle.load_run.specs.ManyLoads.{IsNone, counting_of, jobs_of, workers_of};
ghost use Rattle.load_run.specs.Counting.{IsUncounted, missed_of, warm_of};
ghost use Rattle.load_run.specs.Stopping.{MayStop};
ghost use Rattle.run_loop.specs.Going.{is_fault};

use crate::account::Collected;
use crate::counted_results::{CountedResults, Counting};
use crate::error::LoadError;
use crate::load_timer::LoadTimer;
use crate::logs::{cut_logs, error_of};
use crate::plan::{LoadTimes, ManyPlan};
use crate::progress::Progress;
use crate::tools::{alarms_of, progress_for, tools_for};
use crate::url_jobs::UrlJobs;
use crate::watch::Watch;
use budget::Refusal;
use conn_log::Entry;
use driver::{DriverFault, ManyReport, NotBegun, Tools, run_many};
use exchange::Wire;
use load_figures::Figures;
use load_report::site_totals;
use run_loop::MicroClock;
use shared_cache::{Gathered, HostCount, Names, Plan, SharedCache, discard_all};
use socket::{PolledAlarm, PolledDial, PolledWire};
use std::alloc::{AllocGlobal, Global};
use std::marker::Brand;
use std::random::RandomSource;
use std::sync::Wait;
use std::thread::Threads;

/// Maximum number of jobs of a load. A counter can draw no more.
const MOST_JOBS: u64 = 0x7fff_ffff_ffff_ffff;

/// The result of a load.
#[derive(Drop)]
pub struct LoadedMany {
    /// Figures of the jobs that ended after the warm-up.
    pub figures: Figures,
    /// Time from the end of the warm-up to the end of the load, in microseconds.
    pub elapsed: u64,
    /// Number of jobs that were drawn, from job 0 on.
    pub drawn: u64,
    /// Number of jobs that were due before the load ended, and never begun; 0 without a rate.
    pub missed: u64,
    /// Total time for which transfers waited for connections, in microseconds, by counts every ten
    /// milliseconds.
    pub waited: u64,
    /// The end of each host's log, after the entries that the watcher took. Oldest entry first.
    pub logs: Vec<Vec<Entry>>,
    /// Counts of each site: the sums of its hosts' counts.
    pub hosts: Vec<HostCount>,
    /// The account of the cache. Dropping it closes the connections that are still open.
    pub gathered: Gathered<PolledWire>,
}

/// The parts of a load's plan that its account depends on.
#[derive(Clone, Copy)]
struct RunPlan {
    times: LoadTimes,
    jobs: u64,
    sites: u32,
    each: u32,
}

/// The result of a run whose cache is not gathered yet.
struct Ran {
    collected: Collected,
    /// The moment of its end, in microseconds after its start.
    ended: u64,
    /// Total time for which transfers waited, in microseconds.
    waited: u64,
    drawn: u64,
}

/// Runs a load. Its threads share one cache of polled sockets, and the places for jobs in flight.
/// The load ends with its last job, when its time is up, or when its watcher ends it; jobs in
/// flight are then cancelled. During the run the logs are cut, and the entries go to the watcher,
/// so memory does not grow with the number of jobs. The account covers the whole run. No more
/// threads work than there are places.
///
/// # Errors
///
/// - [`DriverFault::BadWorkers`]: there are no addresses, more than 64, or no places.
/// - [`DriverFault::Memory`]: memory ran out, there are no URLs, or there are more than 1,024
///   hosts.
/// - [`DriverFault::Poll`]: the system gives no poller, or a turn of one failed.
/// - [`LoadError::Gather`]: not expected, though no clause rules it out.
pub fn load_many<R: Threads + Wait + RandomSource + AllocGlobal + Sync, V: Watch + Sync>(
    rt: &R,
    system: &HostRuntime,
    alloc: Global,
    plan: ManyPlan<'_>,
    watch: &V,
) -> Result<LoadedMany, LoadError>
    ensures ok { IfOk result (IsLoadedMany (world_of ⟦<PolledWire as Wire>⟧.untouched
        ⟦<PolledWire as Wire>⟧.happened (λ moment. ⊤))
        (λ number. MayStop plan.entry.times (V.may_end watch.now)) (λ moment. ⊤) plan.entry) }
    ensures workers { OnOk result (are_bad_workers (workers_of plan.entry) ≡ false) }
    ensures refused { IfErr result (IsLoadRefusedFor (workers_of plan.entry)) }
{
    let Some(count) = plan.sites.checked_mul(plan.each) else {
        return Err(LoadError::Run(DriverFault::Memory));
    };
    let planned: Result<Plan<PolledWire>, Refusal> = Plan::new(alloc, plan.limits, count);
    match planned {
        Ok(hosts) => load_over::<Brand, R, V>(rt, system, alloc, hosts, plan, watch),
        Err(_refusal) => Err(LoadError::Run(DriverFault::Memory)),
    }
}

// Runs a load over the cache of that plan.
fn load_over<
    N: Names + Send + Sync,
    R: Threads + Wait + RandomSource + AllocGlobal + Sync,
    V: Watch + Sync,
>(
    rt: &R,
    system: &HostRuntime,
    alloc: Global,
    hosts: Plan<PolledWire>,
    plan: ManyPlan<'_>,
    watch: &V,
) -> Result<LoadedMany, LoadError>
    requires { hosts ≡ N.names }
    ensures ok { IfOk result (IsLoadedManyBy (world_of ⟦<PolledWire as Wire>⟧.untouched
        ⟦<PolledWire as Wire>⟧.happened (λ moment. ⊤))
        (λ number. MayStop plan.entry.times (V.may_end watch.now)) (λ moment. ⊤) N.names
        plan.entry) }
    ensures workers { OnOk result (are_bad_workers (workers_of plan.entry) ≡ false) }
    ensures refused { IfErr result (IsLoadRefusedFor (workers_of plan.entry)) }
{
    let made: Result<SharedCache<PolledWire, N>, (Plan<PolledWire>, Refusal)> = SharedCache::new(
        alloc, hosts,
    );
    let Ok(cache) = made else {
        return Err(LoadError::Run(DriverFault::Memory));
    };
    let (times, places) = (plan.times, plan.connections as usize);
    let jobs = job_count(plan.jobs);
    let run = RunPlan {
        times,
        jobs,
        sites: plan.sites,
        each: plan.each,
    };
    let Ok(progress) = progress_for(alloc, places.min(plan.addresses.len())) else {
        return Err(LoadError::Run(DriverFault::Memory));
    };
    let LoadParts {
        source,
        tools,
        alarms,
        collected,
    } = LoadParts::new(system, alloc, plan, &progress)?;
    let timer = LoadTimer::new(rt, system, &cache, times, watch, &progress);
    let report = match run_many(
        rt, alloc, &cache, &source, jobs, places, tools, &alarms, &timer,
    ) {
        Ok(report) => report,
        Err(refused) => return Err(collected.not_begun(refused)),
    };
    let ran = collected.ran::<N>(report, timer.moment(), timer.waits.micros())?;
    drop(timer);
    account_of(rt, alloc, cache, ran, run)
}

// Returns the number of jobs; all that can be drawn, if it is not limited.
fn job_count(jobs: Option<u64>) -> u64
    ensures { result ≡ jobs_of jobs }
{
    jobs.unwrap_or(MOST_JOBS)
}

/// The parts of a run other than its cache and its timer.
struct LoadParts<'a> {
    source: UrlJobs<'a>,
    /// The tools of each thread.
    tools: Vec<Tools<PolledDial<'a, HostRuntime>, CountedResults<'a>>>,
    /// The alarm of each thread's dial.
    alarms: Vec<PolledAlarm>,
    /// Nothing yet, with memory for the passes of all threads.
    collected: Collected,
}

impl<'a> LoadParts<'a> {
    // Makes the parts of a run by that plan. Each thread reports its progress in its place.
    fn new(
        system: &'a HostRuntime,
        alloc: Global,
        plan: ManyPlan<'a>,
        progress: &'a [Progress],
    ) -> Result<LoadParts<'a>, LoadError>
        requires { length progress.now ≡ workers_of plan }
        ensures urls { IfOk result (λ parts. parts.source.urls.now ≡ plan.entry.urls.now) }
        ensures each { IfOk result (λ parts. parts.source.each ≡ plan.entry.each) }
        ensures number { IfOk result (λ parts. vec_len parts.tools ≡ workers_of plan.entry) }
        ensures uncounted { IfOk result (λ parts.
            All (λ own. IsUncounted plan.entry.sites (counting_of plan.entry) own.results)
            parts.tools.items) }
        ensures none { IfOk result (λ parts. IsNone plan.entry.sites parts.collected) }
        ensures room { IfOk result (λ parts.
            vec_len parts.tools ≤ vec_capacity parts.collected.passes) }
        ensures refused { (workers : ℕ) → IfErr result (IsLoadRefusedFor workers) }
    {
        let counting = Counting {
            urls: plan.urls,
            times: plan.times,
            fails_statuses: plan.fails_statuses,
        };
        let Some(source) = UrlJobs::new(alloc, plan.urls, plan.times.rate, plan.each) else {
            return Err(LoadError::Run(DriverFault::Memory));
        };
        let mut addresses = plan.addresses;
        addresses.truncate(progress.len());
        let tools = tools_for(system, alloc, addresses, plan.sites, counting, progress)?;
        let alarms = alarms_of(alloc, &tools)?;
        let collected = Collected::new(alloc, plan.sites, tools.len())?;
        Ok(LoadParts {
            source,
            tools,
            alarms,
            collected,
        })
    }
}

impl Collected {
    // Discards the passes of a run that did not begin, and returns the reason.
    fn not_begun(
        self,
        refused: NotBegun<PolledDial<'_, HostRuntime>, CountedResults<'_>>,
    ) -> LoadError
        ensures { result ≡ LoadError.Run refused.entry.fault }
    {
        let NotBegun {
            fault,
            tools: _,
            passes,
        } = refused;
        discard_all(passes);
        self.discard();
        LoadError::Run(fault)
    }

    // Returns the result of a run that ended at that moment, unless a turn failed.
    fn ran<N: Names>(
        self,
        report: ManyReport<PolledDial<'_, HostRuntime>, CountedResults<'_>>,
        ended: u64,
        waited: u64,
    ) -> Result<Ran, LoadError>
        requires none { self.passes.items ≡ [] }
        requires room { vec_len report.workers ≤ vec_capacity self.passes }
        requires of_cache { HavePasses N.names report.workers.items }
        ensures collects { IfOk result (λ ran.
            Collects self ran.collected report.entry.workers.items) }
        ensures of_cache { IfOk result (λ ran.
            All (IsPassOf N.names) ran.collected.passes.items) }
        ensures drawn { IfOk result (λ ran. ran.drawn ≡ report.entry.drawn) }
        ensures ended { IfOk result (λ ran. ran.ended ≡ ended) }
        ensures sound { OnOk result (is_fault report.entry.end ≡ false) }
        ensures refused { IfErr result (λ error. error ≡ LoadError.Run DriverFault.Poll) }
    {
        let ManyReport {
            end,
            drawn,
            workers,
        } = report;
        let collected = self.take::<N>(workers);
        if end.is_fault() {
            collected.discard();
            return Err(LoadError::Run(DriverFault::Poll));
        }
        Ok(Ran {
            collected,
            ended,
            waited,
            drawn,
        })
    }
}

// Returns the number of jobs that were due before a load ended, and never begun.
fn missed(times: LoadTimes, jobs: u64, ended: u64, begun: u64) -> u64
    ensures { result ≡ missed_of times jobs ended begun }
{
    let Some(rate) = times.rate else {
        return 0;
    };
    let end = times.end().unwrap_or(ended).min(ended);
    rate.due_before(jobs, end).saturating_sub(begun)
}

// Cuts the logs of a run's cache, gathers the cache, and returns the result of the load.
fn account_of<N: Names, R: Wait>(
    rt: &R,
    alloc: Global,
    cache: SharedCache<PolledWire, N>,
    ran: Ran,
    run: RunPlan,
) -> Result<LoadedMany, LoadError>
    requires { All (IsPassOf N.names) ran.collected.passes.items }
    ensures drawn { IfOk result (λ loaded. loaded.drawn ≡ ran.drawn) }
    ensures figures { IfOk result (λ loaded. loaded.figures ≡ ran.collected.figures) }
    ensures elapsed { IfOk result (λ loaded. loaded.elapsed ≡ ran.ended - warm_of run.times) }
    ensures missed { IfOk result (λ loaded. loaded.missed
        ≡ missed_of run.times run.jobs ran.ended (ran.drawn - ran.collected.unbegun)) }
    ensures logs { IfOk result (λ loaded. AreLogsIn (world_of ⟦<PolledWire as Wire>⟧.untouched
        ⟦<PolledWire as Wire>⟧.happened (λ moment. ⊤)) N.names loaded.logs.items) }
    ensures gathered { IfOk result (λ loaded.
        IsGathered N.names ran.collected.passes.items loaded.gathered) }
    ensures hosts { IfOk result (λ loaded.
        loaded.hosts.items ≡ site_totals run.sites run.each loaded.gathered.hosts.items) }
    ensures refused { (workers : ℕ) → IfErr result (IsLoadRefusedFor workers) }
{
    let Ran {
        collected,
        ended,
        waited,
        drawn,
    } = ran;
    let Collected {
        figures,
        unbegun,
        passes,
    } = collected;
    let logs = match cut_logs(rt, alloc, &cache) {
        Ok(logs) => logs,
        Err(refusal) => {
            discard_all(passes);
            return Err(error_of(refusal));
        }
    };
    let gathered = match cache.gather(alloc, passes) {
        Ok(gathered) => gathered,
        Err((_cache, passes, refusal)) => {
            discard_all(passes);
            return Err(error_of(refusal));
        }
    };
    let Ok(hosts) = site_totals(alloc, &gathered.hosts, run.sites, run.each) else {
        return Err(LoadError::Run(DriverFault::Memory));
    };
    Ok(LoadedMany {
        figures,
        elapsed: ended.saturating_sub(run.times.warm()),
        drawn,
        waited,
        missed: missed(run.times, run.jobs, ended, drawn.saturating_sub(unbegun)),
        logs,
        hosts,
        gathered,
    })
}
