//! The run of a load, its outcome, and its files.

ghost use Rattle.std.specs.Prelude.{◌≡◌, ◌⊎◌, IfOk};
ghost use Rattle.load_run.specs.LoadRuns.{IsLoadOutcomeOf, lacks_jobs, IsUnknownHost};
ghost use Rattle.load_run.specs.LoadRuns.{IsUnknownSite};
ghost use Rattle.load_run.specs.LoadRuns.{IsManyPlanOf, ReportsRun, hosts_each, jobs_planned};
ghost use Rattle.load_run.specs.LoadRuns.{polled_world};
ghost use Rattle.load_run.specs.LoadRuns.{per_second, positive};
ghost use Rattle.load_run.specs.LoadSites.{AreSitesOf, AreAllBelow};
ghost use Rattle.commands.specs.declared.load_plan.LoadPlan.{LoadPlan};

use crate::load::failure::LoadFailure;
use crate::load::fault::{LoadFault, OUT_OF_MEMORY};
use crate::load::files::{LoadFiles, OutputFile};
use crate::load::outcome::LoadOutcome;
use crate::load::report::{outcome_of, report_of_load, write_picture};
use crate::load::sites::{LoadSites, SiteFault};
use crate::load::watch::LoadWatch;
use crate::loading::{LoadedMany, load_many};
use crate::pace::Rate;
use crate::plan::{LoadTimes, ManyPlan};
use bundle::MOST_HOSTS;
use commands::{LoadOptions, LoadPlan, Status};
use std::alloc::{AllocGlobal, Global};
use std::random::RandomSource;
use std::sync::Wait;
use std::thread::Threads;

/// Runs a load. Finds the addresses of its sites first, then creates its files.
///
/// # Errors
///
/// The reason why there is no report.
pub(crate) fn load_sites<R: Threads + Wait + RandomSource + AllocGlobal + Sync>(
    rt: &R,
    system: &HostRuntime,
    alloc: Global,
    plan: &LoadPlan,
) -> Result<LoadOutcome, LoadFailure>
    ensures { IfOk result (λ outcome.
        IsUnknownHost plan.now outcome ⊎ ReportsRun polled_world plan.now outcome) }
{
    let sites = match LoadSites::of(system, alloc, &plan.jobs, &plan.resolved) {
        Ok(sites) => sites,
        Err(SiteFault::Memory) => return Err(OUT_OF_MEMORY.into()),
        Err(SiteFault::Unknown(host)) => return unknown(alloc, host),
    };
    let many = many_plan(alloc, plan, &sites)?;
    let LoadFiles { traced, pictured } = LoadFiles::create(system, alloc, plan)?;
    let watch = LoadWatch::new(rt, system, alloc, plan, &sites, traced);
    let ended = load_many(rt, system, alloc, many, &watch);
    watch.erase_progress();
    let loaded = match ended {
        Ok(loaded) => loaded,
        Err(error) => return Err(LoadFault::Load(error).into()),
    };
    let trace = watch.end_trace(&loaded.logs);
    let outcome = written(alloc, plan, &sites, &loaded, trace, pictured)?;
    if watch.is_interrupted() || lacks_jobs(plan, &loaded) {
        return Ok(LoadOutcome {
            status: Status::Interrupted.code(),
            ..outcome
        });
    }
    Ok(outcome)
}

// True if a load without a warm-up and a duration has fewer results than jobs. Only Ctrl-C ends
// such a load early.
fn lacks_jobs(plan: &LoadPlan, loaded: &LoadedMany) -> bool
    ensures { result ≡ lacks_jobs plan.now loaded.now }
{
    let LoadPlan {
        options,
        numbers,
        ..
    } = plan;
    numbers.seconds.is_none()
        && numbers.warmup == 0
        && loaded.figures.all().done() != options.jobs as u64
}

// Draws the picture, and returns the outcome. `trace` is the result of writing the trace.
fn written(
    alloc: Global,
    plan: &LoadPlan,
    sites: &LoadSites<'_>,
    loaded: &LoadedMany,
    trace: Result<(), LoadFailure>,
    pictured: Option<OutputFile<'_>>,
) -> Result<LoadOutcome, LoadFailure>
    ensures { IfOk result (IsLoadOutcomeOf plan.now loaded.now) }
{
    let report = report_of_load(alloc, plan, sites, loaded)?;
    let outcome = outcome_of(alloc, plan, &report, loaded)?;
    let picture = write_picture(alloc, &report, pictured);
    let outcome = outcome.after_write(alloc, trace)?;
    Ok(outcome.after_write(alloc, picture)?)
}

// Makes the outcome if the system does not know a host.
fn unknown(alloc: Global, host: &str) -> Result<LoadOutcome, LoadFailure>
    ensures { (plan : LoadPlan) → IsUnknownSite plan host.now
        → IfOk result (IsUnknownHost plan) }
{
    let note = format!(in alloc; "run: unknown host {host}\n")?;
    Ok(LoadOutcome {
        report: String::new(alloc),
        note,
        status: Status::Failed.code(),
    })
}

// Makes the plan of a run at these sites.
fn many_plan<'a>(
    alloc: Global,
    plan: &'a LoadPlan,
    sites: &LoadSites<'_>,
) -> Result<ManyPlan<'a>, LoadFault>
    requires sites { AreSitesOf plan.now.jobs.items plan.now.resolved.items 0
        sites.now.sites.items }
    requires all { AreAllBelow sites.now.count plan.now.jobs.items }
    ensures { IfOk result (IsManyPlanOf plan.now) }
{
    let (options, numbers) = (plan.options, plan.numbers);
    let each = hosts_each(plan, sites.count);
    let Ok(addresses) = sites.addresses(alloc, options.workers, each) else {
        return Err(OUT_OF_MEMORY);
    };
    Ok(ManyPlan {
        limits: options.limits(),
        sites: sites.count,
        each,
        addresses,
        urls: &plan.jobs,
        jobs: jobs_of(options, numbers.seconds),
        connections: numbers.connections.unwrap_or(options.workers),
        times: LoadTimes {
            seconds: numbers.seconds,
            warmup: numbers.warmup,
            rate: rate_of(numbers.rate),
            timeout: numbers.timeout,
        },
        fails_statuses: plan.flags.fail,
    })
}

// Returns the number of hosts that each site has in the cache: one for each thread if the load has
// URLs and no trace, no limit keeps it from opening connections or from keeping them all, and the
// cache has room for the hosts; otherwise 1.
fn hosts_each(plan: &LoadPlan, sites: u32) -> u32
    ensures { result ≡ hosts_each plan.now sites }
{
    let LoadPlan {
        options,
        numbers,
        ..
    } = plan;
    let connections = numbers.connections.unwrap_or(options.workers);
    let is_unlimited = options.host_limit == 0
        && options.total == 0
        && connections <= options.connects;
    match sites.checked_mul(options.workers) {
        Some(hosts)
            if hosts <= MOST_HOSTS
                && is_unlimited
                && plan.trace.is_none()
                && !plan.urls.is_empty() => { options.workers }
        _ => 1,
    }
}

// Returns the number of jobs; None for a load with a duration.
fn jobs_of(options: LoadOptions, seconds: Option<u32>) -> Option<u64>
    ensures { result ≡ jobs_planned options seconds }
{
    match seconds {
        Some(_) => None,
        None => Some(options.jobs as u64),
    }
}

// Returns the rate of `number` requests a second, if it is given.
fn rate_of(number: Option<u32>) -> Option<Rate>
    ensures { per_second result ≡ positive number }
{
    Rate::new(number?)
}
