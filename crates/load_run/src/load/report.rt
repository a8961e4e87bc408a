//! The report of a load.

ghost use Rattle.std.specs.Prelude.{◌≡◌, ◌↔◌, IsTrue, IfOk, string_bytes};
ghost use Rattle.load_report.specs.Reports.{IsReportOf};
ghost use Rattle.load_figures.specs.declared.job_counts.JobCounts.{JobCounts};
ghost use Rattle.load_run.specs.LoadStatuses.{load_status};
ghost use Rattle.load_run.specs.LoadRuns.{FailsAbove, IsOutcomeOf, load_lines};

use crate::load::failure::LoadFailure;
use crate::load::fault::{LoadFault, OUT_OF_MEMORY};
use crate::load::files::{OutputFile, unwritten};
use crate::load::outcome::LoadOutcome;
use crate::load::sites::LoadSites;
use crate::loading::LoadedMany;
use commands::{BUILD, LoadNumbers, LoadPlan, Status, VERSION};
use load_report::{
    Connections, HostRun, JobSums, LoadReport, LoadRun, OptionValue, SaidOption, Summary,
    fails_above, json_text, picture_of, report_with,
};
use std::alloc::{AllocError, Global};
use streams::{Sink, StreamFault};

/// Makes the report of a load's figures.
///
/// # Errors
///
/// Memory ran out.
pub(crate) fn report_of_load(
    alloc: Global,
    plan: &LoadPlan,
    sites: &LoadSites<'_>,
    loaded: &LoadedMany,
) -> Result<LoadReport, LoadFault>
    ensures { IfOk result (λ report. IsReportOf loaded.now.figures.all report.jobs) }
{
    let Ok(run) = run_of(alloc, plan, sites, loaded) else {
        return Err(OUT_OF_MEMORY);
    };
    match LoadReport::new(alloc, run, &loaded.figures) {
        Ok(report) => Ok(report),
        Err(_) => Err(OUT_OF_MEMORY),
    }
}

/// Draws the load's picture into the file, if there is one.
///
/// # Errors
///
/// Memory ran out, or the picture could not be written.
pub(crate) fn write_picture(
    alloc: Global,
    report: &LoadReport,
    pictured: Option<OutputFile<'_>>,
) -> Result<(), LoadFailure> {
    let Some(output) = pictured else {
        return Ok(());
    };
    let OutputFile { name, mut file } = output;
    let picture = picture_of(alloc, report)?;
    match file.put(picture.as_bytes()) {
        Ok(()) => Ok(()),
        Err(StreamFault::Memory) => Err(OUT_OF_MEMORY.into()),
        Err(_) => Err(unwritten(alloc, name, file.last_error())),
    }
}

/// Makes a load's outcome: its report, its note and its status.
///
/// # Errors
///
/// Memory ran out.
pub(crate) fn outcome_of(
    alloc: Global,
    plan: &LoadPlan,
    report: &LoadReport,
    loaded: &LoadedMany,
) -> Result<LoadOutcome, AllocError>
    requires { IsReportOf loaded.now.figures.all report.now.jobs }
    ensures { IfOk result (IsOutcomeOf plan.now loaded.now) }
{
    let text = if plan.flags.json {
        json_text(alloc, report)?
    } else {
        lines_of(alloc, loaded)?
    };
    let mut note = String::new(alloc);
    if !plan.is_plain && !plan.flags.quiet {
        let summary = Summary(report);
        note = format!(in alloc; "{summary}")?;
    }
    if !plan.is_plain && report.jobs.good == 0 {
        note.push_str("run: no good response\n")?;
    }
    let fails = fails(report, plan.numbers.fail_above);
    let status = load_status(plan.is_plain, fails, report.jobs.good);
    Ok(LoadOutcome {
        report: text,
        note,
        status,
    })
}

// Returns the status of a load with `good` good responses. `fails` is true if more requests failed
// than may fail.
fn load_status(is_plain: bool, fails: bool, good: u64) -> u8
    ensures { result ≡ load_status is_plain fails good }
{
    if fails {
        Status::FailedAbove.code()
    } else if is_plain {
        Status::Done.code()
    } else if good == 0 {
        Status::Failed.code()
    } else {
        Status::Done.code()
    }
}

// True if more requests failed than may fail, in hundredths of a percent.
fn fails(report: &LoadReport, fail_above: Option<u32>) -> bool
    ensures { (counts : JobCounts) → IsReportOf counts report.now.jobs
        → (IsTrue result ↔ FailsAbove fail_above counts) }
{
    match fail_above {
        Some(hundredths) => fails_above(report, hundredths),
        None => false,
    }
}

// Makes the report: a line for each site, one for all sites, and one for the requests.
fn lines_of(alloc: Global, loaded: &LoadedMany) -> Result<String, AllocError>
    ensures { IfOk result (λ text. string_bytes text ≡ load_lines loaded.now) }
{
    let all = loaded.figures.all();
    let sums = JobSums {
        jobs: all.done(),
        failed: all.failed,
        reused: all.reused,
        retried: all.retried,
        bytes: all.bytes,
    };
    match report_with(alloc, &loaded.hosts, sums) {
        Ok(text) => Ok(text),
        Err(_) => Err(AllocError),
    }
}

// Collects the facts of a load that are not figures.
fn run_of(
    alloc: Global,
    plan: &LoadPlan,
    sites: &LoadSites<'_>,
    loaded: &LoadedMany,
) -> Result<LoadRun, AllocError> {
    let mut urls = Vec::new(alloc);
    for url in &plan.urls {
        urls.push(String::from_str(alloc, url.as_str())?)?;
    }
    let mut hosts = Vec::new(alloc);
    for (site, count) in loaded.hosts.iter().enumerate() {
        let host = sites.name(alloc, site)?;
        let connections = Connections {
            opened: count.opened,
            reused: count.reused,
            closed: count.closed,
            waited: count.waited,
            open: count.alive,
        };
        hosts.push(HostRun { host, connections })?;
    }
    Ok(LoadRun {
        version: VERSION,
        build: BUILD,
        urls,
        options: said_options(alloc, plan)?,
        elapsed_us: loaded.elapsed,
        missed: loaded.missed,
        waited_us: loaded.waited,
        hosts,
    })
}

// Lists the options in force.
fn said_options(alloc: Global, plan: &LoadPlan) -> Result<Vec<SaidOption>, AllocError> {
    let mut said = Vec::new(alloc);
    let options = plan.options;
    let LoadNumbers {
        connections,
        seconds,
        warmup,
        rate,
        timeout,
        fail_above,
    } = plan.numbers;
    let jobs = if seconds.is_none() {
        Some(options.jobs)
    } else {
        None
    };
    let numbers = [
        ("connections", Some(connections.unwrap_or(options.workers))),
        ("connects", Some(options.connects)),
        ("host-limit", Some(options.host_limit)),
        ("jobs", jobs),
        ("rate", rate),
        ("seconds", seconds),
        ("timeout", timeout),
        ("total", Some(options.total)),
        ("warmup", Some(warmup)),
        ("workers", Some(options.workers)),
    ];
    for (name, number) in &numbers {
        if let Some(number) = *number {
            add(&mut said, *name, OptionValue::Number(number as u64))?;
        }
    }
    if let Some(hundredths) = fail_above {
        let (whole, part) = (hundredths / 100, hundredths % 100);
        let text = format!(in alloc; "{whole}.{part:02}")?;
        add(&mut said, "fail-above", OptionValue::Text(text))?;
    }
    let flags = [
        ("fail", plan.flags.fail),
        ("forbid-reuse", plan.flags.forbid_reuse),
        ("head", plan.flags.head),
    ];
    for (name, is_set) in &flags {
        if *is_set {
            add(&mut said, *name, OptionValue::Flag)?;
        }
    }
    Ok(said)
}

// Adds an option.
fn add(
    said: &mut Vec<SaidOption>,
    name: &'static str,
    value: OptionValue,
) -> Result<(), AllocError> {
    said.push(SaidOption { name, value })?;
    Ok(())
}
