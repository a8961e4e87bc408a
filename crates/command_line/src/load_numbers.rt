//! The six numbers of a load.

ghost use Rattle.std.specs.Prelude.{◌≡◌, ◌<◌, ◌≤◌, IfErr, IfOk};
ghost use Rattle.clap.specs.Words.{found_of, rows_of};
ghost use Rattle.command_line.specs.LoadNumbers.{AreLoadOptions, IsNumberRefused};
ghost use Rattle.command_line.specs.LoadNumbers.{default_connects, has_urls, most_jobs};
ghost use Rattle.command_line.specs.Refusals.{IsWhy};

use crate::options;
use crate::options::{
    CONNECTS, HOST_LIMIT, JOBS, OptionRow, SECONDS, SITES, TOTAL, URL, URLS, WORKERS,
};
use crate::refusal::Refusal;
use crate::values::{check_number, check_numbers, count, is_used};
use clap::ArgMatches;
use commands::LoadOptions;
use std::alloc::Global;

/// Maximum number of jobs with URLs or seconds, and without.
const MOST_JOBS: u64 = 4_294_967_295;

const MOST_PLAIN_JOBS: u64 = 10_000;

/// Default number of idle connections for each job.
const CONNECTS_OF_A_JOB: u32 = 4;

/// Maximum number of idle connections.
const MOST_CONNECTS: u32 = 65_535;

/// Returns the six numbers of the words after `load`. The defaults are 2 sites, 20 jobs, 4 workers,
/// no limits, and 4 idle connections for each job, at most 65,535; with `--seconds` 65,535 idle
/// connections.
///
/// # Errors
///
/// `Wrong` if a number, one of these or another, is not in its option's range. `Memory` if memory
/// ran out.
pub fn load_options(alloc: Global, given: &ArgMatches<'_>) -> Result<LoadOptions, Refusal>
    ensures options { IfOk result (AreLoadOptions (rows_of (found_of given.now))) }
    ensures refused { IfErr result (IsWhy (IsNumberRefused (rows_of (found_of given.now)))) }
{
    let jobs = OptionRow {
        greatest: most_jobs(given),
        ..JOBS
    };
    check_number(alloc, given, &jobs)?;
    check_numbers(alloc, given, options::load_options())?;
    let jobs = count(given, &jobs).unwrap_or(20);
    Ok(LoadOptions {
        sites: count(given, &SITES).unwrap_or(2),
        jobs,
        workers: count(given, &WORKERS).unwrap_or(4),
        host_limit: count(given, &HOST_LIMIT).unwrap_or(0),
        total: count(given, &TOTAL).unwrap_or(0),
        connects: count(given, &CONNECTS).unwrap_or(default_connects(given, jobs)),
    })
}

/// Returns true if the words give a URL.
pub(crate) fn has_urls(given: &ArgMatches<'_>) -> bool
    ensures { result ≡ has_urls (rows_of (found_of given.now)) }
{
    is_used(given, &URL) || is_used(given, &URLS)
}

// Returns the maximum number of jobs.
fn most_jobs(given: &ArgMatches<'_>) -> u64
    ensures most { result ≡ most_jobs (rows_of (found_of given.now)) }
    ensures within { (10000 ≤ result) × (result ≤ 4294967295) }
{
    if has_urls(given) || is_used(given, &SECONDS) {
        MOST_JOBS
    } else {
        MOST_PLAIN_JOBS
    }
}

// Returns the default number of idle connections for a load of `jobs` jobs.
fn default_connects(given: &ArgMatches<'_>, jobs: u32) -> u32
    requires { 0 < jobs }
    ensures connects { result ≡ default_connects (rows_of (found_of given.now)) jobs }
    ensures within { (1 ≤ result) × (result ≤ 65535) }
{
    if is_used(given, &SECONDS) {
        MOST_CONNECTS
    } else {
        jobs.saturating_mul(CONNECTS_OF_A_JOB).min(MOST_CONNECTS)
    }
}
