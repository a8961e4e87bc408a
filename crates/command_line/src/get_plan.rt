//! The plan of a `get`.

ghost use Rattle.std.specs.Prelude.{◌≡◌, IfErr, IfOk};
ghost use Rattle.clap.specs.Words.{found_of, rows_of};
ghost use Rattle.command_line.specs.GetPlans.{AreOptionsOf, IsGetRefused, IsPlanOf, flags_said};
ghost use Rattle.command_line.specs.Refusals.{IsWhy};

use crate::get_urls::crawl_urls;
use crate::options::{
    FAIL, FILE, FRESH, GET_JSON, GET_TIMEOUT, HEAD, HOST_LIMIT, MAX_AGE, MAX_LIFE, PARALLEL,
    SKIP_BAD, TOTAL, URLS, get_options,
};
use crate::refusal::Refusal;
use crate::resolve::given_hosts;
use crate::values::{check_numbers, count, flag, number, text, texts};
use clap::ArgMatches;
use commands::{CrawlFlags, CrawlOptions, CrawlPlan, method_of};
use conn_log::DEFAULT_MAX_AGE;
use std::alloc::Global;

/// The message for words that name neither a URL nor a file.
const NO_URL: &str = "\
the following required arguments were not provided:
  <URL>...";

/// Makes the plan of the words after `get`.
///
/// # Errors
///
/// `Wrong` if there is neither a URL nor a file, if a number is out of its range, if a value of
/// `--resolve` has another form, or if a URL that may not be skipped has a control character or no
/// target. `Memory` if memory ran out.
pub(crate) fn get_plan(alloc: Global, given: &ArgMatches<'_>) -> Result<CrawlPlan, Refusal>
    ensures plan { IfOk result (IsPlanOf (rows_of (found_of given.now))) }
    ensures refused { IfErr result (IsWhy (IsGetRefused (rows_of (found_of given.now)))) }
{
    check_numbers(alloc, given, get_options())?;
    let file = text(alloc, given, &FILE)?;
    let urls = texts(alloc, given, &URLS)?;
    if urls.is_empty() && file.is_none() {
        return Err(Refusal::Wrong(String::from_str(alloc, NO_URL)?));
    }
    let resolved = given_hosts(alloc, given)?;
    let options = options_of(given);
    let urls = crawl_urls(alloc, urls, options.flags.skip_bad)?;
    Ok(CrawlPlan {
        options,
        urls,
        file,
        resolved,
    })
}

// Returns the options of the words.
fn options_of(given: &ArgMatches<'_>) -> CrawlOptions
    ensures { AreOptionsOf (rows_of (found_of given.now)) result }
{
    CrawlOptions {
        method: method_of(flag(given, &HEAD)),
        parallel: count(given, &PARALLEL).unwrap_or(1),
        host_limit: count(given, &HOST_LIMIT).unwrap_or(0),
        total: count(given, &TOTAL).unwrap_or(0),
        max_age: number(given, &MAX_AGE).unwrap_or(DEFAULT_MAX_AGE),
        max_life: number(given, &MAX_LIFE).unwrap_or(0),
        timeout: count(given, &GET_TIMEOUT).unwrap_or(30),
        flags: flags_of(given),
    }
}

// Returns the flags of the words.
fn flags_of(given: &ArgMatches<'_>) -> CrawlFlags
    ensures { result ≡ flags_said (rows_of (found_of given.now)) }
{
    CrawlFlags {
        fresh: flag(given, &FRESH),
        skip_bad: flag(given, &SKIP_BAD),
        fail: flag(given, &FAIL),
        json: flag(given, &GET_JSON),
    }
}
