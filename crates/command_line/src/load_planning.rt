//! Plans a load, from the words after `load`.

ghost use Rattle.std.specs.Prelude.{◌≡◌, ◌&&◌, is_some, IfErr, IfOk};
ghost use Rattle.clap.specs.Words.{found_of, rows_of};
ghost use Rattle.command_line.specs.LoadPlans.{IsLoadPlanOf, IsLoadRefused, has_conflict};
ghost use Rattle.command_line.specs.LoadPlans.{is_plain};
ghost use Rattle.command_line.specs.OptionTable.{facts_of};
ghost use Rattle.command_line.specs.Options.{is_used};
ghost use Rattle.command_line.specs.Refusals.{IsWhy};

use crate::load_measured::{flags_of, numbers_of};
use crate::load_numbers::load_options;
use crate::load_urls::{load_urls, url_jobs};
use crate::options;
use crate::options::{JOBS, LOAD_PICTURE, OptionRow, SECONDS, SITES, TRACE, URL, URLS};
use crate::refusal::{Refusal, wrong};
use crate::resolve::given_hosts;
use crate::values::{is_used, text, text_count};
use clap::ArgMatches;
use commands::LoadPlan;
use std::alloc::Global;

/// Makes the plan of the words after `load`.
///
/// # Errors
///
/// `Wrong` if a number is not in its range, if URLs are used with `--sites` or `--seconds` with
/// `--jobs`, if there are more than eight URLs or a bad one, or if a value of `--resolve` has
/// another form. `Memory` if memory ran out.
pub(crate) fn load_plan(alloc: Global, given: &ArgMatches<'_>) -> Result<LoadPlan, Refusal>
    ensures plan { IfOk result (IsLoadPlanOf (rows_of (found_of given.now))) }
    ensures refused { IfErr result (IsWhy (IsLoadRefused (rows_of (found_of given.now)))) }
{
    let options = load_options(alloc, given)?;
    if let Some(message) = conflict_of(given) {
        return Err(wrong(String::from_str(alloc, message)));
    }
    let flags = flags_of(given);
    let urls = load_urls(alloc, given)?;
    let named = text_count(given, &URL);
    let jobs = url_jobs(alloc, urls.as_slice(), named, flags)?;
    let resolved = given_hosts(alloc, given)?;
    let trace = text(alloc, given, &TRACE)?;
    let picture = text(alloc, given, &LOAD_PICTURE)?;
    Ok(LoadPlan {
        options,
        numbers: numbers_of(given),
        flags,
        urls,
        jobs,
        resolved,
        trace,
        picture,
        is_plain: is_plain(given),
    })
}

// Returns the message if two options are used that exclude each other.
fn conflict_of(given: &ArgMatches<'_>) -> Option<&'static str>
    ensures { is_some result ≡ has_conflict (rows_of (found_of given.now)) }
{
    if are_both_used(given, &URL, &SITES) {
        return Some("the argument '--url <URL>' cannot be used with '--sites <NUMBER>'");
    }
    if are_both_used(given, &URLS, &SITES) {
        return Some("the argument '[URL]...' cannot be used with '--sites <NUMBER>'");
    }
    if are_both_used(given, &SECONDS, &JOBS) {
        return Some("the argument '--seconds <SECONDS>' cannot be used with '--jobs <NUMBER>'");
    }
    None
}

// Returns true if both options are used.
fn are_both_used(given: &ArgMatches<'_>, one: &OptionRow, other: &OptionRow) -> bool
    ensures { result ≡ (is_used (rows_of (found_of given.now)) (facts_of one.now)
        && is_used (rows_of (found_of given.now)) (facts_of other.now)) }
{
    is_used(given, one) && is_used(given, other)
}

// Returns true if the options that are used leave a load plain.
fn is_plain(given: &ArgMatches<'_>) -> bool
    ensures { result ≡ is_plain (rows_of (found_of given.now)) }
{
    let options = options::load_options();
    for option in options {
        if !option.is_plain && is_used(given, option) {
            return false;
        }
    }
    true
}
