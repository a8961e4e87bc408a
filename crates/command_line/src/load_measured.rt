//! The numbers of a load other than its six, and its flags.

ghost use Rattle.clap.specs.Words.{found_of, rows_of};
ghost use Rattle.command_line.specs.LoadNumbers.{AreFlagsOf, AreNumbersOf};

use crate::load_numbers::has_urls;
use crate::options::{
    CONNECTIONS, FAIL, FAIL_ABOVE, FORBID_REUSE, HEAD, LOAD_JSON, LOAD_TIMEOUT, NO_PROGRESS, QUIET,
    RATE, SECONDS, WARMUP,
};
use crate::values::{count, flag};
use clap::ArgMatches;
use commands::{LoadFlags, LoadNumbers};

/// Returns the numbers of a load other than the six.
pub(crate) fn numbers_of(given: &ArgMatches<'_>) -> LoadNumbers
    ensures { AreNumbersOf (rows_of (found_of given.now)) result }
{
    LoadNumbers {
        connections: count(given, &CONNECTIONS),
        seconds: count(given, &SECONDS),
        warmup: count(given, &WARMUP).unwrap_or(0),
        rate: count(given, &RATE),
        timeout: count(given, &LOAD_TIMEOUT).or(has_urls(given).then_some(30)),
        fail_above: count(given, &FAIL_ABOVE),
    }
}

/// Returns the flags of the words.
pub(crate) fn flags_of(given: &ArgMatches<'_>) -> LoadFlags
    ensures { AreFlagsOf (rows_of (found_of given.now)) result }
{
    LoadFlags {
        head: flag(given, &HEAD),
        forbid_reuse: flag(given, &FORBID_REUSE),
        fail: flag(given, &FAIL),
        json: flag(given, &LOAD_JSON),
        quiet: flag(given, &QUIET),
        no_progress: flag(given, &NO_PROGRESS),
    }
}
