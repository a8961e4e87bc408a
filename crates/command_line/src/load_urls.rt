//! The jobs of a load's URLs.

ghost use Rattle.std.specs.Prelude.{◌≡◌, map, string_bytes, IfErr, IfOk};
ghost use Rattle.conn_key.specs.Target.{GivesTarget};
ghost use Rattle.commands.specs.Urls.{IsBadUrl, IsPrintable};
ghost use Rattle.clap.specs.Words.{found_of, rows_of};
ghost use Rattle.command_line.specs.LoadUrls.{AreBadUrls, ArePlannedUrls, urls_said};
ghost use Rattle.command_line.specs.Refusals.{IsWhy};

use crate::options::{URL, URLS};
use crate::refusal::{Refusal, wrong};
use crate::url_target::checked_target;
use crate::values::{add_texts, texts};
use clap::ArgMatches;
use commands::{LoadFlags, job_of};
use conn_key::Sites;
use exchange::Job;
use std::alloc::{AllocError, Global};

/// Maximum number of URLs.
const MOST_URLS: usize = 8;

/// Returns the URLs of a load: the values of `--url`, and then the operands.
///
/// # Errors
///
/// Memory ran out.
pub(crate) fn load_urls(alloc: Global, given: &ArgMatches<'_>) -> Result<Vec<String>, AllocError>
    ensures { IfOk result (λ urls.
        map string_bytes urls.items ≡ urls_said (rows_of (found_of given.now))) }
{
    let mut urls = texts(alloc, given, &URL)?;
    add_texts(&mut urls, given, &URLS)?;
    Ok(urls)
}

/// Makes the job of each URL, the first `named` of which are values of `--url`. URLs of one host
/// and port are one site. Sites are numbered in the order in which they are first named.
///
/// # Errors
///
/// `Wrong` if there are more than eight URLs, or one has a control character or no target.
/// `Memory` if memory ran out.
pub(crate) fn url_jobs(
    alloc: Global,
    urls: &[String],
    named: usize,
    flags: LoadFlags,
) -> Result<Vec<Job>, Refusal>
    ensures jobs { IfOk result (λ jobs.
        ArePlannedUrls flags (map string_bytes urls.now) jobs.items) }
    ensures refused { IfErr result (IsWhy (AreBadUrls (map string_bytes urls.now))) }
{
    let mut jobs = Vec::new(alloc);
    let Ok(mut sites) = Sites::new(alloc) else {
        return Err(Refusal::Memory);
    };
    for url in urls {
        if jobs.len() == MOST_URLS {
            return Err(wrong(String::from_str(alloc, "more than 8 URLs")));
        }
        let target = checked_target(alloc, option_at(jobs.len(), named), url.as_str())?;
        let Ok(site) = sites.add(&target) else {
            return Err(Refusal::Memory);
        };
        let Ok(()) = jobs.push(job_of(site, target, flags)) else {
            return Err(Refusal::Memory);
        };
    }
    Ok(jobs)
}

// Returns the name in messages of the option or operand that gives URL number `index`.
fn option_at(index: usize, named: usize) -> &'static str {
    if index < named {
        "--url <URL>"
    } else {
        "[URL]..."
    }
}
