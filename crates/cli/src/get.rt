//! Fetches URLs, and writes a line for each.

ghost use Rattle.std.specs.Prelude.{◌≡◌, None, option_map, string_bytes};
ghost use Rattle.cli.specs.Fetching.{IsKindOf, RunsGet, crawl_status};
ghost use Rattle.command_line.specs.GetPlans.{plan_file};
ghost use Rattle.streams.specs.Streams.{CanCount};

pub(crate) mod look_up_threads;
pub(crate) mod system_network;

use crate::system::System;
use commands::{CrawlPlan, FileAction, Status, UrlFile, write_file_fault};
use crawl::{Crawl, CrawlFault, Crawled, Network};
use std::alloc::Global;
use std::io::{self, Write};
use streams::{Files, Sink, Source, StreamFault};

/// Its name in a message that it cannot be read, without the system's reason: if it was closed, its
/// descriptor is another file's by now.
const STANDARD_INPUT: &str = "standard input";

/// Carries out a plan: fetches the URLs among the words, and then the URLs in its file, which may
/// be standard input, and writes a line as each transfer ends. Returns the status: 0 if each URL
/// has a good response and its line, 2 if a line of the file is a bad URL, else 4. Reports faults
/// on standard error.
pub fn run_get<N: Network, F: Files, R: Source, W: Sink, E: Write>(
    alloc: Global,
    plan: CrawlPlan,
    system: &mut System<F, N, R, W, E>,
) -> u8
    requires input { CanCount (R.source system.old.input) }
    requires output { CanCount (W.sink system.old.output) }
    ensures runs { RunsGet N.Crawler.crawled N.Crawler.finished
        (F.opens system.old.files system.new.files) plan (R.source system.old.input)
        (R.source system.new.input) (W.sink system.old.output) (W.sink system.new.output) result }
    ensures unopened { plan_file plan ≡ None → system.new.files ≡ system.old.files }
{
    let CrawlPlan {
        options,
        urls,
        file,
        resolved,
    } = plan;
    let crawl = Crawl {
        alloc,
        options,
        urls,
        file: kind_of(&system.files, &file),
        resolved,
    };
    let (network, output, errors) = (&system.network, &mut system.output, &mut system.errors);
    let Some(name) = &file else {
        let mut nothing: &[u8] = &[];
        let crawled = crawl.run(network, &mut nothing, output);
        return end_crawl(alloc, crawled, STANDARD_INPUT, None, errors);
    };
    let name = name.as_str();
    if name == "-" {
        let crawled = crawl.run(network, &mut system.input, output);
        return end_crawl(alloc, crawled, STANDARD_INPUT, None, errors);
    }
    match system.files.open(name) {
        Ok(mut file) => {
            let crawled = crawl.run(network, &mut file, output);
            end_crawl(alloc, crawled, name, file.last_error(), errors)
        }
        Err(reason) => {
            write_file_fault(alloc, errors, FileAction::Read, name, Some(reason));
            Status::Failed.code()
        }
    }
}

// Returns the kind of the file of that name, if there is one.
fn kind_of<F: Files>(files: &F, file: &Option<String>) -> UrlFile
    ensures { IsKindOf (option_map string_bytes file.now) result }
{
    match file {
        None => UrlFile::None,
        Some(name) => {
            let name = name.as_str();
            if name != "-" && files.is_regular(name) {
                UrlFile::Regular
            } else {
                UrlFile::Waiting
            }
        }
    }
}

// Reports the fault of a crawl, or its failed URLs, and returns the status. `name` is the name of
// its file, and `reason` the system's reason if that could not be read.
fn end_crawl<E: Write>(
    alloc: Global,
    crawled: Crawled,
    name: &str,
    reason: Option<io::Error>,
    errors: &mut E,
) -> u8
    ensures { result ≡ crawl_status crawled }
{
    if crawled.fault == Some(CrawlFault::Input(StreamFault::Read)) {
        write_file_fault(alloc, errors, FileAction::Read, name, reason);
    } else {
        write_end(errors, crawled);
    }
    status_of(crawled)
}

// Returns the status of a crawl.
fn status_of(crawled: Crawled) -> u8
    ensures { result ≡ crawl_status crawled }
{
    match crawled.fault {
        None if crawled.tally.failed == 0 => Status::Done.code(),
        Some(CrawlFault::BadUrl(_)) => Status::Refused.code(),
        _ => Status::Failed.code(),
    }
}

// Reports the fault of a crawl, or its failed URLs.
fn write_end<E: Write>(errors: &mut E, crawled: Crawled) {
    let (failed, lines) = (crawled.tally.failed, crawled.tally.lines);
    let _ = match crawled.fault {
        None if failed == 0 => Ok(()),
        None => writeln!(errors, "run: {failed} of {lines} failed"),
        Some(CrawlFault::BadUrl(line)) => writeln!(errors, "line {line}: bad URL"),
        Some(fault) => writeln!(errors, "run: {fault}"),
    };
}
