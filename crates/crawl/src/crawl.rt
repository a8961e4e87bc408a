//! Fetches URLs over one cache, many at once, and writes a line for each.

ghost use Rattle.std.specs.Prelude.{◌≡◌, ◌<◌, ◌∷◌, [], ℕ, List, Option, None, Some, length};
ghost use Rattle.std.specs.Prelude.{string_bytes};
ghost use Rattle.std.specs.Prelude.{true, IfErr, IfNone, IfOk, IfSome, IsOk, OnOk, OnSome};
ghost use Rattle.exchange.specs.declared.job.Job.{Job};
ghost use Rattle.run_loop.specs.Taking.{JobResult};
ghost use Rattle.streams.specs.Streams.{CanCount, Stream};
ghost use Rattle.crawl.specs.Crawling.{CrawlGiven, Crawls, HasFetched, HasStepped, IfEnd, IsAt};
ghost use Rattle.crawl.specs.Crawling.{LeavesUrls, crawl_given, hosts_of, jobs_begun};
ghost use Rattle.crawl.specs.Crawling.{none_begun};
ghost use Rattle.crawl.specs.Faults.{IsStepFault, line_fault};
ghost use Rattle.crawl.specs.Reading.{TakesBad, queue_shown};
ghost use Rattle.crawl.specs.Written.{output_shown};
ghost use Rattle.crawl.specs.declared.fault.CrawlFault.TheVariants as faults;
ghost use Rattle.streams.specs.declared.stream_fault.StreamFault.TheVariants.{Read};

use crate::batch::Batch;
use crate::crawler::Crawler;
use crate::fault::{CrawlFault, NetworkFault};
use crate::in_flight::Tally;
use crate::network::Network;
use crate::output::Output;
use crate::progress::Progress;
use crate::queue::Queue;
use crate::signals::CrawlSignals;
use bundle::MOST_HOSTS;
use client::Names;
use commands::{CrawlOptions, CrawlUrl, Resolved, UrlFile};
use exchange::Job;
use std::alloc::Global;
use std::sync::atomic::AtomicBool;
use streams::{Sink, Source, StreamFault};

/// There is no memory for the URLs.
const OUT_OF_MEMORY: CrawlFault = CrawlFault::Input(StreamFault::Memory);

/// URLs that are fetched over one cache, many at once.
#[derive(Drop)]
pub struct Crawl {
    pub alloc: Global,
    pub options: CrawlOptions,
    /// The URLs that come first.
    pub urls: Vec<CrawlUrl>,
    /// The kind of file that has more of them, one a line.
    pub file: UrlFile,
    /// Addresses that are given for hosts, which are not looked up.
    pub resolved: Vec<Resolved>,
}

/// The end of a crawl.
#[derive(Clone, Copy, Debug, PartialEq, Eq)]
pub struct Crawled {
    pub tally: Tally,
    /// The fault that ended it before each URL had its line, if there was one.
    pub fault: Option<CrawlFault>,
}

/// The next step of a crawl.
#[derive(Drop)]
pub(crate) enum Step {
    /// Begins these jobs, and runs all transfers in flight.
    Fetch(Vec<Job>),
    /// Reads more: nothing is in flight.
    Read,
    /// Ends: nothing is left to do.
    End,
}

impl Crawl {
    /// Number of hosts for which its cache needs places: without a file, at most one for each URL.
    pub fn hosts(&self) -> u32
        ensures { result ≡ hosts_of self.now.file (length self.now.urls.items) 1024 }
    {
        match self.file {
            UrlFile::None => self.urls.len().min(MOST_HOSTS as usize) as u32,
            UrlFile::Regular | UrlFile::Waiting => MOST_HOSTS,
        }
    }

    /// Fetches the URLs, and then the URLs in `input`, if there is a file, and writes a line on
    /// `output` as each transfer ends: its result, and its URL. With `parallel` 1, lines are in the
    /// order of the URLs. After a failed read of `input` it fetches the URLs that were read before.
    pub fn run<N: Network, R: Source, W: Sink>(
        self,
        network: &N,
        input: &mut R,
        output: &mut W,
    ) -> Crawled
        requires input { CanCount (R.source input.old) }
        requires output { CanCount (W.sink output.old) }
        ensures crawls { Crawls N.Crawler.crawled N.Crawler.finished (crawl_given self
            (R.source input.old).bytes) (W.sink output.old) (W.sink output.new) result }
    {
        let (alloc, options) = (self.alloc, self.options);
        let mut crawler = match network.open(alloc, options, self.hosts()) {
            Ok(crawler) => crawler,
            Err(fault) => return unopened(fault),
        };
        let names = network.names();
        let cannot_write = AtomicBool::new(false);
        let mut progress = Progress {
            flags: options.flags,
            in_flight: Vec::new(alloc),
            tally: Tally {
                lines: 0,
                failed: 0,
            },
            fault: None,
        };
        let mut lines = Output {
            alloc,
            progress: &mut progress,
            output,
            cannot_write: &cannot_write,
        };
        let ended = fetch_urls(Queue::new(self), names, &mut crawler, input, &mut lines);
        let signals = CrawlSignals {
            cannot_write: &cannot_write,
            names,
            input,
            wants_input: false,
        };
        let finished = crawler.finish(&mut lines, &signals);
        Crawled {
            tally: lines.progress.tally,
            fault: fault_of(lines.progress.fault, ended, finished),
        }
    }
}

// A crawl whose network was not opened.
fn unopened(fault: NetworkFault) -> Crawled
    ensures tally { result.tally ≡ record { lines = 0; failed = 0 } }
    ensures fault { result.fault ≡ Some (faults.Network fault) }
{
    Crawled {
        tally: Tally {
            lines: 0,
            failed: 0,
        },
        fault: Some(CrawlFault::Network(fault)),
    }
}

// Returns the fault of a crawl, if it has one. The fault of a line comes before others.
fn fault_of(
    line: Option<StreamFault>,
    ended: Result<(), CrawlFault>,
    finished: Result<(), NetworkFault>,
) -> Option<CrawlFault>
    requires other { IfErr ended (λ fault. line_fault (Some fault) ≡ None) }
    ensures line { line_fault result ≡ line }
    ensures whole { result ≡ None → IsOk ended }
    ensures failed_read { result ≡ Some (faults.Input Read) → ended ≡ Err (faults.Input Read) }
    ensures bad_url { (number : ℕ) → result ≡ Some (faults.BadUrl number)
        → ended ≡ Err (faults.BadUrl number) }
{
    match (line, ended, finished) {
        (Some(kind), _, _) => Some(CrawlFault::Output(kind)),
        (None, Err(fault), _) => Some(fault),
        (None, Ok(()), Err(fault)) => Some(CrawlFault::Network(fault)),
        (None, Ok(()), Ok(())) => None,
    }
}

// Fetches the URLs of a queue, batch by batch, until none is left, or a line could not be
// written.
//
// Errors: a read of the URLs failed, the network failed, or a bad URL ends the crawl.
fn fetch_urls<N: Names, C: Crawler, R: Source, W: Sink>(
    queue: Queue,
    names: &N,
    crawler: &mut C,
    input: &mut R,
    output: &mut Output<'_, W>,
) -> Result<(), CrawlFault>
    requires counts { CanCount (R.source input.old) }
    requires can_go_on { C.can_go_on crawler.old }
    ensures can_go_on { C.can_go_on crawler.new }
    ensures same { output.new.output.ghost_name ≡ output.old.output.ghost_name }
    ensures other { IfErr result (λ fault. line_fault (Some fault) ≡ None) }
    ensures fetches { (crawl : CrawlGiven) (first : Stream)
        → IsAt crawl [] [] first (R.source input.old).bytes (queue_shown queue)
        (output_shown output.old.progress.now (W.sink output.old.output.now)
        output.old.output.ghost_name)
        → HasFetched C.crawled crawl first (output_shown output.new.progress.now
        (W.sink output.new.output.now) output.new.output.ghost_name) result }
{
    let mut queue = queue;
    for _ in 0..u64::MAX {
        let jobs = match next_step(&mut queue, names, crawler, input, output) {
            Ok(Step::Fetch(jobs)) => jobs,
            Ok(Step::Read) => continue,
            Ok(Step::End) => return queue.end(),
            Err(fault) => return Err(fault),
        };
        let signals = CrawlSignals {
            cannot_write: output.cannot_write,
            names,
            input,
            wants_input: queue.wants_input(),
        };
        if let Err(fault) = crawler.crawl(jobs.as_slice(), queue.until(), output, &signals) {
            return Err(CrawlFault::Network(fault));
        }
        if output.progress.fault.is_some() {
            return Ok(());
        }
    }
    // 2^64 steps are never reached
    Err(OUT_OF_MEMORY)
}

// Reads URLs ahead, writes the lines of bad ones, and takes those out of the queue whose transfers
// begin next. Returns the next step. If nothing is in flight and a host's addresses are not known,
// it waits for an answer.
fn next_step<N: Names, C: Crawler, R: Source, W: Sink>(
    queue: &mut Queue,
    names: &N,
    crawler: &mut C,
    input: &mut R,
    output: &mut Output<'_, W>,
) -> Result<Step, CrawlFault>
    requires counts { queue.old.stop ≡ None → CanCount (R.source input.old) }
    requires can_go_on { C.can_go_on crawler.old }
    ensures counts_on { OnOk result (queue.new.stop ≡ None → CanCount (R.source input.new)) }
    ensures can_go_on { C.can_go_on crawler.new }
    ensures same { output.new.output.ghost_name ≡ output.old.output.ghost_name }
    ensures fault { IfErr result IsStepFault }
    ensures end { IfOk result (λ step. IfEnd step (output.new.progress.now.fault ≡ None
        → LeavesUrls queue.new.stop (queue_shown queue.new)
        output.new.progress.now.in_flight.items)) }
    ensures steps { (crawl : CrawlGiven) (jobs : List Job) (results : List JobResult)
        (first : Stream) → IsAt crawl jobs results first (R.source input.old).bytes
        (queue_shown queue.old) (output_shown output.old.progress.now
        (W.sink output.old.output.now) output.old.output.ghost_name)
        → HasStepped jobs_begun crawl jobs results first (R.source input.new).bytes
        (queue_shown queue.new) (output_shown output.new.progress.now
        (W.sink output.new.output.now) output.new.output.ghost_name) result }
{
    if let Err(fault) = read_urls(queue, names, input, output) {
        return Err(fault);
    }
    if output.progress.fault.is_some() {
        return Ok(Step::End);
    }
    let jobs = match begin_urls(queue, names, crawler, output) {
        Ok(jobs) => jobs,
        Err(fault) => return Err(fault),
    };
    if output.is_idle() {
        Ok(idle_step(queue, names))
    } else {
        Ok(Step::Fetch(jobs))
    }
}

// The next step if nothing is in flight, after a wait for an answer if a URL waits for one.
fn idle_step<N: Names>(queue: &Queue, names: &N) -> Step
    ensures none { jobs_begun result ≡ [] }
    ensures end { IfEnd result (LeavesUrls queue.now.stop (queue_shown queue.now) []) }
{
    if queue.awaits_name() {
        names.wait();
        Step::Read
    } else if queue.is_over() {
        Step::End
    } else {
        Step::Read
    }
}

// Reads URLs ahead, and writes the lines of bad ones.
fn read_urls<N: Names, R: Source, W: Sink>(
    queue: &mut Queue,
    names: &N,
    input: &mut R,
    output: &mut Output<'_, W>,
) -> Result<(), CrawlFault>
    requires counts { queue.old.stop ≡ None → CanCount (R.source input.old) }
    ensures counts_on { OnOk result (queue.new.stop ≡ None → CanCount (R.source input.new)) }
    ensures same { output.new.output.ghost_name ≡ output.old.output.ghost_name }
    ensures fault { IfErr result IsStepFault }
    ensures reads { (crawl : CrawlGiven) (jobs : List Job) (results : List JobResult)
        (first : Stream) → IsAt crawl jobs results first (R.source input.old).bytes
        (queue_shown queue.old) (output_shown output.old.progress.now
        (W.sink output.old.output.now) output.old.output.ghost_name)
        → HasStepped none_begun crawl jobs results first (R.source input.new).bytes
        (queue_shown queue.new) (output_shown output.new.progress.now
        (W.sink output.new.output.now) output.new.output.ghost_name) result }
{
    let is_idle = output.is_idle();
    let Ok(()) = queue.learn(names) else {
        return Err(OUT_OF_MEMORY);
    };
    let Ok(()) = queue.read_ahead(input, is_idle) else {
        return Err(OUT_OF_MEMORY);
    };
    put_bad_urls(queue, output, is_idle);
    Ok(())
}

// Writes the lines of bad URLs that may be written now: if one transfer is in flight at a time, of
// those at the front of the queue, once nothing is in flight, as `is_idle` says.
fn put_bad_urls<W: Sink>(queue: &mut Queue, output: &mut Output<'_, W>, is_idle: bool)
    requires idle { is_idle ≡ true → output.old.progress.now.in_flight.items ≡ [] }
    ensures same { output.new.output.ghost_name ≡ output.old.output.ghost_name }
    ensures puts { (crawl : CrawlGiven) (jobs : List Job) (results : List JobResult)
        (first : Stream) (source : Option (List ℕ))
        → IsAt crawl jobs results first source (queue_shown queue.old) (output_shown
        output.old.progress.now (W.sink output.old.output.now) output.old.output.ghost_name)
        → IsAt crawl jobs results first source (queue_shown queue.new) (output_shown
        output.new.progress.now (W.sink output.new.output.now)
        output.new.output.ghost_name) }
    ensures stop { queue.new.stop ≡ queue.old.stop }
{
    while let Some(url) = next_bad(queue, output, is_idle) {
        output.put_bad(url.as_str());
    }
}

// Takes a bad URL out of the queue whose line may be written now.
fn next_bad<W: Sink>(queue: &mut Queue, output: &Output<'_, W>, is_idle: bool) -> Option<String>
    ensures whole { OnSome result (output.now.progress.now.fault ≡ None) }
    ensures takes { IfSome result (λ url. TakesBad is_idle (string_bytes url)
        (queue_shown queue.old) (queue_shown queue.new)) }
    ensures none { IfNone result (queue_shown queue.new ≡ queue_shown queue.old) }
    ensures stop { queue.new.stop ≡ queue.old.stop }
    ensures fewer { OnSome result
        (length queue.new.queued.items < length queue.old.queued.items) }
{
    if output.progress.fault.is_some() {
        return None;
    }
    queue.take_bad(is_idle)
}

// Takes the URLs out of the queue whose transfers begin next, and returns their jobs.
fn begin_urls<N: Names, C: Crawler, W: Sink>(
    queue: &mut Queue,
    names: &N,
    crawler: &mut C,
    output: &mut Output<'_, W>,
) -> Result<Vec<Job>, CrawlFault>
    requires can_go_on { C.can_go_on crawler.old }
    ensures can_go_on { C.can_go_on crawler.new }
    ensures same { output.new.output.ghost_name ≡ output.old.output.ghost_name }
    ensures fault { IfErr result IsStepFault }
    ensures stop { queue.new.stop ≡ queue.old.stop }
    ensures idle { IfOk result (λ jobs. output.new.progress.now.in_flight.items ≡ []
        → jobs.items ≡ []) }
    ensures begins { (crawl : CrawlGiven) (jobs : List Job) (results : List JobResult)
        (first : Stream) (source : Option (List ℕ))
        → IsAt crawl jobs results first source (queue_shown queue.old) (output_shown
        output.old.progress.now (W.sink output.old.output.now) output.old.output.ghost_name)
        → HasStepped (λ begun. begun.items) crawl jobs results first source
        (queue_shown queue.new) (output_shown output.new.progress.now
        (W.sink output.new.output.now) output.new.output.ghost_name) result }
{
    queue.mark_in_flight(output.progress.in_flight.as_slice());
    let free = queue.room(output.progress.in_flight.len());
    let Batch {
        jobs,
        transfers,
        waiting: _,
    } = match queue.batch(free, names, crawler) {
        Ok(batch) => batch,
        Err(_) => return Err(OUT_OF_MEMORY),
    };
    match output.begin(transfers) {
        Ok(()) => Ok(jobs),
        Err(_) => Err(OUT_OF_MEMORY),
    }
}
