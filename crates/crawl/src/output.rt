//! Writes the lines of a crawl as its transfers end.

ghost use Rattle.std.specs.Prelude.{◌≡◌, ◌==◌, ◌<◌, Some, None, false, length, string_bytes};
ghost use Rattle.std.specs.Prelude.{IfNone, IfOk, IfSome, OnErr, OnOk};
ghost use Rattle.std.specs.List.{HoldsAt};
ghost use Rattle.streams.specs.Streams.{CanCount};
ghost use Rattle.client.specs.Lines.{fetched_as, line_of};
ghost use Rattle.crawl.specs.Written.{HasNoTransfer, done_failed};

use crate::in_flight::{InFlight, Tally};
use crate::json::{JsonLine, Outcome};
use crate::line::line_text;
use crate::progress::Progress;
use client::Fetched;
use commands::{CrawlFlags, Escaped};
use exchange::Done;
use run_loop::{Results, Span};
use std::alloc::{AllocError, Global};
use std::sync::atomic::{AtomicBool, Ordering};
use streams::{Sink, StreamFault};

/// Writes the line of each transfer of a crawl as it ends. After a line that cannot be written
/// whole, it writes no more. It has references only, so that contracts can refer to their targets
/// after it is dropped.
#[derive(Drop)]
pub(crate) struct Output<'w, W: Sink> {
    pub(crate) alloc: Global,
    pub(crate) progress: &'w mut Progress,
    pub(crate) output: &'w mut W,
    /// Set once a line could not be written.
    pub(crate) cannot_write: &'w AtomicBool,
    ghost counts: { progress.now.fault ≡ None → CanCount (W.sink output.now) },
}

impl<W: Sink> Results for Output<'_, W> {
    ghost use Rattle.run_loop.specs.Taking.{job_result};
    ghost use Rattle.crawl.specs.Written.{TakesResult, output_shown};

    ghost took = { λ old new number done span. TakesResult (job_result number done span)
        (output_shown old.progress.now (W.sink old.output.now) old.output.ghost_name)
        (output_shown new.progress.now (W.sink new.output.now) new.output.ghost_name) };

    fn take(&mut self, number: u64, done: Done, span: Span) {
        if self.progress.fault.is_some() {
            return;
        }
        let Some(index) = index_of_transfer(self.progress.in_flight.as_slice(), number) else {
            return;
        };
        let one = self.progress.in_flight.remove(index);
        let flags = self.progress.flags;
        let line = transfer_line(self.alloc, flags, &one, done, span);
        self.write(line, is_failure(flags, done));
    }
}

// Returns the index of the transfer of that number, if it is in flight.
fn index_of_transfer(in_flight: &[InFlight], number: u64) -> Option<usize>
    ensures below { IfSome result (λ index. index < length in_flight.now) }
    ensures there { IfSome result (HoldsAt (λ one. one.number ≡ number) in_flight.now) }
    ensures none { IfNone result (HasNoTransfer number in_flight.now) }
{
    for index in 0..in_flight.len() {
        if in_flight[index].number == number {
            return Some(index);
        }
    }
    None
}

impl<W: Sink> Output<'_, W> {
    ghost use Rattle.crawl.specs.Written.{BeginsAll, Counts, KeepsProgress, WritesBad};
    ghost use Rattle.crawl.specs.Written.{WritesText, output_shown};

    /// True if nothing is in flight.
    pub(crate) fn is_idle(&self) -> bool
        ensures { result ≡ (length self.now.progress.now.in_flight.items == 0) }
    {
        self.progress.in_flight.is_empty()
    }

    /// Records that transfers of these URLs begin.
    ///
    /// # Errors
    ///
    /// There is no memory for them. Nothing has changed then.
    pub(crate) fn begin(&mut self, urls: Vec<InFlight>) -> Result<(), AllocError>
        ensures begins { OnOk result (BeginsAll urls.items
            (output_shown self.old.progress.now (W.sink self.old.output.now)
            self.old.output.ghost_name)
            (output_shown self.new.progress.now (W.sink self.new.output.now)
            self.new.output.ghost_name)) }
        ensures unchanged { OnErr result (
            output_shown self.new.progress.now (W.sink self.new.output.now)
            self.new.output.ghost_name
            ≡ output_shown self.old.progress.now (W.sink self.old.output.now)
            self.old.output.ghost_name) }
    {
        let mut urls = urls;
        self.progress.in_flight.append(&mut urls)
    }

    /// Writes the line of a bad URL.
    pub(crate) fn put_bad(&mut self, url: &str)
        requires whole { self.old.progress.now.fault ≡ None }
        ensures writes { WritesBad url.now
            (output_shown self.old.progress.now (W.sink self.old.output.now)
            self.old.output.ghost_name)
            (output_shown self.new.progress.now (W.sink self.new.output.now)
            self.new.output.ghost_name) }
    {
        let line = bad_line(self.alloc, self.progress.flags, url);
        self.write(line, true);
    }

    // Counts a URL, and writes its line, if there was memory for it.
    fn write(&mut self, line: Result<String, AllocError>, is_failure: bool)
        requires whole { self.old.progress.now.fault ≡ None }
        ensures puts { WritesText line (W.sink self.old.output.now) (W.sink self.new.output.now)
            self.new.progress.now.fault }
        ensures counts { Counts is_failure self.old.progress.now.tally
            self.new.progress.now.tally }
        ensures flags { self.new.progress.now.flags ≡ self.old.progress.now.flags }
        ensures in_flight { self.new.progress.now.in_flight.items
            ≡ self.old.progress.now.in_flight.items }
        ensures name { self.new.output.ghost_name ≡ self.old.output.ghost_name }
    {
        self.count(is_failure);
        let Ok(line) = line else {
            self.fail(StreamFault::Memory);
            return;
        };
        // until the line is written whole
        self.progress.fault = Some(StreamFault::Write);
        match self.output.put(line.as_bytes()) {
            Ok(()) => self.progress.fault = None,
            Err(kind) => self.fail(kind),
        }
    }

    // Ends the crawl with a fault of a line.
    fn fail(&mut self, kind: StreamFault)
        ensures fault { self.new.progress.now.fault ≡ Some kind }
        ensures same { KeepsProgress self.old.progress.now self.new.progress.now }
        ensures tally { self.new.progress.now.tally ≡ self.old.progress.now.tally }
        ensures output { self.new.output.now ≡ self.old.output.now }
        ensures name { self.new.output.ghost_name ≡ self.old.output.ghost_name }
    {
        self.progress.fault = Some(kind);
        self.cannot_write.store(true, Ordering::SeqCst);
    }

    // Counts a URL.
    fn count(&mut self, is_failure: bool)
        ensures counts { Counts is_failure self.old.progress.now.tally
            self.new.progress.now.tally }
        ensures same { KeepsProgress self.old.progress.now self.new.progress.now }
        ensures fault { self.new.progress.now.fault ≡ self.old.progress.now.fault }
        ensures output { self.new.output.now ≡ self.old.output.now }
        ensures name { self.new.output.ghost_name ≡ self.old.output.ghost_name }
    {
        let Tally { lines, failed } = self.progress.tally;
        self.progress.tally = Tally {
            lines: lines.saturating_add(1),
            failed: failed.saturating_add(is_failure as u64),
        };
    }
}

// True if a transfer with this result has failed.
fn is_failure(flags: CrawlFlags, done: Done) -> bool
    ensures { result ≡ done_failed flags done }
{
    match done {
        Done::Good(answer) => flags.fail && answer.status >= 400,
        Done::Bad(_) => true,
    }
}

// Returns the line of a transfer.
fn transfer_line(
    alloc: Global,
    flags: CrawlFlags,
    one: &InFlight,
    done: Done,
    span: Span,
) -> Result<String, AllocError>
    ensures { IfOk result (λ text. flags.json ≡ false → string_bytes text
        ≡ line_of (string_bytes one.now.url) (fetched_as span.retried done)) }
{
    let url = one.url.as_str();
    if flags.json {
        let line = JsonLine {
            url,
            outcome: Outcome::Ended {
                done,
                span,
                is_unknown: one.is_unknown,
            },
        };
        return format!(in alloc; "{line}\n");
    }
    line_text(alloc, url, fetched_as(span.retried, done))
}

// Returns the result of a job. A response records whether its request was sent again.
fn fetched_as(retried: bool, done: Done) -> Fetched
    ensures { result ≡ fetched_as retried done }
{
    let retried = match done {
        Done::Good(answer) => answer.retried,
        Done::Bad(_) => retried,
    };
    Fetched { done, retried }
}

// Returns the line of a bad URL.
fn bad_line(alloc: Global, flags: CrawlFlags, url: &str) -> Result<String, AllocError> {
    let shown = Escaped(url);
    if !flags.json {
        return format!(in alloc; "BadUrl {shown}\n");
    }
    let shown = format!(in alloc; "{shown}")?;
    let line = JsonLine {
        url: shown.as_str(),
        outcome: Outcome::BadUrl,
    };
    format!(in alloc; "{line}\n")
}
