//! The counter for the results of one thread of a load.

ghost use Rattle.std.specs.Prelude.{◌≡◌};
ghost use Rattle.load_run.specs.Counting.{has_not_begun, latency_of, outcome_in, site_at};

use crate::plan::LoadTimes;
use crate::progress::Progress;
use exchange::{Done, Fault, Job};
use load_figures::{Figures, Outcome, outcome_of};
use run_loop::{Results, Span};

/// The rules by which the results of a load are counted.
#[derive(Clone, Copy)]
pub(crate) struct Counting<'a> {
    /// The job of each URL.
    pub(crate) urls: &'a [Job],
    pub(crate) times: LoadTimes,
    /// Counts a status of 400 or above as failed.
    pub(crate) fails_statuses: bool,
}

impl Counting<'_> {
    // Returns the site of the job of that number.
    fn site(&self, number: u64) -> u32
        ensures { result ≡ site_at self.now.urls.now number }
    {
        let count = self.urls.len() as u64;
        if count == 0 {
            return 0;
        }
        match self.urls.get((number % count) as usize) {
            Some(url) => url.site,
            None => 0,
        }
    }

    // Returns the latency of the job of that number, in microseconds, since it was due. Without a
    // rate, since it began.
    fn latency(&self, number: u64, span: Span) -> u64
        ensures { result ≡ latency_of self.now.times number span }
    {
        let since = match self.times.rate {
            Some(rate) => rate.due(number),
            None => span.began,
        };
        span.ended.saturating_sub(since)
    }

    // Classifies the end of a job that was in flight in that span: good, failed, or stopped.
    fn outcome(&self, done: &Done, span: Span) -> Outcome
        ensures { result ≡ outcome_in self.now done.now span }
    {
        let took = span.ended.saturating_sub(span.began);
        let limit = self.times.timeout().unwrap_or(0);
        outcome_of(done, took, limit, self.fails_statuses)
    }
}

/// The counter for the results of one thread of a load, without the results of the warm-up.
#[derive(Drop)]
pub(crate) struct CountedResults<'a> {
    pub(crate) figures: Figures,
    /// Number of jobs that were drawn, and stopped before they began.
    pub(crate) unbegun: u64,
    pub(crate) counting: Counting<'a>,
    pub(crate) progress: &'a Progress,
}

impl Results for CountedResults<'_> {
    ghost use Rattle.load_run.specs.Counting.{Takes};

    ghost took = { λ old new number done span. Takes old new number done span };

    fn take(&mut self, number: u64, done: Done, span: Span) {
        if has_not_begun(&done, span) {
            self.unbegun = self.unbegun.saturating_add(1);
            return;
        }
        let warm = self.counting.times.warm();
        if span.ended < warm {
            return;
        }
        let outcome = self.counting.outcome(&done, span);
        let latency = self.counting.latency(number, span);
        let site = self.counting.site(number);
        self.progress.add(outcome);
        let ended = span.ended - warm;
        self.figures.count(site, &done, outcome, ended, latency);
    }
}

// True if a job was stopped at the moment at which it would have begun.
fn has_not_begun(done: &Done, span: Span) -> bool
    ensures { result ≡ has_not_begun done.now span }
{
    matches!(*done, Done::Bad(Fault::Cancelled)) && span.began == span.ended
}
