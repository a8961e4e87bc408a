//! What is counted of jobs.

ghost use Rattle.std.specs.Prelude.{◌≡◌, ◌+◌, ◌<◌, length, IfOk};
ghost use Rattle.load_figures.specs.Counts.{both_latencies, capped, counted, joined, no_job};
ghost use Rattle.load_figures.specs.Counts.{one_more_at, sums, with_end};
ghost use Rattle.load_figures.specs.Counts.{with_latency, with_status};
ghost use Rattle.exchange.specs.declared.done.Done.{Done as Ends};

use crate::histogram::Histogram;
use crate::outcome::Outcome;
use exchange::{Answer, Done};
use std::alloc::{AllocError, Global};

/// The classes of statuses, in the order of [`JobCounts::statuses`].
pub const STATUS_NAMES: [&str; 5] = ["1xx", "2xx", "3xx", "4xx", "5xx"];

/// What was counted of some jobs: those of one host, or of all hosts. A count that would pass the
/// greatest `u64` stays there.
#[derive(Drop)]
pub struct JobCounts {
    /// Jobs that were done and did not fail.
    pub good: u64,
    /// Jobs that were done and failed.
    pub failed: u64,
    /// Jobs that were stopped as the load ended. They are in no other figure.
    pub stopped: u64,
    /// Whole responses whose request was sent once more.
    pub retried: u64,
    /// Whole responses over a connection that was used before.
    pub reused: u64,
    /// Bytes of the bodies of whole responses.
    pub bytes: u64,
    /// Whole responses by the class of their status, from 1xx on.
    pub statuses: [u64; 5],
    /// Jobs without a whole response, by their fault's index in [`exchange::FAULT_NAMES`].
    pub faults: [u64; 8],
    /// Latencies of whole responses, in microseconds.
    pub latencies: Histogram,
}

impl JobCounts {
    /// No job yet. Takes all its memory, some 58 KiB.
    pub fn new(alloc: Global) -> Result<JobCounts, AllocError>
        ensures { IfOk result (λ counts. counts ≡ no_job) }
    {
        Ok(JobCounts {
            good: 0,
            failed: 0,
            stopped: 0,
            retried: 0,
            reused: 0,
            bytes: 0,
            statuses: [0; 5],
            faults: [0; 8],
            latencies: Histogram::new(alloc)?,
        })
    }

    /// Counts a job that ended. It takes no memory.
    pub fn count(&mut self, done: &Done, outcome: Outcome, latency_us: u64)
        ensures { self.new ≡ counted done.now outcome latency_us self.old }
    {
        match outcome {
            Outcome::Stopped => {
                self.stopped = self.stopped.saturating_add(1);
                return;
            }
            Outcome::Good => self.good = self.good.saturating_add(1),
            Outcome::Failed => self.failed = self.failed.saturating_add(1),
        }
        match done {
            Done::Good(answer) => self.count_answer(answer, latency_us),
            Done::Bad(fault) => add_one(&mut self.faults, fault.index()),
        }
    }

    /// Adds what another one counted.
    pub fn join(&mut self, other: &JobCounts)
        ensures { self.new ≡ joined self.old other.now }
    {
        self.good = self.good.saturating_add(other.good);
        self.failed = self.failed.saturating_add(other.failed);
        self.stopped = self.stopped.saturating_add(other.stopped);
        self.retried = self.retried.saturating_add(other.retried);
        self.reused = self.reused.saturating_add(other.reused);
        self.bytes = self.bytes.saturating_add(other.bytes);
        add_all(&mut self.statuses, &other.statuses);
        add_all(&mut self.faults, &other.faults);
        add_latencies(&mut self.latencies, &other.latencies);
    }

    /// How many jobs were done: the good ones and those that failed.
    pub fn done(&self) -> u64
        ensures { result ≡ capped (self.now.good + self.now.failed) }
    {
        self.good.saturating_add(self.failed)
    }

    /// Counts a whole response.
    fn count_answer(&mut self, answer: &Answer, latency_us: u64)
        ensures { self.new ≡ with_end (Ends.Good answer.now) latency_us self.old }
    {
        record(&mut self.latencies, latency_us);
        if answer.retried {
            self.retried = self.retried.saturating_add(1);
        }
        if answer.reused {
            self.reused = self.reused.saturating_add(1);
        }
        self.bytes = self.bytes.saturating_add(answer.body_len);
        count_status(&mut self.statuses, answer.status);
    }
}

/// Counts a status of its class, if it is one of 1xx to 5xx.
fn count_status(statuses: &mut [u64], status: u16)
    requires { length statuses.old ≡ 5 }
    ensures { statuses.new ≡ with_status status statuses.old }
{
    if 100 <= status && status < 600 {
        add_one(statuses, status as usize / 100 - 1);
    }
}

/// Counts one more at a place.
fn add_one(counts: &mut [u64], place: usize)
    requires { place < length counts.old }
    ensures { counts.new ≡ one_more_at place counts.old }
{
    counts[place] = counts[place].saturating_add(1);
}

/// Adds the other counts, place by place.
fn add_all(counts: &mut [u64], others: &[u64])
    requires { length counts.old ≡ length others.now }
    ensures { counts.new ≡ sums counts.old others.now }
{
    for (place, other) in others.iter().enumerate() {
        counts[place] = counts[place].saturating_add(*other);
    }
}

/// Records a latency, if there is room for it.
fn record(latencies: &mut Histogram, latency_us: u64)
    ensures { latencies.new ≡ with_latency latency_us latencies.old }
{
    if latencies.len() < u64::MAX {
        let _ = latencies.record(latency_us);
    }
}

/// Adds the latencies of another histogram, if there is room for them.
fn add_latencies(latencies: &mut Histogram, others: &Histogram)
    ensures { latencies.new ≡ both_latencies latencies.old others.now }
{
    if latencies.len().checked_add(others.len()).is_some() {
        let _ = latencies.add(others);
    }
}
