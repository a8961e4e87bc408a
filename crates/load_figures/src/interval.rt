//! What is counted in one interval of a load.

ghost use Rattle.std.specs.Prelude.{◌≡◌, ◌+◌, ◌*◌, ◌/◌, ◌<◌, ◌≤◌, length, max, sum, IfNone, IfOk};
ghost use Rattle.std.specs.Prelude.{IfSome};
ghost use Rattle.load_figures.specs.Percentiles.{IsBucketAt};
ghost use Rattle.load_figures.specs.Counts.{capped, each_with};
ghost use Rattle.load_figures.specs.Intervals.{both, capped_slices, no_interval, slices_in};
ghost use Rattle.load_figures.specs.Intervals.{with_job, HasSlices, IsLatencyAt};

use crate::buckets::{bucket_of, highest_of};
use std::alloc::{AllocError, Global};
use std::marker::Model;

/// How many buckets of a histogram are one slice of an interval.
const BUCKETS_OF_A_SLICE: usize = 4;

/// How many slices an interval has.
const SLICES: usize = 832;

/// The slices of an interval without a latency.
static NO_LATENCY: [u32; SLICES] = [0; SLICES];

/// The greatest latency that has a slice, in microseconds: some 71 minutes. A greater one is
/// counted in that slice.
const GREATEST: u64 = 4_294_967_295;

/// What is counted in one interval of a load. Latencies fall into slices of four buckets of a
/// histogram, so that a percentile is known to 3 microseconds or 3.2 percent. Its memory, some
/// 3.3 KB, is taken as it is made, but not written before the first latency, since most intervals
/// of a load have none. A count that would pass its greatest stays there.
#[derive(Drop)]
pub struct Interval {
    requests: u64,
    failed: u64,
    greatest: u64,
    /// Empty without a latency, which counts as 0 in each slice.
    slices: Vec<u32>,
}

impl Model for Interval {
    ghost use Rattle.load_figures.specs.Intervals.{HasSlices, IntervalCounts, slices_in};

    ghost Value = { IntervalCounts };

    ghost view = { λ i. record {
      requests = i.requests;
      failed = i.failed;
      greatest = i.greatest;
      slices = slices_in i.slices.items;
    } };

    ghost invariant = { λ i. HasSlices i.slices };
}

impl Interval {
    /// No job yet.
    pub fn new(alloc: Global) -> Result<Interval, AllocError>
        ensures { IfOk result (λ interval. interval ≡ no_interval) }
    {
        let slices = Vec::with_capacity(alloc, SLICES)?;
        Ok(Interval {
            requests: 0,
            failed: 0,
            greatest: 0,
            slices,
        })
    }

    /// Counts a job that was done, and its latency if it has a whole response.
    pub fn count(&mut self, has_failed: bool, latency_us: Option<u64>)
        ensures { self.new ≡ with_job has_failed latency_us self.old }
    {
        self.requests = self.requests.saturating_add(1);
        if has_failed {
            self.failed = self.failed.saturating_add(1);
        }
        let Some(latency_us) = latency_us else {
            return;
        };
        self.greatest = self.greatest.max(latency_us);
        let slice = bucket_of(latency_us.min(GREATEST)) / BUCKETS_OF_A_SLICE;
        write_slices(&mut self.slices);
        if slice < SLICES {
            self.slices[slice] = self.slices[slice].saturating_add(1);
        }
    }

    /// Adds what another interval counted.
    pub fn join(&mut self, other: &Interval)
        ensures { self.new ≡ both self.old other.now }
    {
        self.requests = self.requests.saturating_add(other.requests);
        self.failed = self.failed.saturating_add(other.failed);
        self.greatest = self.greatest.max(other.greatest);
        join_slices(&mut self.slices, &other.slices);
    }

    /// Forgets all that it counted.
    pub fn clear(&mut self)
        ensures { self.new ≡ no_interval }
    {
        self.requests = 0;
        self.failed = 0;
        self.greatest = 0;
        self.slices.clear();
    }

    /// How many jobs were done.
    pub fn requests(&self) -> u64
        ensures { result ≡ self.now.requests }
    {
        self.requests
    }

    /// How many of them failed.
    pub fn failed(&self) -> u64
        ensures { result ≡ self.now.failed }
    {
        self.failed
    }

    /// The greatest latency in microseconds, 0 if there is none.
    pub fn greatest(&self) -> u64
        ensures { result ≡ self.now.greatest }
    {
        self.greatest
    }

    /// The latency that so many hundredths of the jobs do not pass, in microseconds: the greatest
    /// of its slice, or the greatest of all latencies if it is less. `None` if there is none.
    pub fn latency_at(&self, hundredths: u64) -> Option<u64>
        ensures { IfSome result (IsLatencyAt self.now hundredths) }
    {
        if self.slices.is_empty() {
            return None;
        }
        let share = (slice_sum(&self.slices) as u128 * hundredths as u128 + 99) / 100;
        let slice = slice_at(&self.slices, share.max(1))?;
        let last = slice * BUCKETS_OF_A_SLICE + (BUCKETS_OF_A_SLICE - 1);
        Some(highest_of(last).min(self.greatest))
    }
}

/// Writes the slices of an interval without a latency.
fn write_slices(slices: &mut Vec<u32>)
    requires { HasSlices slices.old }
    ensures items { slices.new.items ≡ slices_in slices.old.items }
    ensures has { HasSlices slices.new }
    ensures written { length slices.new.items ≡ 832 }
{
    if !slices.is_empty() {
        return;
    }
    match slices.resize(SLICES, 0) {
        Ok(()) => {}
        Err(_) => unreachable!(),
    }
}

/// Adds the slices of another interval.
fn join_slices(slices: &mut Vec<u32>, others: &Vec<u32>)
    requires slices { HasSlices slices.old }
    requires others { HasSlices others.now }
    ensures joined { slices_in slices.new.items
        ≡ each_with capped_slices (slices_in slices.old.items) (slices_in others.now.items) }
    ensures has { HasSlices slices.new }
{
    if slices.is_empty() && others.is_empty() {
        return;
    }
    write_slices(slices);
    add_slices(slices, all_slices(others));
}

/// Returns all slices of an interval.
fn all_slices(slices: &Vec<u32>) -> &[u32]
    requires { HasSlices slices.now }
    ensures slices { result.now ≡ slices_in slices.now.items }
    ensures all { length result.now ≡ 832 }
{
    if slices.is_empty() {
        &NO_LATENCY
    } else {
        slices
    }
}

/// Adds the other counts, slice by slice.
fn add_slices(slices: &mut [u32], others: &[u32])
    requires { length slices.old ≡ length others.now }
    ensures { slices.new ≡ each_with capped_slices slices.old others.now }
{
    for (place, other) in others.iter().enumerate() {
        slices[place] = slices[place].saturating_add(*other);
    }
}

/// How many latencies are counted in all slices.
fn slice_sum(slices: &[u32]) -> u64
    ensures { result ≡ capped (sum slices.now) }
{
    let mut sum: u64 = 0;
    for count in slices {
        sum = sum.saturating_add(*count as u64);
    }
    sum
}

/// The least slice that so many latencies do not pass, if there are as many.
fn slice_at(slices: &[u32], rank: u128) -> Option<usize>
    requires { 0 < rank }
    ensures some { IfSome result (IsBucketAt slices.now rank) }
    ensures none { IfNone result (sum slices.now < rank) }
{
    let mut left = rank;
    for (slice, count) in slices.iter().enumerate() {
        let count = *count as u128;
        if left <= count {
            return Some(slice);
        }
        left -= count;
    }
    None
}
