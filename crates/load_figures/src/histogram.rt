ghost use Rattle.std.specs.Prelude.{◌≡◌, ◌-◌, ◌+◌, ◌/◌, ◌<◌, ◌≤◌, ◌^◌, ◌==◌, length, sum};
ghost use Rattle.std.specs.Prelude.{IfNone, IfOk, IfSome, OnErr, OnOk};
ghost use Rattle.load_figures.specs.Percentiles.{rank_of, IsBucketAt, IsPercentileAt};
ghost use Rattle.load_figures.specs.Tally.{added, nothing, recorded, sums, values_in};

use crate::buckets::{BUCKETS, bucket_of, highest_of};
use std::alloc::{AllocError, Global};
use std::marker::Model;
use thiserror::Error;

/// Why a histogram takes no more values: it would have more than 2^64 - 1 of them.
#[derive(Clone, Copy, Debug, PartialEq, Eq, Error)]
#[error("more than 18446744073709551615 values")]
pub struct TooManyValues;

/// How many values fell into each bucket, the sum of all values, and the greatest. Its memory is
/// taken as it is made, some 58 KiB. Contracts see its tally.
#[derive(Drop)]
pub struct Histogram {
    counts: Vec<u64>,
    values: u64,
    total: u128,
    greatest: u64,
}

impl Model for Histogram {
    ghost use Rattle.load_figures.specs.Tally.{Tally, IsKept};

    ghost Value = { Tally };

    ghost view = { λ h. record {
      counts = h.counts.items;
      total = h.total;
      greatest = h.greatest;
    } };

    ghost invariant = { λ h. IsKept h.counts.items h.values h.total };
}

impl Histogram {
    /// No values yet.
    pub fn new(alloc: Global) -> Result<Histogram, AllocError>
        ensures { IfOk result (λ histogram. histogram ≡ nothing) }
    {
        let mut counts = Vec::new(alloc);
        counts.resize(BUCKETS, 0)?;
        Ok(Histogram {
            counts,
            values: 0,
            total: 0,
            greatest: 0,
        })
    }

    /// Records a value. If 2^64 - 1 values are there already, it is refused, and nothing changes.
    #[inline(always)]
    pub fn record(&mut self, value: u64) -> Result<(), TooManyValues>
        ensures ok { OnOk result (self.new ≡ recorded value self.old) }
        ensures refused { OnErr result (values_in self.old ≡ 2 ^ 64 - 1) }
        ensures unchanged { OnErr result (self.new ≡ self.old) }
    {
        let Some(values) = self.values.checked_add(1) else {
            return Err(TooManyValues);
        };
        self.counts[bucket_of(value)] += 1;
        self.values = values;
        self.total += value as u128;
        self.greatest = self.greatest.max(value);
        Ok(())
    }

    /// Adds all values of another histogram. If there would be more than 2^64 - 1 values, they are
    /// refused, and nothing changes.
    pub fn add(&mut self, other: &Histogram) -> Result<(), TooManyValues>
        ensures ok { OnOk result (self.new ≡ added self.old other.now) }
        ensures refused { OnErr result (2 ^ 64 ≤ values_in self.old + values_in other.now) }
        ensures unchanged { OnErr result (self.new ≡ self.old) }
    {
        let Some(values) = self.values.checked_add(other.values) else {
            return Err(TooManyValues);
        };
        add_counts(&mut self.counts, &other.counts);
        self.values = values;
        self.total += other.total;
        self.greatest = self.greatest.max(other.greatest);
        Ok(())
    }

    /// How many values were recorded.
    pub fn len(&self) -> u64
        ensures { result ≡ values_in self.now }
    {
        self.values
    }

    /// Whether no value was recorded.
    pub fn is_empty(&self) -> bool
        ensures { result ≡ (values_in self.now == 0) }
    {
        self.values == 0
    }

    /// The sum of all values.
    pub fn total(&self) -> u128
        ensures { result ≡ self.now.total }
    {
        self.total
    }

    /// The mean of all values, rounded down; `None` exactly if there is none.
    pub fn mean(&self) -> Option<u64>
        ensures some { IfSome result (λ mean. mean ≡ self.now.total / values_in self.now) }
        ensures none { IfNone result (values_in self.now ≡ 0) }
        ensures there { IfSome result (λ _. 0 < values_in self.now) }
    {
        if self.values == 0 {
            return None;
        }
        Some((self.total / self.values as u128) as u64)
    }

    /// The greatest value; `None` exactly if there is none.
    pub fn greatest(&self) -> Option<u64>
        ensures some { IfSome result (λ greatest. greatest ≡ self.now.greatest) }
        ensures none { IfNone result (values_in self.now ≡ 0) }
        ensures there { IfSome result (λ _. 0 < values_in self.now) }
    {
        if self.values == 0 {
            return None;
        }
        Some(self.greatest)
    }

    /// The value that so many thousandths of the values do not pass: 999 for 99.9 percent. It is
    /// the greatest value of the least bucket that fits, or the greatest of all values if it is
    /// less. `None` exactly if there is no value.
    pub fn value_at(&self, thousandths: u64) -> Option<u64>
        requires { thousandths ≤ 1000 }
        ensures some { IfSome result (IsPercentileAt self.now thousandths) }
        ensures none { IfNone result (values_in self.now ≡ 0) }
    {
        let rank = rank_of(self.values, thousandths);
        let bucket = bucket_at(&self.counts, rank)?;
        Some(highest_of(bucket).min(self.greatest))
    }

    /// How many values fell into each bucket.
    pub fn counts(&self) -> &[u64]
        ensures { result.now ≡ self.now.counts }
    {
        &self.counts
    }
}

/// Adds the other counts, place by place.
fn add_counts(counts: &mut [u64], others: &[u64])
    requires size { length counts.old ≡ length others.now }
    requires fit { sum counts.old + sum others.now < 2 ^ 64 }
    ensures { counts.new ≡ sums counts.old others.now }
{
    for (place, other) in others.iter().enumerate() {
        counts[place] += *other;
    }
}

/// How many values so many thousandths of them are, rounded up, and at least one.
fn rank_of(values: u64, thousandths: u64) -> u64
    requires { thousandths ≤ 1000 }
    ensures { result ≡ rank_of values thousandths }
{
    let rank = (values as u128 * thousandths as u128 + 999) / 1000;
    (rank as u64).max(1)
}

/// The least bucket that so many values do not pass, if there are as many.
fn bucket_at(counts: &[u64], rank: u64) -> Option<usize>
    requires { 0 < rank }
    ensures some { IfSome result (IsBucketAt counts.now rank) }
    ensures none { IfNone result (sum counts.now < rank) }
{
    let mut left = rank;
    for (bucket, count) in counts.iter().enumerate() {
        if left <= *count {
            return Some(bucket);
        }
        left -= *count;
    }
    None
}
