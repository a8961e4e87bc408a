//! The intervals of a load.

ghost use Rattle.std.specs.Prelude.{◌≡◌, ◌+◌, ◌<◌, ◌≤◌, length, IfOk};
ghost use Rattle.load_figures.specs.Intervals.{folded, interval_at, no_line};
ghost use Rattle.load_figures.specs.Intervals.{with_interval, with_job, with_joined};
ghost use Rattle.load_figures.specs.Intervals.{CountsJob, IsFold, IsPairJoined, JoinsLine};

use crate::interval::Interval;
use std::alloc::{AllocError, Global};
use std::marker::Model;

/// How many intervals there are.
const INTERVALS: usize = 600;

/// How long an interval is at first, in microseconds.
const FIRST_LENGTH: u64 = 100_000;

/// The intervals of a load, each equally long: 100 ms at first. If a job ends past the 600th, each
/// two become one that is twice as long, and so on. Its memory, some 2 MB, is taken as it is made.
#[derive(Drop)]
pub struct Intervals {
    length_us: u64,
    items: Vec<Interval>,
}

impl Model for Intervals {
    ghost use Rattle.load_figures.specs.Intervals.{AreIntervals, IntervalLine};

    ghost Value = { IntervalLine };

    ghost view = { λ i. record { length_us = i.length_us; items = i.items.items } };

    ghost invariant = { λ i. AreIntervals i.length_us i.items.items };
}

impl Intervals {
    /// No job yet.
    pub fn new(alloc: Global) -> Result<Intervals, AllocError>
        ensures { IfOk result (λ intervals. intervals ≡ no_line) }
    {
        let mut items = Vec::new(alloc);
        for _ in 0..INTERVALS {
            let interval = Interval::new(alloc)?;
            items.push(interval)?;
        }
        Ok(Intervals {
            length_us: FIRST_LENGTH,
            items,
        })
    }

    /// Counts a job that was done, and ended so many microseconds after the load's start.
    pub fn count(&mut self, has_failed: bool, ended_us: u64, latency_us: Option<u64>)
        ensures { CountsJob has_failed ended_us latency_us self.old self.new }
    {
        while ended_us / self.length_us() >= INTERVALS as u64 {
            self.fold();
        }
        let place = (ended_us / self.length_us()) as usize;
        self.count_at(place, has_failed, latency_us);
    }

    /// Adds what another worker counted.
    pub fn join(&mut self, other: &Intervals)
        ensures { JoinsLine self.old other.now self.new }
    {
        let length_us = other.length_us();
        while self.length_us() < length_us {
            self.fold();
        }
        for first in 0..INTERVALS {
            self.join_at(first, other);
        }
    }

    /// How long each interval is, in microseconds.
    pub fn length_us(&self) -> u64
        ensures length { result ≡ self.now.length_us }
        ensures long { 100000 ≤ result }
    {
        self.length_us
    }

    /// All intervals, the first of which begins with the load.
    pub fn items(&self) -> &[Interval]
        ensures { result.now ≡ self.now.items }
    {
        &self.items
    }

    /// Makes one interval of each two.
    fn fold(&mut self)
        ensures { self.new ≡ folded self.old }
    {
        self.length_us = self.length_us.saturating_mul(2);
        fold_items(&mut self.items);
    }

    /// Counts a job in the interval at that place.
    fn count_at(&mut self, place: usize, has_failed: bool, latency_us: Option<u64>)
        requires { place < 600 }
        ensures { self.new ≡ with_interval place
            (with_job has_failed latency_us (interval_at self.old.items place)) self.old }
    {
        self.items[place].count(has_failed, latency_us);
    }

    /// Joins another worker's interval with the one in which it begins.
    fn join_at(&mut self, first: usize, other: &Intervals)
        requires within { first < 600 }
        requires as_long { other.now.length_us ≤ self.old.length_us }
        ensures { self.new ≡ with_joined first other.now self.old }
    {
        let start = first as u128 * other.length_us as u128;
        let place = (start / self.length_us as u128) as usize;
        self.items[place].join(&other.items[first]);
    }
}

/// Makes one interval of each two, and leaves the second half without jobs.
fn fold_items(items: &mut [Interval])
    requires { length items.old ≡ 600 }
    ensures { IsFold items.old items.new }
{
    for half in 0..items.len() / 2 {
        join_pair(items, 2 * half);
        items.swap(half, 2 * half);
    }
}

/// Joins the interval at a place with the next one, and leaves that without jobs.
fn join_pair(items: &mut [Interval], place: usize)
    requires { place + 1 < length items.old }
    ensures { IsPairJoined place items.old items.new }
{
    let (front, back) = items.split_at_mut(place + 1);
    front[place].join(&back[0]);
    back[0].clear();
}
