//! What one worker of a load counts.

ghost use Rattle.std.specs.Prelude.{◌≡◌, length, replicate, IfOk};
ghost use Rattle.load_figures.specs.Counts.{counted, each_with, joined, no_job};
ghost use Rattle.load_figures.specs.Figures.{counted_at, latency_of_end, no_figures};
ghost use Rattle.load_figures.specs.Figures.{CountsInIntervals};
ghost use Rattle.load_figures.specs.Intervals.{JoinsLine};

use crate::intervals::Intervals;
use crate::job_counts::JobCounts;
use crate::outcome::Outcome;
use exchange::Done;
use std::alloc::{AllocError, Global};
use std::marker::Model;

/// What one worker of a load, or all together, have counted: of all jobs, of those of each host,
/// and in intervals.
#[derive(Drop)]
pub struct Figures {
    all: JobCounts,
    hosts: Vec<JobCounts>,
    intervals: Intervals,
}

impl Model for Figures {
    ghost use Rattle.load_figures.specs.Figures.{JobFigures};

    ghost Value = { JobFigures };

    ghost view = { λ f. record { all = f.all; hosts = f.hosts.items; intervals = f.intervals } };
}

impl Figures {
    /// No job yet, for so many hosts. Takes all its memory: some 2 MB, and 58 KiB for each host.
    pub fn new(alloc: Global, hosts: u32) -> Result<Figures, AllocError>
        ensures { IfOk result (λ figures. figures ≡ no_figures hosts) }
    {
        let all = JobCounts::new(alloc)?;
        let hosts = no_jobs(alloc, hosts)?;
        let intervals = Intervals::new(alloc)?;
        Ok(Figures {
            all,
            hosts,
            intervals,
        })
    }

    /// Counts a job of that host, which ended so many microseconds after the load's start, or after
    /// its warm-up if it has one. The outcome is that of [`outcome_of`](crate::outcome_of). Only
    /// the latency of a whole response is recorded. A job of a host past the last is counted among
    /// all jobs alone. Takes no memory.
    pub fn count(
        &mut self,
        host: u32,
        done: &Done,
        outcome: Outcome,
        ended_us: u64,
        latency_us: u64,
    )
        ensures all { self.new.all ≡ counted done.now outcome latency_us self.old.all }
        ensures hosts { self.new.hosts
            ≡ counted_at host done.now outcome latency_us self.old.hosts }
        ensures intervals { CountsInIntervals done.now outcome ended_us latency_us
            self.old.intervals self.new.intervals }
    {
        self.all.count(done, outcome, latency_us);
        count_at(&mut self.hosts, host, done, outcome, latency_us);
        let latency_us = latency_of_end(done, latency_us);
        match outcome {
            Outcome::Good => self.intervals.count(false, ended_us, latency_us),
            Outcome::Failed => self.intervals.count(true, ended_us, latency_us),
            Outcome::Stopped => {}
        }
    }

    /// Adds what another worker counted, host by host. It takes no memory.
    pub fn join(&mut self, other: &Figures)
        ensures all { self.new.all ≡ joined self.old.all other.now.all }
        ensures hosts { self.new.hosts ≡ each_with joined self.old.hosts other.now.hosts }
        ensures intervals { JoinsLine self.old.intervals other.now.intervals self.new.intervals }
    {
        self.all.join(&other.all);
        join_each(&mut self.hosts, &other.hosts);
        self.intervals.join(&other.intervals);
    }

    /// What was counted of all jobs.
    pub fn all(&self) -> &JobCounts
        ensures { result.now ≡ self.now.all }
    {
        &self.all
    }

    /// What was counted of the jobs of each host.
    pub fn hosts(&self) -> &[JobCounts]
        ensures { result.now ≡ self.now.hosts }
    {
        &self.hosts
    }

    /// What was counted in each interval.
    pub fn intervals(&self) -> &Intervals
        ensures { result.now ≡ self.now.intervals }
    {
        &self.intervals
    }
}

/// No job yet, for so many hosts.
fn no_jobs(alloc: Global, hosts: u32) -> Result<Vec<JobCounts>, AllocError>
    ensures { IfOk result (λ counts. counts.items ≡ replicate hosts no_job) }
{
    let mut counts = Vec::new(alloc);
    for _ in 0..hosts {
        let host = JobCounts::new(alloc)?;
        counts.push(host)?;
    }
    Ok(counts)
}

/// Returns the latency of a job that ended so: only a whole response has one.
fn latency_of_end(done: &Done, latency_us: u64) -> Option<u64>
    ensures { result ≡ latency_of_end done.now latency_us }
{
    match done {
        Done::Good(_) => Some(latency_us),
        Done::Bad(_) => None,
    }
}

/// Counts a job of that host, if there is such a host.
fn count_at(hosts: &mut [JobCounts], host: u32, done: &Done, outcome: Outcome, latency_us: u64)
    ensures { hosts.new ≡ counted_at host done.now outcome latency_us hosts.old }
{
    let place = host as usize;
    if place < hosts.len() {
        hosts[place].count(done, outcome, latency_us);
    }
}

/// Adds what was counted of the jobs of each host.
fn join_each(hosts: &mut [JobCounts], others: &[JobCounts])
    ensures { hosts.new ≡ each_with joined hosts.old others.now }
{
    for (place, other) in others.iter().enumerate() {
        if place < hosts.len() {
            hosts[place].join(other);
        }
    }
}
