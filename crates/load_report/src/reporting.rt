//! The report of a load, made from its figures.

ghost use Rattle.std.specs.Prelude.{◌≡◌, ◌<◌, ◌≤◌, drop, length, IfOk, IfSome, MatchOption};
ghost use Rattle.load_figures.specs.Tally.{values_in};
ghost use Rattle.load_report.specs.Reports.{connections_of, AreReportsOf, IsRateOf};
ghost use Rattle.load_report.specs.Reports.{AreIdle, AreIntervalLatencies, AreLatencies};
ghost use Rattle.load_report.specs.Reports.{IsIntervalReport, IsReportOf, ReportsLine};

use crate::rates::per_second;
use crate::report_numbers::{
    Bucket, Connections, HostRun, IntervalLatency, IntervalReport, JobReport, Latencies,
    LoadReport, LoadRun,
};
use load_figures::{BUCKETS, Figures, Histogram, Interval, Intervals, JobCounts, lowest_of};
use std::alloc::{AllocError, Global};

impl LoadReport {
    /// The report of a load: what is known of its run, and the figures of all its workers.
    pub fn new(alloc: Global, run: LoadRun, figures: &Figures) -> Result<LoadReport, AllocError>
        ensures run { IfOk result (λ report. report.run ≡ run) }
        ensures jobs { IfOk result (λ report. IsReportOf figures.now.all report.jobs) }
        ensures hosts { IfOk result (λ report.
            AreReportsOf figures.now.hosts report.host_jobs.items) }
        ensures connections { IfOk result (λ report.
            report.connections ≡ connections_of run.hosts.items) }
        ensures interval_length { IfOk result (λ report.
            report.interval_us ≡ figures.now.intervals.length_us) }
        ensures intervals { IfOk result (λ report.
            ReportsLine figures.now.intervals report.intervals.items) }
    {
        let host_jobs = host_reports(alloc, figures.hosts())?;
        let buckets = buckets_of(alloc, &figures.all().latencies)?;
        let intervals = interval_reports(alloc, figures.intervals())?;
        let connections = connections_of(&run.hosts);
        Ok(LoadReport {
            run,
            connections,
            jobs: job_report(figures.all()),
            host_jobs,
            buckets,
            interval_us: figures.intervals().length_us(),
            intervals,
        })
    }

    /// How many jobs were done in a second, rounded to the nearest.
    pub fn requests_per_second(&self) -> u64
        ensures { IsRateOf self.now.jobs.requests self.now.run.elapsed_us 1 result }
    {
        per_second(self.jobs.requests, self.run.elapsed_us, 1)
    }

    /// How many bytes of bodies came in a second, rounded to the nearest.
    pub fn bytes_per_second(&self) -> u64
        ensures { IsRateOf self.now.jobs.bytes self.now.run.elapsed_us 1 result }
    {
        per_second(self.jobs.bytes, self.run.elapsed_us, 1)
    }
}

/// What came of the jobs of each host.
fn host_reports(alloc: Global, hosts: &[JobCounts]) -> Result<Vec<JobReport>, AllocError>
    ensures { IfOk result (λ reports. AreReportsOf hosts.now reports.items) }
{
    let mut reports = Vec::new(alloc);
    for counts in hosts {
        reports.push(job_report(counts))?;
    }
    Ok(reports)
}

/// What came of the jobs that were counted.
fn job_report(counts: &JobCounts) -> JobReport
    ensures { IsReportOf counts.now result }
{
    JobReport {
        requests: counts.done(),
        good: counts.good,
        failed: counts.failed,
        stopped: counts.stopped,
        retried: counts.retried,
        reused: counts.reused,
        bytes: counts.bytes,
        statuses: counts.statuses,
        faults: counts.faults,
        latencies: latencies_of(&counts.latencies),
    }
}

/// The percentiles of a histogram, its greatest value and its mean, if it has a value.
fn latencies_of(histogram: &Histogram) -> Option<Latencies>
    ensures { MatchOption result (values_in histogram.now ≡ 0) (AreLatencies histogram.now) }
{
    Some(Latencies {
        p50: histogram.value_at(500)?,
        p90: histogram.value_at(900)?,
        p99: histogram.value_at(990)?,
        p999: histogram.value_at(999)?,
        max: histogram.greatest()?,
        mean: histogram.mean()?,
    })
}

/// The buckets of a histogram that have values, from the least on.
fn buckets_of(alloc: Global, histogram: &Histogram) -> Result<Vec<Bucket>, AllocError> {
    let mut buckets = Vec::new(alloc);
    for (place, count) in histogram.counts().iter().enumerate() {
        if 0 < *count && place < BUCKETS {
            buckets.push(Bucket {
                lowest_us: lowest_of(place),
                count: *count,
            })?;
        }
    }
    Ok(buckets)
}

/// What was done in each interval, from the start to the last in which a job was done.
fn interval_reports(alloc: Global, intervals: &Intervals) -> Result<Vec<IntervalReport>, AllocError>
    ensures { IfOk result (λ reports. ReportsLine intervals.now reports.items) }
{
    let items = intervals.items();
    let length_us = intervals.length_us();
    let used = used_len(items);
    let mut reports = Vec::new(alloc);
    for (place, interval) in items[..used].iter().enumerate() {
        reports.push(interval_report(place, length_us, interval))?;
    }
    Ok(reports)
}

/// How many intervals there are up to the last in which a job was done.
fn used_len(intervals: &[Interval]) -> usize
    ensures within { result ≤ length intervals.now }
    ensures others { AreIdle (drop result intervals.now) }
{
    let mut used = 0;
    for (place, interval) in intervals.iter().enumerate() {
        if interval.requests() > 0 {
            used = place + 1;
        }
    }
    used
}

/// What was done in the interval at that place, of so many microseconds.
fn interval_report(place: usize, length_us: u64, interval: &Interval) -> IntervalReport
    ensures { IsIntervalReport place length_us interval.now result }
{
    IntervalReport {
        start_us: (place as u64).saturating_mul(length_us),
        requests: interval.requests(),
        failed: interval.failed(),
        latency: interval_latency(interval),
    }
}

/// The latencies of the whole responses of an interval, if there is one.
fn interval_latency(interval: &Interval) -> Option<IntervalLatency>
    ensures { IfSome result (AreIntervalLatencies interval.now) }
{
    Some(IntervalLatency {
        p50_us: interval.latency_at(50)?,
        p99_us: interval.latency_at(99)?,
        max_us: interval.greatest(),
    })
}

/// How connections were used, over all hosts: the sums.
fn connections_of(hosts: &[HostRun]) -> Connections
    ensures { result ≡ connections_of hosts.now }
{
    let mut sums = Connections {
        opened: 0,
        reused: 0,
        closed: 0,
        waited: 0,
        open: 0,
    };
    for host in hosts {
        let connections = &host.connections;
        sums.opened = sums.opened.saturating_add(connections.opened);
        sums.reused = sums.reused.saturating_add(connections.reused);
        sums.closed = sums.closed.saturating_add(connections.closed);
        sums.waited = sums.waited.saturating_add(connections.waited);
        sums.open = sums.open.saturating_add(connections.open);
    }
    sums
}
