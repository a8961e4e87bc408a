//! The summary of a load as a text.

use crate::rates::per_second;
use crate::report_numbers::{Latencies, LoadReport};
use commands::Build;
use exchange::FAULT_NAMES;
use load_figures::STATUS_NAMES;
use std::fmt;

/// The summary of a load: six lines, each with its line end, and one more if the program was
/// compiled without proofs.
#[derive(Drop)]
pub struct Summary<'a>(pub &'a LoadReport);

impl fmt::Display for Summary<'_> {
    fn fmt<W: fmt::Write>(&self, f: &mut fmt::Formatter<W>) -> fmt::Result {
        write_rates(self.0, f)?;
        write_latencies(self.0.jobs.latencies, f)?;
        write_connections(self.0, f)?;
        write!(f, "responses    ")?;
        write_counts(&STATUS_NAMES, &self.0.jobs.statuses, f)?;
        write!(f, "faults       ")?;
        write_counts(&FAULT_NAMES, &self.0.jobs.faults, f)?;
        write_build(self.0.run.build, f)
    }
}

/// The line of the build, if its figures are not those of the proved program.
fn write_build<W: fmt::Write>(build: Build, f: &mut fmt::Formatter<W>) -> fmt::Result {
    if build == Build::Proved {
        return Ok(());
    }
    let name = build.name();
    write!(f, "build        {name}\n")
}

/// The lines of requests and bytes.
fn write_rates<W: fmt::Write>(report: &LoadReport, f: &mut fmt::Formatter<W>) -> fmt::Result {
    let elapsed_us = report.run.elapsed_us;
    let (requests, failed, bytes) = (report.jobs.requests, report.jobs.failed, report.jobs.bytes);
    let request_rate = Tenths(per_second(requests, elapsed_us, 10));
    let byte_rate = Tenths(per_second(bytes, elapsed_us, 10));
    let elapsed = Time(elapsed_us);
    write!(
        f,
        "requests     {request_rate} a second, {requests} in {elapsed}, {failed} failed"
    )?;
    let others = [
        (report.run.missed, "missed"),
        (report.jobs.stopped, "stopped"),
        (report.jobs.retried, "retried"),
    ];
    for (count, name) in &others {
        if *count > 0 {
            write!(f, ", {count} {name}")?;
        }
    }
    f.write_str("\n")?;
    write!(f, "bytes        {byte_rate} a second, {bytes} in all\n")
}

/// The line of latencies.
fn write_latencies<W: fmt::Write>(
    latencies: Option<Latencies>,
    f: &mut fmt::Formatter<W>,
) -> fmt::Result {
    let Some(latencies) = latencies else {
        return write!(f, "latency      none\n");
    };
    let (p50, p90, p99) = (
        Time(latencies.p50),
        Time(latencies.p90),
        Time(latencies.p99),
    );
    let (p999, max) = (Time(latencies.p999), Time(latencies.max));
    write!(
        f,
        "latency      50% {p50}, 90% {p90}, 99% {p99}, 99.9% {p999}, greatest {max}\n"
    )
}

/// The line of connections.
fn write_connections<W: fmt::Write>(report: &LoadReport, f: &mut fmt::Formatter<W>) -> fmt::Result {
    let connections = report.connections;
    let (opened, reused) = (connections.opened, connections.reused);
    let (closed, waited) = (connections.closed, connections.waited);
    let wait = Time(report.run.waited_us);
    write!(
        f,
        "connections  {opened} opened, {reused} reused, {closed} closed, "
    )?;
    write!(f, "{waited} waited {wait}\n")
}

/// The rest of a line: each count that is not 0, after its name.
fn write_counts<W: fmt::Write>(
    names: &[&str],
    counts: &[u64],
    f: &mut fmt::Formatter<W>,
) -> fmt::Result {
    let mut separator = "";
    for (name, count) in names.iter().zip(counts) {
        if *count > 0 {
            write!(f, "{separator}{name} {count}")?;
            separator = ", ";
        }
    }
    if separator.is_empty() {
        f.write_str("none")?;
    }
    f.write_str("\n")
}

/// A number of tenths.
#[derive(Clone, Copy)]
struct Tenths(u64);

impl fmt::Display for Tenths {
    fn fmt<W: fmt::Write>(&self, f: &mut fmt::Formatter<W>) -> fmt::Result {
        let (whole, tenths) = (self.0 / 10, self.0 % 10);
        write!(f, "{whole}.{tenths}")
    }
}

/// A time in microseconds. From 100 of them on it is told in milliseconds, and from a second on in
/// seconds, both to two decimals.
#[derive(Clone, Copy)]
struct Time(u64);

impl fmt::Display for Time {
    fn fmt<W: fmt::Write>(&self, f: &mut fmt::Formatter<W>) -> fmt::Result {
        let us = self.0;
        if us < 100 {
            return write!(f, "{us} us");
        }
        let (hundredths, unit) = if us < 999_995 {
            ((us + 5) / 10, "ms")
        } else {
            (us.saturating_add(5000) / 10_000, "s")
        };
        let (whole, part) = (hundredths / 100, hundredths % 100);
        write!(f, "{whole}.{part:02} {unit}")
    }
}
