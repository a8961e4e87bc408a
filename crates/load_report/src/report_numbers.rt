//! The numbers of a load that has ended.

use commands::Build;

/// What an option of a load was given.
#[derive(Drop)]
pub enum OptionValue {
    /// A number.
    Number(u64),
    /// A text.
    Text(String),
    /// It takes no value.
    Flag,
}

/// An option that was given to a load.
#[derive(Drop)]
pub struct SaidOption {
    /// Its name without dashes at its head, as `fail-above`.
    pub name: &'static str,
    /// What it was given.
    pub value: OptionValue,
}

/// How connections were used: those to one host, or to all hosts.
#[derive(Clone, Copy, Debug, PartialEq, Eq)]
pub struct Connections {
    /// Connections that were opened.
    pub opened: u64,
    /// Leases of a connection that was used before.
    pub reused: u64,
    /// Connections that were closed.
    pub closed: u64,
    /// Transfers that began to wait.
    pub waited: u64,
    /// Connections that are open.
    pub open: u64,
}

/// A host of a load.
#[derive(Drop)]
pub struct HostRun {
    /// The host, as `127.0.0.1:8080`.
    pub host: String,
    /// How its connections were used.
    pub connections: Connections,
}

/// What is known of a load beside its figures.
#[derive(Drop)]
pub struct LoadRun {
    /// The program's version.
    pub version: &'static str,
    /// How the program was built.
    pub build: Build,
    /// The URLs that were requested, in their order.
    pub urls: Vec<String>,
    /// The options that were given.
    pub options: Vec<SaidOption>,
    /// Microseconds from the start, or from the end of the warm-up, to the end.
    pub elapsed_us: u64,
    /// Jobs that were due and never begun.
    pub missed: u64,
    /// The sum of all waits for connections, in microseconds.
    pub waited_us: u64,
    /// The hosts, in the order of the host lines.
    pub hosts: Vec<HostRun>,
}

/// Latencies of whole responses, in microseconds.
#[derive(Clone, Copy, Debug, PartialEq, Eq)]
pub struct Latencies {
    /// What 50 percent do not pass.
    pub p50: u64,
    /// What 90 percent do not pass.
    pub p90: u64,
    /// What 99 percent do not pass.
    pub p99: u64,
    /// What 99.9 percent do not pass.
    pub p999: u64,
    /// The greatest.
    pub max: u64,
    /// The mean, rounded down.
    pub mean: u64,
}

/// What came of some jobs: those of one host, or of all hosts.
#[derive(Clone, Copy, Debug, PartialEq, Eq)]
pub struct JobReport {
    /// Jobs that were done: the good ones and those that failed.
    pub requests: u64,
    /// Jobs that were done and did not fail.
    pub good: u64,
    /// Jobs that were done and failed.
    pub failed: u64,
    /// Jobs that were stopped as the load ended.
    pub stopped: u64,
    /// Whole responses whose request was sent once more.
    pub retried: u64,
    /// Whole responses over a connection that was used before.
    pub reused: u64,
    /// Bytes of the bodies of whole responses.
    pub bytes: u64,
    /// Whole responses by the class of their status, in the order of `STATUS_NAMES`.
    pub statuses: [u64; 5],
    /// Jobs without a whole response by their fault, in the order of `exchange::FAULT_NAMES`.
    pub faults: [u64; 8],
    /// Latencies of the whole responses, if there is one.
    pub latencies: Option<Latencies>,
}

/// A bucket of the histogram of latencies.
#[derive(Clone, Copy, Debug, PartialEq, Eq)]
pub struct Bucket {
    /// Its least latency, in microseconds.
    pub lowest_us: u64,
    /// How many latencies fell into it, 1 or more.
    pub count: u64,
}

/// Latencies of the whole responses of an interval, in microseconds.
#[derive(Clone, Copy, Debug, PartialEq, Eq)]
pub struct IntervalLatency {
    /// What 50 percent do not pass.
    pub p50_us: u64,
    /// What 99 percent do not pass.
    pub p99_us: u64,
    /// The greatest.
    pub max_us: u64,
}

/// What was done in one interval.
#[derive(Clone, Copy, Debug, PartialEq, Eq)]
pub struct IntervalReport {
    /// When it begins, in microseconds after the start or the end of the warm-up.
    pub start_us: u64,
    /// Jobs that were done in it.
    pub requests: u64,
    /// Jobs that were done in it and failed.
    pub failed: u64,
    /// Latencies of the whole responses in it, if there is one.
    pub latency: Option<IntervalLatency>,
}

/// All numbers of a load that has ended, from which its summary, its JSON and its picture are made.
#[derive(Drop)]
pub struct LoadReport {
    /// What is known beside its figures.
    pub run: LoadRun,
    /// What came of all jobs.
    pub jobs: JobReport,
    /// What came of the jobs of each host, in the order of the hosts.
    pub host_jobs: Vec<JobReport>,
    /// How connections were used, over all hosts.
    pub connections: Connections,
    /// The buckets that have latencies, from the least on.
    pub buckets: Vec<Bucket>,
    /// How long an interval is, in microseconds.
    pub interval_us: u64,
    /// The intervals, from the start to the last in which a job ended.
    pub intervals: Vec<IntervalReport>,
}
