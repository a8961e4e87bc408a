//! A load's report as JSON.

use crate::report_numbers::{
    Bucket, Connections, HostRun, IntervalReport, JobReport, Latencies, LoadReport, LoadRun,
    OptionValue, SaidOption,
};
use exchange::FAULT_NAMES;
use load_figures::STATUS_NAMES;
use serde_json::{Map, Value, json};
use std::alloc::{AllocError, Global};

/// An object that is made member by member.
#[derive(Drop)]
struct Object {
    alloc: Global,
    members: Map<String, Value>,
}

impl Object {
    /// No member yet.
    fn new(alloc: Global) -> Object {
        Object {
            alloc,
            members: Map::new(alloc),
        }
    }

    /// Adds a member of that name.
    fn put(&mut self, name: &str, value: Value) -> Result<(), AllocError> {
        let name = String::from_str(self.alloc, name)?;
        self.members.insert(name, value)?;
        Ok(())
    }

    /// Adds a number of that name.
    fn put_number(&mut self, name: &str, number: u64) -> Result<(), AllocError> {
        self.put(name, Value::from(number))
    }

    /// The object as a value.
    fn into_value(self) -> Value {
        Value::Object(self.members)
    }
}

/// The report as one JSON object in one line, with its line end. Its numbers are integers.
///
/// # Errors
///
/// There is no memory for it.
pub fn json_text(alloc: Global, report: &LoadReport) -> Result<String, AllocError> {
    let mut object = Object::new(alloc);
    put_run(&mut object, alloc, &report.run)?;
    put_jobs(&mut object, alloc, &report.jobs)?;
    object.put_number("requests_per_second", report.requests_per_second())?;
    object.put_number("bytes_per_second", report.bytes_per_second())?;
    object.put("connections", connections_value(alloc, report)?)?;
    object.put(
        "hosts",
        hosts_value(alloc, &report.run.hosts, &report.host_jobs)?,
    )?;
    object.put("histogram", histogram_value(alloc, &report.buckets)?)?;
    object.put("intervals", intervals_value(alloc, &report.intervals)?)?;
    let mut text = object.into_value().to_string(alloc)?;
    text.push('\n')?;
    Ok(text)
}

/// Adds what is known beside the figures.
fn put_run(object: &mut Object, alloc: Global, run: &LoadRun) -> Result<(), AllocError> {
    object.put("version", Value::try_from_str(alloc, run.version)?)?;
    let build = run.build.name();
    object.put("build", Value::try_from_str(alloc, build)?)?;
    object.put("urls", urls_value(alloc, &run.urls)?)?;
    object.put("options", options_value(alloc, &run.options)?)?;
    object.put_number("elapsed_us", run.elapsed_us)?;
    object.put_number("missed", run.missed)
}

/// Adds what came of jobs.
fn put_jobs(object: &mut Object, alloc: Global, jobs: &JobReport) -> Result<(), AllocError> {
    object.put_number("requests", jobs.requests)?;
    object.put_number("good", jobs.good)?;
    object.put_number("failed", jobs.failed)?;
    object.put_number("stopped", jobs.stopped)?;
    object.put_number("retried", jobs.retried)?;
    object.put_number("bytes", jobs.bytes)?;
    object.put("latency_us", latencies_value(alloc, jobs.latencies)?)?;
    object.put(
        "statuses",
        named_counts(alloc, &STATUS_NAMES, &jobs.statuses)?,
    )?;
    object.put("faults", named_counts(alloc, &FAULT_NAMES, &jobs.faults)?)
}

/// Adds how connections were used.
fn put_connections(object: &mut Object, connections: Connections) -> Result<(), AllocError> {
    object.put_number("opened", connections.opened)?;
    object.put_number("reused", connections.reused)?;
    object.put_number("closed", connections.closed)?;
    object.put_number("waited", connections.waited)?;
    object.put_number("open", connections.open)
}

/// The URLs.
fn urls_value(alloc: Global, urls: &[String]) -> Result<Value, AllocError> {
    let mut items = Vec::new(alloc);
    for url in urls {
        items.push(Value::try_from_str(alloc, url.as_str())?)?;
    }
    Ok(Value::Array(items))
}

/// The options, each by its name.
fn options_value(alloc: Global, options: &[SaidOption]) -> Result<Value, AllocError> {
    let mut object = Object::new(alloc);
    for option in options {
        object.put(option.name, option_value(alloc, &option.value)?)?;
    }
    Ok(object.into_value())
}

/// What an option was given: true if it takes no value.
fn option_value(alloc: Global, value: &OptionValue) -> Result<Value, AllocError> {
    match value {
        OptionValue::Number(number) => Ok(Value::from(*number)),
        OptionValue::Text(text) => Value::try_from_str(alloc, text.as_str()),
        OptionValue::Flag => Ok(Value::Bool(true)),
    }
}

/// Latencies, or null if no job was done.
fn latencies_value(alloc: Global, latencies: Option<Latencies>) -> Result<Value, AllocError> {
    let Some(latencies) = latencies else {
        return Ok(Value::Null);
    };
    let mut object = Object::new(alloc);
    object.put_number("p50", latencies.p50)?;
    object.put_number("p90", latencies.p90)?;
    object.put_number("p99", latencies.p99)?;
    object.put_number("p999", latencies.p999)?;
    object.put_number("max", latencies.max)?;
    object.put_number("mean", latencies.mean)?;
    Ok(object.into_value())
}

/// Counts by their names.
fn named_counts(alloc: Global, names: &[&str], counts: &[u64]) -> Result<Value, AllocError> {
    let mut object = Object::new(alloc);
    for (name, count) in names.iter().zip(counts) {
        object.put_number(*name, *count)?;
    }
    Ok(object.into_value())
}

/// How the connections to all hosts were used.
fn connections_value(alloc: Global, report: &LoadReport) -> Result<Value, AllocError> {
    let mut object = Object::new(alloc);
    put_connections(&mut object, report.connections)?;
    object.put_number("waited_us", report.run.waited_us)?;
    Ok(object.into_value())
}

/// The hosts, each with its connections and its jobs.
fn hosts_value(alloc: Global, hosts: &[HostRun], jobs: &[JobReport]) -> Result<Value, AllocError> {
    let mut items = Vec::new(alloc);
    for (host, jobs) in hosts.iter().zip(jobs) {
        items.push(host_value(alloc, host, jobs)?)?;
    }
    Ok(Value::Array(items))
}

/// A host with its connections and its jobs.
fn host_value(alloc: Global, host: &HostRun, jobs: &JobReport) -> Result<Value, AllocError> {
    let mut object = Object::new(alloc);
    object.put("host", Value::try_from_str(alloc, host.host.as_str())?)?;
    put_connections(&mut object, host.connections)?;
    put_jobs(&mut object, alloc, jobs)?;
    Ok(object.into_value())
}

/// The buckets, each as a pair of its least latency and its count.
fn histogram_value(alloc: Global, buckets: &[Bucket]) -> Result<Value, AllocError> {
    let mut items = Vec::new(alloc);
    for bucket in buckets {
        let (lowest_us, count) = (bucket.lowest_us, bucket.count);
        items.push(json!(in alloc; [lowest_us, count])?)?;
    }
    Ok(Value::Array(items))
}

/// The intervals.
fn intervals_value(alloc: Global, intervals: &[IntervalReport]) -> Result<Value, AllocError> {
    let mut items = Vec::new(alloc);
    for interval in intervals {
        items.push(interval_value(alloc, interval)?)?;
    }
    Ok(Value::Array(items))
}

/// An interval; its latencies are null if no job was done in it.
fn interval_value(alloc: Global, interval: &IntervalReport) -> Result<Value, AllocError> {
    let latency = interval.latency;
    let mut object = Object::new(alloc);
    object.put_number("start_us", interval.start_us)?;
    object.put_number("requests", interval.requests)?;
    object.put_number("failed", interval.failed)?;
    object.put("p50_us", Value::from(latency.map(|latency| latency.p50_us)))?;
    object.put("p99_us", Value::from(latency.map(|latency| latency.p99_us)))?;
    object.put("max_us", Value::from(latency.map(|latency| latency.max_us)))?;
    Ok(object.into_value())
}
