//! How many marks the pictures of loads have.

use crate::checks::check_eq;
use crate::figures::two_hosts;
use crate::pictures::{check_marks, count};
use load_figures::Figures;
use load_report::{Bucket, IntervalLatency, IntervalReport, Latencies, LoadReport, picture_of};
use std::alloc::{AllocError, Global};

/// The most bytes of a picture.
const MOST_BYTES: usize = 1_000_000;

/// The beginnings of the classes of marks.
static CLASSES: [&str; 5] = ["interval\"", "failed\"", "latency ", "bucket\"", "legend\""];

/// Numbers of intervals and buckets, and of the marks of each class in their picture. Every
/// `empty_each`th interval has no requests, and every `failed_each`th has failures.
struct Row {
    name: &'static str,
    intervals: u64,
    empty_each: u64,
    failed_each: u64,
    buckets: u64,
    marks: [usize; 5],
}

static ROWS: [Row; 4] = [
    Row {
        name: "no request",
        intervals: 0,
        empty_each: 1,
        failed_each: 1,
        buckets: 0,
        marks: [0, 0, 0, 0, 1],
    },
    Row {
        name: "one request",
        intervals: 1,
        empty_each: 2,
        failed_each: 2,
        buckets: 1,
        marks: [1, 0, 3, 1, 1],
    },
    Row {
        name: "ten intervals, of which five have requests, and one of these failures",
        intervals: 10,
        empty_each: 2,
        failed_each: 5,
        buckets: 4,
        marks: [5, 1, 15, 4, 1],
    },
    Row {
        name: "as many intervals as there may be, all with failures",
        intervals: 600,
        empty_each: 601,
        failed_each: 1,
        buckets: 0,
        marks: [600, 600, 1800, 0, 1],
    },
];

// The interval of that place.
fn interval_of(row: &Row, place: u64) -> IntervalReport {
    let number = place.saturating_add(1);
    let requests = if number.is_multiple_of(row.empty_each) {
        0
    } else {
        20_000
    };
    let failed = if requests > 0 && number.is_multiple_of(row.failed_each) {
        123
    } else {
        0
    };
    let latency = IntervalLatency {
        p50_us: 310,
        p99_us: 1_100,
        max_us: number.saturating_mul(1_000_000),
    };
    IntervalReport {
        start_us: place.saturating_mul(100_000),
        requests,
        failed,
        latency: (requests > 0).then_some(latency),
    }
}

// A report of these intervals and buckets.
fn report_of(alloc: Global, row: &Row) -> Result<LoadReport, AllocError> {
    let mut report = LoadReport::new(alloc, two_hosts(alloc)?, &Figures::new(alloc, 2)?)?;
    for place in 0..row.intervals {
        report.intervals.push(interval_of(row, place))?;
    }
    for place in 0..row.buckets {
        report.buckets.push(Bucket {
            lowest_us: 1u64.wrapping_shl(u32::try_from(place).unwrap_or(0)),
            count: 9,
        })?;
    }
    Ok(report)
}

#[test]
fn each_interval_and_bucket_has_its_marks(rt: HostRuntime) {
    for row in &ROWS {
        let report = report_of(rt.alloc(), row).expect(&rt, "memory");
        let picture = picture_of(rt.alloc(), &report).expect(&rt, "memory");
        check_marks(&rt, picture.as_str(), &CLASSES, &row.marks, row.name);
        assert!(rt; picture.len() < MOST_BYTES, "{}", row.name);
    }
}

/// The greatest numbers that there may be.
#[test]
fn the_greatest_numbers_are_drawn(rt: HostRuntime) {
    let report = greatest(rt.alloc()).expect(&rt, "memory");
    let picture = picture_of(rt.alloc(), &report).expect(&rt, "memory");
    check_eq(&rt, count(&rt, picture.as_str(), "percentile\""), 4);
    assert!(rt; picture.as_str().contains("99.9% within"));
}

// A report of one interval and one bucket, with such numbers.
fn greatest(alloc: Global) -> Result<LoadReport, AllocError> {
    let mut report = report_of(alloc, &ROWS[1])?;
    report.interval_us = u64::MAX;
    let jobs = &mut report.jobs;
    jobs.latencies = Some(Latencies {
        p50: 0,
        p90: 1,
        p99: u64::MAX,
        p999: u64::MAX,
        max: u64::MAX,
        mean: 1,
    });
    report.buckets.push(Bucket {
        lowest_us: u64::MAX,
        count: u64::MAX,
    })?;
    Ok(report)
}
