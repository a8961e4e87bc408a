//! Percentiles, sums and means of small histograms.

use crate::checks::check_eq;
use load_figures::{BUCKETS, Histogram, bucket_of, highest_of, lowest_of};
use std::alloc::AllocGlobal;
use std::process::Abort;

/// A value, its bucket, and the bucket's least and greatest value, as HdrHistogram has them with
/// 256 sub-buckets (`getCountsArrayIndex`, `lowestEquivalentValue`, `highestEquivalentValue`).
static BUCKETS_OF_VALUES: [(u64, usize, u64, u64); 6] = [
    (0, 0, 0, 0),
    (255, 255, 255, 255),
    (257, 256, 256, 257),
    (1000, 506, 1000, 1003),
    (86_400_000_000, 3872, 85_899_345_920, 86_436_216_831),
    (u64::MAX, 7423, 18_374_686_479_671_623_680, u64::MAX),
];

#[test]
fn a_value_has_the_bucket_that_hdr_histogram_gives_it(rt: HostRuntime) {
    for row in &BUCKETS_OF_VALUES {
        let (value, bucket, lowest, highest) = *row;
        assert_eq!(rt; bucket_of(value), bucket, "{value}");
        assert!(rt; bucket < BUCKETS);
        assert_eq!(rt; lowest_of(bucket), lowest, "{value}");
        assert_eq!(rt; highest_of(bucket), highest, "{value}");
    }
}

/// Values, and the results of their histogram: the values at 0, 500, 900, 990, 999 and 1000
/// thousandths, the mean, and the greatest value.
struct Row {
    values: &'static [u64],
    at: [u64; 6],
    mean: u64,
    greatest: u64,
}

/// By a computation of HdrHistogram's `getValueAtPercentile`, in Python.
static ROWS: [Row; 4] = [
    Row {
        values: &[312],
        at: [312, 312, 312, 312, 312, 312],
        mean: 312,
        greatest: 312,
    },
    Row {
        values: &[5, 310, 311, 5010],
        at: [5, 311, 5010, 5010, 5010, 5010],
        mean: 1409,
        greatest: 5010,
    },
    Row {
        values: &[1000, 2000, 3000, 4000, 5000, 6000, 7000, 8000, 9000, 10000],
        at: [1003, 5023, 9023, 10000, 10000, 10000],
        mean: 5500,
        greatest: 10000,
    },
    Row {
        values: &[0, u64::MAX],
        at: [0, 0, u64::MAX, u64::MAX, u64::MAX, u64::MAX],
        mean: 9_223_372_036_854_775_807,
        greatest: u64::MAX,
    },
];

/// The thousandths at which each row has values.
static THOUSANDTHS: [u64; 6] = [0, 500, 900, 990, 999, 1000];

/// A histogram of these values.
fn histogram_of<R: Abort + AllocGlobal>(rt: &R, values: &[u64]) -> Histogram {
    let mut histogram = Histogram::new(rt.alloc()).expect(rt, "memory");
    for value in values {
        assert!(rt; histogram.record(*value).is_ok());
    }
    histogram
}

#[test]
fn percentiles_are_those_of_hdr_histogram(rt: HostRuntime) {
    for row in &ROWS {
        let histogram = histogram_of(&rt, row.values);
        for (place, expected) in row.at.iter().enumerate() {
            let thousandths = THOUSANDTHS[place];
            assert_eq!(rt;
                histogram.value_at(thousandths),
                Some(*expected),
                "{thousandths}"
            );
        }
        check_eq(&rt, histogram.mean(), Some(row.mean));
        check_eq(&rt, histogram.greatest(), Some(row.greatest));
        check_eq(&rt, histogram.len(), row.values.len() as u64);
    }
}

#[test]
fn workers_histograms_add_up(rt: HostRuntime) {
    let mut sum = histogram_of(&rt, &[5, 310]);
    let other = histogram_of(&rt, &[311, 5010]);
    assert!(rt; sum.add(&other).is_ok());
    check_eq(&rt, sum.total(), 5636);
    check_eq(&rt, sum.value_at(500), Some(311));
    check_eq(&rt, sum.counts()[bucket_of(310)], 2);
}

#[test]
fn an_empty_histogram_has_no_percentile(rt: HostRuntime) {
    let histogram = Histogram::new(rt.alloc()).expect(&rt, "memory");
    assert!(rt; histogram.is_empty());
    check_eq(&rt, histogram.value_at(500), None);
    check_eq(&rt, histogram.mean(), None);
    check_eq(&rt, histogram.greatest(), None);
}

/// Passes whichever allocation fails: a histogram that was made takes no more memory.
#[test]
fn an_allocation_failure_refuses_a_histogram_alone(rt: HostRuntime) {
    let mut histogram = match Histogram::new(rt.alloc()) {
        Ok(made) => made,
        Err(_) => Histogram::new(rt.alloc()).expect(&rt, "memory"),
    };
    assert!(rt; histogram.record(7).is_ok());
    check_eq(&rt, histogram.value_at(1000), Some(7));
}
