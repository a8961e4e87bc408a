//! Measurements of a load: the workers' counts, in total and by interval, and histograms of
//! latencies with two significant digits.
#![tactic(auto)]

mod buckets;
mod figures;
mod histogram;
mod interval;
mod intervals;
mod job_counts;
pub mod laws;
mod outcome;
pub mod worked;

pub use buckets::{BUCKETS, bucket_of, highest_of, lowest_of};
pub use figures::Figures;
pub use histogram::{Histogram, TooManyValues};
pub use interval::Interval;
pub use intervals::Intervals;
pub use job_counts::{JobCounts, STATUS_NAMES};
pub use outcome::{Outcome, outcome_of};
