//! Buckets of some values, by computation.

ghost use Rattle.load_figures.specs.Worked.{WorkedBuckets};

/// The buckets of some values, as HdrHistogram has them.
pub fn worked_buckets()
    ensures { WorkedBuckets }
{}
