//! What buckets and tallies tell of the values that were recorded.

ghost use Rattle.load_figures.specs.Laws.{ValuesAreInTheirBuckets, BucketsAreApart};
ghost use Rattle.load_figures.specs.Laws.{BucketsAreNarrow};
ghost use Rattle.load_figures.specs.Laws.{CountsAreOfValues, NumberIsOfValues, TotalIsOfValues};
ghost use Rattle.load_figures.specs.Laws.{TalliesAddUp, ValueAtIsPercentile};

/// Each value falls into the one bucket that has it, and a bucket's values differ by less than one
/// percent.
pub fn buckets_divide_all_values()
    ensures in_their_buckets { ValuesAreInTheirBuckets }
    ensures apart { BucketsAreApart }
    ensures narrow { BucketsAreNarrow }
{}

/// A tally counts the values that were recorded, and two tallies, added, count the values of both.
pub fn tallies_count_values()
    ensures counts { CountsAreOfValues }
    ensures number { NumberIsOfValues }
    ensures total { TotalIsOfValues }
    ensures add_up { TalliesAddUp }
{}

/// The value at a rank is within one percent of the value that has this rank.
pub fn percentiles_are_near()
    ensures { ValueAtIsPercentile }
{}
