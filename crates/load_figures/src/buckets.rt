//! The buckets of an HDR histogram with two significant digits (HdrHistogram, 256 sub-buckets).

ghost use Rattle.std.specs.Prelude.{◌≡◌, ◌<◌};
ghost use Rattle.load_figures.specs.Buckets.{bits_untold_in, bucket_of, highest_of, lowest_of};
ghost use Rattle.load_figures.specs.Buckets.{IsIn};

/// How many buckets there are.
pub const BUCKETS: usize = 7424;

/// How many buckets have the same width, from the 256th on.
const PER_WIDTH: u64 = 128;

/// The bucket that a value falls into. Each value below 256 has a bucket of its own; of a greater
/// one the bucket tells the leading 8 bits.
#[inline(always)]
pub fn bucket_of(value: u64) -> usize
    ensures index { result ≡ bucket_of value }
    ensures is_in { IsIn result value }
{
    let bits_untold = 56u32.saturating_sub(value.leading_zeros());
    (PER_WIDTH * bits_untold as u64 + (value >> bits_untold)) as usize
}

/// The least value of a bucket.
pub fn lowest_of(bucket: usize) -> u64
    requires { bucket < 7424 }
    ensures { result ≡ lowest_of bucket }
{
    let bits_untold = bits_untold_in(bucket);
    (bucket as u64 - PER_WIDTH * bits_untold as u64) << bits_untold
}

/// The greatest value of a bucket.
pub fn highest_of(bucket: usize) -> u64
    requires { bucket < 7424 }
    ensures { result ≡ highest_of bucket }
{
    lowest_of(bucket) + ((1 << bits_untold_in(bucket)) - 1)
}

/// How many of its values' last bits a bucket does not tell.
fn bits_untold_in(bucket: usize) -> u32
    requires { bucket < 7424 }
    ensures { result ≡ bits_untold_in bucket }
{
    (bucket as u32 / 128).saturating_sub(1)
}
