//! A logarithmic scale of latencies.

/// Latencies in microseconds at which a scale begins, ends, and has lines.
pub(crate) static DECADES: [u64; 11] = [
    1,
    10,
    100,
    1_000,
    10_000,
    100_000,
    1_000_000,
    10_000_000,
    100_000_000,
    1_000_000_000,
    10_000_000_000,
];

/// A logarithmic scale, over so many pixels.
#[derive(Clone, Copy)]
pub(crate) struct LogScale {
    low: u32,
    high: u32,
    pixels: u32,
}

impl LogScale {
    /// The scale from the decade that the least latency does not pass to that which does not pass
    /// the greatest.
    pub(crate) fn new(least: u64, greatest: u64, pixels: u32) -> LogScale {
        let mut low = 0;
        let mut high = log_of(greatest).saturating_add(1);
        for decade in &DECADES {
            if *decade <= least {
                low = log_of(*decade);
            }
        }
        for decade in DECADES.iter().rev() {
            if *decade >= greatest && *decade > least {
                high = log_of(*decade);
            }
        }
        LogScale { low, high, pixels }
    }

    /// How many pixels a latency is from the scale's begin.
    pub(crate) fn at(self, latency: u64) -> u32 {
        let range = self.high.saturating_sub(self.low).max(1);
        let part = log_of(latency).saturating_sub(self.low).min(range);
        part.saturating_mul(self.pixels) / range
    }

    /// Whether a latency is on the scale.
    pub(crate) fn has(self, latency: u64) -> bool {
        let log = log_of(latency);
        self.low <= log && log <= self.high
    }
}

// The logarithm to the base of 2, in 256ths: exact for powers of 2, and on straight lines between
// them.
fn log_of(latency: u64) -> u32 {
    if latency == 0 {
        return 0;
    }
    let zeros = latency.leading_zeros();
    let leading = latency.wrapping_shl(zeros) >> 55;
    let part = u32::try_from(leading).unwrap_or(256).saturating_sub(256);
    63u32
        .saturating_sub(zeros)
        .saturating_mul(256)
        .saturating_add(part)
}
