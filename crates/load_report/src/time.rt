//! Times as texts.

use std::fmt;

/// A time in microseconds. From 1,000 of them on it is told in milliseconds, and from a second on
/// in seconds, both to two decimals.
#[derive(Clone, Copy, Drop)]
pub(crate) struct Time(pub(crate) u64);

impl fmt::Display for Time {
    fn fmt<W: fmt::Write>(&self, f: &mut fmt::Formatter<W>) -> fmt::Result {
        let us = self.0;
        if us == 0 {
            return write!(f, "0");
        }
        if us < 1_000 {
            return write!(f, "{us} us");
        }
        let (hundredths, unit) = if us < 1_000_000 {
            (us / 10, "ms")
        } else {
            (us / 10_000, "s")
        };
        let (whole, part) = (hundredths / 100, hundredths % 100);
        if part == 0 {
            return write!(f, "{whole} {unit}");
        }
        write!(f, "{whole}.{part:02} {unit}")
    }
}
