//! How much comes in a second.

ghost use Rattle.std.specs.Prelude.{◌≤◌};
ghost use Rattle.load_report.specs.Reports.{IsRateOf};

/// Microseconds in a second.
const SECOND: u64 = 1_000_000;

/// How many there are in a second, rounded to the nearest, if there are so many in that time. With
/// 10 parts the rate is in tenths. In no time there are none.
pub(crate) fn per_second(count: u64, elapsed_us: u64, parts: u64) -> u64
    requires { parts ≤ 10 }
    ensures { IsRateOf count elapsed_us parts result }
{
    if elapsed_us == 0 {
        return 0;
    }
    let whole = count as u128 * (SECOND * parts) as u128;
    let rounded = (whole + (elapsed_us / 2) as u128) / elapsed_us as u128;
    u64::try_from(rounded).unwrap_or(u64::MAX)
}
