//! Numbers on the command line.

ghost use Rattle.std.specs.Prelude.{◌≡◌};
ghost use Rattle.command_line.specs.Numbers.{decimals_in, percent_in, percent_with, seconds_in};

use streams::number_of;

/// Hundredths in 100 percent.
const MOST_HUNDREDTHS: u64 = 10_000;

/// Returns a duration in seconds: digits, and possibly a unit, which is `s`, `m` or `h`.
pub(crate) fn seconds_of(text: &[u8]) -> Option<u64>
    ensures { result ≡ seconds_in text.now }
{
    let (&unit, digits) = text.split_last()?;
    match unit {
        b'h' => number_of(digits)?.checked_mul(3_600),
        b'm' => number_of(digits)?.checked_mul(60),
        b's' => number_of(digits),
        _ => number_of(text),
    }
}

/// Returns the hundredths of a percentage with at most two decimals, at most 10,000.
pub(crate) fn hundredths_of(text: &str) -> Option<u64>
    ensures { result ≡ percent_in text.now }
{
    match text.split_once('.') {
        Some((whole, decimals)) => percent_with(whole.as_bytes(), decimals_of(decimals)?),
        None => percent_with(text.as_bytes(), 0),
    }
}

// Returns the hundredths of the decimals of a percentage.
fn decimals_of(text: &str) -> Option<u64>
    ensures { result ≡ decimals_in text.now }
{
    match text.len() {
        1 => Some(number_of(text.as_bytes())?.saturating_mul(10)),
        2 => number_of(text.as_bytes()),
        _ => None,
    }
}

// Returns the hundredths of a percentage. `decimals` are the hundredths of its decimals.
fn percent_with(whole: &[u8], decimals: u64) -> Option<u64>
    ensures { result ≡ percent_with whole.now decimals }
{
    let whole = number_of(whole)?;
    let hundredths = whole.saturating_mul(100).saturating_add(decimals);
    if hundredths <= MOST_HUNDREDTHS {
        Some(hundredths)
    } else {
        None
    }
}
