//! Numbers as a response writes them.
ghost use Rattle.std.specs.Prelude.{◌≡◌, ℕ, ◌<◌, ◌≤◌, true, false, MatchOption, IfNone, IfSome};
ghost use Rattle.std.specs.List.{list_all};
ghost use Rattle.std.specs.Char.{is_ascii_digit};
ghost use Rattle.std.specs.Str.Parse.{AllDigits, digits_value};
ghost use Rattle.persistence.specs.Fields.{is_number};
ghost use Rattle.persistence.specs.Limits.{most_bytes};

use httparse::parse_hex_digit;

/// The number that the digits write, where it is at most `most`.
pub(crate) fn value_of(digits: &[u8], radix: u64, most: u64) -> Option<u64>
    requires above { 1 ≤ radix }
    requires below { radix ≤ 16 }
    requires digits { AllDigits radix digits.now }
    ensures { MatchOption result (most < digits_value radix digits.now)
        (λ n. (n ≡ digits_value radix digits.now) × (n ≤ most)) }
{
    let mut value: u64 = 0;
    for digit in digits {
        let unit = parse_hex_digit(*digit).unwrap();
        let Some(raised) = value.checked_mul(radix) else {
            return None;
        };
        let Some(next) = raised.checked_add(unit) else {
            return None;
        };
        value = next;
    }
    if value <= most { Some(value) } else { None }
}

/// The number that one or more decimal digits write, where it fits.
pub(crate) fn decimal(text: &[u8]) -> Option<u64>
    ensures found { IfSome result (λ n. is_number n text.now ≡ true) }
    ensures none { IfNone result ((n : ℕ) → n ≤ most_bytes → is_number n text.now ≡ false) }
{
    if text.is_empty() || !are_digits(text) {
        return None;
    }
    value_of(text, 10, u64::MAX)
}

// Whether each byte is a decimal digit.
fn are_digits(text: &[u8]) -> bool
    ensures { result ≡ list_all is_ascii_digit text.now }
{
    text.iter().all(|b| b.is_ascii_digit())
}
