ghost use Rattle.std.specs.Prelude.{◌≡◌, ◌≢◌, ◌^◌, ◌==◌, ◌≤◌, position, [], ◌∷◌, length};
ghost use Rattle.std.specs.Prelude.{MatchOption, Some, slice_index};
ghost use Rattle.std.specs.Option.{option_map};
ghost use Rattle.std.specs.List.{list_all, position_or_len};
ghost use Rattle.std.specs.Char.{is_ascii_digit};
ghost use Rattle.std.specs.Str.{bytes_eq};
ghost use Rattle.streams.specs.Words.{words, number, number_first, text_first, is_none_left};

use std::str;

/// The place of the first such byte.
fn position_of(byte: u8, bytes: &[u8]) -> Option<usize>
    ensures { result ≡ position (λ b. b == byte) bytes.now }
{
    bytes.iter().position(|b| *b == byte)
}

/// The place of the first such byte, or the length where there is none.
pub fn place_of(byte: u8, bytes: &[u8]) -> usize
    ensures value { result ≡ position_or_len (λ b. b == byte) bytes.now }
    ensures bound { result ≤ length bytes.now }
{
    match position_of(byte, bytes) {
        Some(place) => place,
        None => bytes.len(),
    }
}

/// The line from its first byte on that is not a space.
#[tactic(auto, unfolding(crate::specs::Words::words))]
fn without_spaces(line: &[u8]) -> &[u8]
    ensures same { words result.now ≡ words line.now }
    ensures first { slice_index result.now 0 ≢ 32 }
{
    let mut rest = line;
    while let [b' ', others @ ..] = rest {
        rest = others;
    }
    rest
}

/// The first word of a line, and the line after it.
pub fn first_word(line: &[u8]) -> Option<(&[u8], &[u8])>
    ensures { MatchOption result (words line.now ≡ []) (λ found. words line.now
        ≡ found.0.now ∷ words found.1.now) }
{
    let text = without_spaces(line);
    if text.is_empty() {
        return None;
    }
    Some(text.split_at(place_of(b' ', text)))
}

/// Whether the word is that text.
pub fn is_word(word: &[u8], text: &str) -> bool
    ensures { result ≡ bytes_eq word.now text.now }
{
    word == text.as_bytes()
}

/// Whether each byte is a decimal digit.
fn is_digits(word: &[u8]) -> bool
    ensures { result ≡ list_all is_ascii_digit word.now }
{
    word.iter().all(|byte| byte.is_ascii_digit())
}

/// The number that a word of decimal digits is, where it fits.
#[tactic(auto, unfolding(crate::specs::Words::number))]
pub fn number_of(word: &[u8]) -> Option<u64>
    ensures { result ≡ number (2 ^ 64) word.now }
{
    if word.is_empty() || !is_digits(word) {
        return None;
    }
    match str::from_utf8(word) {
        Ok(text) => text.parse::<u64>().ok(),
        Err(_) => None,
    }
}

/// The same of a number of 32 bits.
pub fn small_number_of(word: &[u8]) -> Option<u32>
    ensures { result ≡ number (2 ^ 32) word.now }
{
    match number_of(word) {
        Some(number) => u32::try_from(number).ok(),
        None => None,
    }
}

/// A number of 64 bits, and the line after it.
pub fn u64_first(line: &[u8]) -> Option<(u64, &[u8])>
    ensures { option_map (λ found. (found.0, words found.1.now)) result
        ≡ number_first (2 ^ 64) (words line.now) }
{
    let (word, others) = first_word(line)?;
    let number = number_of(word)?;
    Some((number, others))
}

/// A number of 32 bits, and the line after it.
pub fn u32_first(line: &[u8]) -> Option<(u32, &[u8])>
    ensures { option_map (λ found. (found.0, words found.1.now)) result
        ≡ number_first (2 ^ 32) (words line.now) }
{
    let (word, others) = first_word(line)?;
    let number = small_number_of(word)?;
    Some((number, others))
}

/// The line after a word that is that text.
pub fn text_first<'a>(text: &str, line: &'a [u8]) -> Option<&'a [u8]>
    ensures { option_map (λ others. words others.now) result
        ≡ text_first text.now (words line.now) }
{
    let (word, others) = first_word(line)?;
    if is_word(word, text) {
        Some(others)
    } else {
        None
    }
}

/// Whether the line has no word.
pub fn is_blank(line: &[u8]) -> bool
    ensures { result ≡ is_none_left (words line.now) }
{
    first_word(line).is_none()
}
