//! The elements of a field's value: what stands between its commas (RFC 9110, section 5.6.1).
ghost use Rattle.std.specs.Prelude.{◌≡◌, codes, reverse, option_map};
ghost use Rattle.std.specs.List.{list_all, position_or_len};
ghost use Rattle.httparse.specs.Grammar.{skip_ows, trim_ows};
ghost use Rattle.persistence.specs.Fields.{elements, is_comma, is_word, is_number, last_coding};
ghost use Rattle.persistence.specs.Fields.{one_number as one_number_of};
ghost use Rattle.persistence.specs.ReadingHeads.{chunked_after};
ghost use Rattle.persistence.specs.ReadingFields.{number_with};

use crate::number::decimal;
use httparse::is_space_or_tab;

/// The one number that all elements of the value are, if any.
pub(crate) fn one_number(value: &[u8]) -> Option<u64>
    ensures { result ≡ one_number_of (elements value.now) }
{
    let place = comma_place(value);
    let Some(first) = decimal(trim(&value[..place])) else {
        return None;
    };
    if place == value.len() {
        return Some(first);
    }
    if are_all(value, first) {
        Some(first)
    } else {
        None
    }
}

/// The same of a list that the value ends, where that of the elements before is known, if any came.
pub(crate) fn one_number_with(came: bool, before: Option<u64>, value: &[u8]) -> Option<u64>
    ensures { result ≡ number_with came before (elements value.now) }
{
    if !came {
        return one_number(value);
    }
    let Some(number) = before else {
        return None;
    };
    if are_all(value, number) {
        Some(number)
    } else {
        None
    }
}

// Whether each element of the value is that number.
fn are_all(value: &[u8], number: u64) -> bool
    ensures { result ≡ list_all (is_number number) (elements value.now) }
{
    value
        .split(|b| *b == b',')
        .all(|element| decimal(trim(element)) == Some(number))
}

/// Whether the last element that is not empty is `chunked`; nothing where all are empty.
pub(crate) fn is_chunked(value: &[u8]) -> Option<bool>
    ensures { result ≡ option_map (is_word (codes "chunked")) (last_coding (elements value.now)) }
{
    value.split(|b| *b == b',').fold(
        None,
        |chunked, element| later_coding(chunked, trim(element)),
    )
}

// Whether the coding is chunked, and what was known before where it is empty.
fn later_coding(before: Option<bool>, coding: &[u8]) -> Option<bool>
    ensures { result ≡ chunked_after before coding.now }
{
    if coding.is_empty() {
        before
    } else {
        Some(coding.eq_ignore_ascii_case(b"chunked"))
    }
}

/// The bytes without the spaces and tabs at both ends.
pub(crate) fn trim(bytes: &[u8]) -> &[u8]
    ensures { result.now ≡ trim_ows bytes.now }
{
    trim_end(trim_start(bytes))
}

/// The bytes from the first that is no space or tab.
pub(crate) fn trim_start(bytes: &[u8]) -> &[u8]
    ensures { result.now ≡ skip_ows bytes.now }
{
    let mut rest = bytes;
    while let [first, others @ ..] = rest
        && is_space_or_tab(*first)
    {
        rest = others;
    }
    rest
}

// The bytes up to the last that is no space or tab.
fn trim_end(bytes: &[u8]) -> &[u8]
    ensures { result.now ≡ reverse (skip_ows (reverse bytes.now)) }
{
    let mut rest = bytes;
    while let [others @ .., last] = rest
        && is_space_or_tab(*last)
    {
        rest = others;
    }
    rest
}

// The place of the first comma, or else the length.
fn comma_place(value: &[u8]) -> usize
    ensures { result ≡ position_or_len is_comma value.now }
{
    value.iter().position(|b| *b == b',').unwrap_or(value.len())
}
