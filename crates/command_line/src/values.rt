//! Values that the command line gives to options.

ghost use Rattle.std.specs.Prelude.{◌≡◌, ◌<◌, ◌^◌, ◌++◌, true, false, map, option_map};
ghost use Rattle.std.specs.Prelude.{string_bytes, IfErr, IfOk, IfSome, OnOk};
ghost use Rattle.clap.specs.Walk.{first_of};
ghost use Rattle.clap.specs.Words.{found_of, rows_of};
ghost use Rattle.command_line.specs.OptionTable.{facts_of};
ghost use Rattle.commands.specs.LoadRanges.{IsWithin};
ghost use Rattle.command_line.specs.Options.{flag_said, has_bad, is_bad, is_numeric};
ghost use Rattle.command_line.specs.Options.{is_used, number_said, texts_said, value_in};
ghost use Rattle.command_line.specs.Refusals.{IsWhy};

use crate::numbers::{hundredths_of, seconds_of};
use crate::options::{OptionRow, Takes};
use crate::refusal::Refusal;
use clap::ArgMatches;
use commands::Escaped;
use std::alloc::{AllocError, Global};
use streams::number_of;

/// Returns the text that is given for an option, or the first one.
pub(crate) fn text_of<'a>(given: &ArgMatches<'a>, option: &OptionRow) -> Option<&'a str>
    ensures { option_map (λ text. text.now) result
        ≡ first_of option.now.name.now (rows_of (found_of given.now)) }
{
    given.get_str(option.name)
}

/// Returns true if a flag is given.
pub(crate) fn flag(given: &ArgMatches<'_>, option: &OptionRow) -> bool
    ensures { result ≡ flag_said option.now.name.now (rows_of (found_of given.now)) }
{
    match text_of(given, option) {
        Some(text) => text == "true",
        None => false,
    }
}

/// Returns true if an option is given.
pub(crate) fn is_used(given: &ArgMatches<'_>, option: &OptionRow) -> bool
    ensures { result ≡ is_used (rows_of (found_of given.now)) (facts_of option.now) }
{
    match option.takes {
        Takes::Nothing => flag(given, option),
        _ => text_of(given, option).is_some(),
    }
}

/// Returns a copy of the text that is given for an option.
///
/// # Errors
///
/// Memory ran out.
pub(crate) fn text(
    alloc: Global,
    given: &ArgMatches<'_>,
    option: &OptionRow,
) -> Result<Option<String>, AllocError>
    ensures { IfOk result (λ copy. option_map string_bytes copy
        ≡ first_of option.now.name.now (rows_of (found_of given.now))) }
{
    match text_of(given, option) {
        Some(text) => Ok(Some(String::from_str(alloc, text)?)),
        None => Ok(None),
    }
}

/// Returns copies of the texts that are given for an option or operand.
///
/// # Errors
///
/// Memory ran out.
pub(crate) fn texts(
    alloc: Global,
    given: &ArgMatches<'_>,
    option: &OptionRow,
) -> Result<Vec<String>, AllocError>
    ensures { IfOk result (λ copies. map string_bytes copies.items
        ≡ texts_said option.now.name.now (rows_of (found_of given.now))) }
{
    let mut copies = Vec::new(alloc);
    add_texts(&mut copies, given, option)?;
    Ok(copies)
}

/// Appends copies of the texts that are given for an option or operand.
///
/// # Errors
///
/// Memory ran out.
pub(crate) fn add_texts(
    copies: &mut Vec<String>,
    given: &ArgMatches<'_>,
    option: &OptionRow,
) -> Result<(), AllocError>
    ensures { OnOk result (map string_bytes copies.new.items ≡ map string_bytes copies.old.items
        ++ texts_said option.now.name.now (rows_of (found_of given.now))) }
{
    let texts = given.get_raw(option.name).unwrap_or(&[]);
    for text in texts {
        let copy = String::from_str(*copies.allocator(), text)?;
        copies.push(copy)?;
    }
    Ok(())
}

/// Returns the number of texts that are given for an option.
pub(crate) fn text_count(given: &ArgMatches<'_>, option: &OptionRow) -> usize {
    match given.get_raw(option.name) {
        Some(texts) => texts.len(),
        None => 0,
    }
}

/// Returns the number that is given for an option; `None` if none is given, or if it is not in the
/// option's range.
pub(crate) fn number(given: &ArgMatches<'_>, option: &OptionRow) -> Option<u64>
    ensures given { result ≡ number_said option.now.name.now option.now.takes option.now.least
        option.now.greatest (rows_of (found_of given.now)) }
    ensures within { IfSome result (IsWithin option.now.least option.now.greatest) }
{
    number_in(option, text_of(given, option)?)
}

/// Does the same for an option whose numbers have 32 bits.
pub(crate) fn count(given: &ArgMatches<'_>, option: &OptionRow) -> Option<u32>
    requires { option.now.greatest < 2 ^ 32 }
    ensures given { result ≡ number_said option.now.name.now option.now.takes option.now.least
        option.now.greatest (rows_of (found_of given.now)) }
    ensures within { IfSome result (IsWithin option.now.least option.now.greatest) }
{
    Some(number(given, option)? as u32)
}

/// Checks the numbers that are given for options.
///
/// # Errors
///
/// `Wrong` if one is not in its range, `Memory` if memory ran out.
pub(crate) fn check_numbers(
    alloc: Global,
    given: &ArgMatches<'_>,
    options: &[OptionRow],
) -> Result<(), Refusal>
    ensures ok { OnOk result
        (has_bad (map facts_of options.now) (rows_of (found_of given.now)) ≡ false) }
    ensures refused { IfErr result (IsWhy
        (has_bad (map facts_of options.now) (rows_of (found_of given.now)) ≡ true)) }
{
    for option in options {
        check_number(alloc, given, option)?;
    }
    Ok(())
}

/// Checks the number that is given for an option, if its value is a number.
///
/// # Errors
///
/// `Wrong` if it is not in the option's range, `Memory` if memory ran out.
pub(crate) fn check_number(
    alloc: Global,
    given: &ArgMatches<'_>,
    option: &OptionRow,
) -> Result<(), Refusal>
    ensures ok { OnOk result
        (is_bad (rows_of (found_of given.now)) (facts_of option.now) ≡ false) }
    ensures refused { IfErr result (IsWhy
        (is_bad (rows_of (found_of given.now)) (facts_of option.now) ≡ true)) }
{
    match text_of(given, option) {
        Some(text) if is_numeric(option.takes) && number_in(option, text).is_none() => {
            Err(Refusal::Wrong(range_message(alloc, option, text)?))
        }
        _ => Ok(()),
    }
}

// Returns true if a value is a number.
fn is_numeric(takes: Takes) -> bool
    ensures { result ≡ is_numeric takes }
{
    match takes {
        Takes::Number | Takes::Seconds | Takes::Percent => true,
        _ => false,
    }
}

// Returns the number of a text in an option's range.
fn number_in(option: &OptionRow, text: &str) -> Option<u64>
    ensures value { result ≡ value_in option.now.takes option.now.least option.now.greatest
        text.now }
    ensures within { IfSome result (IsWithin option.now.least option.now.greatest) }
{
    let number = match option.takes {
        Takes::Number => number_of(text.as_bytes()),
        Takes::Seconds => seconds_of(text.as_bytes()),
        Takes::Percent => hundredths_of(text),
        _ => None,
    }?;
    if option.least <= number && number <= option.greatest {
        Some(number)
    } else {
        None
    }
}

// Returns the message for a text that is not in an option's range.
fn range_message(alloc: Global, option: &OptionRow, text: &str) -> Result<String, AllocError> {
    let shown = Escaped(text);
    let OptionRow {
        name,
        value,
        least,
        greatest,
        ..
    } = *option;
    if let Takes::Percent = option.takes {
        return format!(in alloc;
            "invalid value '{shown}' for '--{name} <{value}>': \
            not a percentage from 0 to 100 with at most two decimals"
        );
    }
    format!(in alloc;
        "invalid value '{shown}' for '--{name} <{value}>': not a number from {least} to {greatest}"
    )
}
