//! Refusals of words, and their texts.

ghost use Rattle.std.specs.Prelude.{◌≡◌, IfErr, IfOk};
ghost use Rattle.clap.specs.Words.{kind_of};

use crate::options::OptionRow;
use crate::words::subcommand;
use clap::Error;
use clap::error::ErrorKind;
use commands::{is_unprintable, write_escaped};
use std::alloc::{AllocError, Global};
use std::fmt;

/// Reasons to refuse the words after a command.
#[derive(Drop)]
pub enum Refusal {
    /// Memory ran out.
    Memory,
    /// The words are wrong. The text says why, for the user.
    Wrong(String),
}

impl From<AllocError> for Refusal {
    ghost use Rattle.std.specs.Prelude.{◌≡◌};
    ghost use Rattle.command_line.specs.declared.refusal.Refusal.TheVariants.{Memory};

    ghost from_gives = { λ _ refusal. refusal ≡ Memory };

    fn from(_: AllocError) -> Refusal {
        Refusal::Memory
    }
}

/// Returns the refusal with a text, or `Memory` if there is no memory for the text.
pub(crate) fn wrong(text: Result<String, AllocError>) -> Refusal {
    match text {
        Ok(text) => Refusal::Wrong(text),
        Err(_) => Refusal::Memory,
    }
}

/// Returns the error for the words after a command, which has the command's usage.
///
/// # Errors
///
/// Memory ran out.
pub(crate) fn usage_error(
    alloc: Global,
    usage: &str,
    options: &'static [OptionRow],
    text: &str,
) -> Result<Error, AllocError>
    ensures { IfOk result (λ error. kind_of error ≡ ErrorKind.ValueValidation) }
{
    let command = subcommand(alloc, "", options)?;
    let mut named = command.bin_name(usage)?;
    named.error(ErrorKind::ValueValidation, text)
}

/// Returns the text of an error: help and the version as they are, and a mistake with its control
/// characters escaped.
///
/// # Errors
///
/// Memory ran out.
pub(crate) fn error_text(alloc: Global, error: &Error) -> Result<String, AllocError> {
    let text = error.to_string(alloc)?;
    let text = text.as_str();
    if !text.starts_with(MISTAKE_START) {
        return String::from_str(alloc, text);
    }
    match around_tip(text) {
        None => {
            let all = Lines(text);
            format!(in alloc; "{all}")
        }
        Some((before, after)) => {
            let before = Lines(before);
            let after = Lines(after);
            format!(in alloc; "{before}\n{after}")
        }
    }
}

/// The start of the text of a mistake.
const MISTAKE_START: &str = "error: ";

/// The start of the usage that follows a mistake in the words after `get`.
const GET_USAGE: &str = "\nUsage: curlpool get ";

/// The start of the usage that follows a mistake in the words after `load`.
const LOAD_USAGE: &str = "\nUsage: curlpool load ";

/// The start of a tip to pass an option as an operand, which after `get` and `load` is a URL.
const OPERAND_TIP: &str = "\n  tip: to pass '";

// Returns the lines before a tip to pass an option as a URL, and those after it.
fn around_tip(text: &str) -> Option<(&str, &str)> {
    if !text.contains(GET_USAGE) && !text.contains(LOAD_USAGE) {
        return None;
    }
    let (before, tip) = text.split_once(OPERAND_TIP)?;
    let (_, after) = tip.split_once("\n")?;
    Some((before.strip_suffix("\n").unwrap_or(before), after))
}

/// Lines of text, in which each control character but a line feed is escaped.
#[derive(Drop)]
struct Lines<'a>(&'a str);

impl fmt::Display for Lines<'_> {
    fn fmt<W: fmt::Write>(&self, f: &mut fmt::Formatter<W>) -> fmt::Result {
        for c in self.0.chars() {
            if c != '\n' && is_unprintable(c) {
                write_escaped(f, c)?;
            } else {
                f.write_char(c)?;
            }
        }
        Ok(())
    }
}
