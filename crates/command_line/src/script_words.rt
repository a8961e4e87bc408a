//! The words after `script`.

ghost use Rattle.std.specs.Prelude.{IfOk};
ghost use Rattle.clap.specs.Words.{found_of, rows_of};
ghost use Rattle.command_line.specs.Inputs.{AreScriptWords};

use crate::input::{Input, input_of};
use crate::options::{SCRIPT_FILE, SCRIPT_PICTURE, SCRIPT_TRACE};
use crate::values::{flag, text, text_of};
use clap::ArgMatches;
use std::alloc::{AllocError, Global};

/// The words after `script`.
#[derive(Drop)]
pub struct ScriptWords {
    /// True if a trace is printed instead of the transcript.
    pub is_traced: bool,
    /// The file for the picture.
    pub picture: Option<String>,
    pub input: Input,
}

/// Reads the words after `script`.
///
/// # Errors
///
/// Memory ran out.
pub(crate) fn script_words(alloc: Global, given: &ArgMatches<'_>) -> Result<ScriptWords, AllocError>
    ensures { IfOk result (AreScriptWords (rows_of (found_of given.now))) }
{
    Ok(ScriptWords {
        is_traced: flag(given, &SCRIPT_TRACE),
        picture: text(alloc, given, &SCRIPT_PICTURE)?,
        input: input_of(alloc, text_of(given, &SCRIPT_FILE))?,
    })
}
