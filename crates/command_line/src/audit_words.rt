//! The words after `audit`.

ghost use Rattle.std.specs.Prelude.{IfOk};
ghost use Rattle.clap.specs.Words.{found_of, rows_of};
ghost use Rattle.command_line.specs.Inputs.{AreAuditWords};

use crate::input::{Input, input_of};
use crate::options::{ALL, AUDIT_FILE, AUDIT_JSON, STATE};
use crate::values::{flag, text_of};
use audit_stream::AuditOutput;
use clap::ArgMatches;
use std::alloc::{AllocError, Global};

/// The words after `audit`.
#[derive(Drop)]
pub struct AuditWords {
    /// How violations are reported.
    pub telling: AuditOutput,
    /// The trace.
    pub input: Input,
}

/// Reads the words after `audit`.
///
/// # Errors
///
/// Memory ran out.
pub(crate) fn audit_words(alloc: Global, given: &ArgMatches<'_>) -> Result<AuditWords, AllocError>
    ensures { IfOk result (AreAuditWords (rows_of (found_of given.now))) }
{
    Ok(AuditWords {
        telling: AuditOutput {
            all: flag(given, &ALL),
            json: flag(given, &AUDIT_JSON),
            state: flag(given, &STATE),
        },
        input: input_of(alloc, text_of(given, &AUDIT_FILE))?,
    })
}
