//! Errors of a script's run.

use crate::statuses::{BAD_SCRIPT, FAILED};
use budget::Refusal;
use script_text::ScriptFault;
use std::io::Write;

/// Error of a script's run.
#[derive(Clone, Copy)]
pub(super) enum ScriptError {
    /// An allocation failed.
    Memory,
    /// The transcript could not be written.
    Output,
    /// The script has a fault.
    Script(ScriptFault),
    /// The cache could not be gathered at the script's end.
    NotGathered(Refusal),
    /// The account of the cache differs from its logs.
    Account,
}

/// Prints an error, and returns the status of the command. If the line can't be written, the status
/// alone reports it.
pub(super) fn print_error(rt: &HostRuntime, error: ScriptError) -> u8 {
    match error {
        ScriptError::Memory => print_failure(rt, "out of memory"),
        ScriptError::Output => print_failure(rt, "the output cannot be written"),
        ScriptError::Account => print_failure(rt, "the account differs from the logs"),
        ScriptError::NotGathered(refusal) => {
            let _ = eprintln!(rt; "tries: the cache is not gathered: {refusal}");
            FAILED
        }
        ScriptError::Script(fault) => {
            let _ = eprintln!(rt; "{fault}");
            BAD_SCRIPT
        }
    }
}

// Prints why a command failed, and returns its status.
fn print_failure(rt: &HostRuntime, why: &str) -> u8 {
    let _ = eprintln!(rt; "tries: {why}");
    FAILED
}
