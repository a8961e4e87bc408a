//! Exit statuses of commands.

/// The command passed.
pub(crate) const PASSED: u8 = 0;

/// The command found an error, or could not run.
pub(crate) const FAILED: u8 = 1;

/// The words are no command.
pub(crate) const BAD_WORDS: u8 = 2;

/// A script has a fault: the status of `curlpool script`.
pub(crate) const BAD_SCRIPT: u8 = 3;

/// Returns the status of a command that passed, failed, or could not run.
pub(crate) fn status_of(passed: Option<bool>) -> u8 {
    match passed {
        Some(true) => PASSED,
        _ => FAILED,
    }
}
