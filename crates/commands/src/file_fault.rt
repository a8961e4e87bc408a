//! Messages for files that cannot be read or written.

use crate::printable::Escaped;
use std::alloc::{AllocError, Global};
use std::io::{Error, Write};

/// The operation on a file that failed.
#[derive(Clone, Copy)]
pub enum FileAction {
    Read,
    Write,
}

impl FileAction {
    /// The action as a verb.
    fn verb(self) -> &'static str {
        match self {
            FileAction::Read => "read",
            FileAction::Write => "write",
        }
    }
}

/// Returns the message for a named file, for example `cannot read urls: No such file or directory`.
/// Control characters of the name are escaped.
///
/// # Errors
///
/// An allocation failed.
pub fn file_fault_text(
    alloc: Global,
    action: FileAction,
    name: &str,
    reason: Option<Error>,
) -> Result<String, AllocError> {
    let (verb, name) = (action.verb(), Escaped(name));
    let Some(reason) = reason else {
        return format!(in alloc; "cannot {verb} {name}");
    };
    let mut text = format!(in alloc; "cannot {verb} {name}: {reason}")?;
    // The system's number for the reason means nothing to users.
    let end = text.as_str().rfind(" (os error ").unwrap_or(text.len());
    text.truncate(end);
    Ok(text)
}

/// Writes the message for a named file, or one without name and reason if an allocation fails.
pub fn write_file_fault<E: Write>(
    alloc: Global,
    errors: &mut E,
    action: FileAction,
    name: &str,
    reason: Option<Error>,
) {
    match file_fault_text(alloc, action, name, reason) {
        Ok(text) => {
            let _ = writeln!(errors, "run: {text}");
        }
        Err(_) => {
            let verb = action.verb();
            let _ = writeln!(errors, "run: cannot {verb}");
        }
    }
}
