//! Input of a command: a file, or standard input.

use std::io::Read;
use std::{fs, io};

/// Reads the file that the first word names; standard input for `-`, and if there is no word.
///
/// # Errors
///
/// The file or standard input can't be read, or an allocation fails.
pub(crate) fn read_input(rt: &HostRuntime, words: &[String]) -> io::Result<Vec<u8>> {
    match words.get(0) {
        Some(name) if name.as_str() != "-" => fs::read(rt, name.as_str()),
        _ => read_stdin(rt),
    }
}

/// Reads standard input to its end.
///
/// # Errors
///
/// It can't be read, or an allocation fails.
pub(crate) fn read_stdin(rt: &HostRuntime) -> io::Result<Vec<u8>> {
    let mut bytes = Vec::new(rt.alloc());
    rt.stdin().read_to_end(&mut bytes)?;
    Ok(bytes)
}
