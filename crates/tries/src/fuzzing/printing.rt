//! Lines about responses.

use crate::reports::{Report, Request};
use std::alloc::{AllocError, Global};
use std::fmt::Write as _;
use std::io::Write;

/// Prints a line for a response: its bytes, `Get` or `Head`, and the words of its report. `None` if
/// that fails.
pub(crate) fn print_listed(
    rt: &HostRuntime,
    request: Request,
    text: &[u8],
    report: &Report,
) -> Option<()> {
    let bytes = hex_of(rt.alloc(), text).ok()?;
    let method = request.method;
    let words = report.words(rt.alloc()).ok()?;
    println!(rt; "x{bytes} {method:?} {words}").ok()
}

/// Prints a response for which two readers made reports that can't both be right. `None` if that
/// fails.
pub(crate) fn print_difference(
    rt: &HostRuntime,
    request: Request,
    text: &[u8],
    at_once: &Report,
    in_pieces: &Report,
) -> Option<()> {
    let bytes = hex_of(rt.alloc(), text).ok()?;
    println!(rt; "{request:?}\nbytes {bytes}\nat once {at_once:?}\nin pieces {in_pieces:?}").ok()
}

// Returns the bytes as hexadecimal digits.
fn hex_of(alloc: Global, text: &[u8]) -> Result<String, AllocError> {
    let mut digits = String::new(alloc);
    for byte in text {
        let byte = *byte;
        write!(digits, "{byte:02x}")?;
    }
    Ok(digits)
}
