//! The command `read`: rows state what a reader reports of a response, and each response is read at
//! once, byte by byte, and cut in two at each byte.

mod escapes;
mod row;
mod trial;
mod ways;

use crate::input::read_input;
use crate::reading::row::Row;
use crate::reading::trial::Trial;
use crate::statuses::{BAD_WORDS, FAILED, status_of};
use std::io::Write;

/// Reads the rows of the named file, or of standard input, and prints a line for each row that is
/// wrong, and the number of rows. Returns the status, `FAILED` if a row is wrong.
pub(crate) fn read_rows(rt: &HostRuntime, words: &[String]) -> u8 {
    if words.len() > 1 {
        return BAD_WORDS;
    }
    let Ok(bytes) = read_input(rt, words) else {
        return FAILED;
    };
    match str::from_utf8(&bytes) {
        Ok(text) => status_of(rows_hold(rt, text)),
        Err(_) => FAILED,
    }
}

// Tries each row, and returns true if none is wrong. `None` if an allocation or a write fails, or
// a line is no row.
fn rows_hold(rt: &HostRuntime, text: &str) -> Option<bool> {
    let mut trial = Trial::new(rt.alloc())?;
    let mut rows = 0u64;
    let mut wrong = 0u64;
    for line in text.lines() {
        if is_comment(line) {
            continue;
        }
        let Some(row) = Row::parse(rt.alloc(), line) else {
            let _ = eprintln!(rt; "tries: not a row: {line}");
            return None;
        };
        rows = rows.saturating_add(1);
        if !trial.holds(rt, &row)? {
            wrong = wrong.saturating_add(1);
        }
    }
    println!(rt; "{rows} rows, {wrong} wrong").ok()?;
    Some(wrong == 0)
}

// True if the line has no row.
fn is_comment(line: &str) -> bool {
    line.is_empty() || line.starts_with('#')
}
