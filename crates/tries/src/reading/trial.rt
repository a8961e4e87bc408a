//! Tries rows, each in all ways in which its response may come.

use crate::reading::row::Row;
use crate::reading::ways::{read_by_bytes, read_cut};
use crate::reports::Report;
use persistence::{Method, ResponseReader, Version, persists};
use std::alloc::{AllocError, Global};
use std::io::Write;

/// The readers that rows are tried with.
#[derive(Drop)]
pub(super) struct Trial {
    at_once: ResponseReader,
    by_bytes: ResponseReader,
}

impl Trial {
    /// Makes the readers. `None` if an allocation fails.
    pub(super) fn new(alloc: Global) -> Option<Trial> {
        let at_once = ResponseReader::new(alloc, Method::Get, false).ok()?;
        let by_bytes = ResponseReader::new(alloc, Method::Get, false).ok()?;
        Some(Trial { at_once, by_bytes })
    }

    /// Returns true if the row holds in each way; if not, prints a line for the first way in which
    /// it doesn't. `None` if an allocation or that line fails.
    pub(super) fn holds(&mut self, rt: &HostRuntime, row: &Row<'_>) -> Option<bool> {
        Some(self.holds_by_bytes(rt, row)? && self.holds_if_cut(rt, row)?)
    }

    // The same, byte by byte.
    fn holds_by_bytes(&mut self, rt: &HostRuntime, row: &Row<'_>) -> Option<bool> {
        let alloc = rt.alloc();
        let found = read_by_bytes(
            &mut self.by_bytes,
            &mut self.at_once,
            row.request,
            &row.text,
        );
        let words = match found {
            Ok(report) => words_of(alloc, &report).ok()?,
            Err(len) => format!(in alloc; "another report than at once after {len} bytes").ok()?,
        };
        if words.as_str() == row.report {
            return Some(true);
        }
        print_wrong(rt, row, "byte by byte", words.as_str())
    }

    // The same, at once, and cut in two after each number of bytes.
    fn holds_if_cut(&mut self, rt: &HostRuntime, row: &Row<'_>) -> Option<bool> {
        let alloc = rt.alloc();
        let at_once = read_cut(&mut self.at_once, row.request, &row.text, row.text.len());
        let words = words_of(alloc, &at_once).ok()?;
        if !row.may_have(words.as_str()) {
            return print_wrong(rt, row, "at once", words.as_str());
        }
        for len in 0..row.text.len() {
            let report = read_cut(&mut self.at_once, row.request, &row.text, len);
            if report == at_once {
                continue;
            }
            let words = words_of(alloc, &report).ok()?;
            if !row.may_have(words.as_str()) {
                let way = format!(in alloc; "cut after {len} bytes").ok()?;
                return print_wrong(rt, row, way.as_str(), words.as_str());
            }
        }
        Some(true)
    }
}

// Returns the report as a row states it: status, framing, body length, end and version; then the
// facts that are true.
fn words_of(alloc: Global, report: &Report) -> Result<String, AllocError> {
    let mut words = report.words(alloc)?;
    let facts = report.facts;
    words.push_str(match facts.version {
        Version::V10 => " 1.0",
        Version::V11 => " 1.1",
    })?;
    for (is_true, word) in [
        (facts.close, " close"),
        (facts.keep_alive, " keep-alive"),
        (facts.request_close, " request-close"),
        (facts.both_lengths, " both-lengths"),
        (facts.upgraded, " upgraded"),
        (persists(&report.at_end), " persists"),
        (!report.any_byte, " no-byte"),
        (!report.steady, " unsteady"),
    ] {
        if is_true {
            words.push_str(word)?;
        }
    }
    Ok(words)
}

// Prints a row that does not hold. `None` if that fails.
fn print_wrong(rt: &HostRuntime, row: &Row<'_>, way: &str, found: &str) -> Option<bool> {
    let name = row.name;
    let report = row.report;
    let or = if row.other.is_some() { " or " } else { "" };
    let other = row.other.unwrap_or("");
    println!(rt; "{name}: {way}: expected `{report}{or}{other}`, found `{found}`").ok()?;
    Some(false)
}
