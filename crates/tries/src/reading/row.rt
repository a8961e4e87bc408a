//! Rows: a response, and the reports that a reader may make of it.

use crate::reading::escapes::bytes_of;
use crate::reports::Request;
use persistence::Method;
use std::alloc::Global;

/// Separates the parts of a row.
const SEPARATOR: &str = " | ";

/// Separates two reports of which either may come.
const OR: &str = " or ";

/// A response, and the reports that a reader may make of it.
#[derive(Drop)]
pub(crate) struct Row<'l> {
    pub(crate) name: &'l str,
    pub(crate) request: Request,
    pub(crate) text: Vec<u8>,
    /// Report of a reader that gets the response byte by byte.
    pub(crate) report: &'l str,
    /// A second report that may come if bytes come together.
    pub(crate) other: Option<&'l str>,
}

impl<'l> Row<'l> {
    /// Parses a line: name, request, bytes and reports. `None` if it is no row, or an allocation
    /// fails.
    pub(crate) fn parse(alloc: Global, line: &'l str) -> Option<Row<'l>> {
        let (name, rest) = line.split_once(SEPARATOR)?;
        let (request, rest) = rest.split_once(SEPARATOR)?;
        let (text, reports) = rest.split_once(SEPARATOR)?;
        let (report, other) = match reports.split_once(OR) {
            Some((report, other)) => (report, Some(other)),
            None => (reports, None),
        };
        Some(Row {
            name,
            request: parse_request(request)?,
            text: bytes_of(alloc, text)?,
            report,
            other,
        })
    }

    /// True if a reader may make that report of the response.
    pub(crate) fn may_have(&self, report: &str) -> bool {
        report == self.report || self.other == Some(report)
    }
}

// Parses a request: its method, and `close` if it has that connection option.
fn parse_request(text: &str) -> Option<Request> {
    let (method, close) = match text {
        "GET" => (Method::Get, false),
        "HEAD" => (Method::Head, false),
        "GET close" => (Method::Get, true),
        "HEAD close" => (Method::Head, true),
        _ => return None,
    };
    Some(Request { method, close })
}
