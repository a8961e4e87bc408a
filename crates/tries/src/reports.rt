//! Reports of a response reader, and whether two readers may differ at the same bytes.

use persistence::{Facts, Fed, Framing, Method, ReadFault, ResponseReader};
use std::alloc::{AllocError, Global};

/// Maximum number of fields of a head, and of a trailer section.
const MOST_FIELDS: usize = 100;

/// Maximum number of bytes of a trailer section; a head may have more.
const FEWEST_AT_LIMIT: usize = 8_192;

/// The request that a response answers.
#[derive(Clone, Copy, Debug)]
pub(crate) struct Request {
    pub(crate) method: Method,
    /// True if it had the connection option `close`.
    pub(crate) close: bool,
}

/// A reader's report of all bytes that it was fed.
#[derive(Clone, Copy, Debug, PartialEq, Eq)]
pub(crate) struct Report {
    /// Last answer of the reader.
    pub(crate) fed: Result<Fed, ReadFault>,
    pub(crate) status: Option<u16>,
    /// Facts before the connection ends.
    pub(crate) facts: Facts,
    /// Facts after the connection has ended.
    pub(crate) at_end: Facts,
    pub(crate) body_len: u64,
    pub(crate) any_byte: bool,
    /// True if each answer agreed with the facts and with the answers before it.
    pub(crate) steady: bool,
}

impl Report {
    /// Returns the report of a reader whose connection has not ended.
    pub(crate) fn before_end(
        reader: &ResponseReader,
        fed: Result<Fed, ReadFault>,
        steady: bool,
    ) -> Report {
        let facts = reader.facts();
        Report {
            fed,
            status: reader.status(),
            facts,
            at_end: facts,
            body_len: reader.body_len(),
            any_byte: reader.any_byte(),
            steady,
        }
    }

    /// Ends the connection, and returns the report.
    pub(crate) fn at_end(
        reader: &mut ResponseReader,
        fed: Result<Fed, ReadFault>,
        steady: bool,
    ) -> Report {
        let before = Report::before_end(reader, fed, steady);
        reader.end();
        let after = Report::before_end(reader, fed, steady);
        Report {
            at_end: after.facts,
            steady: steady && before.may_end_as(&after),
            ..before
        }
    }

    // True if the connection's end may make the one report the other: it may complete a response
    // that has no fault, and changes nothing else.
    fn may_end_as(&self, after: &Report) -> bool {
        let whole = self.facts.whole || (after.facts.whole && self.fed.is_ok());
        let facts = Facts {
            whole,
            ..self.facts
        };
        let expected = Report {
            facts,
            at_end: facts,
            ..*self
        };
        expected == *after
    }

    /// Returns status, framing, body length and end as words. The end is a fault, `whole` or
    /// `surplus` before the connection's end, `until-end` if that end completes the response, else
    /// `more`.
    ///
    /// # Errors
    ///
    /// An allocation failed.
    pub(crate) fn words(&self, alloc: Global) -> Result<String, AllocError> {
        let status = self.status.unwrap_or(0);
        let framing = self.facts.framing;
        let body_len = self.body_len;
        let end = match self.fed {
            Err(fault) => return format!(in alloc; "{status} {framing:?} {body_len} {fault:?}"),
            Ok(Fed::Whole) if self.facts.surplus => "surplus",
            Ok(Fed::Whole) => "whole",
            Ok(Fed::More) if self.at_end.whole => "until-end",
            Ok(Fed::More) => "more",
        };
        format!(in alloc; "{status} {framing:?} {body_len} {end}")
    }
}

/// True if the reader's answer agrees with its facts: `Whole` exactly if they say so, and no
/// framing after a fault.
pub(crate) fn agrees(reader: &ResponseReader, fed: Result<Fed, ReadFault>) -> bool {
    let facts = reader.facts();
    match fed {
        Ok(found) => matches!(found, Fed::Whole) == facts.whole,
        Err(_) => facts.framing == Framing::Faulty && !facts.whole,
    }
}

/// True if a reader may answer the one and then the other.
pub(crate) fn may_follow(fed: Result<Fed, ReadFault>, next: Result<Fed, ReadFault>) -> bool {
    matches!(fed, Ok(Fed::More)) || next == fed
}

/// True if two readers may report both of that text. The bytes determine all but the fault.
pub(crate) fn may_both(one: &Report, other: &Report, text: &[u8]) -> bool {
    let same = Report {
        fed: other.fed,
        ..*one
    };
    same == *other && (one.fed == other.fed || may_both_fail(one.fed, other.fed, text))
}

// True if the text may show either fault: a section that is too long is reported as too long, or
// by another fault that it has.
fn may_both_fail(one: Result<Fed, ReadFault>, other: Result<Fed, ReadFault>, text: &[u8]) -> bool {
    let is_one_section = match (one, other) {
        (Err(ReadFault::BadHead), Err(ReadFault::HeadTooLong)) => true,
        (Err(ReadFault::HeadTooLong), Err(ReadFault::BadHead)) => true,
        (Err(ReadFault::BadChunk), Err(ReadFault::TrailerTooLong)) => true,
        (Err(ReadFault::TrailerTooLong), Err(ReadFault::BadChunk)) => true,
        _ => false,
    };
    is_one_section && may_be_too_long(text)
}

// True if a section of the text may be too long.
fn may_be_too_long(text: &[u8]) -> bool {
    lines_of(text) > MOST_FIELDS || text.len() >= FEWEST_AT_LIMIT
}

// Returns the number of line ends in the text.
fn lines_of(text: &[u8]) -> usize {
    let mut lines = 0usize;
    for byte in text {
        lines = lines.saturating_add(usize::from(*byte == b'\n'));
    }
    lines
}
