//! The line of a URL as a JSON object.

use exchange::{Answer, Done, Fault};
use run_loop::Span;
use std::fmt;

/// The outcome of a URL.
#[derive(Clone, Copy, Debug)]
pub(crate) enum Outcome {
    /// Its transfer has this result.
    Ended {
        done: Done,
        span: Span,
        /// True if the system does not know its host.
        is_unknown: bool,
    },
    /// The URL is bad.
    BadUrl,
}

/// A URL as it was given, and its outcome. A member that does not apply is null.
#[derive(Drop)]
pub(crate) struct JsonLine<'a> {
    pub(crate) url: &'a str,
    pub(crate) outcome: Outcome,
}

impl fmt::Display for JsonLine<'_> {
    fn fmt<W: fmt::Write>(&self, f: &mut fmt::Formatter<W>) -> fmt::Result {
        let url = JsonText(self.url);
        write!(f, "{{\"url\": {url}, ")?;
        match self.outcome {
            Outcome::Ended {
                done,
                span,
                is_unknown,
            } => {
                match done {
                    Done::Good(answer) => write_answer(f, answer)?,
                    Done::Bad(fault) => write_fault(f, fault, span.retried)?,
                }
                write_reason(f, done, span, is_unknown)?;
                write_moments(f, span)
            }
            Outcome::BadUrl => {
                write!(f, "\"status\": null, \"length\": null, \"reused\": null, ")?;
                write!(
                    f,
                    "\"retried\": null, \"fault\": \"BadUrl\", \"reason\": null, "
                )?;
                write!(f, "\"waited_us\": null, \"dialled_us\": null, ")?;
                write!(f, "\"first_byte_us\": null, \"whole_us\": null}}")
            }
        }
    }
}

// Writes the members of a response.
fn write_answer<W: fmt::Write>(f: &mut fmt::Formatter<W>, answer: Answer) -> fmt::Result {
    let (status, length) = (answer.status, answer.body_len);
    let (reused, retried) = (answer.reused, answer.retried);
    write!(f, "\"status\": {status}, \"length\": {length}, ")?;
    write!(f, "\"reused\": {reused}, \"retried\": {retried}, ")?;
    write!(f, "\"fault\": null, ")
}

// Writes the members of a transfer without a response.
fn write_fault<W: fmt::Write>(
    f: &mut fmt::Formatter<W>,
    fault: Fault,
    retried: bool,
) -> fmt::Result {
    let name = fault.name();
    write!(f, "\"status\": null, \"length\": null, \"reused\": null, ")?;
    write!(f, "\"retried\": {retried}, \"fault\": \"{name}\", ")
}

// Writes the reason of a failed connection, if the system gave one.
fn write_reason<W: fmt::Write>(
    f: &mut fmt::Formatter<W>,
    done: Done,
    span: Span,
    is_unknown: bool,
) -> fmt::Result {
    match (done, span.reason) {
        (Done::Bad(Fault::Dial), _) if is_unknown => write!(f, "\"reason\": \"unknown host\", "),
        (Done::Bad(_), Some(reason)) => write!(f, "\"reason\": \"{reason}\", "),
        _ => write!(f, "\"reason\": null, "),
    }
}

// Writes the phases of the transfer, in microseconds after its beginning.
fn write_moments<W: fmt::Write>(f: &mut fmt::Formatter<W>, span: Span) -> fmt::Result {
    let (began, phases) = (span.began, span.phases);
    write_moment(f, "waited_us", phases.leased, began)?;
    write_moment(f, "dialled_us", phases.open, began)?;
    write_moment(f, "first_byte_us", phases.first_byte, began)?;
    let whole = span.ended.saturating_sub(began);
    write!(f, "\"whole_us\": {whole}}}")
}

// Writes a moment, in microseconds after the beginning, or null.
fn write_moment<W: fmt::Write>(
    f: &mut fmt::Formatter<W>,
    name: &str,
    moment: Option<u64>,
    began: u64,
) -> fmt::Result {
    match moment {
        Some(moment) => {
            let after = moment.saturating_sub(began);
            write!(f, "\"{name}\": {after}, ")
        }
        None => write!(f, "\"{name}\": null, "),
    }
}

/// A JSON string (RFC 8259, section 7).
#[derive(Drop)]
pub(crate) struct JsonText<'a>(pub(crate) &'a str);

impl fmt::Display for JsonText<'_> {
    fn fmt<W: fmt::Write>(&self, f: &mut fmt::Formatter<W>) -> fmt::Result {
        f.write_char('"')?;
        for c in self.0.chars() {
            write_escaped(f, c)?;
        }
        f.write_char('"')
    }
}

// Writes a character of a string.
fn write_escaped<W: fmt::Write>(f: &mut fmt::Formatter<W>, c: char) -> fmt::Result {
    let code = u32::from(c);
    match c {
        '"' | '\\' => {
            f.write_char('\\')?;
            f.write_char(c)
        }
        _ if code < 0x20 => write!(f, "\\u{code:04x}"),
        _ => f.write_char(c),
    }
}
