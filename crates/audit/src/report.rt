//! The lines of an audit's answer.

use crate::audit::Audit;
use crate::finding::Finding;
use std::fmt;

/// A violation, in the trace of that name, with a second line for the earlier line that matters.
#[derive(Drop)]
pub struct FindingLines<'a> {
    pub name: &'a str,
    pub finding: &'a Finding,
}

impl fmt::Display for FindingLines<'_> {
    fn fmt<W: fmt::Write>(&self, f: &mut fmt::Formatter<W>) -> fmt::Result {
        let (name, line) = (self.name, self.finding.line);
        let (event, rule) = (self.finding.event.as_str(), &self.finding.broken.rule);
        write!(f, "{name}:{line}: {event}: {rule}\n")?;
        match &self.finding.broken.earlier {
            Some(earlier) => {
                let line = earlier.line;
                write!(f, "{name}:{line}: here {earlier}\n")
            }
            None => Ok(()),
        }
    }
}

/// A number whose thousands are separated.
#[derive(Drop)]
struct Grouped(u64);

impl fmt::Display for Grouped {
    fn fmt<W: fmt::Write>(&self, f: &mut fmt::Formatter<W>) -> fmt::Result {
        let number = self.0;
        let mut is_begun = false;
        for scale in [
            1_000_000_000_000_000_000,
            1_000_000_000_000_000,
            1_000_000_000_000,
            1_000_000_000,
            1_000_000,
            1_000,
            1u64,
        ] {
            let group = number / scale % 1000;
            if is_begun {
                write!(f, ",{group:03}")?;
            } else if group > 0 || scale == 1 {
                write!(f, "{group}")?;
                is_begun = true;
            }
        }
        Ok(())
    }
}

/// A number of things of that name.
#[derive(Drop)]
struct Counted<'a>(u64, &'a str);

impl fmt::Display for Counted<'_> {
    fn fmt<W: fmt::Write>(&self, f: &mut fmt::Formatter<W>) -> fmt::Result {
        let (count, noun) = (Grouped(self.0), self.1);
        if self.0 == 1 {
            return write!(f, "{count} {noun}");
        }
        write!(f, "{count} {noun}s")
    }
}

/// The line of a lawful trace.
#[derive(Drop)]
pub struct LawfulLine<'a>(pub &'a Audit);

impl fmt::Display for LawfulLine<'_> {
    fn fmt<W: fmt::Write>(&self, f: &mut fmt::Formatter<W>) -> fmt::Result {
        let events = Counted(self.0.events(), "event");
        let hosts = Counted(self.0.hosts() as u64, "host");
        let open = Grouped(self.0.open_len());
        write!(f, "lawful: {events}, {hosts}, {open} still open")?;
        if !self.0.has_waits() {
            write!(f, ", waits not told")?;
        }
        write!(f, "\n")
    }
}

/// The last line of all violations: how many lines are of connections whose opening was not taken.
#[derive(Drop)]
pub struct PassedByLine(pub u64);

impl fmt::Display for PassedByLine {
    fn fmt<W: fmt::Write>(&self, f: &mut fmt::Formatter<W>) -> fmt::Result {
        let count = self.0;
        if count == 1 {
            return write!(f, "and 1 line of connections that were not taken\n");
        }
        write!(f, "and {count} lines of connections that were not taken\n")
    }
}
