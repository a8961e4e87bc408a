//! An audit's answer as one JSON object. Its texts are ASCII and need no escape.

use audit::{Audit, Finding};
use std::fmt;

/// A violation.
#[derive(Drop)]
pub(crate) struct FindingJson<'a>(pub &'a Finding);

impl fmt::Display for FindingJson<'_> {
    fn fmt<W: fmt::Write>(&self, f: &mut fmt::Formatter<W>) -> fmt::Result {
        let (line, rule) = (self.0.line, &self.0.broken.rule);
        let name = rule.name();
        write!(f, "{{\"line\": {line}, \"rule\": \"{name}\", ")?;
        write!(f, "\"text\": \"{rule}\", \"earlier\": ")?;
        match &self.0.broken.earlier {
            Some(earlier) => {
                let line = earlier.line;
                write!(f, "{line}}}")
            }
            None => write!(f, "null}}"),
        }
    }
}

/// The whole answer, with the violations as they stand in it.
#[derive(Drop)]
pub(crate) struct AuditJson<'a> {
    pub audit: &'a Audit,
    pub violations: &'a str,
}

impl fmt::Display for AuditJson<'_> {
    fn fmt<W: fmt::Write>(&self, f: &mut fmt::Formatter<W>) -> fmt::Result {
        let violations = self.violations;
        let is_lawful = violations.is_empty();
        let (events, hosts) = (self.audit.events(), self.audit.hosts());
        let open = self.audit.open_len();
        write!(f, "{{\"lawful\": {is_lawful}, \"events\": {events}, ")?;
        write!(f, "\"hosts\": {hosts}, \"open\": {open}, ")?;
        write!(f, "\"violations\": [{violations}]}}\n")
    }
}
