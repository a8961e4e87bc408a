ghost use Rattle.std.specs.Prelude.{◌≡◌, ◌||◌, not, false, IfOk, OnOk};
ghost use Rattle.streams.specs.Streams.{CanCount};
ghost use Rattle.audit_stream.specs.Tells.{told_after};
ghost use Rattle.audit_stream.specs.Writing.{WritesAlone};
ghost use Rattle.audit_stream.specs.Audits.{verdict_on};

use crate::audit_output::{AuditOutput, Verdict};
use crate::json::{AuditJson, FindingJson};
use crate::stop::AuditStop;
use audit::{Audit, Finding, FindingLines, LawfulLine, PassedByLine};
use std::alloc::{AllocError, Global};
use std::fmt::Write;
use streams::Sink;

/// Tells the violations of a trace.
#[derive(Drop)]
pub(crate) struct Teller<'a> {
    alloc: Global,
    /// The trace's name.
    name: &'a str,
    telling: AuditOutput,
    /// Whether a rule is broken.
    is_broken: bool,
    /// The violations, if they are told as JSON.
    violations: String,
}

impl<'a> Teller<'a> {
    /// One of that trace, in which no violation was found yet.
    pub(crate) fn new(alloc: Global, name: &'a str, telling: AuditOutput) -> Teller<'a>
        ensures telling { result.telling ≡ telling }
        ensures none { result.is_broken ≡ false }
    {
        Teller {
            alloc,
            name,
            telling,
            is_broken: false,
            violations: String::new(alloc),
        }
    }

    /// Tells the violations that an audit has found since. Answers whether the audit is to go on.
    pub(crate) fn tell<W: Sink>(
        &mut self,
        audit: &mut Audit,
        output: &mut W,
    ) -> Result<bool, AuditStop>
        requires { CanCount (W.sink output.old) }
        ensures told { OnOk result (record { audited = audit.new; broken = self.new.is_broken }
            ≡ told_after self.old.is_broken audit.old) }
        ensures goes { IfOk result (λ goes.
            goes ≡ (self.new.telling.all || not self.new.is_broken)) }
        ensures same { OnOk result (self.new.telling ≡ self.old.telling) }
        ensures writes { WritesAlone (W.sink output.old) (W.sink output.new) result }
    {
        let found = audit.take_findings();
        self.is_broken = self.is_broken || !found.is_empty();
        if self.telling.all {
            self.tell_all(audit, found.as_slice(), output)?;
        } else if let Some(finding) = found.first() {
            self.tell_one(audit, finding, output)?;
        }
        Ok(self.telling.all || !self.is_broken)
    }

    /// Tells violations.
    fn tell_all<W: Sink>(
        &mut self,
        audit: &Audit,
        found: &[Finding],
        output: &mut W,
    ) -> Result<(), AuditStop>
        requires { CanCount (W.sink output.old) }
        ensures same { OnOk result (self.new.telling ≡ self.old.telling) }
        ensures broken { OnOk result (self.new.is_broken ≡ self.old.is_broken) }
        ensures writes { WritesAlone (W.sink output.old) (W.sink output.new) result }
    {
        for finding in found {
            match self.tell_one(audit, finding, output) {
                Ok(()) => {}
                Err(stop) => return Err(stop),
            }
        }
        Ok(())
    }

    /// Tells a violation.
    fn tell_one<W: Sink>(
        &mut self,
        audit: &Audit,
        finding: &Finding,
        output: &mut W,
    ) -> Result<(), AuditStop>
        requires { CanCount (W.sink output.old) }
        ensures same { OnOk result (self.new.telling ≡ self.old.telling) }
        ensures broken { OnOk result (self.new.is_broken ≡ self.old.is_broken) }
        ensures writes { WritesAlone (W.sink output.old) (W.sink output.new) result }
    {
        if self.telling.json {
            return self.note(finding).map_err(|_| AuditStop::Memory);
        }
        let text = self.lines_of(audit, finding);
        put(text, output)
    }

    /// Keeps a violation for the JSON object.
    fn note(&mut self, finding: &Finding) -> Result<(), AllocError>
        ensures same { self.new.telling ≡ self.old.telling }
        ensures broken { self.new.is_broken ≡ self.old.is_broken }
    {
        if !self.violations.is_empty() {
            self.violations.push_str(", ")?;
        }
        let violation = FindingJson(finding);
        write!(self.violations, "{violation}")
    }

    /// The lines of a violation.
    fn lines_of(&self, audit: &Audit, finding: &Finding) -> Result<String, AllocError> {
        let (name, line) = (self.name, finding.line);
        let lines = FindingLines { name, finding };
        if !self.telling.state {
            return format!(in self.alloc; "{lines}");
        }
        let state = audit.state_of(finding.host())?;
        format!(in self.alloc; "{lines}{name}:{line}: {state}\n")
    }

    /// Tells what the trace comes to, once all of its violations are told.
    pub(crate) fn finish<W: Sink>(
        &self,
        audit: &Audit,
        output: &mut W,
    ) -> Result<Verdict, AuditStop>
        requires { CanCount (W.sink output.old) }
        ensures verdict { IfOk result (λ verdict. verdict ≡ verdict_on self.now.is_broken) }
        ensures writes { WritesAlone (W.sink output.old) (W.sink output.new) result }
    {
        put(self.last_line(audit), output)?;
        if self.is_broken {
            return Ok(Verdict::Broken);
        }
        Ok(Verdict::Lawful)
    }

    /// The last line of the answer.
    fn last_line(&self, audit: &Audit) -> Result<String, AllocError> {
        if self.telling.json {
            let violations = self.violations.as_str();
            let whole = AuditJson { audit, violations };
            return format!(in self.alloc; "{whole}");
        }
        if !self.is_broken {
            let lawful = LawfulLine(audit);
            return format!(in self.alloc; "{lawful}");
        }
        let passed_by = audit.passed_by();
        if passed_by == 0 {
            return Ok(String::new(self.alloc));
        }
        let line = PassedByLine(passed_by);
        format!(in self.alloc; "{line}")
    }
}

/// Writes a text, if there was memory for it.
fn put<W: Sink>(text: Result<String, AllocError>, output: &mut W) -> Result<(), AuditStop>
    requires { CanCount (W.sink output.old) }
    ensures { WritesAlone (W.sink output.old) (W.sink output.new) result }
{
    match text {
        Ok(text) => match output.put(text.as_bytes()) {
            Ok(()) => Ok(()),
            Err(kind) => Err(AuditStop::of_output(kind)),
        },
        Err(_) => Err(AuditStop::Memory),
    }
}
