//! An audit of a trace, line by line.

ghost use Rattle.std.specs.Prelude.{◌≡◌, ◌≤◌, ◌+◌, length, Err, None, IsSome};
ghost use Rattle.std.specs.Prelude.{IfOk, IfErr, OnOk};
ghost use Rattle.std.specs.List.{sum_by};
ghost use Rattle.log_judge.specs.Tables.{open_at};
ghost use Rattle.trace_text.specs.Lines.{trace_reading};
ghost use Rattle.audit.specs.Audits.{not_begun, open_in, Comes, ReadsEvent, ReadsOther, ReadsLine};
ghost use Rattle.audit.specs.Audits.{Begins, KeepsLogs, is_wait, with_line};

use crate::fault::AuditFault;
use crate::finding::{Broken, Finding};
use crate::hosts::{Outcome, TracedHosts};
use budget::{GREATEST_LIMIT, Limits};
use conn_key::{CountedMemory, Sites, SitesFault};
use script_text::{Action, Command, FaultKind, HostCommand, SiteWord};
use std::alloc::{AllocError, Global};
use std::marker::Model;
use std::mem;
use streams::first_word;
use trace_text::{Line, Traced, TracedEvent, read_line};

/// An audit of a trace: reads it line by line, and keeps the violations that it found.
#[derive(Drop)]
pub struct Audit {
    alloc: Global,
    limits: Option<Limits>,
    sites: Sites,
    /// None before the first line after the sites.
    hosts: Option<TracedHosts>,
    /// Whether lines are in order within each host alone.
    is_by_host: bool,
    /// Whether the pool is at rest only at `rest` lines and at the end.
    rests_alone: bool,
    /// How many lines were read.
    line: u64,
    /// The last event that was taken: its line, and its text.
    last_line: u64,
    last_text: Vec<u8>,
    events: u64,
    passed_by: u64,
    has_waits: bool,
    findings: Vec<Finding>,
}

impl Model for Audit {
    ghost use Rattle.std.specs.Prelude.{length};
    ghost use Rattle.audit.specs.Audits.{Audited, Counts};

    ghost Value = { Audited };

    ghost view = { λ audit. record {
      limits = audit.limits;
      sites = length audit.sites;
      hosts = audit.hosts;
      found = length audit.findings.items;
      counts = record {
        lines = audit.line;
        events = audit.events;
        passed_by = audit.passed_by;
        has_waits = audit.has_waits;
      };
    } };
}

/// The words of a line, one space between.
fn words_of(alloc: Global, line: &[u8]) -> Result<String, AllocError> {
    let mut words = Vec::new(alloc);
    let mut rest = line;
    while let Some((word, others)) = first_word(rest) {
        if !words.is_empty() {
            words.push(b' ')?;
        }
        words.extend_from_slice(word)?;
        rest = others;
    }
    String::from_utf8_lossy(alloc, words.as_slice())
}

/// Whether an event is a limit that no host can have.
fn is_bad_limit(event: &TracedEvent) -> bool {
    match *event {
        TracedEvent::Limit { limit } => limit > GREATEST_LIMIT,
        _ => false,
    }
}

/// Whether an event says that a transfer waits.
fn is_wait(event: &TracedEvent) -> bool
    ensures { result ≡ is_wait event.now }
{
    matches!(*event, TracedEvent::Waited { .. })
}

/// Reads an event at its host.
fn read_in(
    hosts: &mut Option<TracedHosts>,
    traced: &Traced,
    line: u64,
) -> Result<Outcome, AuditFault>
    requires { IsSome hosts.old }
    ensures { IfOk result (λ outcome. Comes traced.now outcome hosts.old hosts.new) }
{
    match hosts {
        Some(hosts) => hosts.read(traced, line),
        None => Err(AuditFault::NoSuchSite),
    }
}

impl Audit {
    /// An audit before the first line. The only error is an allocation failure.
    pub fn new(alloc: Global) -> Result<Audit, AuditFault>
        ensures ok { IfOk result (λ audit. audit ≡ not_begun) }
        ensures err { IfErr result (λ fault. fault ≡ AuditFault.Memory) }
    {
        let Ok(sites) = Sites::new(alloc) else {
            return Err(AuditFault::Memory);
        };
        Ok(Audit {
            alloc,
            limits: None,
            sites,
            hosts: None,
            is_by_host: false,
            rests_alone: false,
            line: 0,
            last_line: 0,
            last_text: Vec::new(alloc),
            events: 0,
            passed_by: 0,
            has_waits: false,
            findings: Vec::new(alloc),
        })
    }

    /// The violations found so far, in the order in which they show.
    pub fn findings(&self) -> &[Finding]
        ensures { length result.now ≡ self.now.found }
    {
        self.findings.as_slice()
    }

    /// Hands out the violations found since the last call, in the order in which they show.
    pub fn take_findings(&mut self) -> Vec<Finding>
        ensures taken { length result.items ≡ self.old.found }
        ensures left { self.new ≡ record self.old { found = 0 } }
    {
        mem::replace(&mut self.findings, Vec::new(self.alloc))
    }

    /// The open connections of a host, first opened first, and its waiters, first in, first out.
    /// The only error is an allocation failure.
    pub fn state_of(&self, host: u32) -> Result<String, AllocError> {
        match &self.hosts {
            Some(hosts) => hosts.state_of(self.alloc, host),
            None => Ok(String::new(self.alloc)),
        }
    }

    /// How many lines were read.
    pub fn line(&self) -> u64
        ensures { result ≡ self.now.counts.lines }
    {
        self.line
    }

    /// How many lines were events.
    pub fn events(&self) -> u64
        ensures { result ≡ self.now.counts.events }
    {
        self.events
    }

    /// How many lines were of connections whose opening was not taken.
    pub fn passed_by(&self) -> u64
        ensures { result ≡ self.now.counts.passed_by }
    {
        self.passed_by
    }

    /// Whether any line told of a wait.
    pub fn has_waits(&self) -> bool
        ensures { result ≡ self.now.counts.has_waits }
    {
        self.has_waits
    }

    /// How many hosts there are.
    pub fn hosts(&self) -> usize
        ensures { result ≡ self.now.sites }
    {
        self.sites.len()
    }

    /// How many connections are open, those that have to be closed among them.
    pub fn open_len(&self) -> u64
        ensures { result ≡ open_in self.now.hosts }
    {
        match &self.hosts {
            Some(hosts) => hosts.monitor.open_len(),
            None => 0,
        }
    }

    /// Reads one more line, without its line end. An event that breaks a rule changes nothing.
    ///
    /// The errors say why the trace can't be read on: [`AuditFault::Line`] if the line is none of a
    /// trace, stands in a wrong place, or has bad limits or a bad site; those of events; and
    /// [`AuditFault::Memory`].
    pub fn read(&mut self, line: &[u8]) -> Result<(), AuditFault>
        ensures line { OnOk result
            (ReadsLine (trace_reading line.now) (with_line self.old) self.new) }
        ensures unread { IfErr (trace_reading line.now)
            (λ kind. result ≡ Err (AuditFault.Line kind)) }
    {
        self.line = self.line.saturating_add(1);
        let Some(said) = read_line(line)? else {
            return Ok(());
        };
        match said {
            Line::OrderHost => self.order_by_host(),
            Line::Command(command) => self.read_command(command),
            Line::Event(traced) => {
                self.begin(false)?;
                self.read_event(&traced, line)
            }
            Line::Rest => {
                self.begin(true)?;
                self.rest()
            }
        }
    }

    /// Judges the pool at the end of the trace.
    pub fn end(&mut self) -> Result<(), AuditFault>
        ensures { KeepsLogs self.old self.new }
    {
        let mut found = Vec::new(self.alloc);
        if let Some(hosts) = &mut self.hosts {
            hosts.rest(&mut found)?;
        }
        self.tell_at_rest(found.as_slice())
    }

    /// Reads a command of a script.
    fn read_command(&mut self, command: Command<'_>) -> Result<(), AuditFault>
        ensures { OnOk result (ReadsOther self.old self.new) }
    {
        match command {
            Command::Limits(limits) => self.set_limits(limits.host, limits.total, limits.kept),
            Command::Site(word) => self.add_site(&word),
            Command::Ask(HostCommand::At { site, action }) => {
                self.begin(false)?;
                self.rest_before(Some(site))?;
                self.ask(site, action)
            }
            Command::Ask(HostCommand::Prune { .. } | HostCommand::Upkeep) => {
                self.begin(false)?;
                self.rest_before(None)
            }
        }
    }

    /// `order host`: before all others.
    fn order_by_host(&mut self) -> Result<(), AuditFault>
        ensures { KeepsLogs self.old self.new }
    {
        if self.is_by_host || self.limits.is_some() {
            return Err(AuditFault::Line(FaultKind::Place));
        }
        self.is_by_host = true;
        Ok(())
    }

    /// `limits`: once, before all sites.
    fn set_limits(&mut self, host: u32, total: u32, kept: u32) -> Result<(), AuditFault>
        ensures { KeepsLogs self.old self.new }
    {
        if self.limits.is_some() {
            return Err(AuditFault::Line(FaultKind::Place));
        }
        match Limits::new(host, total, kept) {
            Ok(limits) => {
                self.limits = Some(limits);
                Ok(())
            }
            Err(_) => Err(AuditFault::Line(FaultKind::BadLimits)),
        }
    }

    /// `site`: after the limits, before all others.
    fn add_site(&mut self, word: &SiteWord<'_>) -> Result<(), AuditFault>
        ensures { KeepsLogs self.old self.new }
    {
        if self.limits.is_none() || self.hosts.is_some() {
            return Err(AuditFault::Line(FaultKind::Place));
        }
        let target = match word.target(&mut CountedMemory::new(self.alloc)) {
            Ok(target) => target,
            Err(FaultKind::Memory) => return Err(AuditFault::Memory),
            Err(kind) => return Err(AuditFault::Line(kind)),
        };
        match self.sites.add(&target) {
            Ok(_) => Ok(()),
            Err(SitesFault::TooMany) => Err(AuditFault::Line(FaultKind::TooManySites)),
            Err(SitesFault::Memory) => Err(AuditFault::Memory),
        }
    }

    /// Makes the hosts, at the first line after the sites, which may be `rest`.
    fn begin(&mut self, is_rest: bool) -> Result<(), AuditFault>
        ensures { OnOk result (Begins self.old self.new) }
    {
        let Some(limits) = self.limits else {
            return Err(AuditFault::Line(FaultKind::Place));
        };
        if self.hosts.is_some() {
            return Ok(());
        }
        let hosts = TracedHosts::new(self.alloc, limits, self.sites.len() as u32)?;
        self.hosts = Some(hosts);
        self.rests_alone = is_rest;
        Ok(())
    }

    /// Reads an event, and takes it if it breaks no rule.
    fn read_event(&mut self, traced: &Traced, line: &[u8]) -> Result<(), AuditFault>
        requires there { IsSome self.old.hosts }
        ensures { OnOk result (ReadsEvent traced.now self.old self.new) }
    {
        if is_bad_limit(&traced.event) {
            return Err(AuditFault::Line(FaultKind::BadLimits));
        }
        let outcome = read_in(&mut self.hosts, traced, self.line)?;
        self.events = self.events.saturating_add(1);
        self.has_waits = self.has_waits || is_wait(&traced.event);
        match outcome {
            Outcome::Taken => self.note_last(line),
            Outcome::HeldBack => self.note_last(line),
            Outcome::PassedBy => {
                self.passed_by = self.passed_by.saturating_add(1);
                Ok(())
            }
            Outcome::Broken(broken) => {
                let event = words_of(self.alloc, line)?;
                self.tell(self.line, event, broken)
            }
        }
    }

    /// Notes the event that was taken last.
    fn note_last(&mut self, line: &[u8]) -> Result<(), AuditFault>
        ensures { self.new ≡ self.old }
    {
        self.last_line = self.line;
        self.last_text.clear();
        self.last_text.extend_from_slice(line)?;
        Ok(())
    }

    /// Tells a violation.
    fn tell(&mut self, line: u64, event: String, broken: Broken) -> Result<(), AuditFault>
        ensures ok { OnOk result (self.new
            ≡ record self.old { found = self.old.found + 1 }) }
        ensures kept { KeepsLogs self.old self.new }
    {
        let finding = Finding {
            line,
            event,
            broken,
        };
        match self.findings.push(finding) {
            Ok(()) => Ok(()),
            Err(_) => Err(AuditFault::Memory),
        }
    }

    /// Tells the violations of a pool at rest, at the last event that was taken.
    fn tell_at_rest(&mut self, found: &[Broken]) -> Result<(), AuditFault>
        ensures { KeepsLogs self.old self.new }
    {
        for broken in found {
            let event = words_of(self.alloc, self.last_text.as_slice())?;
            self.tell(self.last_line, event, *broken)?;
        }
        Ok(())
    }

    /// Judges the pool at a `rest` line: all of it, or each host for itself.
    fn rest(&mut self) -> Result<(), AuditFault>
        ensures { KeepsLogs self.old self.new }
    {
        let mut found = Vec::new(self.alloc);
        if let Some(hosts) = &mut self.hosts {
            if self.is_by_host {
                hosts.rest_of_each(&mut found)?;
            } else {
                hosts.rest(&mut found)?;
            }
        }
        self.tell_at_rest(found.as_slice())
    }

    /// Judges the pool before a command, of one site or of all.
    fn rest_before(&mut self, site: Option<u32>) -> Result<(), AuditFault>
        ensures { KeepsLogs self.old self.new }
    {
        if self.rests_alone {
            return Ok(());
        }
        if !self.is_by_host {
            return self.rest();
        }
        let mut found = Vec::new(self.alloc);
        if let (Some(hosts), Some(site)) = (&mut self.hosts, site) {
            hosts.rest_at(site, &mut found)?;
        }
        self.tell_at_rest(found.as_slice())
    }

    /// Notes the want or the ending that a command hands in.
    fn ask(&mut self, site: u32, action: Action) -> Result<(), AuditFault>
        ensures { KeepsLogs self.old self.new }
    {
        let Some(hosts) = &mut self.hosts else {
            return Ok(());
        };
        match action {
            Action::Get { want, .. } => hosts.note_asked(site, want)?,
            Action::Back {
                transfer,
                ending,
                ..
            } => hosts.note_given(site, transfer, ending)?,
            _ => {}
        }
        Ok(())
    }
}
