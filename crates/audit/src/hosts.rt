//! All hosts of a trace: their logs, as they are judged, and what is known of each beside its log.

ghost use Rattle.std.specs.Prelude.{◌≡◌, ◌<◌, ◌≤◌, length, None, Err, OnOk, OnErr};
ghost use Rattle.std.specs.Prelude.{IfOk, IfErr, IfSome, IfNone};
ghost use Rattle.log_judge.specs.AllHosts.{begun_hosts, host_at};
ghost use Rattle.audit.specs.Events.{entry_at, breach_of, and_behind, IsTaken, AreLegal};
ghost use Rattle.audit.specs.Outcomes.{IsOutcome, ComesOf};

use crate::fault::AuditFault;
use crate::finding::Broken;
use crate::host::TracedHost;
use crate::judging::{Case, beside_log, close_behind, event_of};
use crate::rule::Rule;
use budget::Limits;
use conn_log::{Entry, Event, Want};
use log_judge::{Fault, Monitor, Violation};
use script_text::Ending;
use std::alloc::{AllocError, Global};
use std::marker::Model;
use trace_text::Traced;

/// What came of an event.
#[derive(Clone, Copy)]
pub(crate) enum Outcome {
    /// It was taken.
    Taken,
    /// It is a return that is held back until its connection is closed.
    HeldBack,
    /// It is of a connection whose opening was not taken.
    PassedBy,
    /// It breaks that rule, and changed nothing.
    Broken(Broken),
}

/// Why an event is not taken.
#[derive(Clone, Copy)]
pub(crate) enum Breach {
    /// It breaks a rule of its host's log.
    InLog(Violation),
    /// It breaks a rule that a log can't tell of.
    Beside(Rule),
}

/// The events of a log that an event of a trace becomes.
#[derive(Clone, Copy)]
pub(crate) struct LogEvents {
    pub site: u32,
    pub moment: u64,
    /// The event of the host's log.
    pub event: Event,
    /// The close that the log owes behind it.
    pub owed_close: Option<Event>,
    /// The rule that it breaks and that the log cannot tell of.
    pub extra_rule: Option<Rule>,
}

/// The hosts of a trace by their indices.
#[derive(Drop)]
pub(crate) struct TracedHosts {
    pub monitor: Monitor,
    pub tables: Vec<TracedHost>,
    /// Whether the last rest found anything unsettled, the total limit exceeded, the kept limit.
    pub was_unsettled: bool,
    pub told_total: bool,
    pub told_kept: bool,
}

impl Model for TracedHosts {
    ghost use Rattle.std.specs.Prelude.{◌≡◌, length};
    ghost use Rattle.log_judge.specs.AllHosts.{AllHosts};
    ghost use Rattle.audit.specs.Events.{AreKept};

    ghost Value = { AllHosts };

    ghost view = { λ hosts. hosts.monitor };

    ghost invariant = { λ hosts. AreKept hosts.monitor (length hosts.tables.items) };
}

impl TracedHosts {
    /// So many hosts of which nothing is known.
    pub(crate) fn new(alloc: Global, limits: Limits, count: u32) -> Result<TracedHosts, AllocError>
        ensures { IfOk result (λ hosts. hosts ≡ begun_hosts limits count) }
    {
        let monitor = Monitor::new(alloc, limits, count)?;
        let mut tables = Vec::with_capacity(alloc, count as usize)?;
        for _ in 0..count {
            tables.push(TracedHost::new(alloc))?;
        }
        Ok(TracedHosts {
            monitor,
            tables,
            was_unsettled: false,
            told_total: false,
            told_kept: false,
        })
    }

    /// Keeps what a transfer asked for, if the site is there.
    pub(crate) fn note_asked(&mut self, site: u32, want: Want) -> Result<(), AllocError>
        ensures { self.new ≡ self.old }
    {
        if let Some(tables) = self.tables.get_mut(site as usize) {
            let _ = tables.asked.insert(want.transfer, want)?;
        }
        Ok(())
    }

    /// Keeps how a transfer's response ended, if the site is there.
    pub(crate) fn note_given(
        &mut self,
        site: u32,
        transfer: u64,
        ending: Ending,
    ) -> Result<(), AllocError>
        ensures { self.new ≡ self.old }
    {
        if let Some(tables) = self.tables.get_mut(site as usize) {
            let _ = tables.given.insert(transfer, ending)?;
        }
        Ok(())
    }

    /// Reads an event that stands at that line, and takes it if it breaks no rule.
    ///
    /// [`AuditFault::NoSuchSite`] exactly if the host isn't there.
    pub(crate) fn read(&mut self, traced: &Traced, line: u64) -> Result<Outcome, AuditFault>
        ensures outcome { IfOk result (λ outcome.
            ComesOf traced.now outcome self.old self.new) }
        ensures no_site { length self.old.hosts ≤ traced.now.host
            → result ≡ Err AuditFault.NoSuchSite }
        ensures err { OnErr result (length self.new.hosts ≡ length self.old.hosts) }
    {
        let Some(tables) = self.tables.get_mut(traced.host as usize) else {
            return Err(AuditFault::NoSuchSite);
        };
        read_at(&mut self.monitor, tables, traced, line)
    }
}

/// Reads an event at a host that is there.
fn read_at(
    monitor: &mut Monitor,
    tables: &mut TracedHost,
    traced: &Traced,
    line: u64,
) -> Result<Outcome, AuditFault>
    requires there { traced.now.host < length monitor.old.hosts }
    ensures outcome { IfOk result (λ outcome.
        IsOutcome tables.old traced.now outcome monitor.old monitor.new) }
    ensures legal { AreLegal monitor.old → AreLegal monitor.new }
    ensures count { length monitor.new.hosts ≡ length monitor.old.hosts }
{
    let event = &traced.event;
    if tables.passes_by(event) {
        tables.note_passed(event);
        return Ok(Outcome::PassedBy);
    }
    let known = tables.connection_of(event);
    let want = tables.judged_want(traced, known)?;
    if let Some(ended) = tables.end_of(event, known) {
        tables.note_ended(event, ended, line);
        return Ok(Outcome::HeldBack);
    }
    let next = tables.next();
    let events = LogEvents {
        site: traced.host,
        moment: traced.moment,
        event: event_of(event, known, next, want),
        owed_close: close_behind(event, known),
        extra_rule: beside_log(traced.host, event, known),
    };
    match take(monitor, &events)? {
        Some(breach) => {
            let case = Case {
                traced,
                tables,
                known,
                want,
            };
            let broken = case.broken(breach);
            tables.note_broken(event)?;
            Ok(Outcome::Broken(broken))
        }
        None => {
            tables.note(traced, want, line)?;
            Ok(Outcome::Taken)
        }
    }
}

/// Takes the events that an event of a trace becomes, if it breaks no rule, or tells why not.
fn take(monitor: &mut Monitor, events: &LogEvents) -> Result<Option<Breach>, AuditFault>
    requires there { events.now.site < length monitor.old.hosts }
    ensures breach { let e = entry_at events.now.moment events.now.event in
        IfOk result (λ breach. breach
        ≡ breach_of (host_at monitor.old events.now.site) e events.now.extra_rule) }
    ensures taken { IfOk result (λ breach. IfNone breach
        (IsTaken events.now.site events.now.moment events.now.event events.now.owed_close
        monitor.old monitor.new)) }
    ensures refused { IfOk result (λ breach. IfSome breach (λ _. monitor.new ≡ monitor.old)) }
    ensures memory { IfErr result (λ fault. fault ≡ AuditFault.Memory) }
    ensures legal { AreLegal monitor.old → AreLegal monitor.new }
    ensures count { length monitor.new.hosts ≡ length monitor.old.hosts }
{
    let entry = Entry {
        moment: events.moment,
        event: events.event,
    };
    match events.extra_rule {
        Some(rule) => Ok(Some(match monitor.host(events.site).first_broken(&entry) {
            Some(violation) => Breach::InLog(violation),
            None => Breach::Beside(rule),
        })),
        None => match monitor.step(events.site, entry) {
            Ok(()) => take_owed_close(monitor, events),
            Err(Fault::Broken(violation)) => Ok(Some(Breach::InLog(violation))),
            Err(Fault::Memory) => Err(AuditFault::Memory),
        },
    }
}

/// Takes the close that follows an event that was taken.
fn take_owed_close(monitor: &mut Monitor, events: &LogEvents) -> Result<Option<Breach>, AuditFault>
    requires there { events.now.site < length monitor.old.hosts }
    ensures taken { OnOk result (monitor.new ≡ and_behind events.now.site events.now.moment
        events.now.owed_close monitor.old) }
    ensures none { IfOk result (λ breach. breach ≡ None) }
    ensures memory { IfErr result (λ fault. fault ≡ AuditFault.Memory) }
    ensures legal { AreLegal monitor.old → AreLegal monitor.new }
    ensures count { length monitor.new.hosts ≡ length monitor.old.hosts }
{
    let Some(event) = events.owed_close else {
        return Ok(None);
    };
    let moment = events.moment;
    match monitor.step(events.site, Entry { moment, event }) {
        Ok(()) => Ok(None),
        // It is the close that is owed, and needs no memory.
        Err(_) => Err(AuditFault::Memory),
    }
}
