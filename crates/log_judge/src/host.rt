ghost use Rattle.std.specs.Prelude.{◌≡◌, ◌<◌, ◌^◌, ◌∷◌, [], None, IfOk, IfErr, OnOk, OnErr};
ghost use Rattle.conn_log.specs.Legal.{IsLegal};
ghost use Rattle.log_judge.specs.Rules.{first_broken, violation_of};
ghost use Rattle.log_judge.specs.Tables.{HostLog};
ghost use Rattle.log_judge.specs.Tables.{open_at, idle_at, limit_at, first_waiter, IsSmall};

use crate::due::Due;
use crate::judging::of_event;
use crate::rules::{earlier, of_owed};
use crate::tables::Tables;
use crate::taking::take_event;
use crate::violation::{Fault, Violation};
use conn_log::{Entry, Want};
use std::alloc::{AllocError, Global};
use std::marker::Model;

/// Judges the log of one host entry by entry, as it comes. It keeps what is open and what waits,
/// and no entry; contracts see the whole log.
///
/// Connections are numbered from 1 in the order in which they are opened.
#[derive(Drop)]
pub struct HostMonitor {
    // They leave out a return whose close is due.
    tables: Tables,
    due: Option<Due>,
}

impl Model for HostMonitor {
    ghost use Rattle.log_judge.specs.Tables.{HostLog, IfDue, shown};

    ghost Value = { HostLog };

    ghost view = { λ host. shown host.tables host.due };

    ghost invariant = { λ host. IfDue host.due host.tables.log };
}

impl HostMonitor {
    /// A host without connections, of which at most `limit` may be open. The only error is an
    /// allocation failure.
    pub fn new(alloc: Global, limit: u32) -> Result<HostMonitor, AllocError>
        ensures { IfOk result (λ host.
            host ≡ record { settings = record { limit = limit; first = 1 }; log = [] }) }
    {
        let tables = Tables::new(alloc, limit)?;
        Ok(HostMonitor { tables, due: None })
    }

    /// The first rule that an entry would break, in the order of the rules, if any.
    pub fn first_broken(&self, entry: &Entry) -> Option<Violation>
        ensures { result ≡ first_broken self.now.settings self.now.log entry.now }
    {
        let last = self.tables.last_moment();
        match self.due {
            Some(due) => {
                let rule = of_owed(due.connection, due.cause, &entry.event);
                earlier(due.moment, entry.moment).or(rule)
            }
            None => {
                let rule = of_event(&self.tables, entry.moment, &entry.event);
                earlier(last, entry.moment).or(rule)
            }
        }
    }

    /// Takes one more entry if the log with it is legal. It costs what a look into a table of the
    /// open connections costs.
    ///
    /// The error is [`Fault::Broken`] with the first rule that the entry breaks, and
    /// [`Fault::Memory`] if it breaks none and an allocation failed; then nothing has changed.
    pub fn step(&mut self, entry: Entry) -> Result<(), Fault>
        ensures ok { OnOk result (self.new ≡ record self.old { log = entry ∷ self.old.log }) }
        ensures legal { OnOk result (IsLegal self.old.settings (entry ∷ self.old.log)) }
        ensures fault { IfErr result (λ fault.
            first_broken self.old.settings self.old.log entry ≡ violation_of fault) }
        ensures err { OnErr result (self.new ≡ self.old) }
    {
        if let Some(violation) = self.first_broken(&entry) {
            return Err(Fault::Broken(violation));
        }
        match self.take(entry) {
            Ok(()) => Ok(()),
            Err(_) => Err(Fault::Memory),
        }
    }

    // Takes an entry that breaks no rule.
    fn take(&mut self, entry: Entry) -> Result<(), AllocError>
        requires { first_broken self.old.settings self.old.log entry ≡ None }
        ensures ok { OnOk result (self.new ≡ record self.old { log = entry ∷ self.old.log }) }
        ensures legal { OnOk result (IsLegal self.old.settings (entry ∷ self.old.log)) }
        ensures err { OnErr result (self.new ≡ self.old) }
    {
        // It tells that the log is sound, if no close is due.
        let _before = self.tables.last_moment();
        match self.due {
            Some(due) => {
                self.due = None;
                self.tables.end(due, entry.moment);
                // It tells that the log is sound with both entries.
                let _after = self.tables.last_moment();
                Ok(())
            }
            None => {
                self.due = take_event(&mut self.tables, entry.moment, entry.event)?;
                let _after = self.tables.last_moment();
                Ok(())
            }
        }
    }

    /// How many connections are open.
    pub fn open_len(&self) -> u64
        ensures count { result ≡ open_at self.now }
        ensures few { IsSmall self.now }
    {
        self.tables.open_len()
    }

    /// How many connections are idle. One that came back to be closed is among them.
    pub fn idle_len(&self) -> u64
        ensures count { result ≡ idle_at self.now }
        ensures few { idle_at self.now < 2 ^ 32 }
    {
        let count = self.tables.idle_len();
        // No more are idle than open.
        let _open = self.open_len();
        let _sound = self.tables.last_moment();
        match self.due {
            Some(_) => count + 1,
            None => count,
        }
    }

    /// The most connections that may be open.
    pub fn limit(&self) -> u32
        ensures { result ≡ limit_at self.now }
    {
        self.tables.limit()
    }

    /// What the first waiter wants, if anyone waits.
    pub fn first_waiter(&self) -> Option<Want>
        ensures { result ≡ first_waiter self.now }
    {
        self.tables.first_waiter()
    }
}
