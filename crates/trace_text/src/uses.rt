//! Who uses the connections of a host, and who waits there.

ghost use Rattle.std.specs.Prelude.{◌≡◌, ◌==◌, [], OnOk, map, option_map};
ghost use Rattle.std.specs.List.{list_any};
ghost use Rattle.conn_log.specs.declared.entry.Want.{Want};
ghost use Rattle.conn_log.specs.Connections.{holdings_after, want_among};
ghost use Rattle.conn_log.specs.Waiting.{waiting_after, without};
ghost use Rattle.trace_text.specs.HostUses.{AreUsesOf, holding_of};

use conn_log::{Event, Want};
use std::alloc::{AllocError, Global};

/// A transfer that holds a connection.
#[derive(Clone, Copy)]
pub(crate) struct Held {
    connection: u32,
    want: Want,
}

/// Who uses the connections of a host, and who waits there, as far as its log was read.
#[derive(Drop)]
pub(crate) struct Uses {
    /// The one that started last comes first.
    held: Vec<Held>,
    /// The one that came first comes first.
    waiting: Vec<Want>,
}

impl Uses {
    /// Nobody yet.
    pub(crate) fn new(alloc: Global) -> Uses
        ensures { AreUsesOf [] result }
    {
        Uses {
            held: Vec::new(alloc),
            waiting: Vec::new(alloc),
        }
    }

    /// The transfer that holds the connection.
    pub(crate) fn holder(&self, connection: u32) -> Option<u64>
        ensures { result ≡ option_map (λ (want : Want). want.transfer)
            (want_among (map holding_of self.now.held.items) connection) }
    {
        match self.held.iter().find(|held| held.connection == connection) {
            Some(held) => Some(held.want.transfer),
            None => None,
        }
    }

    /// Whether the transfer waits.
    pub(crate) fn waits(&self, transfer: u64) -> bool
        ensures { result ≡ list_any (λ (want : Want). want.transfer == transfer)
            self.now.waiting.items }
    {
        self.waiting.iter().any(|want| want.transfer == transfer)
    }

    /// Takes the next event of the log.
    pub(crate) fn add(&mut self, event: Event) -> Result<(), AllocError>
        ensures held { OnOk result (map holding_of self.new.held.items
            ≡ holdings_after event (map holding_of self.old.held.items)) }
        ensures waiting { OnOk result (self.new.waiting.items
            ≡ waiting_after event self.old.waiting.items) }
    {
        match event {
            Event::Opened { connection, want } | Event::Leased { connection, want } => {
                self.end_wait(want.transfer);
                self.held.insert(0, Held { connection, want })?;
            }
            Event::Returned { connection, .. } | Event::Closed { connection, .. } => {
                self.held.retain(|held| held.connection != connection);
            }
            Event::Waited { want } => self.waiting.push(want)?,
            Event::Left { transfer } => self.end_wait(transfer),
            Event::Limit { .. } => {}
        }
        Ok(())
    }

    // That transfer waits no more.
    fn end_wait(&mut self, transfer: u64)
        ensures waiting { self.new.waiting.items ≡ without transfer self.old.waiting.items }
        ensures held { self.new.held ≡ self.old.held }
    {
        self.waiting.retain(|want| want.transfer != transfer);
    }
}
