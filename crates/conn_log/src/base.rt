//! What a log still knows of the entries that were cut away.

ghost use Rattle.std.specs.Prelude.{◌≡◌, ℕ, ◌+◌, ◌-◌, ◌<◌, ◌^◌, length, reverse, IfOk, OnOk};
ghost use Rattle.conn_log.specs.Bases.{Summary, base_after, lead, nothing_cut};
ghost use Rattle.conn_log.specs.Counts.{CountsWithin};

use crate::counts::Counts;
use crate::entry::{Entry, Event, Want};
use crate::still_waiting::waiting_since;
use persistence::Facts;
use std::alloc::{AllocError, Global};
use std::collections::BTreeMap;
use std::marker::Model;
use std::mem::size_of_val;

/// What is known of a connection that is open.
#[derive(Clone, Copy, Debug, PartialEq, Eq)]
pub struct OpenConnection {
    /// The lane for which it was opened.
    pub lane: u32,
    /// The moment in which it was opened, in seconds.
    pub born: u64,
    /// The moment in which it last came back, in seconds; 0 before it did.
    pub since: u64,
    /// The facts with which it last came back.
    pub facts: Option<Facts>,
    /// What the transfer that holds it wanted.
    pub holder: Option<Want>,
}

/// What a log still knows of the entries that were cut away: all that later ones can depend on.
#[derive(Debug, Drop)]
pub struct Base {
    connections: BTreeMap<u32, OpenConnection>,
    // The newest first.
    waiting: Vec<Want>,
    greatest: u32,
    last_moment: u64,
    limit: Option<u32>,
    counts: Counts,
}

impl Model for Base {
    ghost use Rattle.std.specs.Prelude.{reverse};
    ghost use Rattle.conn_log.specs.Bases.{Summary};

    ghost Value = { Summary };

    ghost view = { λ base. record {
      connections = base.connections.entries;
      waiting = reverse base.waiting.items;
      greatest = base.greatest;
      last_moment = base.last_moment;
      limit = base.limit;
      counts = base.counts;
    } };
}

impl Base {
    /// Nothing was cut away.
    pub(crate) fn new(alloc: Global) -> Base
        ensures { result ≡ nothing_cut }
    {
        Base {
            connections: BTreeMap::new(alloc),
            waiting: Vec::new(alloc),
            greatest: 0,
            last_moment: 0,
            limit: None,
            counts: Counts::of(&[]),
        }
    }

    /// The base after these entries, oldest first.
    pub(crate) fn lead(&self, rest: &[Entry]) -> Result<Base, AllocError>
        requires { CountsWithin (2 ^ 64 - 1 - length rest.now) self.now.counts }
        ensures { IfOk result (λ base. base ≡ lead self.now (reverse rest.now)) }
    {
        let mut base = Base {
            connections: self.connections.clone()?,
            waiting: waiting_since(&self.waiting, rest)?,
            greatest: self.greatest,
            last_moment: self.last_moment,
            limit: self.limit,
            counts: self.counts.with(&Counts::of(rest)),
        };
        for entry in rest {
            base.add(entry)?;
        }
        Ok(base)
    }

    // One more entry, of which the wants that wait and the counts are told already.
    fn add(&mut self, entry: &Entry) -> Result<(), AllocError>
        ensures { OnOk result (self.new ≡ record (base_after entry.now self.old) {
          waiting = self.old.waiting;
          counts = self.old.counts;
        }) }
    {
        match entry.event {
            Event::Opened { connection, want } => {
                let opened = OpenConnection {
                    lane: want.lane,
                    born: entry.moment,
                    since: 0,
                    facts: None,
                    holder: Some(want),
                };
                let _ = self.connections.insert(connection, opened)?;
                self.greatest = self.greatest.max(connection);
            }
            Event::Leased { connection, want } => {
                if let Some(leased) = self.connections.get_mut(&connection) {
                    leased.holder = Some(want);
                }
            }
            Event::Returned { connection, facts } => {
                if let Some(returned) = self.connections.get_mut(&connection) {
                    returned.since = entry.moment;
                    returned.facts = Some(facts);
                    returned.holder = None;
                }
            }
            Event::Closed { connection, .. } => {
                let _ = self.connections.remove(&connection);
            }
            Event::Limit { limit } => self.limit = Some(limit),
            Event::Waited { .. } | Event::Left { .. } => {}
        }
        self.last_moment = entry.moment;
        Ok(())
    }

    /// The connections that are open, by their numbers.
    pub fn connections(&self) -> &BTreeMap<u32, OpenConnection>
        ensures { result.now.entries ≡ self.now.connections }
    {
        &self.connections
    }

    /// The wants that wait, the one that came last first.
    pub fn waiting(&self) -> &[Want]
        ensures wants { reverse result.now ≡ self.now.waiting }
        ensures few { length result.now < 2 ^ 63 }
    {
        let _bytes = size_of_val(&self.waiting[..]);
        &self.waiting
    }

    /// The greatest connection number used; 0 before any is used.
    pub fn greatest(&self) -> u32
        ensures { result ≡ self.now.greatest }
    {
        self.greatest
    }

    /// The moment of the last entry, in seconds; 0 before any.
    pub fn last_moment(&self) -> u64
        ensures { result ≡ self.now.last_moment }
    {
        self.last_moment
    }

    /// The limit to which the host's limit was changed last, if it was.
    pub fn limit(&self) -> Option<u32>
        ensures { result ≡ self.now.limit }
    {
        self.limit
    }

    /// How many entries of each kind there were.
    pub fn counts(&self) -> Counts
        ensures { result ≡ self.now.counts }
    {
        self.counts
    }
}
