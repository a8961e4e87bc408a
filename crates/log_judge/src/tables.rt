ghost use Rattle.std.specs.Prelude.{◌≡◌, ℕ, ◌+◌, ◌≤◌, ◌<◌, ◌^◌, [], length, slice_get, true};
ghost use Rattle.std.specs.Prelude.{IfOk, OnOk, OnErr, IfSome, IfNone, IsSome};
ghost use Rattle.conn_log.specs.declared.entry.Event.TheVariants.{Opened, Leased, Returned, Closed};
ghost use Rattle.conn_log.specs.declared.entry.Event.TheVariants.{Waited, Left, Limit};
ghost use Rattle.conn_log.specs.Connections.{last_moment, opened, greatest, open_connections};
ghost use Rattle.conn_log.specs.Connections.{holder_want, held_number, idle_connections};
ghost use Rattle.conn_log.specs.Waiting.{waiting, waits};
ghost use Rattle.conn_log.specs.Legal.{limit_in_force, MayOpen, MayLease, MayClose, MayWait};
ghost use Rattle.conn_log.specs.Sound.{IsSound};
ghost use Rattle.log_judge.specs.Rules.{known_at};
ghost use Rattle.log_judge.specs.Tables.{HostLog, with_entry, Stays, IsDue, entry_of};

use crate::connections::{note_leased, note_opened, note_returned};
use crate::due::{Due, ending_cause, ends_use};
use crate::held::{hold, let_go_of, make_room};
use crate::taken::Taken;
use crate::waiters::Waiters;
use conn_log::{Cause, Entry, Event, OpenConnection, Want};
use persistence::Facts;
use std::alloc::{AllocError, Global};
use std::collections::{BTreeMap, HashMap};
use std::marker::Model;

/// The tables of one host whose log owes no close. Each step takes an entry that the log allows.
#[derive(Drop)]
pub(crate) struct Tables {
    first_limit: u32,
    limit: u32,
    greatest: u32,
    connections: BTreeMap<u32, OpenConnection>,
    // The number of the connection that each transfer holds.
    held: HashMap<u64, u32>,
    waiters: Waiters,
    log: Taken,
}

impl Model for Tables {
    ghost use Rattle.std.specs.Prelude.{nat_eq};
    ghost use Rattle.std.specs.HashMap.{get, hash_map_len};
    ghost use Rattle.log_judge.specs.Tables.{HostLog, Follows};

    ghost Value = { HostLog };

    ghost view = { λ tables. record {
      settings = record { limit = tables.first_limit; first = 1 };
      log = tables.log;
    } };

    ghost invariant = { λ tables.
        Follows (record { limit = tables.first_limit; first = 1 }) tables.log
        tables.connections.entries (get nat_eq tables.held) (hash_map_len tables.held)
        tables.waiters tables.greatest tables.limit };
}

impl Tables {
    /// A host without connections.
    pub(crate) fn new(alloc: Global, limit: u32) -> Result<Tables, AllocError>
        ensures { IfOk result (λ tables.
            tables ≡ record { settings = record { limit = limit; first = 1 }; log = [] }) }
    {
        let waiters = Waiters::new(alloc)?;
        Ok(Tables {
            first_limit: limit,
            limit,
            greatest: 0,
            connections: BTreeMap::new(alloc),
            held: HashMap::new(alloc),
            waiters,
            log: Taken::new(),
        })
    }

    /// The moment of the last entry.
    pub(crate) fn last_moment(&self) -> u64
        ensures last { result ≡ last_moment self.now.log }
        ensures sound { IsSound self.now.settings self.now.log }
    {
        self.log.last_moment()
    }

    /// What is known of that connection, if it is open.
    pub(crate) fn known(&self, connection: u32) -> Option<OpenConnection>
        ensures { result ≡ known_at self.now.log connection }
    {
        self.connections.get(&connection).copied()
    }

    // What the transfer that holds the connection wanted, if one does.
    fn holder(&self, connection: u32) -> Option<Want>
        ensures { result ≡ holder_want self.now.log connection }
    {
        let _sound = self.last_moment();
        match self.known(connection) {
            Some(known) => known.holder,
            None => None,
        }
    }

    /// The connection that the transfer holds, if it holds one.
    pub(crate) fn held(&self, transfer: u64) -> Option<u32>
        ensures { result ≡ held_number self.now.log transfer }
    {
        self.held.get(&transfer).copied()
    }

    /// What the first waiter wants, if anyone waits.
    pub(crate) fn first_waiter(&self) -> Option<Want>
        ensures { result ≡ slice_get (waiting self.now.log) 0 }
    {
        self.waiters.first()
    }

    /// Whether the transfer waits.
    pub(crate) fn waits(&self, transfer: u64) -> bool
        ensures { result ≡ waits self.now.log transfer }
    {
        self.waiters.contains(transfer)
    }

    /// How many connections are open.
    pub(crate) fn open_len(&self) -> u64
        ensures count { result ≡ length (open_connections self.now.log) }
        ensures few { result < 2 ^ 32 }
    {
        self.connections.len() as u64
    }

    /// How many connections are idle.
    pub(crate) fn idle_len(&self) -> u64
        ensures count { result ≡ length (idle_connections self.now.log) }
        ensures few { result < 2 ^ 32 }
    {
        self.open_len() - self.held.len() as u64
    }

    /// The number of the next connection.
    pub(crate) fn next_number(&self) -> u64
        ensures { result ≡ greatest self.now.settings.first (opened self.now.log) + 1 }
    {
        u64::from(self.greatest) + 1
    }

    /// The most connections that may be open.
    pub(crate) fn limit(&self) -> u32
        ensures { result ≡ limit_in_force self.now.settings self.now.log }
    {
        self.limit
    }

    /// A new connection is opened for a transfer.
    pub(crate) fn open(
        &mut self,
        moment: u64,
        connection: u32,
        want: Want,
    ) -> Result<(), AllocError>
        requires later { last_moment self.old.log ≤ moment }
        requires may { MayOpen self.old.settings self.old.log connection want }
        ensures ok { OnOk result
            (self.new ≡ with_entry moment (Opened connection want) self.old) }
        ensures err { OnErr result (self.new ≡ self.old) }
    {
        make_room(&mut self.held)?;
        note_opened(&mut self.connections, moment, connection, want)?;
        hold(&mut self.held, want.transfer, connection);
        self.waiters.take_out(want.transfer);
        self.greatest = connection;
        self.log.add(Entry {
            moment,
            event: Event::Opened { connection, want },
        });
        Ok(())
    }

    /// An idle connection is leased to a transfer.
    pub(crate) fn lease(
        &mut self,
        moment: u64,
        connection: u32,
        want: Want,
    ) -> Result<(), AllocError>
        requires later { last_moment self.old.log ≤ moment }
        requires may { MayLease self.old.log connection want moment }
        ensures ok { OnOk result
            (self.new ≡ with_entry moment (Leased connection want) self.old) }
        ensures err { OnErr result (self.new ≡ self.old) }
    {
        make_room(&mut self.held)?;
        note_leased(&mut self.connections, moment, connection, want);
        hold(&mut self.held, want.transfer, connection);
        self.waiters.take_out(want.transfer);
        self.log.add(Entry {
            moment,
            event: Event::Leased { connection, want },
        });
        Ok(())
    }

    /// What is due once a connection that a transfer holds came back with these facts: nothing if
    /// it stays open.
    pub(crate) fn due_after(&self, moment: u64, connection: u32, facts: Facts) -> Option<Due>
        requires later { last_moment self.now.log ≤ moment }
        requires held { IsSome (holder_want self.now.log connection) }
        ensures entry { IfSome result (λ due.
            entry_of due ≡ record { moment = moment; event = Returned connection facts }) }
        ensures due { IfSome result (IsDue self.now.log) }
        ensures stays { IfNone result (Stays self.now.log connection facts) }
    {
        let want = self.holder(connection)?;
        if !ends_use(&facts, &want) {
            return None;
        }
        Some(Due {
            moment,
            connection,
            facts,
            cause: ending_cause(&facts, &want),
        })
    }

    /// A connection comes back and stays open.
    pub(crate) fn come_back(&mut self, moment: u64, connection: u32, facts: Facts)
        requires later { last_moment self.old.log ≤ moment }
        requires stays { Stays self.old.log connection facts }
        ensures { self.new ≡ with_entry moment (Returned connection facts) self.old }
    {
        let holder = self.holder(connection);
        note_returned(&mut self.connections, moment, connection, facts);
        let_go_of(&mut self.held, holder);
        self.log.add(Entry {
            moment,
            event: Event::Returned { connection, facts },
        });
    }

    /// A connection comes back after a response that ends its use, and is closed as is due.
    pub(crate) fn end(&mut self, due: Due, moment: u64)
        requires later { due.moment ≤ moment }
        requires due { IsDue self.old.log due }
        ensures { self.new ≡ with_entry moment (Closed due.connection due.cause)
            (with_entry due.moment (Returned due.connection due.facts) self.old) }
    {
        let holder = self.holder(due.connection);
        note_returned(&mut self.connections, due.moment, due.connection, due.facts);
        let _ = self.connections.remove(&due.connection);
        let_go_of(&mut self.held, holder);
        self.log.add(due.entry());
        self.log.add(Entry {
            moment,
            event: Event::Closed {
                connection: due.connection,
                cause: due.cause,
            },
        });
    }

    /// A connection is closed.
    pub(crate) fn close(&mut self, moment: u64, connection: u32, cause: Cause)
        requires later { last_moment self.old.log ≤ moment }
        requires may { MayClose self.old.log connection cause }
        ensures { self.new ≡ with_entry moment (Closed connection cause) self.old }
    {
        let holder = self.holder(connection);
        let _ = self.connections.remove(&connection);
        let_go_of(&mut self.held, holder);
        self.log.add(Entry {
            moment,
            event: Event::Closed { connection, cause },
        });
    }

    /// A transfer begins to wait.
    pub(crate) fn wait(&mut self, moment: u64, want: Want) -> Result<(), AllocError>
        requires later { last_moment self.old.log ≤ moment }
        requires may { MayWait self.old.log want }
        ensures ok { OnOk result (self.new ≡ with_entry moment (Waited want) self.old) }
        ensures err { OnErr result (self.new ≡ self.old) }
    {
        self.waiters.push(want)?;
        self.log.add(Entry {
            moment,
            event: Event::Waited { want },
        });
        Ok(())
    }

    /// A waiting transfer leaves.
    pub(crate) fn leave(&mut self, moment: u64, transfer: u64)
        requires later { last_moment self.old.log ≤ moment }
        requires waits { waits self.old.log transfer ≡ true }
        ensures { self.new ≡ with_entry moment (Left transfer) self.old }
    {
        self.waiters.take_out(transfer);
        self.log.add(Entry {
            moment,
            event: Event::Left { transfer },
        });
    }

    /// The host's limit changes.
    pub(crate) fn set_limit(&mut self, moment: u64, limit: u32)
        requires later { last_moment self.old.log ≤ moment }
        requires within { length (open_connections self.old.log) ≤ limit }
        ensures { self.new ≡ with_entry moment (Limit limit) self.old }
    {
        self.limit = limit;
        self.log.add(Entry {
            moment,
            event: Event::Limit { limit },
        });
    }
}
