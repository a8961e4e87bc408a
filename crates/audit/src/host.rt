//! What a trace's lines need of a host beside its log: numbers, lines, wants and endings.

ghost use Rattle.std.specs.Prelude.{◌≡◌, IfOk};
ghost use Rattle.audit.specs.Tables.{want_in, known_in, next_in, passes_by, end_by, end_of};
ghost use Rattle.audit.specs.Tables.{IsWantOf, IsJudgedBy};

use crate::ended::Ended;
use crate::fault::AuditFault;
use crate::finding::{Earlier, Happened};
use crate::judging::connection_of;
use crate::rule::Name;
use conn_log::Want;
use script_text::Ending;
use std::alloc::{AllocError, Global};
use std::collections::{BTreeMap, HashMap, HashSet};
use trace_text::{Traced, TracedEvent};

/// An open connection. Lines are those of the trace, counted from 1.
#[derive(Clone, Copy, Debug)]
pub(crate) struct TracedConnection {
    /// Its number in the host's log.
    pub number: u32,
    pub lane: u32,
    /// The transfer that holds it.
    pub holder: Option<u64>,
    /// Whether that transfer forbids reuse.
    pub forbids_reuse: bool,
    /// Where that transfer got it.
    pub start_line: u64,
    /// Where it last came back, and when.
    pub return_line: u64,
    pub since: u64,
    /// Why it has to be closed, if it came back to be; its transfer holds it until then.
    pub ended: Option<Ended>,
}

/// A waiting transfer.
#[derive(Clone, Copy, Debug)]
pub(crate) struct Waiter {
    pub want: Want,
    /// Where it began to wait.
    pub line: u64,
}

/// What is known of a host beside its log.
#[derive(Drop)]
pub(crate) struct TracedHost {
    /// The open connections, by the numbers that the pool gave them.
    pub connections: HashMap<u64, TracedConnection>,
    /// The connection that each transfer holds.
    pub held: HashMap<u64, u64>,
    /// The idle connections, by the lines at which they came back.
    pub idle: BTreeMap<u64, u64>,
    pub waiters: HashMap<u64, Waiter>,
    /// What each transfer asked for last, if no start or wait has used it up.
    pub asked: HashMap<u64, Want>,
    /// How each transfer's last response ended, if no return has used it up.
    pub given: HashMap<u64, Ending>,
    /// Connections whose opening was not taken.
    pub not_taken: HashSet<u64>,
    /// How many connections were opened.
    pub opened: u32,
    /// The line of the last event in the log.
    pub last_line: u64,
    /// Whether the last rest found a transfer that waits beside an idle connection, or beside room.
    pub told_idle: bool,
    pub told_room: bool,
}

/// What a transfer wants of which that is not known: no rule of a want is broken.
fn any_want(transfer: u64, known: Option<TracedConnection>) -> Want {
    let lane = match known {
        Some(known) => known.lane,
        None => 0,
    };
    Want {
        transfer,
        max_age: u64::MAX,
        max_life: 0,
        lane,
        fresh: false,
        forbid_reuse: false,
    }
}

impl TracedHost {
    /// A host of which nothing is known.
    pub(crate) fn new(alloc: Global) -> TracedHost {
        TracedHost {
            connections: HashMap::new(alloc),
            held: HashMap::new(alloc),
            idle: BTreeMap::new(alloc),
            waiters: HashMap::new(alloc),
            asked: HashMap::new(alloc),
            given: HashMap::new(alloc),
            not_taken: HashSet::new(alloc),
            opened: 0,
            last_line: 0,
            told_idle: false,
            told_room: false,
        }
    }

    /// The want by which a start or a wait of the transfer is judged, if it is known.
    fn want(&self, transfer: u64) -> Option<Want>
        ensures { result ≡ want_in self.now transfer }
    {
        if let Some(waiter) = self.waiters.get(&transfer) {
            return Some(waiter.want);
        }
        self.asked.get(&transfer).copied()
    }

    /// A transfer starts: it waits no more, or its `get` is used up.
    fn use_up(&mut self, transfer: u64) {
        if self.waiters.remove(&transfer).is_none() {
            let _ = self.asked.remove(&transfer);
        }
    }

    /// A connection was opened for a transfer.
    fn note_opened(&mut self, connection: u64, want: Want, line: u64) -> Result<(), AllocError> {
        let number = self.opened.saturating_add(1);
        let opened = TracedConnection {
            number,
            lane: want.lane,
            holder: Some(want.transfer),
            forbids_reuse: want.forbid_reuse,
            start_line: line,
            return_line: 0,
            since: 0,
            ended: None,
        };
        let _ = self.connections.insert(connection, opened)?;
        let _ = self.held.insert(want.transfer, connection)?;
        let _ = self.not_taken.remove(&connection);
        self.opened = number;
        self.use_up(want.transfer);
        Ok(())
    }

    /// An idle connection was leased to a transfer.
    fn note_leased(&mut self, connection: u64, want: Want, line: u64) -> Result<(), AllocError> {
        let _ = self.held.insert(want.transfer, connection)?;
        if let Some(open) = self.connections.get_mut(&connection) {
            let _ = self.idle.remove(&open.return_line);
            open.holder = Some(want.transfer);
            open.forbids_reuse = want.forbid_reuse;
            open.start_line = line;
        }
        self.use_up(want.transfer);
        Ok(())
    }

    /// A transfer gave its connection back.
    fn note_returned(
        &mut self,
        connection: u64,
        transfer: u64,
        moment: u64,
        line: u64,
    ) -> Result<(), AllocError> {
        let _ = self.idle.insert(line, connection)?;
        let _ = self.held.remove(&transfer);
        let _ = self.given.remove(&transfer);
        if let Some(open) = self.connections.get_mut(&connection) {
            open.holder = None;
            open.return_line = line;
            open.since = moment;
        }
        Ok(())
    }

    /// The return of a connection is held back until it is closed.
    pub(crate) fn note_ended(&mut self, event: &TracedEvent, ended: Ended, line: u64) {
        let TracedEvent::Returned {
            connection,
            transfer,
        } = *event
        else {
            return;
        };
        let _ = self.given.remove(&transfer);
        if let Some(open) = self.connections.get_mut(&connection) {
            open.return_line = line;
            open.ended = Some(ended);
        }
    }

    /// A connection was closed.
    fn note_closed(&mut self, connection: u64) {
        let Some(closed) = self.connections.remove(&connection) else {
            return;
        };
        match closed.holder {
            Some(transfer) => {
                let _ = self.held.remove(&transfer);
            }
            None => {
                let _ = self.idle.remove(&closed.return_line);
            }
        }
    }

    /// A transfer began to wait.
    fn note_waited(&mut self, want: Want, line: u64) -> Result<(), AllocError> {
        let _ = self.waiters.insert(want.transfer, Waiter { want, line })?;
        let _ = self.asked.remove(&want.transfer);
        Ok(())
    }

    /// What is known of an event's connection, if it is open.
    pub(crate) fn connection_of(&self, event: &TracedEvent) -> Option<TracedConnection>
        ensures { result ≡ known_in self.now event.now }
    {
        self.connections.get(&connection_of(event)?).copied()
    }

    /// The number of the host's next connection, if it can have one more.
    pub(crate) fn next(&self) -> u32
        ensures { result ≡ next_in self.now }
    {
        self.opened.saturating_add(1)
    }

    /// Whether the event is of a connection whose opening was not taken, and doesn't open it once
    /// more.
    pub(crate) fn passes_by(&self, event: &TracedEvent) -> bool
        ensures { result ≡ passes_by self.now event.now }
    {
        match *event {
            TracedEvent::Leased { connection, .. } => self.not_taken.contains(&connection),
            TracedEvent::Returned { connection, .. } => self.not_taken.contains(&connection),
            TracedEvent::Closed { connection, .. } => self.not_taken.contains(&connection),
            _ => false,
        }
    }

    /// Notes such an event: with its close no line is of the connection.
    pub(crate) fn note_passed(&mut self, event: &TracedEvent) {
        if let TracedEvent::Closed { connection, .. } = *event {
            let _ = self.not_taken.remove(&connection);
        }
    }

    /// The want by which a start is judged. If it is not known, a rule is broken whatever it is, or
    /// the trace can't be read on.
    fn start_want(&self, transfer: u64, known: Option<TracedConnection>) -> Result<Want, AuditFault>
        ensures { IfOk result (IsWantOf self.now transfer) }
    {
        if let Some(want) = self.want(transfer) {
            return Ok(want);
        }
        if self.held.contains_key(&transfer) || !self.waiters.is_empty() {
            return Ok(any_want(transfer, known));
        }
        Err(AuditFault::AskedNothing { transfer })
    }

    /// The want by which an event is judged, if it can be.
    pub(crate) fn judged_want(
        &self,
        traced: &Traced,
        known: Option<TracedConnection>,
    ) -> Result<Want, AuditFault>
        ensures { IfOk result (IsJudgedBy self.now traced.now.event) }
    {
        match traced.event {
            TracedEvent::Opened {
                connection,
                transfer,
            } => {
                let host = traced.host;
                if known.is_some() {
                    return Err(AuditFault::OpenAlready { host, connection });
                }
                if self.opened == u32::MAX {
                    return Err(AuditFault::TooManyConnections);
                }
                self.start_want(transfer, known)
            }
            TracedEvent::Leased { transfer, .. } => self.start_want(transfer, known),
            TracedEvent::Waited { transfer } => self.wait_want(transfer),
            TracedEvent::Returned { transfer, .. } => {
                if self.given.contains_key(&transfer) {
                    return Ok(any_want(transfer, known));
                }
                Err(AuditFault::GaveNothing { transfer })
            }
            _ => Ok(any_want(0, known)),
        }
    }

    /// The want by which a wait is judged.
    fn wait_want(&self, transfer: u64) -> Result<Want, AuditFault>
        ensures { IfOk result (IsWantOf self.now transfer) }
    {
        if let Some(want) = self.want(transfer) {
            return Ok(want);
        }
        if self.held.contains_key(&transfer) {
            return Ok(any_want(transfer, None));
        }
        Err(AuditFault::AskedNothing { transfer })
    }

    /// Why a connection has to be closed that its holder returns, if it has.
    fn end_by(&self, transfer: u64, known: Option<TracedConnection>) -> Option<Ended>
        ensures { result ≡ end_by self.now transfer known }
    {
        let known = known?;
        if known.ended.is_some() || known.holder != Some(transfer) {
            return None;
        }
        let ending = self.given.get(&transfer)?;
        Ended::of(*ending, known.forbids_reuse)
    }

    /// Why the return of a connection is held back until it is closed, if it is.
    pub(crate) fn end_of(
        &self,
        event: &TracedEvent,
        known: Option<TracedConnection>,
    ) -> Option<Ended>
        ensures { result ≡ end_of self.now event.now known }
    {
        match *event {
            TracedEvent::Returned { transfer, .. } => self.end_by(transfer, known),
            _ => None,
        }
    }

    /// An event broke a rule.
    pub(crate) fn note_broken(&mut self, event: &TracedEvent) -> Result<(), AllocError> {
        if let TracedEvent::Opened { connection, .. } = *event {
            let _ = self.not_taken.insert(connection)?;
        }
        Ok(())
    }

    /// An event of the log was taken.
    pub(crate) fn note(
        &mut self,
        traced: &Traced,
        want: Want,
        line: u64,
    ) -> Result<(), AllocError> {
        self.last_line = line;
        match traced.event {
            TracedEvent::Opened { connection, .. } => self.note_opened(connection, want, line),
            TracedEvent::Leased { connection, .. } => self.note_leased(connection, want, line),
            TracedEvent::Returned {
                connection,
                transfer,
            } => self.note_returned(connection, transfer, traced.moment, line),
            TracedEvent::Closed { connection, .. } => {
                self.note_closed(connection);
                Ok(())
            }
            TracedEvent::Waited { .. } => self.note_waited(want, line),
            TracedEvent::Left { transfer } => {
                let _ = self.waiters.remove(&transfer);
                Ok(())
            }
            TracedEvent::Limit { .. } => Ok(()),
        }
    }

    /// The idle connection that came back first.
    pub(crate) fn first_idle(&self) -> Option<u64> {
        match self.idle.first_key_value() {
            Some((_, connection)) => Some(*connection),
            None => None,
        }
    }

    /// Where a transfer began to wait.
    pub(crate) fn wait_of(&self, transfer: u64) -> Option<Earlier> {
        let waiter = self.waiters.get(&transfer)?;
        Some(Earlier {
            line: waiter.line,
            happened: Happened::BeganToWait { transfer },
        })
    }

    /// Where a transfer got a connection that it holds.
    pub(crate) fn start_of(&self, transfer: u64, connection: Name) -> Option<Earlier> {
        let open = self.connections.get(&connection.connection)?;
        Some(Earlier {
            line: open.start_line,
            happened: Happened::Got {
                transfer,
                connection,
            },
        })
    }

    /// Where a connection came back.
    pub(crate) fn return_of(&self, connection: Name) -> Option<Earlier> {
        let open = self.connections.get(&connection.connection)?;
        Some(Earlier {
            line: open.return_line,
            happened: Happened::CameBack { connection },
        })
    }
}
