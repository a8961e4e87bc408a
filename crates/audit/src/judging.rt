//! Which events of a host's log a line of a trace becomes, and which rule it breaks.

ghost use Rattle.std.specs.Prelude.{◌≡◌};
ghost use Rattle.budget.specs.Limits.{or_greatest};
ghost use Rattle.audit.specs.Events.{number_in, end_in, holder_in, cause_read, close_of, event_of};
ghost use Rattle.audit.specs.Tables.{connection_in};
ghost use Rattle.audit.specs.Events.{close_behind, returned_beside, closed_beside, beside_log};

use crate::ended::{Ended, PERSISTENT};
use crate::finding::{Broken, Earlier, Happened};
use crate::host::{TracedConnection, TracedHost};
use crate::hosts::Breach;
use crate::rule::{Name, Rule};
use budget::GREATEST_LIMIT;
use conn_log::{Cause, Event, Want};
use log_judge::Violation;
use trace_text::{Traced, TracedEvent};

/// The connection that an event is of, by the number that the pool gave it, if it is of one.
pub(crate) fn connection_of(event: &TracedEvent) -> Option<u64>
    ensures { result ≡ connection_in event.now }
{
    match *event {
        TracedEvent::Opened { connection, .. }
        | TracedEvent::Leased { connection, .. }
        | TracedEvent::Returned { connection, .. }
        | TracedEvent::Closed { connection, .. } => Some(connection),
        TracedEvent::Waited { .. } | TracedEvent::Left { .. } | TracedEvent::Limit { .. } => None,
    }
}

/// The transfer of an event, if it names one.
pub(crate) fn transfer_of(event: &TracedEvent) -> Option<u64> {
    match *event {
        TracedEvent::Opened { transfer, .. }
        | TracedEvent::Leased { transfer, .. }
        | TracedEvent::Returned { transfer, .. }
        | TracedEvent::Waited { transfer }
        | TracedEvent::Left { transfer } => Some(transfer),
        TracedEvent::Closed { .. } | TracedEvent::Limit { .. } => None,
    }
}

/// The limit that a host's limit of that number is: 0 means none.
fn or_greatest(limit: u32) -> u32
    ensures { result ≡ or_greatest limit }
{
    if limit == 0 { GREATEST_LIMIT } else { limit }
}

/// The number in the log of the connection, or that of none.
fn number_in(known: Option<TracedConnection>) -> u32
    ensures { result ≡ number_in known }
{
    match known {
        Some(known) => known.number,
        None => 0,
    }
}

/// The transfer that holds the connection.
fn holder_in(known: Option<TracedConnection>) -> Option<u64>
    ensures { result ≡ holder_in known }
{
    known?.holder
}

/// The cause that a close is read as having: without one, the cause that is allowed.
fn cause_read(cause: Option<Cause>, known: Option<TracedConnection>) -> Cause
    ensures { result ≡ cause_read cause known }
{
    match cause {
        Some(cause) => cause,
        None => {
            if holder_in(known).is_some() {
                return Cause::Dropped;
            }
            Cause::TooOld
        }
    }
}

/// The event that a close becomes: if the connection came back to be closed it is that return, and
/// the close follows.
fn close_of(cause: Option<Cause>, known: Option<TracedConnection>) -> Event
    ensures { result ≡ close_of cause known (end_in known) }
{
    let connection = number_in(known);
    match end_in(known) {
        Some(ended) => Event::Returned {
            connection,
            facts: ended.facts(),
        },
        None => Event::Closed {
            connection,
            cause: cause_read(cause, known),
        },
    }
}

/// The event of the host's log that an event of a trace becomes. `known` is what is known of its
/// connection if that is open; without it the event is of connection 0, which is never open.
pub(crate) fn event_of(
    event: &TracedEvent,
    known: Option<TracedConnection>,
    next: u32,
    want: Want,
) -> Event
    ensures { result ≡ event_of event.now known next want }
{
    let connection = number_in(known);
    match *event {
        TracedEvent::Opened { .. } => Event::Opened {
            connection: next,
            want,
        },
        TracedEvent::Leased { .. } => Event::Leased { connection, want },
        TracedEvent::Returned { .. } => Event::Returned {
            connection,
            facts: PERSISTENT,
        },
        TracedEvent::Closed { cause, .. } => close_of(cause, known),
        TracedEvent::Waited { .. } => Event::Waited { want },
        TracedEvent::Left { transfer } => Event::Left { transfer },
        TracedEvent::Limit { limit } => Event::Limit {
            limit: or_greatest(limit),
        },
    }
}

/// The close that follows in the log, if the event closes a connection that came back to be closed.
pub(crate) fn close_behind(event: &TracedEvent, known: Option<TracedConnection>) -> Option<Event>
    ensures { result ≡ close_behind event.now known }
{
    match *event {
        TracedEvent::Closed { .. } => {
            let ended = end_in(known)?;
            Some(Event::Closed {
                connection: number_in(known),
                cause: ended.cause(),
            })
        }
        _ => None,
    }
}

/// The rule that a return breaks beside the log.
fn returned_beside(
    connection: Name,
    transfer: u64,
    ended: Option<Ended>,
    holder: Option<u64>,
) -> Option<Rule>
    ensures { result ≡ returned_beside connection transfer ended holder }
{
    if ended.is_some() {
        return Some(Rule::CameBack { connection });
    }
    match holder {
        Some(other) if other == transfer => None,
        _ => Some(Rule::NotHeld { transfer, holder }),
    }
}

/// The rule that a close for that cause breaks beside the log.
fn closed_beside(cause: Cause, ended: Option<Ended>) -> Option<Rule>
    ensures { result ≡ closed_beside cause ended }
{
    let ended = ended?;
    if ended.is_closed_for(cause) {
        return None;
    }
    Some(Rule::OtherCause { ended })
}

/// The rule that an event breaks which a log can't tell of: another than the holder returns a
/// connection, or it came back already and is to be closed, or it is closed for another cause than
/// it has to be.
pub(crate) fn beside_log(
    host: u32,
    event: &TracedEvent,
    known: Option<TracedConnection>,
) -> Option<Rule>
    ensures { result ≡ beside_log host event.now known }
{
    let known = known?;
    match *event {
        TracedEvent::Returned {
            connection,
            transfer,
        } => {
            let name = Name { host, connection };
            returned_beside(name, transfer, known.ended, known.holder)
        }
        TracedEvent::Closed {
            cause: Some(cause),
            ..
        } => closed_beside(cause, known.ended),
        _ => None,
    }
}

/// Why a connection that came back has to be closed, if it has.
fn end_in(known: Option<TracedConnection>) -> Option<Ended>
    ensures { result ≡ end_in known }
{
    known?.ended
}

/// An event at a host, with what is known of its connection.
#[derive(Clone, Copy)]
pub(crate) struct Case<'a> {
    pub traced: &'a Traced,
    pub tables: &'a TracedHost,
    pub known: Option<TracedConnection>,
    pub want: Want,
}

impl Case<'_> {
    /// The name of that connection of the host.
    fn name(&self, connection: u64) -> Name {
        Name {
            host: self.traced.host,
            connection,
        }
    }

    /// The name of the event's connection.
    fn own_name(&self) -> Name {
        self.name(connection_of(&self.traced.event).unwrap_or(0))
    }

    /// The transfer of the event.
    fn transfer(&self) -> u64 {
        transfer_of(&self.traced.event).unwrap_or(0)
    }

    /// The connection that a transfer holds.
    fn held(&self, transfer: u64) -> Name {
        self.name(self.tables.held.get(&transfer).copied().unwrap_or(0))
    }

    /// The rule of a violation of the log.
    fn rule_of(&self, violation: Violation) -> Rule {
        let transfer = self.transfer();
        match violation {
            Violation::Earlier { last } => Rule::Earlier { last },
            Violation::Full { count, limit } => Rule::Full { count, limit },
            Violation::NotFirst { first } => Rule::NotFirst { first },
            Violation::Holds { .. } => Rule::Holds {
                transfer,
                connection: self.held(transfer),
            },
            Violation::InUse { holder } => match end_in(self.known) {
                Some(ended) => Rule::Ended { ended },
                None => Rule::InUse { holder },
            },
            Violation::OtherLane { lane } => Rule::OtherLane {
                lane,
                want: self.want,
            },
            Violation::WantsNew => Rule::WantsNew { transfer },
            Violation::IdleTooLong { idle } => Rule::IdleTooLong {
                idle,
                want: self.want,
            },
            Violation::OpenTooLong { age } => Rule::OpenTooLong {
                age,
                want: self.want,
            },
            Violation::NotHeld => self.not_held(),
            Violation::NotOwed => Rule::NotOwed,
            Violation::WaitsAlready => Rule::WaitsAlready { transfer },
            Violation::BesideIdle { .. } => Rule::BesideIdle {
                connection: self.name(self.tables.first_idle().unwrap_or(0)),
            },
            Violation::NotWaiting => Rule::NotWaiting { transfer },
            Violation::BelowOpen { count } => Rule::BelowOpen { count },
            // No close is owed between two lines, and numbers are counted: only `NotOpen` is left.
            Violation::NotOpen | Violation::CloseOwed { .. } | Violation::NotNext { .. } => {
                Rule::NotOpen {
                    connection: self.own_name(),
                }
            }
        }
    }

    /// The rule that an idle connection was returned, or closed as one that is held.
    fn not_held(&self) -> Rule {
        match self.traced.event {
            TracedEvent::Returned { transfer, .. } => Rule::NotHeld {
                transfer,
                holder: None,
            },
            _ => Rule::NobodyHolds,
        }
    }

    /// The rule that is broken, with the earlier line that matters.
    pub(crate) fn broken(&self, breach: Breach) -> Broken {
        let rule = match breach {
            Breach::InLog(violation) => self.rule_of(violation),
            Breach::Beside(rule) => rule,
        };
        Broken {
            rule,
            earlier: self.earlier_of(&rule),
        }
    }

    /// Where the event's connection came back.
    fn own_return(&self) -> Option<Earlier> {
        let known = self.known?;
        Some(Earlier {
            line: known.return_line,
            happened: Happened::CameBack {
                connection: self.own_name(),
            },
        })
    }

    /// The earlier line that matters.
    fn earlier_of(&self, rule: &Rule) -> Option<Earlier> {
        match *rule {
            Rule::Earlier { .. } => Some(Earlier {
                line: self.tables.last_line,
                happened: Happened::LastEvent {
                    host: self.traced.host,
                },
            }),
            Rule::NotFirst { first } => self.tables.wait_of(first),
            Rule::WaitsAlready { transfer } => self.tables.wait_of(transfer),
            Rule::Holds {
                transfer,
                connection,
            } => self.tables.start_of(transfer, connection),
            Rule::InUse { holder } => self.tables.start_of(holder, self.own_name()),
            Rule::Ended { .. } | Rule::IdleTooLong { .. } | Rule::OtherCause { .. } => {
                self.own_return()
            }
            Rule::BesideIdle { connection } => self.tables.return_of(connection),
            _ => None,
        }
    }
}
