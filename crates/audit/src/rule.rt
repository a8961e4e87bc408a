//! The rules that an event breaks, or that are broken at rest, with what shows it.

use crate::ended::Ended;
use conn_log::Want;
use std::fmt;

/// A connection, by its host and the number that its pool gave it.
#[derive(Clone, Copy, Debug, PartialEq, Eq)]
pub struct Name {
    /// The host's index.
    pub host: u32,
    /// The number that the pool gave the connection.
    pub connection: u64,
}

impl fmt::Display for Name {
    fn fmt<W: fmt::Write>(&self, f: &mut fmt::Formatter<W>) -> fmt::Result {
        let Name { host, connection } = self;
        write!(f, "{host}.{connection}")
    }
}

/// A rule that is broken, with the numbers that show it. Moments and ages are in seconds.
#[derive(Clone, Copy, Debug, PartialEq, Eq)]
pub enum Rule {
    /// The event comes before the host's last one.
    Earlier {
        last: u64,
    },
    /// The host is at its limit.
    Full {
        count: u64,
        limit: u32,
    },
    /// Another transfer is the first waiter.
    NotFirst {
        first: u64,
    },
    /// The transfer holds a connection already.
    Holds {
        transfer: u64,
        connection: Name,
    },
    /// The connection is not open.
    NotOpen {
        connection: Name,
    },
    /// The connection came back to be closed, and is leased.
    Ended {
        ended: Ended,
    },
    /// A transfer holds the connection.
    InUse {
        holder: u64,
    },
    /// The connection is of another lane.
    OtherLane {
        lane: u32,
        want: Want,
    },
    /// The transfer wants a new connection.
    WantsNew {
        transfer: u64,
    },
    /// The connection was idle for longer than the transfer accepts.
    IdleTooLong {
        idle: u64,
        want: Want,
    },
    /// The connection was open for longer than the transfer accepts.
    OpenTooLong {
        age: u64,
        want: Want,
    },
    /// Another transfer holds the connection, or none.
    NotHeld {
        transfer: u64,
        holder: Option<u64>,
    },
    /// The connection was returned before, and is to be closed.
    CameBack {
        connection: Name,
    },
    /// No transfer holds a connection that is closed as one that a transfer lets go.
    NobodyHolds,
    /// The connection came back to be closed for another cause.
    OtherCause {
        ended: Ended,
    },
    /// No response ended the use of the connection.
    NotOwed,
    /// The transfer waits already.
    WaitsAlready {
        transfer: u64,
    },
    /// A connection is idle.
    BesideIdle {
        connection: Name,
    },
    /// The transfer does not wait.
    NotWaiting {
        transfer: u64,
    },
    /// The limit is below what is open.
    BelowOpen {
        count: u64,
    },
    /// More connections are open than the total limit allows.
    PastTotal {
        count: u64,
        limit: u32,
    },
    /// More connections are idle than may be kept.
    PastKept {
        count: u64,
        limit: u32,
    },
    /// A transfer waits though a connection of its host is idle.
    WaiterBesideIdle {
        first: u64,
        connection: Name,
    },
    /// A transfer waits though its host and the total have room.
    WaiterBesideRoom {
        first: u64,
        count: u64,
        limit: u32,
        host: u32,
    },
}

impl Rule {
    /// The rule's name.
    pub fn name(&self) -> &'static str {
        match self {
            Rule::Earlier { .. } => "earlier",
            Rule::Full { .. } => "full",
            Rule::NotFirst { .. } => "not-first",
            Rule::Holds { .. } => "holds",
            Rule::NotOpen { .. } => "not-open",
            Rule::Ended { .. } => "ended",
            Rule::InUse { .. } => "in-use",
            Rule::OtherLane { .. } => "other-lane",
            Rule::WantsNew { .. } => "wants-new",
            Rule::IdleTooLong { .. } => "idle-too-long",
            Rule::OpenTooLong { .. } => "open-too-long",
            Rule::NotHeld { .. } | Rule::CameBack { .. } | Rule::NobodyHolds => "not-held",
            Rule::OtherCause { .. } => "other-cause",
            Rule::NotOwed => "not-owed",
            Rule::WaitsAlready { .. } => "waits-already",
            Rule::BesideIdle { .. } => "beside-idle",
            Rule::NotWaiting { .. } => "not-waiting",
            Rule::BelowOpen { .. } => "below-open",
            Rule::PastTotal { .. } => "total",
            Rule::PastKept { .. } => "kept",
            Rule::WaiterBesideIdle { .. } => "waiter-idle",
            Rule::WaiterBesideRoom { .. } => "waiter-room",
        }
    }
}

/// A number of seconds.
#[derive(Drop)]
struct Seconds(u64);

impl fmt::Display for Seconds {
    fn fmt<W: fmt::Write>(&self, f: &mut fmt::Formatter<W>) -> fmt::Result {
        let count = self.0;
        if count == 1 {
            return write!(f, "1 second");
        }
        write!(f, "{count} seconds")
    }
}

/// Who holds a connection that a transfer returns.
#[derive(Drop)]
struct NotHeld {
    transfer: u64,
    holder: Option<u64>,
}

impl fmt::Display for NotHeld {
    fn fmt<W: fmt::Write>(&self, f: &mut fmt::Formatter<W>) -> fmt::Result {
        let transfer = self.transfer;
        match self.holder {
            Some(holder) => write!(
                f,
                "transfer {transfer} doesn't hold it: transfer {holder} does"
            ),
            None => write!(f, "transfer {transfer} doesn't hold it: nobody does"),
        }
    }
}

/// The text of a rule that is broken at rest.
fn write_at_rest<W: fmt::Write>(rule: &Rule, f: &mut fmt::Formatter<W>) -> fmt::Result {
    match *rule {
        Rule::PastTotal { count, limit } => {
            write!(f, "past the total: {count} open, total {limit}")
        }
        Rule::PastKept { count, limit } => {
            write!(f, "past the kept limit: {count} idle, {limit} kept at most")
        }
        Rule::WaiterBesideIdle { first, connection } => write!(
            f,
            "a waiter beside an idle connection: transfer {first} waits, {connection} is idle"
        ),
        Rule::WaiterBesideRoom {
            first,
            count,
            limit,
            host,
        } => {
            write!(f, "a waiter beside room: transfer {first} waits, ")?;
            write!(f, "{count} of {limit} are open at host {host}")
        }
        _ => Ok(()),
    }
}

/// The text of a rule about the connection that is leased.
fn write_of_lease<W: fmt::Write>(rule: &Rule, f: &mut fmt::Formatter<W>) -> fmt::Result {
    match *rule {
        Rule::Ended { ended } => write!(f, "reused after {ended}"),
        Rule::InUse { holder } => write!(f, "in use: transfer {holder} holds it"),
        Rule::OtherLane { lane, want } => {
            let (transfer, wanted) = (want.transfer, want.lane);
            write!(
                f,
                "another lane: {lane}, and transfer {transfer} wants lane {wanted}"
            )
        }
        Rule::WantsNew { transfer } => write!(f, "transfer {transfer} wants a new connection"),
        Rule::IdleTooLong { idle, want } => {
            let (idle, transfer, most) = (Seconds(idle), want.transfer, want.max_age);
            write!(f, "idle for {idle}, and transfer {transfer} accepts {most}")
        }
        Rule::OpenTooLong { age, want } => {
            let (age, transfer, most) = (Seconds(age), want.transfer, want.max_life);
            write!(f, "open for {age}, and transfer {transfer} accepts {most}")
        }
        _ => Ok(()),
    }
}

/// The text of a rule about the queue or the limit.
fn write_of_queue<W: fmt::Write>(rule: &Rule, f: &mut fmt::Formatter<W>) -> fmt::Result {
    match *rule {
        Rule::Full { count, limit } => {
            write!(f, "past the host limit: {count} open, limit {limit}")
        }
        Rule::NotFirst { first } => {
            write!(f, "not the first waiter: transfer {first} waits before")
        }
        Rule::WaitsAlready { transfer } => write!(f, "transfer {transfer} waits already"),
        Rule::BesideIdle { connection } => {
            write!(f, "waits beside an idle connection, {connection}")
        }
        Rule::NotWaiting { transfer } => write!(f, "transfer {transfer} doesn't wait"),
        Rule::BelowOpen { count } => write!(f, "{count} are open"),
        _ => write_at_rest(rule, f),
    }
}

impl fmt::Display for Rule {
    fn fmt<W: fmt::Write>(&self, f: &mut fmt::Formatter<W>) -> fmt::Result {
        match *self {
            Rule::Earlier { last } => {
                write!(f, "before moment {last}, that of the host's last event")
            }
            Rule::Holds {
                transfer,
                connection,
            } => write!(f, "transfer {transfer} holds {connection} already"),
            Rule::NotOpen { connection } => write!(f, "{connection} isn't open"),
            Rule::NotHeld { transfer, holder } => {
                let text = NotHeld { transfer, holder };
                write!(f, "{text}")
            }
            Rule::CameBack { connection } => write!(f, "{connection} came back already"),
            Rule::NobodyHolds => write!(f, "nobody holds it"),
            Rule::OtherCause { ended } => {
                let cause = ended.cause_word();
                write!(f, "it came back to be closed as {cause}")
            }
            Rule::NotOwed => write!(f, "no response ended its use"),
            Rule::Ended { .. }
            | Rule::InUse { .. }
            | Rule::OtherLane { .. }
            | Rule::WantsNew { .. }
            | Rule::IdleTooLong { .. }
            | Rule::OpenTooLong { .. } => write_of_lease(self, f),
            _ => write_of_queue(self, f),
        }
    }
}
