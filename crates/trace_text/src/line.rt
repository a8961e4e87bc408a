use conn_log::Cause;
use script_text::Command;

/// What a line of a trace says.
#[derive(Drop)]
pub enum Line<'a> {
    /// `order host`: lines are in order within each host alone.
    OrderHost,
    /// A command of a script, but none that changes a limit: what the pool was asked, its limits,
    /// or a host.
    Command(Command<'a>),
    /// What happened at a host.
    Event(Traced),
    /// The pool is at rest.
    Rest,
}

/// What a pool did at a host, or what happened to it there.
#[derive(Clone, Copy, Debug, PartialEq, Eq)]
pub struct Traced {
    /// The host's index, counted from 0.
    pub host: u32,
    /// In seconds.
    pub moment: u64,
    pub event: TracedEvent,
}

/// An event of a trace. A connection has the number that its pool gave it.
#[derive(Clone, Copy, Debug, PartialEq, Eq)]
pub enum TracedEvent {
    /// A connection was opened for a transfer.
    Opened {
        connection: u64,
        transfer: u64,
    },
    /// A transfer reuses a connection.
    Leased {
        connection: u64,
        transfer: u64,
    },
    /// A transfer gave a connection back.
    Returned {
        connection: u64,
        transfer: u64,
    },
    /// A connection was closed; for a cause, if the trace tells it.
    Closed {
        connection: u64,
        cause: Option<Cause>,
    },
    /// A transfer waits, behind all earlier ones.
    Waited {
        transfer: u64,
    },
    /// A transfer gave up its wait.
    Left {
        transfer: u64,
    },
    /// So many connections of the host are open at most from now on; 0 for no limit.
    Limit {
        limit: u32,
    },
}
