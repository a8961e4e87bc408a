use crate::site::SiteWord;
use conn_log::Want;

/// The limits of a run.
#[derive(Clone, Copy, Debug, PartialEq, Eq)]
pub struct Limits {
    /// The most open connections of one host; 0 for no limit.
    pub host: u32,
    /// The most open connections of all hosts; 0 for no limit.
    pub total: u32,
    /// The most connections that are kept idle.
    pub kept: u32,
}

/// How a response ended.
#[derive(Clone, Copy, Debug, PartialEq, Eq)]
pub enum Ending {
    /// Its connection may persist.
    Keep,
    /// It has the connection option `close`.
    Close,
    /// It is of HTTP/1.0.
    Old,
    /// It is of HTTP/1.0 with the connection option `keep-alive`.
    OldKeep,
    /// Its body lasts until the connection ends.
    Eof,
    /// It was truncated.
    Cut,
    /// Bytes came after its end.
    Surplus,
}

/// One command of a script.
#[derive(Drop)]
pub enum Command<'a> {
    /// Sets the limits.
    Limits(Limits),
    /// Adds the host that the word names.
    Site(SiteWord<'a>),
    /// Asks the hosts.
    Ask(HostCommand),
}

/// A command that the hosts answer.
#[derive(Drop)]
pub enum HostCommand {
    /// Asks the site's host for an action. Sites are counted from 0.
    At {
        site: u32,
        action: Action,
    },
    /// Closes, at all hosts, the connections that are idle for longer than `max_age` seconds, or
    /// open for longer than `max_life` seconds if that is not 0.
    Prune {
        max_age: u64,
        max_life: u64,
        moment: u64,
    },
    /// Keeps connections alive if their protocol has a way to.
    Upkeep,
}

/// An action at one host.
#[derive(Clone, Copy, Debug, PartialEq, Eq)]
pub enum Action {
    /// A transfer acquires a connection.
    Get {
        want: Want,
        moment: u64,
    },
    /// A transfer claims the connection that it waits for.
    Claim {
        transfer: u64,
    },
    /// A transfer gives its connection back.
    Back {
        transfer: u64,
        ending: Ending,
        moment: u64,
    },
    /// A transfer abandons its connection.
    Drop {
        transfer: u64,
        moment: u64,
    },
    /// A transfer stops waiting.
    Leave {
        transfer: u64,
        moment: u64,
    },
    /// Changes the most open connections of the host; 0 for no limit.
    Limit {
        limit: u32,
        moment: u64,
    },
    /// Asks for the numbers of the host's connections and waiters.
    Look,
}
