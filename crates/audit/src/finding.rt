//! A violation, as it is told.

use crate::rule::{Name, Rule};
use std::fmt;
use trace_text::{Line, read_line};

/// What happened at the earlier line that matters.
#[derive(Clone, Copy, Debug, PartialEq, Eq)]
pub enum Happened {
    /// The host's last event.
    LastEvent { host: u32 },
    /// The transfer began to wait.
    BeganToWait { transfer: u64 },
    /// The transfer got the connection.
    Got { transfer: u64, connection: Name },
    /// The connection came back.
    CameBack { connection: Name },
}

/// The earlier line that matters.
#[derive(Clone, Copy, Debug, PartialEq, Eq)]
pub struct Earlier {
    /// The line's number, counted from 1.
    pub line: u64,
    pub happened: Happened,
}

impl fmt::Display for Earlier {
    fn fmt<W: fmt::Write>(&self, f: &mut fmt::Formatter<W>) -> fmt::Result {
        match self.happened {
            Happened::LastEvent { host } => write!(f, "the last event of host {host}"),
            Happened::BeganToWait { transfer } => write!(f, "transfer {transfer} began to wait"),
            Happened::Got {
                transfer,
                connection,
            } => write!(f, "transfer {transfer} got {connection}"),
            Happened::CameBack { connection } => write!(f, "{connection} came back"),
        }
    }
}

/// A broken rule, with the earlier line that matters, if there is one.
#[derive(Clone, Copy, Debug, PartialEq, Eq)]
pub struct Broken {
    pub rule: Rule,
    pub earlier: Option<Earlier>,
}

/// A violation: the event that breaks the rule, or the last one before the rest at which it is
/// broken.
#[derive(Drop)]
pub struct Finding {
    /// The event's line, counted from 1.
    pub line: u64,
    /// The words of that line, one space between.
    pub event: String,
    pub broken: Broken,
}

impl Finding {
    /// The host at which the rule is broken: the one that the rule names, or else the event's.
    pub fn host(&self) -> u32 {
        match self.broken.rule {
            Rule::WaiterBesideIdle { connection, .. } => connection.host,
            Rule::WaiterBesideRoom { host, .. } => host,
            _ => match read_line(self.event.as_bytes()) {
                Ok(Some(Line::Event(traced))) => traced.host,
                _ => 0,
            },
        }
    }
}
