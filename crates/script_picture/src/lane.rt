//! What a host's lane shows: bars of its connections and of its waiters, and its limits.

use conn_log::Cause;
use std::alloc::Global;

/// When something happened.
#[derive(Clone, Copy, Debug, PartialEq, Eq)]
pub(crate) struct When {
    /// In seconds.
    pub(crate) moment: u64,
    /// Its slot; none if it was before the first event that is shown.
    pub(crate) slot: Option<u32>,
}

/// How long something lasted: to its end, or on past the last event.
#[derive(Clone, Copy, Debug, PartialEq, Eq)]
pub(crate) struct Span {
    pub(crate) from: When,
    pub(crate) to: Option<When>,
}

impl Span {
    /// From then on.
    pub(crate) fn from(from: When) -> Span {
        Span { from, to: None }
    }

    /// Whether it lasted to an event that is shown, or past the last one.
    pub(crate) fn is_shown(self) -> bool {
        match self.to {
            Some(to) => to.slot.is_some(),
            None => true,
        }
    }
}

/// A part of a connection's bar.
#[derive(Clone, Copy)]
pub(crate) struct Part {
    /// The transfer that it is leased to; none while it is idle.
    pub(crate) holder: Option<u64>,
    pub(crate) span: Span,
}

/// The bar of a connection.
#[derive(Drop)]
pub(crate) struct Bar {
    /// The connection's number.
    pub(crate) number: u32,
    /// Its row, counted from the lane's bottom.
    pub(crate) row: u32,
    /// The transfer that it was opened for.
    pub(crate) opener: u64,
    pub(crate) span: Span,
    /// Why it was closed, if it was.
    pub(crate) cause: Option<Cause>,
    /// When it was leased and idle, in order.
    pub(crate) parts: Vec<Part>,
}

/// How a wait ended.
#[derive(Clone, Copy, Debug, PartialEq, Eq)]
pub(crate) enum WaitEnd {
    /// It got the connection of that number.
    Got(u32),
    /// It left.
    Left,
}

/// The bar of a waiter.
#[derive(Clone, Copy)]
pub(crate) struct Wait {
    pub(crate) transfer: u64,
    /// Its row, counted upwards from the rows of connections.
    pub(crate) row: u32,
    pub(crate) span: Span,
    pub(crate) end: Option<WaitEnd>,
}

/// How many connections may be open, for as long as that is so; 0 for no limit.
#[derive(Clone, Copy)]
pub(crate) struct LimitSpan {
    pub(crate) limit: u32,
    pub(crate) span: Span,
}

/// What a host's lane shows.
#[derive(Drop)]
pub(crate) struct Lane {
    pub(crate) bars: Vec<Bar>,
    pub(crate) waits: Vec<Wait>,
    pub(crate) limits: Vec<LimitSpan>,
}

impl Lane {
    /// An empty lane.
    pub(crate) fn new(alloc: Global) -> Lane {
        Lane {
            bars: Vec::new(alloc),
            waits: Vec::new(alloc),
            limits: Vec::new(alloc),
        }
    }

    /// How many rows the bars that are shown take.
    pub(crate) fn rows(&self) -> u32 {
        let mut rows = 0;
        for bar in &self.bars {
            if bar.span.is_shown() {
                rows = rows.max(bar.row.saturating_add(1));
            }
        }
        rows
    }

    /// How many rows the waiters that are shown take.
    pub(crate) fn waiting_rows(&self) -> u32 {
        let mut rows = 0;
        for wait in &self.waits {
            if wait.span.is_shown() {
                rows = rows.max(wait.row.saturating_add(1));
            }
        }
        rows
    }
}
