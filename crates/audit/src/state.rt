//! What is open at a host and what waits there, as a text.

use crate::host::{TracedConnection, TracedHost};
use crate::hosts::TracedHosts;
use std::alloc::{AllocError, Global};
use std::fmt::Write;

/// What separates two connections, or two waiters.
fn separator(is_first: bool) -> &'static str {
    if is_first { "" } else { ", " }
}

impl TracedHost {
    /// Writes the open connections, first opened first.
    fn write_open(&self, alloc: Global, host: u32, text: &mut String) -> Result<(), AllocError> {
        let mut open = Vec::new(alloc);
        for (name, connection) in &self.connections {
            open.push((*name, *connection))?;
        }
        open.sort_unstable_by_key(|(_, connection)| connection.number);
        if open.is_empty() {
            text.push_str("nothing open")?;
        }
        let mut is_first = true;
        for (name, connection) in &open {
            text.push_str(separator(is_first))?;
            write_connection(host, *name, connection, text)?;
            is_first = false;
        }
        Ok(())
    }

    /// Writes the waiters, if there are any, first in, first out.
    fn write_waiters(&self, alloc: Global, text: &mut String) -> Result<(), AllocError> {
        let mut waiters = Vec::new(alloc);
        for (transfer, waiter) in &self.waiters {
            waiters.push((waiter.line, *transfer))?;
        }
        waiters.sort_unstable();
        let mut is_first = true;
        for (_, transfer) in &waiters {
            text.push_str(if is_first { "; waiting " } else { ", " })?;
            write!(text, "{transfer}")?;
            is_first = false;
        }
        Ok(())
    }
}

/// Writes an open connection: idle since a moment, or leased to a transfer.
fn write_connection(
    host: u32,
    name: u64,
    connection: &TracedConnection,
    text: &mut String,
) -> Result<(), AllocError> {
    match connection.holder {
        Some(transfer) => write!(text, "{host}.{name} leased to {transfer}"),
        None => {
            let since = connection.since;
            write!(text, "{host}.{name} idle since {since}")
        }
    }
}

impl TracedHosts {
    /// The open connections of a host, first opened first, and its waiters, first in, first out.
    pub(crate) fn state_of(&self, alloc: Global, host: u32) -> Result<String, AllocError> {
        let mut text = format!(in alloc; "host {host}: ")?;
        if let Some(tables) = self.tables.get(host as usize) {
            tables.write_open(alloc, host, &mut text)?;
            tables.write_waiters(alloc, &mut text)?;
        }
        Ok(text)
    }
}
