//! The log of one host as lines of a trace, part by part.

ghost use Rattle.std.specs.Prelude.{◌≡◌, ◌++◌, List, [], reverse, unwrap_or};
ghost use Rattle.std.specs.Prelude.{IfOk, OnOk, string_bytes};
ghost use Rattle.conn_log.specs.declared.entry.Entry.{Entry};
ghost use Rattle.script_text.specs.Printing.{entry_line, returned_by};
ghost use Rattle.trace_text.specs.Asking.{get_line};
ghost use Rattle.trace_text.specs.HostLines.{asked_by, lines_of, part_lines, start_asked};
ghost use Rattle.trace_text.specs.HostUses.{AreUsesOf};

use crate::asking::{BackLine, GetLine};
use crate::uses::Uses;
use conn_log::{Entry, Event, Log, Want};
use script_text::lines_since;
use std::alloc::{AllocError, Global};
use std::fmt::Write;

/// Writes the log of one host as lines of a trace, part by part as the log is cut. The line of a
/// request comes before each wait, each return, and each start of a transfer that did not wait.
#[derive(Drop)]
pub struct HostTrace {
    host: u32,
    uses: Uses,
}

impl HostTrace {
    /// The trace of the host with that index, whose log has no entry yet.
    pub fn new(alloc: Global, host: u32) -> HostTrace
        ensures host { result.host ≡ host }
        ensures uses { AreUsesOf [] result.uses }
    {
        HostTrace {
            host,
            uses: Uses::new(alloc),
        }
    }

    /// Adds the lines of the next entries of the host's log, oldest entry first.
    ///
    /// # Errors
    ///
    /// Memory ran out. The trace cannot be continued.
    pub fn add_part(
        &mut self,
        alloc: Global,
        text: &mut String,
        part: &[Entry],
    ) -> Result<(), AllocError>
        ensures host { self.new.host ≡ self.old.host }
        ensures lines { (before : List Entry) → AreUsesOf before self.old.uses → OnOk result
            (string_bytes text.new
            ≡ string_bytes text.old ++ part_lines self.old.host before part.now) }
        ensures uses { (before : List Entry) → AreUsesOf before self.old.uses → OnOk result
            (AreUsesOf (reverse part.now ++ before) self.new.uses) }
    {
        for entry in part {
            add_entry(alloc, text, self.host, &self.uses, *entry)?;
            self.uses.add(entry.event)?;
        }
        Ok(())
    }
}

// Adds the lines of an entry that follows where connections are used so.
fn add_entry(
    alloc: Global,
    text: &mut String,
    host: u32,
    uses: &Uses,
    entry: Entry,
) -> Result<(), AllocError>
    ensures { (before : List Entry) → AreUsesOf before uses.now → OnOk result
        (string_bytes text.new ≡ string_bytes text.old ++ lines_of host before entry) }
{
    add_asking(text, host, uses, entry)?;
    let line = line_of(alloc, host, returned_by(uses, entry.event), entry)?;
    text.push_str(line.as_str())
}

// Adds the line that asks for what happened, if one does.
fn add_asking(text: &mut String, host: u32, uses: &Uses, entry: Entry) -> Result<(), AllocError>
    ensures { (before : List Entry) → AreUsesOf before uses.now → OnOk result
        (string_bytes text.new
        ≡ string_bytes text.old ++ asked_by host before entry.moment entry.event) }
{
    let moment = entry.moment;
    match entry.event {
        Event::Opened { want, .. } | Event::Leased { want, .. } => {
            add_start(text, host, uses, moment, want)
        }
        Event::Waited { want } => add_get(text, host, moment, want),
        Event::Returned { facts, .. } => {
            let transfer = returned_by(uses, entry.event);
            let line = BackLine {
                host,
                moment,
                transfer,
                facts,
            };
            write!(text, "{line}")
        }
        Event::Closed { .. } | Event::Left { .. } | Event::Limit { .. } => Ok(()),
    }
}

// Adds the line of a transfer that asks, unless it waited.
fn add_start(
    text: &mut String,
    host: u32,
    uses: &Uses,
    moment: u64,
    want: Want,
) -> Result<(), AllocError>
    ensures { (before : List Entry) → AreUsesOf before uses.now → OnOk result
        (string_bytes text.new ≡ string_bytes text.old ++ start_asked host before moment want) }
{
    if uses.waits(want.transfer) {
        return Ok(());
    }
    add_get(text, host, moment, want)
}

// Adds the line of a transfer that asks.
fn add_get(text: &mut String, host: u32, moment: u64, want: Want) -> Result<(), AllocError>
    ensures { OnOk result (string_bytes text.new
        ≡ string_bytes text.old ++ get_line host moment want) }
{
    let line = GetLine { host, moment, want };
    write!(text, "{line}")
}

// The transfer that a connection comes back from; 0 for any other event.
fn returned_by(uses: &Uses, event: Event) -> u64
    ensures { (before : List Entry) → AreUsesOf before uses.now
        → result ≡ returned_by before event }
{
    match event {
        Event::Returned { connection, .. } => uses.holder(connection).unwrap_or(0),
        _ => 0,
    }
}

// The line of an entry: that of a log which has no other.
fn line_of(alloc: Global, host: u32, by: u64, entry: Entry) -> Result<String, AllocError>
    ensures { IfOk result (λ line. string_bytes line ≡ entry_line host by entry) }
{
    let Ok(log) = Log::new(alloc) else {
        return Err(AllocError);
    };
    let mut log = log;
    let Ok(()) = log.reserve(1) else {
        return Err(AllocError);
    };
    log.append(entry);
    match lines_since(alloc, host, &log, 0, by) {
        Ok(line) => Ok(line),
        Err(_) => Err(AllocError),
    }
}
