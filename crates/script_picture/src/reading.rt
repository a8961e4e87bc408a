//! A lane from a host's log.

use crate::lane::{Bar, Lane, LimitSpan, Part, Span, Wait, WaitEnd, When};
use crate::rows::Rows;
use crate::timeline::Timeline;
use conn_log::{Cause, Entry, Event};
use std::alloc::{AllocError, Global};
use std::collections::HashMap;

/// A lane while its log is read.
#[derive(Drop)]
struct Reading {
    alloc: Global,
    lane: Lane,
    /// The places of the open connections' bars, by number.
    open: HashMap<u32, usize>,
    rows: Rows,
    /// The places of the waiters' bars, by transfer.
    waiting: HashMap<u64, usize>,
    waiting_rows: Rows,
}

/// The lane of a host whose log is this, oldest entry first, under that limit at first. The newest
/// entries have slots, so many of them.
pub(crate) fn lane_of(
    alloc: Global,
    timeline: &Timeline,
    log: &[Entry],
    shown: usize,
    limit: u32,
) -> Result<Lane, AllocError> {
    let mut reading = Reading {
        alloc,
        lane: Lane::new(alloc),
        open: HashMap::new(alloc),
        rows: Rows::new(alloc),
        waiting: HashMap::new(alloc),
        waiting_rows: Rows::new(alloc),
    };
    let start = When {
        moment: 0,
        slot: None,
    };
    reading.limit(start, limit)?;
    let first_shown = log.len().saturating_sub(shown);
    let mut last = 0;
    let mut before = 0u32;
    for (place, entry) in log.iter().enumerate() {
        let moment = entry.moment;
        let mut slot = None;
        if place >= first_shown {
            if place > first_shown && moment == last {
                before = before.saturating_add(1);
            } else {
                before = 0;
            }
            slot = timeline.slot(moment, before);
            last = moment;
        }
        reading.add(When { moment, slot }, entry.event)?;
    }
    Ok(reading.lane)
}

impl Reading {
    // Takes the next event.
    fn add(&mut self, when: When, event: Event) -> Result<(), AllocError> {
        match event {
            Event::Opened { connection, want } => {
                self.end_wait(when, want.transfer, WaitEnd::Got(connection))?;
                self.open(when, connection, want.transfer)
            }
            Event::Leased { connection, want } => {
                self.end_wait(when, want.transfer, WaitEnd::Got(connection))?;
                self.turn(when, connection, Some(want.transfer))
            }
            Event::Returned { connection, .. } => self.turn(when, connection, None),
            Event::Closed { connection, cause } => self.close(when, connection, cause),
            Event::Waited { want } => self.wait(when, want.transfer),
            Event::Left { transfer } => self.end_wait(when, transfer, WaitEnd::Left),
            Event::Limit { limit } => self.limit(when, limit),
        }
    }

    // A connection is opened.
    fn open(&mut self, when: When, number: u32, opener: u64) -> Result<(), AllocError> {
        let mut parts = Vec::new(self.alloc);
        parts.push(Part {
            holder: Some(opener),
            span: Span::from(when),
        })?;
        self.open.insert(number, self.lane.bars.len())?;
        self.lane.bars.push(Bar {
            number,
            row: self.rows.take(),
            opener,
            span: Span::from(when),
            cause: None,
            parts,
        })?;
        Ok(())
    }

    // A connection is leased to that transfer, or idle from now on.
    fn turn(&mut self, when: When, number: u32, holder: Option<u64>) -> Result<(), AllocError> {
        let Some(place) = self.open.get(&number) else {
            return Ok(());
        };
        let Some(bar) = self.lane.bars.get_mut(*place) else {
            return Ok(());
        };
        end_last(bar, when);
        bar.parts.push(Part {
            holder,
            span: Span::from(when),
        })?;
        Ok(())
    }

    // A connection is closed.
    fn close(&mut self, when: When, number: u32, cause: Cause) -> Result<(), AllocError> {
        let Some(place) = self.open.remove(&number) else {
            return Ok(());
        };
        let Some(bar) = self.lane.bars.get_mut(place) else {
            return Ok(());
        };
        end_last(bar, when);
        bar.span.to = Some(when);
        bar.cause = Some(cause);
        self.rows.give_back(bar.row)
    }

    // A transfer begins to wait.
    fn wait(&mut self, when: When, transfer: u64) -> Result<(), AllocError> {
        self.waiting.insert(transfer, self.lane.waits.len())?;
        self.lane.waits.push(Wait {
            transfer,
            row: self.waiting_rows.take(),
            span: Span::from(when),
            end: None,
        })?;
        Ok(())
    }

    // A transfer waits no more, if it did.
    fn end_wait(&mut self, when: When, transfer: u64, end: WaitEnd) -> Result<(), AllocError> {
        let Some(place) = self.waiting.remove(&transfer) else {
            return Ok(());
        };
        let Some(wait) = self.lane.waits.get_mut(place) else {
            return Ok(());
        };
        wait.span.to = Some(when);
        wait.end = Some(end);
        self.waiting_rows.give_back(wait.row)
    }

    // So many connections may be open from now on.
    fn limit(&mut self, when: When, limit: u32) -> Result<(), AllocError> {
        if let Some(last) = self.lane.limits.last_mut() {
            last.span.to = Some(when);
        }
        self.lane.limits.push(LimitSpan {
            limit,
            span: Span::from(when),
        })?;
        Ok(())
    }
}

// Ends the last part of a bar.
fn end_last(bar: &mut Bar, when: When) {
    if let Some(part) = bar.parts.last_mut() {
        part.span.to = Some(when);
    }
}
