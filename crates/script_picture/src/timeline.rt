//! Where the events of several logs stand, from left to right.

use conn_log::Entry;
use std::alloc::{AllocError, Global};

/// The most events that a picture shows.
pub const MOST_EVENTS: usize = 10_000;

/// The places of one moment.
#[derive(Clone, Copy)]
pub(crate) struct Column {
    /// In seconds.
    pub(crate) moment: u64,
    /// The first of its slots.
    pub(crate) slot: u32,
}

/// Slots for the newest events of several logs: those of one moment and host stand side by side,
/// and those of another host at that moment begin at the same slot.
#[derive(Drop)]
pub(crate) struct Timeline {
    /// The moments, in order.
    pub(crate) columns: Vec<Column>,
    /// How many slots there are in all.
    pub(crate) slots: u32,
    /// How many events have a slot, by host.
    pub(crate) shown: Vec<usize>,
}

/// An event of a host.
#[derive(Clone, Copy, PartialEq, Eq, PartialOrd, Ord)]
struct Mark {
    moment: u64,
    host: usize,
}

impl Timeline {
    /// Slots for the newest events of these logs, at most 10,000 of them. Each log has its oldest
    /// entry first.
    pub(crate) fn new(alloc: Global, logs: &[&[Entry]]) -> Result<Timeline, AllocError> {
        let marks = marks_of(alloc, logs)?;
        let left_out = marks.len().saturating_sub(MOST_EVENTS);
        let (_, newest) = marks.split_at(left_out);
        let mut timeline = Timeline {
            columns: Vec::new(alloc),
            slots: 0,
            shown: Vec::new(alloc),
        };
        timeline.shown.resize(logs.len(), 0)?;
        timeline.add_marks(newest)?;
        Ok(timeline)
    }

    /// The slot of a moment's event that has so many of its host and moment before it. An event of
    /// no moment of the timeline has none.
    pub(crate) fn slot(&self, moment: u64, before: u32) -> Option<u32> {
        let place = self
            .columns
            .partition_point(|column| column.moment < moment);
        let column = self.columns.get(place)?;
        if column.moment == moment {
            Some(column.slot.saturating_add(before))
        } else {
            None
        }
    }

    // Gives a slot to each of these events, which come in order.
    fn add_marks(&mut self, marks: &[Mark]) -> Result<(), AllocError> {
        let mut last: Option<Mark> = None;
        let mut next = 0u32;
        for mark in marks {
            let mark = *mark;
            if let Some(shown) = self.shown.get_mut(mark.host) {
                *shown = shown.saturating_add(1);
            }
            if !last.is_some_and(|last| last.moment == mark.moment) {
                let slot = self.slots;
                self.columns.push(Column {
                    moment: mark.moment,
                    slot,
                })?;
                next = slot;
            } else if !last.is_some_and(|last| last == mark) {
                next = self.columns.last().map_or(next, |column| column.slot);
            }
            next = next.saturating_add(1);
            self.slots = self.slots.max(next);
            last = Some(mark);
        }
        Ok(())
    }
}

// The moment and the host of each event, in order.
fn marks_of(alloc: Global, logs: &[&[Entry]]) -> Result<Vec<Mark>, AllocError> {
    let mut marks = Vec::new(alloc);
    for (host, log) in logs.iter().enumerate() {
        add_host(&mut marks, host, log)?;
    }
    marks.sort_unstable();
    Ok(marks)
}

// Adds the events of a host.
fn add_host(marks: &mut Vec<Mark>, host: usize, log: &[Entry]) -> Result<(), AllocError> {
    for entry in log {
        marks.push(Mark {
            moment: entry.moment,
            host,
        })?;
    }
    Ok(())
}
