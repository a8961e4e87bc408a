//! The table of counts.

use crate::plot::LEFT;
use crate::report_numbers::LoadReport;
use drawing::{Anchor, Drawing, Point};
use exchange::FAULT_NAMES;
use load_figures::STATUS_NAMES;
use std::alloc::{AllocError, Global};
use std::fmt::Write;

/// The height of a row, and how wide a column is: its name and its number.
const ROW: u32 = 20;

const COLUMN: u32 = 270;

const NUMBER: u32 = 220;

/// How many columns there are.
const COLUMNS: usize = 3;

/// A row of the table.
#[derive(Clone, Copy)]
struct Count {
    name: &'static str,
    count: u64,
}

/// The table of a report.
#[derive(Drop)]
pub(crate) struct Counts {
    rows: Vec<Count>,
}

impl Counts {
    /// The counts of a report: those of jobs and connections, and of the statuses and faults that
    /// came.
    pub(crate) fn new(alloc: Global, report: &LoadReport) -> Result<Counts, AllocError> {
        let (jobs, connections) = (report.jobs, report.connections);
        let mut counts = Counts {
            rows: Vec::new(alloc),
        };
        counts.add("requests", jobs.requests)?;
        counts.add("good", jobs.good)?;
        counts.add("failed", jobs.failed)?;
        counts.add("stopped", jobs.stopped)?;
        counts.add("missed", report.run.missed)?;
        counts.add("sent once more", jobs.retried)?;
        counts.add("bytes of bodies", jobs.bytes)?;
        counts.add("connections opened", connections.opened)?;
        counts.add("connections reused", connections.reused)?;
        counts.add("connections closed", connections.closed)?;
        counts.add("waits for a connection", connections.waited)?;
        counts.add_named(&STATUS_NAMES, &jobs.statuses)?;
        counts.add_named(&FAULT_NAMES, &jobs.faults)?;
        Ok(counts)
    }

    /// How high the table is.
    pub(crate) fn height(&self) -> u32 {
        let rows = self.rows.len().div_ceil(COLUMNS);
        u32::try_from(rows).unwrap_or(u32::MAX).saturating_mul(ROW)
    }

    /// Draws the table below that height, from column to column.
    pub(crate) fn draw(&self, drawing: &mut Drawing, top: u32) -> Result<(), AllocError> {
        let long = self.rows.len().div_ceil(COLUMNS).max(1);
        drawing.begin_group("counts", "")?;
        for (place, row) in self.rows.iter().enumerate() {
            let column = u32::try_from(place / long).unwrap_or(0);
            let line = u32::try_from(place % long).unwrap_or(0);
            let at = Point {
                x: LEFT.saturating_add(column.saturating_mul(COLUMN)),
                y: top.saturating_add(line.saturating_mul(ROW)),
            };
            draw_row(drawing, at, *row)?;
        }
        drawing.end_group()
    }

    // Adds a row.
    fn add(&mut self, name: &'static str, count: u64) -> Result<(), AllocError> {
        self.rows.push(Count { name, count })?;
        Ok(())
    }

    // Adds a row for each count that is not 0.
    fn add_named(&mut self, names: &[&'static str], counts: &[u64]) -> Result<(), AllocError> {
        for (name, count) in names.iter().zip(counts) {
            if *count > 0 {
                self.add(name, *count)?;
            }
        }
        Ok(())
    }
}

// Draws a row: its name, and its number to the right.
fn draw_row(drawing: &mut Drawing, at: Point, row: Count) -> Result<(), AllocError> {
    let Count { name, count } = row;
    drawing.text("name", at, Anchor::Start, name)?;
    let mut number = String::new(drawing.allocator());
    write!(number, "{count}")?;
    let end = Point {
        x: at.x.saturating_add(NUMBER),
        y: at.y,
    };
    drawing.text("number", end, Anchor::End, number.as_str())
}
