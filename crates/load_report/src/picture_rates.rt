//! Requests a second over time.

use crate::plot::{HEIGHT, LEFT, begin_of, draw_frame, draw_level, draw_moments, share};
use crate::report_numbers::{IntervalReport, LoadReport};
use crate::time::Time;
use drawing::{Drawing, Place};
use std::alloc::{AllocError, Global};
use std::fmt::Write;

/// Microseconds in a second.
const SECOND: u128 = 1_000_000;

/// Draws a bar for each interval below that height, with the part that failed at its foot.
pub(crate) fn draw_rates(
    drawing: &mut Drawing,
    top: u32,
    report: &LoadReport,
) -> Result<(), AllocError> {
    draw_frame(drawing, top, "Requests a second")?;
    let greatest = greatest_rate(report);
    for (level, down) in &[(greatest, 0), (greatest / 2, HEIGHT / 2)] {
        let mut text = String::new(drawing.allocator());
        write!(text, "{level}")?;
        draw_level(drawing, top, *down, text.as_str())?;
    }
    let intervals = report.intervals.len();
    for (place, interval) in report.intervals.iter().enumerate() {
        let begin = begin_of(place, intervals);
        let width = begin_of(place.saturating_add(1), intervals).saturating_sub(begin);
        let column = Place {
            x: LEFT.saturating_add(begin),
            y: top,
            width: width.saturating_sub(width / 4).max(1),
            height: HEIGHT,
        };
        draw_interval(drawing, column, report, interval, greatest)?;
    }
    draw_moments(drawing, top, shown_us(report))
}

/// How many microseconds all intervals last.
pub(crate) fn shown_us(report: &LoadReport) -> u64 {
    let intervals = report.intervals.len() as u64;
    report.interval_us.saturating_mul(intervals)
}

// Draws what was done in an interval at the foot of a column.
fn draw_interval(
    drawing: &mut Drawing,
    column: Place,
    report: &LoadReport,
    interval: &IntervalReport,
    greatest: u64,
) -> Result<(), AllocError> {
    if interval.requests == 0 {
        return Ok(());
    }
    let title = title_of(drawing.allocator(), interval)?;
    let rate = rate_of(interval.requests, report.interval_us);
    let all = foot(column, share(rate, greatest, HEIGHT).max(1));
    drawing.rect("interval", all, title.as_str())?;
    if interval.failed == 0 {
        return Ok(());
    }
    let failed = share(interval.failed, interval.requests, all.height).max(2);
    drawing.rect("failed", foot(column, failed), title.as_str())
}

// The lowest pixels of a column.
fn foot(column: Place, pixels: u32) -> Place {
    let above = column.height.saturating_sub(pixels);
    Place {
        y: column.y.saturating_add(above),
        height: pixels,
        ..column
    }
}

// What the marks of an interval tell.
fn title_of(alloc: Global, interval: &IntervalReport) -> Result<String, AllocError> {
    let (requests, failed) = (interval.requests, interval.failed);
    let start = Time(interval.start_us);
    let mut title = String::new(alloc);
    write!(title, "from {start}: {requests} requests, {failed} failed")?;
    Ok(title)
}

// How many there are in a second, if there are so many in that time.
fn rate_of(requests: u64, interval_us: u64) -> u64 {
    let rate = (requests as u128 * SECOND) / (interval_us.max(1) as u128);
    u64::try_from(rate).unwrap_or(u64::MAX)
}

// The greatest rate of the intervals, or 1 if there is none.
fn greatest_rate(report: &LoadReport) -> u64 {
    let mut greatest = 1;
    for interval in &report.intervals {
        greatest = rate_of(interval.requests, report.interval_us).max(greatest);
    }
    greatest
}
