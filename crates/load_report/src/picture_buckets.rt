//! The histogram of latencies, with percentiles as lines.

use crate::log_scale::{DECADES, LogScale};
use crate::plot::{HEIGHT, LEFT, WIDTH, draw_frame, draw_level, point, share};
use crate::report_numbers::{Bucket, Latencies, LoadReport};
use crate::time::Time;
use drawing::{Anchor, Drawing, Place};
use std::alloc::{AllocError, Global};
use std::fmt::Write;

/// How wide the name of a percentile is at most.
const NAME: u32 = 150;

/// The buckets that begin at one pixel.
#[derive(Clone, Copy)]
struct Pile {
    /// How far right of the plot's left edge.
    right: u32,
    /// The least latency of the first of them, and of the last.
    lowest_us: u64,
    last_us: u64,
    count: u64,
}

/// Draws the histogram below that height: a bar for the buckets of each pixel.
pub(crate) fn draw_buckets(
    drawing: &mut Drawing,
    top: u32,
    report: &LoadReport,
) -> Result<(), AllocError> {
    draw_frame(drawing, top, "Requests by latency")?;
    let scale = scale_of(&report.buckets);
    let piles = piles_of(drawing.allocator(), scale, &report.buckets)?;
    let mut greatest = 1;
    for pile in &piles {
        greatest = pile.count.max(greatest);
    }
    let mut text = String::new(drawing.allocator());
    write!(text, "{greatest}")?;
    draw_level(drawing, top, 0, text.as_str())?;
    for pile in &piles {
        draw_pile(drawing, top, *pile, greatest)?;
    }
    draw_decades(drawing, top, scale)?;
    match report.jobs.latencies {
        Some(latencies) => draw_percentiles(drawing, top, scale, latencies),
        None => Ok(()),
    }
}

// The scale of all buckets.
fn scale_of(buckets: &[Bucket]) -> LogScale {
    let least = buckets.first().map_or(1, |bucket| bucket.lowest_us);
    let greatest = buckets.last().map_or(1, |bucket| bucket.lowest_us);
    LogScale::new(least, greatest, WIDTH)
}

// The buckets of each pixel, from left to right.
fn piles_of(alloc: Global, scale: LogScale, buckets: &[Bucket]) -> Result<Vec<Pile>, AllocError> {
    let mut piles: Vec<Pile> = Vec::new(alloc);
    for bucket in buckets {
        let right = scale.at(bucket.lowest_us);
        match piles.last_mut() {
            Some(pile) if pile.right == right => {
                pile.last_us = bucket.lowest_us;
                pile.count = pile.count.saturating_add(bucket.count);
            }
            _ => piles.push(Pile {
                right,
                lowest_us: bucket.lowest_us,
                last_us: bucket.lowest_us,
                count: bucket.count,
            })?,
        }
    }
    Ok(piles)
}

// Draws a bar.
fn draw_pile(drawing: &mut Drawing, top: u32, pile: Pile, greatest: u64) -> Result<(), AllocError> {
    let height = share(pile.count, greatest, HEIGHT).max(1);
    let place = Place {
        x: LEFT.saturating_add(pile.right),
        y: top.saturating_add(HEIGHT.saturating_sub(height)),
        width: 2,
        height,
    };
    let (lowest, last, count) = (Time(pile.lowest_us), Time(pile.last_us), pile.count);
    let mut title = String::new(drawing.allocator());
    write!(title, "{lowest}")?;
    if pile.lowest_us < pile.last_us {
        write!(title, " to {last}")?;
    }
    write!(title, ": {count} requests")?;
    drawing.rect("bucket", place, title.as_str())
}

// Writes the decades below.
fn draw_decades(drawing: &mut Drawing, top: u32, scale: LogScale) -> Result<(), AllocError> {
    for decade in &DECADES {
        if scale.has(*decade) {
            let time = Time(*decade);
            let mut text = String::new(drawing.allocator());
            write!(text, "{time}")?;
            let below = point(top, scale.at(*decade), HEIGHT.saturating_add(18));
            drawing.text("note", below, Anchor::Middle, text.as_str())?;
        }
    }
    Ok(())
}

// Draws a line for each percentile, and writes their names over the lines, one below the other.
fn draw_percentiles(
    drawing: &mut Drawing,
    top: u32,
    scale: LogScale,
    latencies: Latencies,
) -> Result<(), AllocError> {
    let percentiles = [
        ("50%", latencies.p50),
        ("90%", latencies.p90),
        ("99%", latencies.p99),
        ("99.9%", latencies.p999),
    ];
    for (name, latency) in &percentiles {
        let title = percentile_title(drawing.allocator(), name, *latency)?;
        let right = scale.at(*latency);
        let (head, foot) = (point(top, right, 0), point(top, right, HEIGHT));
        drawing.line("percentile", head, foot, title.as_str())?;
    }
    let mut down = 14u32;
    for (name, latency) in &percentiles {
        let title = percentile_title(drawing.allocator(), name, *latency)?;
        draw_name(drawing, top, scale.at(*latency), down, title.as_str())?;
        down = down.saturating_add(18);
    }
    Ok(())
}

// Writes the name of a percentile to the right of its line, or to the left if there is no room.
fn draw_name(
    drawing: &mut Drawing,
    top: u32,
    right: u32,
    down: u32,
    name: &str,
) -> Result<(), AllocError> {
    if right < WIDTH - NAME {
        let begin = point(top, right.saturating_add(6), down);
        return drawing.text("over", begin, Anchor::Start, name);
    }
    let end = point(top, right.saturating_sub(6), down);
    drawing.text("over", end, Anchor::End, name)
}

// What the line of a percentile tells.
fn percentile_title(alloc: Global, name: &str, latency: u64) -> Result<String, AllocError> {
    let time = Time(latency);
    let mut title = String::new(alloc);
    write!(title, "{name} within {time}")?;
    Ok(title)
}
