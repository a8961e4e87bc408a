//! The picture of a load.

use crate::picture_buckets::draw_buckets;
use crate::picture_counts::Counts;
use crate::picture_latencies::draw_latencies;
use crate::picture_rates::draw_rates;
use crate::plot::{HEIGHT, LEFT, WIDTH};
use crate::report_numbers::LoadReport;
use crate::style::STYLE;
use crate::time::Time;
use drawing::{Anchor, Drawing, Place, Point, Size};
use std::alloc::{AllocError, Global};
use std::fmt::Write;

/// The title of the picture.
const TITLE: &str = "A load";

/// Where the legend and the plots begin, how far a plot is from the next, and what stands to the
/// right of the plots and below the table.
const LEGEND: u32 = 62;

const PLOTS: u32 = 122;

const APART: u32 = 60;

const RIGHT: u32 = 40;

const FOOT: u32 = 10;

/// How far an item of the legend is from the next.
const ITEM: u32 = 160;

/// The picture of a load with these numbers: an SVG.
///
/// It has, for each interval in which a request ended, a bar `interval` for the requests a second,
/// with a bar `failed` in it if some failed, and three lines `latency` for the median, the 99th
/// percentile and the greatest latency, on a logarithmic scale; a bar `bucket` for the latencies
/// that are one pixel of the histogram, and a line for each percentile; a table of counts; and a
/// group `legend`. Each bar and line has a title, which browsers show.
///
/// # Errors
///
/// There is no memory for it.
pub fn picture_of(alloc: Global, report: &LoadReport) -> Result<String, AllocError> {
    let counts = Counts::new(alloc, report)?;
    let plot = HEIGHT.saturating_add(APART);
    let latencies = PLOTS.saturating_add(plot);
    let buckets = latencies.saturating_add(plot);
    let table = buckets.saturating_add(plot);
    let size = Size {
        width: LEFT.saturating_add(WIDTH).saturating_add(RIGHT),
        height: table.saturating_add(counts.height()).saturating_add(FOOT),
    };
    let mut drawing = Drawing::new(alloc, size, TITLE, STYLE)?;
    draw_head(&mut drawing, report)?;
    draw_legend(&mut drawing)?;
    draw_rates(&mut drawing, PLOTS, report)?;
    draw_latencies(&mut drawing, latencies, report)?;
    draw_buckets(&mut drawing, buckets, report)?;
    counts.draw(&mut drawing, table)?;
    drawing.finish()
}

// Writes the title, and what was done in which time.
fn draw_head(drawing: &mut Drawing, report: &LoadReport) -> Result<(), AllocError> {
    drawing.text("title", Point { x: LEFT, y: 28 }, Anchor::Start, TITLE)?;
    let (requests, failed) = (report.jobs.requests, report.jobs.failed);
    let elapsed = Time(report.run.elapsed_us);
    let mut note = String::new(drawing.allocator());
    write!(note, "{requests} requests in {elapsed}, {failed} failed")?;
    drawing.text(
        "note",
        Point { x: LEFT, y: 48 },
        Anchor::Start,
        note.as_str(),
    )
}

// Draws the legend.
fn draw_legend(drawing: &mut Drawing) -> Result<(), AllocError> {
    drawing.begin_group("legend", "")?;
    let items = [
        ("key-interval", "requests"),
        ("key-failed", "failed requests"),
        ("key-latency p50", "50% of latencies"),
        ("key-latency p99", "99% of latencies"),
        ("key-latency greatest", "greatest latency"),
    ];
    let mut x = LEFT;
    for (class, meaning) in &items {
        draw_item(drawing, class, x)?;
        let begin = Point {
            x: x.saturating_add(26),
            y: LEGEND.saturating_add(12),
        };
        drawing.text("meaning", begin, Anchor::Start, meaning)?;
        x = x.saturating_add(ITEM);
    }
    drawing.end_group()
}

// Draws a sample of that class: a line of a latency, or a square.
fn draw_item(drawing: &mut Drawing, class: &str, x: u32) -> Result<(), AllocError> {
    if class.starts_with("key-latency") {
        let y = LEGEND.saturating_add(8);
        let end = x.saturating_add(18);
        return drawing.line(class, Point { x, y }, Point { x: end, y }, "");
    }
    let square = Place {
        x,
        y: LEGEND,
        width: 18,
        height: 16,
    };
    drawing.rect(class, square, "")
}
