//! Latencies over time, on a logarithmic scale.

use crate::log_scale::{DECADES, LogScale};
use crate::picture_rates::shown_us;
use crate::plot::{HEIGHT, begin_of, draw_frame, draw_level, draw_moments, point};
use crate::report_numbers::{IntervalLatency, LoadReport};
use crate::time::Time;
use drawing::Drawing;
use std::alloc::AllocError;
use std::fmt::Write;

/// An interval of the plot: its begin, how wide it is, and its latencies.
#[derive(Clone, Copy)]
struct Step {
    begin: u32,
    width: u32,
    start_us: u64,
    latency: IntervalLatency,
}

/// Draws three marks for each interval below that height: its median, its 99th percentile and its
/// greatest latency.
pub(crate) fn draw_latencies(
    drawing: &mut Drawing,
    top: u32,
    report: &LoadReport,
) -> Result<(), AllocError> {
    draw_frame(drawing, top, "Latency")?;
    let scale = scale_of(report);
    for decade in &DECADES {
        if scale.has(*decade) {
            let time = Time(*decade);
            let mut text = String::new(drawing.allocator());
            write!(text, "{time}")?;
            draw_level(drawing, top, down(scale, *decade), text.as_str())?;
        }
    }
    let intervals = report.intervals.len();
    for (place, interval) in report.intervals.iter().enumerate() {
        if let Some(latency) = interval.latency {
            let begin = begin_of(place, intervals);
            let end = begin_of(place.saturating_add(1), intervals);
            let step = Step {
                begin,
                width: end.saturating_sub(begin),
                start_us: interval.start_us,
                latency,
            };
            draw_step(drawing, top, scale, step)?;
        }
    }
    draw_moments(drawing, top, shown_us(report))
}

// The scale from the least median to the greatest latency.
fn scale_of(report: &LoadReport) -> LogScale {
    let mut least = u64::MAX;
    let mut greatest = 1;
    for interval in &report.intervals {
        if let Some(latency) = interval.latency {
            least = least.min(latency.p50_us);
            greatest = greatest.max(latency.max_us);
        }
    }
    LogScale::new(least.min(greatest), greatest, HEIGHT)
}

// How far a latency is below the upper edge.
fn down(scale: LogScale, latency: u64) -> u32 {
    HEIGHT.saturating_sub(scale.at(latency))
}

// Draws the three marks of an interval.
fn draw_step(
    drawing: &mut Drawing,
    top: u32,
    scale: LogScale,
    step: Step,
) -> Result<(), AllocError> {
    let IntervalLatency {
        p50_us,
        p99_us,
        max_us,
    } = step.latency;
    draw_mark(
        drawing,
        top,
        step,
        down(scale, max_us),
        ("greatest", max_us),
    )?;
    draw_mark(drawing, top, step, down(scale, p99_us), ("p99", p99_us))?;
    draw_mark(drawing, top, step, down(scale, p50_us), ("p50", p50_us))
}

// Draws a mark of that name for that latency.
fn draw_mark(
    drawing: &mut Drawing,
    top: u32,
    step: Step,
    down: u32,
    what: (&'static str, u64),
) -> Result<(), AllocError> {
    let (name, latency) = what;
    let (start, time) = (Time(step.start_us), Time(latency));
    let mut title = String::new(drawing.allocator());
    write!(title, "from {start}: {name} {time}")?;
    let mut class = String::new(drawing.allocator());
    write!(class, "latency {name}")?;
    let from = point(top, step.begin, down);
    let to = point(top, step.begin.saturating_add(step.width), down);
    drawing.line(class.as_str(), from, to, title.as_str())
}
