//! Draws the lane of a host.

use crate::bars::draw_bars;
use crate::frame::{Frame, ROW_HEIGHT};
use crate::lane::{Lane, LimitSpan};
use crate::measures::{CHARACTER, LEFT, below, width_of};
use crate::waits::draw_wait;
use drawing::{Anchor, Drawing, Point};
use std::alloc::AllocError;
use std::fmt::Write;

/// Draws the lane of a host of that name.
pub(crate) fn draw_lane(
    drawing: &mut Drawing,
    frame: Frame,
    name: &str,
    lane: &Lane,
) -> Result<(), AllocError> {
    drawing.begin_group("host", name)?;
    draw_name(drawing, frame, name)?;
    for limit in &lane.limits {
        draw_limit(drawing, frame, *limit)?;
    }
    for wait in &lane.waits {
        draw_wait(drawing, frame, *wait)?;
    }
    draw_bars(drawing, frame, lane)?;
    drawing.end_group()
}

// Writes the name of a host, or as much of it as fits, and draws the edge below the lane.
fn draw_name(drawing: &mut Drawing, frame: Frame, name: &str) -> Result<(), AllocError> {
    let mut text = String::new(drawing.allocator());
    let most = frame.scale.width().saturating_sub(LEFT) / CHARACTER;
    let mut count = 0u32;
    for c in name.chars() {
        if count < most {
            text.push(c)?;
        } else if count == most {
            text.push('…')?;
        }
        count = count.saturating_add(1);
    }
    drawing.text(
        "name",
        below(LEFT, frame.top, 18),
        Anchor::Start,
        text.as_str(),
    )?;
    let from = Point {
        x: LEFT,
        y: frame.bottom,
    };
    let to = Point {
        x: frame.scale.right(),
        y: frame.bottom,
    };
    drawing.line("edge", from, to, "")
}

// Draws a limit, if it has a row.
fn draw_limit(drawing: &mut Drawing, frame: Frame, limit: LimitSpan) -> Result<(), AllocError> {
    let LimitSpan { limit, span } = limit;
    if limit == 0 || limit > frame.rows || !span.is_shown() {
        return Ok(());
    }
    let (x, width) = frame.scale.place(span);
    let rows = limit.saturating_mul(ROW_HEIGHT);
    let y = frame.bottom.saturating_sub(rows);
    let moment = span.from.moment;
    let mut title = String::new(drawing.allocator());
    write!(title, "at most {limit} open from {moment} on")?;
    let to = Point {
        x: x.saturating_add(width),
        y,
    };
    drawing.line("limit", Point { x, y }, to, title.as_str())?;
    let mut name = String::new(drawing.allocator());
    write!(name, "limit {limit}")?;
    if width < width_of(name.as_str()) {
        return Ok(());
    }
    let end = Point {
        x: to.x,
        y: y.saturating_sub(3),
    };
    drawing.text("note", end, Anchor::End, name.as_str())
}
