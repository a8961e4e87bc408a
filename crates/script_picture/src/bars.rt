//! Draws the bars of connections.

use crate::causes::word_of;
use crate::frame::Frame;
use crate::labels::{add_span, draw_transfer};
use crate::lane::{Bar, Lane, Part};
use crate::legend::draw_mark;
use crate::measures::{below, width_of};
use drawing::{Anchor, Drawing, Place, Point};
use std::alloc::{AllocError, Global};
use std::fmt::Write;

/// What stands between a mark and the number behind it.
const BEFORE_NUMBER: u32 = 4;

/// The height of a bar, and what lies above it in its row.
const BAR_HEIGHT: u32 = 18;

const ABOVE_BAR: u32 = 3;

/// Draws the bars of connections that are shown.
pub(crate) fn draw_bars(
    drawing: &mut Drawing,
    frame: Frame,
    lane: &Lane,
) -> Result<(), AllocError> {
    // Where the last bar of each row ended.
    let mut ends = Vec::new(drawing.allocator());
    ends.resize(lane.rows() as usize, 0u32)?;
    for bar in &lane.bars {
        if bar.span.is_shown() {
            draw_bar(drawing, frame, bar, &mut ends)?;
        }
    }
    Ok(())
}

// Draws the bar of a connection.
fn draw_bar(
    drawing: &mut Drawing,
    frame: Frame,
    bar: &Bar,
    ends: &mut Vec<u32>,
) -> Result<(), AllocError> {
    let title = bar_title(drawing.allocator(), frame.host, bar)?;
    drawing.begin_group("connection", title.as_str())?;
    let (x, width) = frame.scale.place(bar.span);
    let y = frame.row_top(bar.row).saturating_add(ABOVE_BAR);
    if let Some(end) = ends.get_mut(bar.row as usize) {
        draw_number(drawing, bar.number, Point { x, y }, *end)?;
        *end = x.saturating_add(width).saturating_add(frame.scale.radius());
    }
    for part in &bar.parts {
        draw_part(drawing, frame, bar, *part)?;
    }
    draw_closing(
        drawing,
        frame,
        bar,
        Point {
            x: x.saturating_add(width),
            y,
        },
    )?;
    drawing.end_group()
}

// Writes a connection's number to the left of its bar, if there is room behind that end.
fn draw_number(drawing: &mut Drawing, number: u32, at: Point, end: u32) -> Result<(), AllocError> {
    let mut text = String::new(drawing.allocator());
    write!(text, "{number}")?;
    let point = below(at.x.saturating_sub(4), at.y, 13);
    let needed = width_of(text.as_str()).saturating_add(BEFORE_NUMBER);
    if end.saturating_add(needed) > point.x {
        return Ok(());
    }
    drawing.text("number", point, Anchor::End, text.as_str())
}

// Draws a part of a connection's bar, if it is shown.
fn draw_part(drawing: &mut Drawing, frame: Frame, bar: &Bar, part: Part) -> Result<(), AllocError> {
    if !part.span.is_shown() {
        return Ok(());
    }
    let (x, width) = frame.scale.place(part.span);
    let place = Place {
        x,
        y: frame.row_top(bar.row).saturating_add(ABOVE_BAR),
        width,
        height: BAR_HEIGHT,
    };
    let title = part_title(drawing.allocator(), frame.host, bar.number, part)?;
    match part.holder {
        Some(transfer) => {
            drawing.rect("leased", place, title.as_str())?;
            let free = width.saturating_sub(mark_width(frame, bar, part));
            draw_transfer(
                drawing,
                Place {
                    width: free,
                    ..place
                },
                13,
                transfer,
            )
        }
        None => drawing.rect("idle", place, title.as_str()),
    }
}

// How much of a part is below the mark of the connection's close.
fn mark_width(frame: Frame, bar: &Bar, part: Part) -> u32 {
    if bar.cause.is_some() && part.span.to == bar.span.to {
        frame.scale.radius()
    } else {
        0
    }
}

// Draws the mark of a connection that was closed.
fn draw_closing(
    drawing: &mut Drawing,
    frame: Frame,
    bar: &Bar,
    end: Point,
) -> Result<(), AllocError> {
    let (Some(cause), Some(to)) = (bar.cause, bar.span.to) else {
        return Ok(());
    };
    let (host, number, moment) = (frame.host, bar.number, to.moment);
    let word = word_of(cause);
    let mut title = String::new(drawing.allocator());
    write!(title, "closed {host}.{number} {word} at {moment}")?;
    let mut class = String::new(drawing.allocator());
    write!(class, "closed {word}")?;
    drawing.begin_group(class.as_str(), title.as_str())?;
    let centre = below(end.x, end.y, BAR_HEIGHT / 2);
    draw_mark(drawing, cause, centre, frame.scale.radius())?;
    drawing.end_group()
}

// What a connection's bar tells.
fn bar_title(alloc: Global, host: usize, bar: &Bar) -> Result<String, AllocError> {
    let (number, opener, moment) = (bar.number, bar.opener, bar.span.from.moment);
    let mut title = String::new(alloc);
    write!(
        title,
        "connection {host}.{number}, opened for {opener} at {moment}"
    )?;
    if let (Some(cause), Some(to)) = (bar.cause, bar.span.to) {
        let (word, moment) = (word_of(cause), to.moment);
        write!(title, ", closed {word} at {moment}")?;
    }
    Ok(title)
}

// What a part of a connection's bar tells.
fn part_title(alloc: Global, host: usize, number: u32, part: Part) -> Result<String, AllocError> {
    let mut title = String::new(alloc);
    match part.holder {
        Some(transfer) => write!(title, "{host}.{number} leased to {transfer}")?,
        None => write!(title, "{host}.{number} idle")?,
    }
    add_span(&mut title, part.span)?;
    Ok(title)
}
