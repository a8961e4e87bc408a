//! The picture of a script.

use crate::frame::Frame;
use crate::lane::Lane;
use crate::lanes::draw_lane;
use crate::legend::Legend;
use crate::measures::{LEFT, Scale, below, width_of};
use crate::reading::lane_of;
use crate::style::STYLE;
use crate::timeline::Timeline;
use conn_log::Entry;
use drawing::{Anchor, Drawing, Point, Size};
use script_text::Limits;
use std::alloc::{AllocError, Global};
use std::fmt::Write;

/// What stands above the legend, between it and the moments, and below the lowest lane.
const HEAD: u32 = 64;

const AXIS: u32 = 28;

const FOOT: u32 = 16;

/// The title of the picture.
const TITLE: &str = "Connections of a script";

/// A host of a script.
#[derive(Clone, Copy)]
pub struct PicturedHost<'a> {
    /// Its site, as a URL.
    pub site: &'a str,
    /// Its log, oldest entry first.
    pub log: &'a [Entry],
}

/// The picture of a script whose hosts are these, under these limits if it gave some: an SVG.
///
/// It has a group `host` for each host, and in it a group `connection` for each connection that was
/// open at one of the newest 10,000 events or after them, with parts `leased` and `idle`, and a
/// group `closed` if it was closed; a group `waiter` for each wait; and a line `limit` for each
/// limit of the host that is not far above what was open. Each has a title, which browsers show.
/// Events of one moment stand side by side, in the order of their host's log.
///
/// # Errors
///
/// There is no memory for it.
pub fn picture_of(
    alloc: Global,
    limits: Option<Limits>,
    hosts: &[PicturedHost<'_>],
) -> Result<String, AllocError> {
    let mut logs = Vec::new(alloc);
    for host in hosts {
        logs.push(host.log)?;
    }
    let timeline = Timeline::new(alloc, logs.as_slice())?;
    let limit = limits.map_or(0, |limits| limits.host);
    let lanes = lanes_of(alloc, &timeline, logs.as_slice(), limit)?;
    let scale = Scale::new(timeline.slots);
    let legend = Legend::new(alloc, lanes.as_slice(), scale.width())?;
    let axis = HEAD.saturating_add(legend.height());
    let frames = frames_of(alloc, scale, axis.saturating_add(AXIS), lanes.as_slice())?;
    let bottom = frames.last().map_or(axis, |frame| frame.bottom);
    let size = Size {
        width: scale.width(),
        height: bottom.saturating_add(FOOT),
    };
    let mut drawing = Drawing::new(alloc, size, TITLE, STYLE)?;
    draw_head(&mut drawing, limits, &timeline, logs.as_slice())?;
    legend.draw(&mut drawing, HEAD)?;
    draw_moments(&mut drawing, scale, &timeline, axis, bottom)?;
    draw_lanes(&mut drawing, hosts, &frames, &lanes)?;
    drawing.finish()
}

// The lanes of hosts with these logs.
fn lanes_of(
    alloc: Global,
    timeline: &Timeline,
    logs: &[&[Entry]],
    limit: u32,
) -> Result<Vec<Lane>, AllocError> {
    let mut lanes = Vec::new(alloc);
    for (log, shown) in logs.iter().zip(timeline.shown.iter()) {
        lanes.push(lane_of(alloc, timeline, log, *shown, limit)?)?;
    }
    Ok(lanes)
}

// Where the lanes stand, one under the other below that height.
fn frames_of(
    alloc: Global,
    scale: Scale,
    top: u32,
    lanes: &[Lane],
) -> Result<Vec<Frame>, AllocError> {
    let mut frames = Vec::new(alloc);
    let mut top = top;
    for (host, lane) in lanes.iter().enumerate() {
        let frame = Frame::new(scale, host, top, lane);
        top = frame.bottom;
        frames.push(frame)?;
    }
    Ok(frames)
}

// Writes the title, and what is drawn under which limits.
fn draw_head(
    drawing: &mut Drawing,
    limits: Option<Limits>,
    timeline: &Timeline,
    logs: &[&[Entry]],
) -> Result<(), AllocError> {
    drawing.text("title", Point { x: LEFT, y: 28 }, Anchor::Start, TITLE)?;
    let mut all = 0usize;
    for log in logs {
        all = all.saturating_add(log.len());
    }
    let shown = timeline
        .shown
        .iter()
        .fold(0usize, |sum, shown| sum.saturating_add(*shown));
    let mut note = String::new(drawing.allocator());
    if shown < all {
        write!(note, "the newest {shown} of ")?;
    }
    write!(note, "{all} events")?;
    add_limits(&mut note, limits)?;
    drawing.text(
        "note",
        Point { x: LEFT, y: 48 },
        Anchor::Start,
        note.as_str(),
    )
}

// Adds the limits, if there are some.
fn add_limits(note: &mut String, limits: Option<Limits>) -> Result<(), AllocError> {
    let Some(Limits { host, total, kept }) = limits else {
        return Ok(());
    };
    note.push_str("; at most ")?;
    add_limit(note, host, " open to a host, ")?;
    add_limit(note, total, " open in all, ")?;
    write!(note, "{kept} kept idle")
}

// Adds a limit of open connections, and what it limits.
fn add_limit(note: &mut String, limit: u32, what: &str) -> Result<(), AllocError> {
    if limit == 0 {
        write!(note, "any number{what}")
    } else {
        write!(note, "{limit}{what}")
    }
}

// Draws a line at the begin of each moment from the axis to the bottom, and writes as many of the
// moments as there is room for.
fn draw_moments(
    drawing: &mut Drawing,
    scale: Scale,
    timeline: &Timeline,
    axis: u32,
    bottom: u32,
) -> Result<(), AllocError> {
    let label = below(LEFT.saturating_sub(6), axis, 18);
    drawing.text("note", label, Anchor::End, "second")?;
    let mut end = 0;
    for column in &timeline.columns {
        let x = scale.edge(column.slot);
        let from = below(x, axis, 4);
        drawing.line("moment", from, Point { x, y: bottom }, "")?;
        if x >= end {
            let text = drawn_moment(drawing, x, axis, column.moment)?;
            end = x.saturating_add(text).saturating_add(8);
        }
    }
    Ok(())
}

// Writes a moment; gives how wide it is.
fn drawn_moment(drawing: &mut Drawing, x: u32, axis: u32, moment: u64) -> Result<u32, AllocError> {
    let mut text = String::new(drawing.allocator());
    write!(text, "{moment}")?;
    let at = below(x.saturating_add(3), axis, 18);
    drawing.text("note", at, Anchor::Start, text.as_str())?;
    Ok(width_of(text.as_str()))
}

// Draws the lane of each host in its frame.
fn draw_lanes(
    drawing: &mut Drawing,
    hosts: &[PicturedHost<'_>],
    frames: &[Frame],
    lanes: &[Lane],
) -> Result<(), AllocError> {
    for ((host, frame), lane) in hosts.iter().zip(frames.iter()).zip(lanes.iter()) {
        let (index, site) = (frame.host, host.site);
        let mut name = String::new(drawing.allocator());
        write!(name, "host {index}: {site}")?;
        draw_lane(drawing, *frame, name.as_str(), lane)?;
    }
    Ok(())
}
