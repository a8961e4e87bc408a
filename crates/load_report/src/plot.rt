//! The plots of the picture: where they stand, and their axes.

use crate::time::Time;
use drawing::{Anchor, Drawing, Point};
use std::alloc::AllocError;
use std::fmt::Write;

/// What stands to the left of the plots, and how wide they are.
pub(crate) const LEFT: u32 = 90;

pub(crate) const WIDTH: u32 = 800;

/// How high a plot is.
pub(crate) const HEIGHT: u32 = 160;

/// How many parts the axis of time has.
const PARTS: u32 = 5;

/// The point of a plot whose upper edge is at that height, so far from its left and upper edge.
pub(crate) fn point(top: u32, right: u32, down: u32) -> Point {
    Point {
        x: LEFT.saturating_add(right),
        y: top.saturating_add(down),
    }
}

/// Where the interval of that place begins, of so many that are as wide as a plot.
pub(crate) fn begin_of(place: usize, intervals: usize) -> u32 {
    let part = (place as u128 * WIDTH as u128) / (intervals.max(1) as u128);
    u32::try_from(part).unwrap_or(WIDTH).min(WIDTH)
}

/// How many pixels of so many a count takes, where the greatest takes all; none of nothing.
pub(crate) fn share(count: u64, greatest: u64, pixels: u32) -> u32 {
    let part = (count as u128 * pixels as u128) / (greatest.max(1) as u128);
    u32::try_from(part).unwrap_or(pixels).min(pixels)
}

/// Draws the heading of a plot, and its axis below.
pub(crate) fn draw_frame(drawing: &mut Drawing, top: u32, heading: &str) -> Result<(), AllocError> {
    let above = Point {
        x: LEFT,
        y: top.saturating_sub(10),
    };
    drawing.text("heading", above, Anchor::Start, heading)?;
    drawing.line("axis", point(top, 0, HEIGHT), point(top, WIDTH, HEIGHT), "")
}

/// Draws a line over a plot at that height below its upper edge, and a text before it.
pub(crate) fn draw_level(
    drawing: &mut Drawing,
    top: u32,
    down: u32,
    text: &str,
) -> Result<(), AllocError> {
    drawing.line("grid", point(top, 0, down), point(top, WIDTH, down), "")?;
    let before = Point {
        x: LEFT.saturating_sub(8),
        y: top.saturating_add(down).saturating_add(4),
    };
    drawing.text("note", before, Anchor::End, text)
}

/// Writes moments below a plot over that many microseconds.
pub(crate) fn draw_moments(
    drawing: &mut Drawing,
    top: u32,
    elapsed_us: u64,
) -> Result<(), AllocError> {
    for part in 0..=PARTS {
        let time = Time((elapsed_us / PARTS as u64).saturating_mul(part as u64));
        let right = (WIDTH / PARTS).saturating_mul(part);
        let mut text = String::new(drawing.allocator());
        write!(text, "{time}")?;
        let below = point(top, right, HEIGHT.saturating_add(18));
        drawing.text("note", below, Anchor::Middle, text.as_str())?;
    }
    Ok(())
}
