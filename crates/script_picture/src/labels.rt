//! What bars of connections and of waiters have: the number of a transfer, and how long it lasted.

use crate::lane::Span;
use crate::measures::{below, width_of};
use drawing::{Anchor, Drawing, Place};
use std::alloc::AllocError;
use std::fmt::Write;

/// Writes the number of a transfer into its bar, so far below the bar's upper edge, if it fits.
pub(crate) fn draw_transfer(
    drawing: &mut Drawing,
    place: Place,
    distance: u32,
    transfer: u64,
) -> Result<(), AllocError> {
    let mut text = String::new(drawing.allocator());
    write!(text, "{transfer}")?;
    if width_of(text.as_str()).saturating_add(4) > place.width {
        return Ok(());
    }
    let middle = place.x.saturating_add(place.width / 2);
    let point = below(middle, place.y, distance);
    drawing.text("holder", point, Anchor::Middle, text.as_str())
}

/// Adds how long something lasted to a title.
pub(crate) fn add_span(title: &mut String, span: Span) -> Result<(), AllocError> {
    let moment = span.from.moment;
    match span.to {
        Some(to) => {
            let end = to.moment;
            write!(title, " from {moment} to {end}")
        }
        None => write!(title, " since {moment}"),
    }
}
