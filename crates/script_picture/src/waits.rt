//! Draws the bars of waiters.

use crate::frame::Frame;
use crate::labels::{add_span, draw_transfer};
use crate::lane::{Wait, WaitEnd};
use drawing::{Drawing, Place};
use std::alloc::{AllocError, Global};
use std::fmt::Write;

/// Draws the bar of a waiter, if it is shown.
pub(crate) fn draw_wait(drawing: &mut Drawing, frame: Frame, wait: Wait) -> Result<(), AllocError> {
    if !wait.span.is_shown() {
        return Ok(());
    }
    let title = wait_title(drawing.allocator(), frame.host, wait)?;
    let (x, width) = frame.scale.place(wait.span);
    let place = Place {
        x,
        y: frame.wait_top(wait.row),
        width,
        height: 14,
    };
    drawing.begin_group("waiter", title.as_str())?;
    drawing.rect("wait", place, "")?;
    draw_transfer(drawing, place, 11, wait.transfer)?;
    drawing.end_group()
}

// What a waiter's bar tells.
fn wait_title(alloc: Global, host: usize, wait: Wait) -> Result<String, AllocError> {
    let Wait { transfer, end, .. } = wait;
    let mut title = String::new(alloc);
    write!(title, "transfer {transfer} waits")?;
    add_span(&mut title, wait.span)?;
    match end {
        Some(WaitEnd::Got(connection)) => write!(title, ", then gets {host}.{connection}")?,
        Some(WaitEnd::Left) => title.push_str(", then leaves")?,
        None => {}
    }
    Ok(title)
}
