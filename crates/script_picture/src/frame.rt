//! Where a host's lane stands.

use crate::lane::Lane;
use crate::measures::Scale;

/// The height of the name, of a row of connections, of one of waiters, and what lies between these,
/// where the limit has its name.
const NAME_HEIGHT: u32 = 26;

pub(crate) const ROW_HEIGHT: u32 = 24;

const WAIT_HEIGHT: u32 = 18;

const GAP: u32 = 16;

/// How many rows above those of connections a limit may be to be drawn.
const NEAR: u32 = 3;

/// Where a host's lane stands.
#[derive(Clone, Copy)]
pub(crate) struct Frame {
    pub(crate) scale: Scale,
    /// The host's index.
    pub(crate) host: usize,
    /// The upper edge of the lane.
    pub(crate) top: u32,
    /// The lower edge of the lowest row.
    pub(crate) bottom: u32,
    /// How many rows for connections there are.
    pub(crate) rows: u32,
}

impl Frame {
    /// The frame of that host's lane below that height.
    pub(crate) fn new(scale: Scale, host: usize, top: u32, lane: &Lane) -> Frame {
        let rows = rows_of(lane);
        let waiting = lane.waiting_rows().saturating_mul(WAIT_HEIGHT);
        let bars = rows.saturating_mul(ROW_HEIGHT);
        let bottom = top
            .saturating_add(NAME_HEIGHT)
            .saturating_add(waiting)
            .saturating_add(GAP)
            .saturating_add(bars);
        Frame {
            scale,
            host,
            top,
            bottom,
            rows,
        }
    }

    /// The upper edge of a row of connections.
    pub(crate) fn row_top(self, row: u32) -> u32 {
        let rows = row.saturating_add(1).saturating_mul(ROW_HEIGHT);
        self.bottom.saturating_sub(rows)
    }

    /// The upper edge of a row of waiters.
    pub(crate) fn wait_top(self, row: u32) -> u32 {
        let waiting = row.saturating_add(1).saturating_mul(WAIT_HEIGHT);
        let bars = self.rows.saturating_mul(ROW_HEIGHT);
        self.bottom
            .saturating_sub(bars)
            .saturating_sub(GAP)
            .saturating_sub(waiting)
    }
}

// How many rows a lane has for connections: those that are taken, and those up to a limit near
// them.
fn rows_of(lane: &Lane) -> u32 {
    let taken = lane.rows();
    let mut rows = taken;
    for limit in &lane.limits {
        if limit.limit <= taken.saturating_add(NEAR) {
            rows = rows.max(limit.limit);
        }
    }
    rows
}
