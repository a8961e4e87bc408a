//! How far things stand apart, in pixels.

use crate::lane::{Span, When};
use drawing::Point;

/// What stands to the left of the first slot.
pub(crate) const LEFT: u32 = 56;

/// What stands to the right of the last slot.
const RIGHT: u32 = 24;

/// The width of a picture with few events.
const LEAST_WIDTH: u32 = 870;

/// The widest that a slot is, and the narrowest.
const WIDEST_SLOT: u32 = 32;

const NARROWEST_SLOT: u32 = 6;

/// How wide all slots together may be before they get narrower than the widest.
const WIDE: u32 = 14_000;

/// The width of a character, about.
pub(crate) const CHARACTER: u32 = 7;

/// Where slots stand.
#[derive(Clone, Copy)]
pub(crate) struct Scale {
    slots: u32,
    slot_width: u32,
}

impl Scale {
    /// That of so many slots.
    pub(crate) fn new(slots: u32) -> Scale {
        let fair = WIDE / slots.max(1);
        Scale {
            slots,
            slot_width: fair.clamp(NARROWEST_SLOT, WIDEST_SLOT),
        }
    }

    /// The left edge of a slot.
    pub(crate) fn edge(self, slot: u32) -> u32 {
        LEFT.saturating_add(slot.saturating_mul(self.slot_width))
    }

    /// The right edge of the last slot.
    pub(crate) fn right(self) -> u32 {
        self.edge(self.slots)
    }

    /// The width of the picture.
    pub(crate) fn width(self) -> u32 {
        self.right().saturating_add(RIGHT).max(LEAST_WIDTH)
    }

    /// Where something happened: in the middle of its slot.
    pub(crate) fn at(self, when: When) -> u32 {
        match when.slot {
            Some(slot) => self.edge(slot).saturating_add(self.slot_width / 2),
            None => LEFT,
        }
    }

    /// Where something began, and how wide it is.
    pub(crate) fn place(self, span: Span) -> (u32, u32) {
        let from = self.at(span.from);
        let to = match span.to {
            Some(to) => self.at(to),
            None => self.right(),
        };
        (from, to.saturating_sub(from))
    }

    /// The radius of the mark of a closed connection.
    pub(crate) fn radius(self) -> u32 {
        (self.slot_width / 2).min(8)
    }
}

/// How wide a text is, about.
pub(crate) fn width_of(text: &str) -> u32 {
    u32::try_from(text.len())
        .unwrap_or(u32::MAX)
        .saturating_mul(CHARACTER)
}

/// The point that lies so far below a height.
pub(crate) fn below(x: u32, y: u32, distance: u32) -> Point {
    Point {
        x,
        y: y.saturating_add(distance),
    }
}
