//! The legend: what shapes and colours mean.

use crate::causes::{CAUSES, letter_of, word_of};
use crate::lane::Lane;
use crate::measures::{LEFT, below};
use conn_log::Cause;
use drawing::{Anchor, Drawing, Place, Point};
use std::alloc::{AllocError, Global};

/// The width of an item.
const ITEM_WIDTH: u32 = 268;

/// The height of a row of items.
const ITEM_HEIGHT: u32 = 24;

/// How wide the sample of an item is.
const SAMPLE: u32 = 34;

/// The least radius of a mark that has a letter in it.
const LEAST_RADIUS: u32 = 7;

/// What an item explains.
#[derive(Clone, Copy)]
enum Item {
    Leased,
    Idle,
    Waiter,
    Limit,
    Closed(Cause),
}

/// The items of a legend.
#[derive(Drop)]
pub(crate) struct Legend {
    items: Vec<Item>,
    columns: u32,
}

impl Legend {
    /// The legend of these lanes, for a picture of that width.
    pub(crate) fn new(alloc: Global, lanes: &[Lane], width: u32) -> Result<Legend, AllocError> {
        let mut items = Vec::new(alloc);
        for item in &[Item::Leased, Item::Idle, Item::Waiter, Item::Limit] {
            items.push(*item)?;
        }
        for cause in &CAUSES {
            if lanes.iter().any(|lane| has_cause(lane, *cause)) {
                items.push(Item::Closed(*cause))?;
            }
        }
        let columns = (width.saturating_sub(LEFT) / ITEM_WIDTH).clamp(1, 5);
        Ok(Legend { items, columns })
    }

    /// How high it is.
    pub(crate) fn height(&self) -> u32 {
        let items = u32::try_from(self.items.len()).unwrap_or(u32::MAX);
        items
            .div_ceil(self.columns.max(1))
            .saturating_mul(ITEM_HEIGHT)
    }

    /// Draws it below that height.
    pub(crate) fn draw(&self, drawing: &mut Drawing, top: u32) -> Result<(), AllocError> {
        drawing.begin_group("legend", "")?;
        let columns = self.columns.max(1);
        let mut place = 0u32;
        for item in &self.items {
            let x = LEFT.saturating_add((place % columns).saturating_mul(ITEM_WIDTH));
            let y = top.saturating_add((place / columns).saturating_mul(ITEM_HEIGHT));
            draw_item(drawing, *item, Point { x, y })?;
            place = place.saturating_add(1);
        }
        drawing.end_group()
    }
}

// Whether a connection of a lane was closed for that cause, by an event that is shown.
fn has_cause(lane: &Lane, cause: Cause) -> bool {
    lane.bars
        .iter()
        .any(|bar| bar.cause == Some(cause) && bar.span.is_shown())
}

// Draws a sample, and what it means.
fn draw_item(drawing: &mut Drawing, item: Item, at: Point) -> Result<(), AllocError> {
    let bar = Place {
        x: at.x,
        y: at.y,
        width: SAMPLE,
        height: 16,
    };
    let meaning = match item {
        Item::Leased => {
            drawing.rect("key-leased", bar, "")?;
            draw_sample_numbers(drawing, at)?;
            "connection 1, leased to transfer 2"
        }
        Item::Idle => {
            drawing.rect("key-idle", bar, "")?;
            "idle connection"
        }
        Item::Waiter => {
            let height = 12;
            drawing.rect("key-wait", Place { height, ..bar }, "")?;
            "waiting transfer"
        }
        Item::Limit => {
            let from = below(at.x, at.y, 8);
            let to = below(at.x.saturating_add(SAMPLE), at.y, 8);
            drawing.line("key-limit", from, to, "")?;
            "limit of the host"
        }
        Item::Closed(cause) => {
            let centre = below(at.x.saturating_add(SAMPLE / 2), at.y, 8);
            draw_mark(drawing, cause, centre, 8)?;
            return draw_meaning(drawing, at, "closed: ", word_of(cause));
        }
    };
    draw_meaning(drawing, at, meaning, "")
}

// Writes the numbers beside and in the sample of a leased connection.
fn draw_sample_numbers(drawing: &mut Drawing, at: Point) -> Result<(), AllocError> {
    let number = below(at.x.saturating_sub(4), at.y, 12);
    drawing.text("number", number, Anchor::End, "1")?;
    let holder = below(at.x.saturating_add(SAMPLE / 2), at.y, 12);
    drawing.text("holder", holder, Anchor::Middle, "2")
}

// Writes what a sample means beside it: two texts, one behind the other.
fn draw_meaning(
    drawing: &mut Drawing,
    at: Point,
    meaning: &str,
    word: &str,
) -> Result<(), AllocError> {
    let mut text = String::new(drawing.allocator());
    text.push_str(meaning)?;
    text.push_str(word)?;
    let begin = below(at.x.saturating_add(SAMPLE).saturating_add(8), at.y, 12);
    drawing.text("meaning", begin, Anchor::Start, text.as_str())
}

/// Draws the mark of a connection that was closed for that cause; without its letter if it is
/// narrow.
pub(crate) fn draw_mark(
    drawing: &mut Drawing,
    cause: Cause,
    centre: Point,
    radius: u32,
) -> Result<(), AllocError> {
    drawing.circle("mark", centre, radius, "")?;
    if radius < LEAST_RADIUS {
        return Ok(());
    }
    let letter = below(centre.x, centre.y, 4);
    drawing.text("letter", letter, Anchor::Middle, letter_of(cause))
}
