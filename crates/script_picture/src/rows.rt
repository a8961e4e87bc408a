//! Rows in which bars stand, none over another.

use std::alloc::{AllocError, Global};
use std::cmp::Reverse;
use std::collections::BinaryHeap;

/// Rows that are taken and given back; the lowest free one is taken.
#[derive(Drop)]
pub(crate) struct Rows {
    free: BinaryHeap<Reverse<u32>>,
    /// How many rows were ever taken.
    used: u32,
}

impl Rows {
    /// No rows yet.
    pub(crate) fn new(alloc: Global) -> Rows {
        Rows {
            free: BinaryHeap::new(alloc),
            used: 0,
        }
    }

    /// Takes the lowest free row.
    pub(crate) fn take(&mut self) -> u32 {
        if let Some(Reverse(row)) = self.free.pop() {
            return row;
        }
        let row = self.used;
        self.used = row.saturating_add(1);
        row
    }

    /// Gives a row back.
    pub(crate) fn give_back(&mut self, row: u32) -> Result<(), AllocError> {
        self.free.push(Reverse(row))?;
        Ok(())
    }
}
