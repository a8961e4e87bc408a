//! Which slots wait at which site, and which of them may have been granted a connection.

use crate::answers::SlotAnswer;
use crate::slot::Slot;
use std::alloc::{AllocError, Global};
use std::collections::VecDeque;

/// The slots that wait, by site, first come first. A connection that is freed goes to the first
/// waiter of a site. So once something was spent the first waiter of each site is asked: if it
/// was granted a connection the next one of its site is asked, else those of the next site.
#[derive(Drop)]
pub(crate) struct Waiters {
    sites: Vec<VecDeque<Slot>>,
    /// The sites at which somebody waits.
    waited: Vec<u32>,
    /// How many of these are still to be asked: the last of them is the next one.
    left: usize,
}

impl Waiters {
    // Nobody waits, at so many sites.
    pub(crate) fn new(alloc: Global, sites: u32) -> Result<Waiters, AllocError> {
        let waited = Vec::with_capacity(alloc, sites as usize)?;
        let mut queues = Vec::with_capacity(alloc, sites as usize)?;
        for _ in 0..sites {
            queues.push(VecDeque::new(alloc))?;
        }
        Ok(Waiters {
            sites: queues,
            waited,
            left: 0,
        })
    }

    // Makes room for one waiter more at a site.
    #[inline(always)]
    pub(crate) fn reserve(&mut self, site: u32) -> Result<(), AllocError> {
        match self.sites.get_mut(site as usize) {
            Some(queue) => queue.reserve(1),
            None => Ok(()),
        }
    }

    // Notes what a slot was given: it waits, or has a connection. Room for a waiter was made.
    #[inline(always)]
    pub(crate) fn note_acquire(&mut self, site: u32, slot: Slot, got: SlotAnswer) {
        if matches!(got, SlotAnswer::Wait) {
            self.join(site, slot);
        }
    }

    // Notes what a waiter was told: it still waits, or has its connection.
    pub(crate) fn note_claim(&mut self, site: u32, slot: Slot, got: SlotAnswer) {
        if !matches!(got, SlotAnswer::Wait) {
            self.leave(site, slot);
        }
    }

    // Notes a new waiter.
    fn join(&mut self, site: u32, slot: Slot) {
        let Some(queue) = self.sites.get_mut(site as usize) else {
            return;
        };
        if queue.is_empty() {
            let _ = self.waited.push(site);
        }
        let _ = queue.push_back(slot);
    }

    // Notes that a slot waits no more.
    pub(crate) fn leave(&mut self, site: u32, slot: Slot) {
        let Some(queue) = self.sites.get_mut(site as usize) else {
            return;
        };
        if let Some(place) = place_in(queue, slot) {
            let _ = queue.remove(place);
        }
        if queue.is_empty() {
            self.forget(site);
        }
    }

    // Nobody waits at the site any more.
    fn forget(&mut self, site: u32) {
        if let Some(place) = self.waited.iter().position(|other| *other == site) {
            let _ = self.waited.swap_remove(place);
        }
        self.left = self.left.min(self.waited.len());
    }

    // Notes that something was spent.
    #[inline(always)]
    pub(crate) fn ask(&mut self) {
        self.left = self.waited.len();
    }

    // How many sites are still to be asked.
    pub(crate) fn left(&self) -> usize {
        self.left
    }

    // The first waiter of the next site that is still to be asked.
    pub(crate) fn next(&self) -> Option<Slot> {
        let site = *self.waited.get(self.left.checked_sub(1)?)?;
        self.sites.get(site as usize)?.front().copied()
    }

    // Notes that this one still waits.
    pub(crate) fn pass(&mut self) {
        self.left = self.left.saturating_sub(1);
    }
}

// Where a slot stands.
fn place_in(queue: &VecDeque<Slot>, slot: Slot) -> Option<usize> {
    queue.iter().position(|other| *other == slot)
}
