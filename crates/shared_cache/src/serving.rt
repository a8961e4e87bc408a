//! How room is made among all hosts, and how hosts that are queued get it.

ghost use Rattle.std.specs.Prelude.{◌<◌, length, IfSome};

use crate::cache::SharedCache;
use crate::names::Names;
use bundle::{Served, Shortage};
use std::sync::Wait;
use std::sync::atomic::Ordering;

/// How often a call looks for the oldest idle connection of all, to close it.
pub(crate) const TRIES: u32 = 3;

/// How many turns a call lets hosts take that are queued.
const MOST_TURNS: u32 = 4_096;

/// What became of a turn.
#[derive(Drop)]
enum Turn {
    /// A connection was opened for a transfer that waits, or the queue changed meanwhile.
    Taken,
    /// The total has no room.
    NoRoom(Shortage),
    /// No host is queued.
    Nobody,
}

impl<S: Drop, N: Names> SharedCache<S, N> {
    /// Closes the oldest idle connection of all for want of that room. It answers whether one is
    /// idle anywhere, as the hints tell: what they tell of is closed if it is still its host's
    /// oldest.
    pub(crate) fn make_room<R: Wait>(&self, rt: &R, short: Shortage, now: u64) -> bool {
        if !self.budget.keeps_any() {
            return false;
        }
        let Some(hinted) = self.hints.first() else {
            return false;
        };
        let mut host = self.at(rt, hinted.host);
        host.close_oldest(&self.budget, hinted.since, short, now);
        self.unlock(host);
        true
    }

    /// Lets hosts that are queued take turns, as long as there is room or one can be made, and no
    /// more than 4,096 of them.
    #[inline(always)]
    pub(crate) fn serve<R: Wait>(&self, rt: &R, now: u64) {
        if self.any_queued.load(Ordering::SeqCst) {
            self.take_turns(rt, now);
        }
    }

    // The same, where a host is queued.
    #[cold]
    #[inline(never)]
    fn take_turns<R: Wait>(&self, rt: &R, now: u64) {
        for _ in 0..MOST_TURNS {
            if !self.take_turn(rt, now) {
                return;
            }
        }
    }

    // A turn of the host that is first, for which the oldest idle connection of all is closed where
    // the total has no room; it answers whether a turn was taken.
    fn take_turn<R: Wait>(&self, rt: &R, now: u64) -> bool {
        for _ in 0..TRIES {
            let short = match self.take_first_turn(rt, now) {
                Turn::Taken => return true,
                Turn::Nobody => return false,
                Turn::NoRoom(short) => short,
            };
            if !self.make_room(rt, short, now) {
                return false;
            }
        }
        matches!(self.take_first_turn(rt, now), Turn::Taken)
    }

    // A turn of the host that is first, if the total has room. The host's lock is taken before the
    // queue's, so the queue is read first, and again once both are held.
    fn take_first_turn<R: Wait>(&self, rt: &R, now: u64) -> Turn {
        let first = self.first_queued(rt);
        let Some(site) = first else {
            return Turn::Nobody;
        };
        for _ in rt.forever() {
            let served = self.serve_at(rt, site, now);
            match served {
                None | Some(Served::Given) => return Turn::Taken,
                Some(Served::Full(short)) => return Turn::NoRoom(short),
                Some(Served::Contended) => {}
            }
        }
        unreachable!()
    }

    // The host that is first in the queue.
    fn first_queued<R: Wait>(&self, rt: &R) -> Option<u32>
        ensures { IfSome result (λ site. site < length N.names.hosts) }
    {
        let queue = self.queue.lock(rt);
        queue.lobby.first()
    }

    // A turn of that host, where it is the first.
    fn serve_at<R: Wait>(&self, rt: &R, site: u32, now: u64) -> Option<Served>
        requires { site < length N.names.hosts }
    {
        let mut host = self.at(rt, site);
        let mut queue = self.queue.lock(rt);
        let served = host.take_turn(&self.budget, &self.link, &mut queue, now);
        self.note_queue(&queue);
        self.unlock(host);
        served
    }
}
