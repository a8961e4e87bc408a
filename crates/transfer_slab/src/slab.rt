//! Any number of transfers that go on over one cache, one dial and one clock.

ghost use Rattle.std.specs.Prelude.{◌≡◌, ◌+◌, [], sum_by, IfSome, IfErr, OnSome, OnOk, OnErr};
ghost use Rattle.std.specs.Prelude.{IfNone, IfOk, None, Some, false, ◌==◌, ◌<◌, ◌≤◌, ◌∷◌, ◌++◌};
ghost use Rattle.std.specs.Prelude.{length, vec_capacity, slice_get, slice_set};
ghost use Rattle.futures.specs.Poll.{IfReady, OnPending};
ghost use Rattle.exchange.specs.Answers.{IsUnused};
ghost use Rattle.exchange.specs.Dialling.{KeepsDial, KeepsCounts, TurnsDial, failed_turns};
ghost use Rattle.exchange.specs.Owning.{IsReady, Owns};
ghost use Rattle.exchange.specs.Exchanging.{IsFinished, Leaves};
ghost use Rattle.exchange.specs.Worlds.{world_of};
ghost use Rattle.transfer_slab.specs.Slabs.{AreKept, HasEnded, HasClosed, ClosesOne, ClosesPlace};
ghost use Rattle.transfer_slab.specs.Slabs.{ClosesAll, GivesUpAll, transfers_in, one_if_some};
ghost use Rattle.transfer_slab.specs.Slabs.{HasNumberAt, HasNoneAt};
ghost use Rattle.transfer_slab.specs.Scheduling.{IsScheduled, AreIdle};
ghost use Rattle.std.specs.Bool.{OnFalse};
ghost use Rattle.futures.specs.LinkedLists.{key_limit};
ghost use Rattle.transfer_slab.specs.Rounds.{Joins, TriesPlace, PollsInTurn};
ghost use Rattle.exchange.specs.Exchanging.{IsPolled};

use crate::ended::Ended;
use crate::schedule::Schedule;
use bundle::MOST_HOSTS;
use cache_trait::Cache;
use exchange::{Clock, Dial, Done, Phases, Place, Prepared, Ready, Transfer, Turned, Wire};
use futures::task::{Context, Poll};
use std::alloc::{AllocError, Global};
use std::marker::Model;
use std::mem;
use std::time::Duration;

/// Any number of transfers that go on over one cache, one dial and one clock, and are polled in
/// rounds by one thread. Each round polls those that are due. One whose dial or wire had nothing
/// for it is due again once [`Slab::turn`] has found that it may go on. One that waits for a
/// connection is due only once one may have been granted to it: a lease was spent, and those that
/// waited at its site before it have theirs. So a round costs nothing for those that wait.
///
/// The loop is: [`Slab::poll_next`] while [`Slab::has_due`], then [`Slab::turn`].
///
/// It has to be emptied, by rounds or by [`Slab::close_last`], and then let go of.
pub struct Slab<W: Wire> {
    slots: Vec<Option<Transfer<W>>>,
    len: usize,
    schedule: Schedule,
    // For so many places all memory is there.
    room: usize,
    ghost counted: { len ≡ sum_by one_if_some slots.items },
    ghost scheduled: { IsScheduled slots.items schedule.lists },
    ghost roomy: { room ≤ vec_capacity slots },
    ghost listed: { room ≤ key_limit schedule.lists },
}

impl<W: Wire> Model for Slab<W> {
    ghost use Rattle.std.specs.Prelude.{vec_capacity};
    ghost use Rattle.futures.specs.LinkedLists.{key_limit};
    ghost use Rattle.transfer_slab.specs.Slabs.{SlabShown};

    ghost Value = { SlabShown W };

    ghost view = { λ slab. record {
      slots = slab.slots.items;
      room = slab.room;
      has_spent = slab.schedule.has_spent;
      capacity = vec_capacity slab.slots;
      seats = key_limit slab.schedule.lists;
    } };
}

// Puts a value into an empty slot.
fn put<T>(slot: &mut Option<T>, value: T)
    requires { slot.old ≡ None }
    ensures { slot.new ≡ Some value }
{
    match mem::replace(slot, Some(value)) {
        None => {}
        Some(_) => unreachable!(),
    }
}

// Polls a transfer, whose place the dial is told of before.
fn poll_told<W: Wire, C: Cache<W>, D: Dial<W>, K: Clock>(
    transfer: &mut Transfer<W>,
    place: Option<Place>,
    cx: &mut Context<'_>,
    cache: &mut C,
    dial: &mut D,
    clock: &K,
) -> Poll<()>
    requires owns { Owns (C.home cache.old) transfer.old.parts transfer.old.state }
    requires ready { IsReady transfer.old.parts }
    ensures stays { C.home cache.new ≡ C.home cache.old }
    ensures owns { Owns (C.home cache.new) transfer.new.parts transfer.new.state }
    ensures ready { IsReady transfer.new.parts }
    ensures polled { IsPolled C.did (world_of W.untouched W.happened (K.tells clock.now))
        cache.old cache.new (D.shown dial.old) (D.shown dial.new) transfer.old transfer.new }
    ensures finished { IfReady result (λ _. IsFinished transfer.new.state) }
    ensures pending { OnPending result (Leaves W.source_name (D.shown dial.new).source_name
        cx.old cx.new transfer.new.waker transfer.new.has_yielded transfer.new.state) }
{
    tell_place(dial, place);
    transfer.poll(cx, cache, dial, clock)
}

// Tells a dial of a place.
fn tell_place<W: Wire, D: Dial<W>>(dial: &mut D, place: Option<Place>)
    ensures { KeepsDial (D.shown dial.old) (D.shown dial.new) }
{
    if let Some(place) = place {
        dial.set_place(place);
    }
}

impl<W: Wire> Slab<W> {
    /// A slab without transfers.
    ///
    /// # Errors
    ///
    /// There is no memory for the queues of all sites, some 50,000 bytes.
    pub fn new(alloc: Global) -> Result<Slab<W>, AllocError>
        ensures { IfOk result (λ made. made.slots ≡ []) }
    {
        Slab::with_room(alloc, 0, MOST_HOSTS as usize)
    }

    /// Returns a slab without transfers, with memory for `room` transfers: joining takes none while
    /// there are fewer. The sites of its transfers are below `site_count`. A transfer at another
    /// site is polled in each round while it waits for a connection.
    ///
    /// # Errors
    ///
    /// There is no memory for them, or there are more than 2^32 transfers.
    pub fn with_room(alloc: Global, room: usize, site_count: usize) -> Result<Slab<W>, AllocError>
        ensures empty { IfOk result (λ made. made.slots ≡ []) }
        ensures room { IfOk result (λ made. made.room ≡ room) }
    {
        let schedule = Schedule::with_room(alloc, room, site_count)?;
        let slots = Vec::with_capacity(alloc, room)?;
        Ok(Slab {
            slots,
            len: 0,
            schedule,
            room,
        })
    }

    /// How many transfers there are that have not ended.
    pub fn len(&self) -> usize
        ensures { result ≡ sum_by one_if_some self.now.slots }
    {
        self.len
    }

    /// Whether all transfers have ended.
    pub fn is_empty(&self) -> bool
        ensures { result ≡ (sum_by one_if_some self.now.slots == 0) }
    {
        self.len == 0
    }

    /// How many places there are, counted from 0: at some of them a transfer stands.
    pub fn places(&self) -> usize
        ensures { result ≡ length self.now.slots }
    {
        self.slots.len()
    }

    /// The transfer number of the transfer at that place, if one stands there.
    pub fn transfer_at(&self, place: usize) -> Option<u64>
        ensures number { IfSome result (HasNumberAt self.now.slots place) }
        ensures none { IfNone result (HasNoneAt self.now.slots place) }
    {
        match self.slots.get(place) {
            Some(Some(transfer)) => Some(transfer.number()),
            Some(None) => None,
            None => None,
        }
    }

    /// The moments of the transfer at that place; none if no transfer stands there. No contract
    /// speaks of them.
    pub fn phases_at(&self, place: usize) -> Phases {
        match self.slots.get(place) {
            Some(Some(transfer)) => transfer.phases(),
            Some(None) => Phases::default(),
            None => Phases::default(),
        }
    }

    /// The moments of the transfer that [`Slab::close_last`] closes next. No contract speaks of
    /// them.
    pub fn last_phases(&self) -> Phases {
        for slot in self.slots.iter().rev() {
            if let Some(transfer) = slot {
                return transfer.phases();
            }
        }
        Phases::default()
    }

    /// Begins a transfer of what was prepared, which is polled from the next round on: the place
    /// where it stands. It is given back if memory is short, which it is not while there are fewer
    /// transfers than [`Slab::with_room`] made room for.
    ///
    /// Cache and clock are those of the rounds: contracts alone look at them.
    pub fn join<C: Cache<W>, K: Clock>(
        &mut self,
        parts: Prepared,
        _cache: &C,
        _clock: &K,
    ) -> Result<usize, Prepared>
        requires unused { IsUnused parts }
        requires all_kept { AreKept (world_of W.untouched W.happened (K.tells _clock.now))
            (C.home _cache.now) self.old.slots }
        ensures all_kept { AreKept (world_of W.untouched W.happened (K.tells _clock.now))
            (C.home _cache.now) self.new.slots }
        ensures joins { IfOk result (Joins self.old.slots self.new.slots parts) }
        ensures more { OnOk result (sum_by one_if_some self.new.slots
            ≡ sum_by one_if_some self.old.slots + 1) }
        ensures given_back { IfErr result (λ same. (same ≡ parts)
            × (self.new.slots ≡ self.old.slots)
            × (self.old.room ≤ sum_by one_if_some self.old.slots)) }
        ensures room { self.new.room ≡ self.old.room }
    {
        if let Some(place) = self.schedule.first_free() {
            self.fill(place, Transfer::new(parts));
            return Ok(place);
        }
        let Ok(place) = self.grow() else {
            return Err(parts);
        };
        self.append(place, Transfer::new(parts));
        Ok(place)
    }

    // Makes room for one place more, behind all others, unless it is there: that place.
    fn grow(&mut self) -> Result<usize, AllocError>
        ensures place { IfOk result (λ place. place ≡ length self.new.slots) }
        ensures spare { OnOk result (length self.new.slots < self.new.capacity) }
        ensures seat { IfOk result (λ place. place < self.new.seats) }
        ensures items { self.new.slots ≡ self.old.slots }
        ensures room { self.new.room ≡ self.old.room }
        ensures past_room { OnErr result (self.old.room ≤ length self.old.slots) }
    {
        let place = self.slots.len();
        if place < self.room {
            return Ok(place);
        }
        self.slots.reserve(1)?;
        self.schedule.add_place(place)?;
        Ok(place)
    }

    // Puts a transfer there.
    fn fill(&mut self, place: usize, transfer: Transfer<W>)
        requires vacant { slice_get self.old.slots place ≡ Some None }
        ensures items { self.new.slots
            ≡ slice_set self.old.slots place (Some transfer) }
        ensures room { self.new.room ≡ self.old.room }
    {
        let Some(slot) = self.slots.get_mut(place) else {
            unreachable!()
        };
        put(slot, transfer);
        self.len += 1;
        self.schedule.joins(place);
    }

    // Puts a transfer behind all others.
    fn append(&mut self, place: usize, transfer: Transfer<W>)
        requires place { place ≡ length self.old.slots }
        requires spare { length self.old.slots < self.old.capacity }
        requires seat { place < self.old.seats }
        ensures items { self.new.slots ≡ self.old.slots ++ (Some transfer ∷ []) }
        ensures room { self.new.room ≡ self.old.room }
    {
        self.slots.push_reserved(Some(transfer));
        self.len += 1;
        self.schedule.joins(place);
    }

    /// Tells that a lease was spent, a ticket withdrawn, or the host's limit raised, beside the
    /// slab: the next round but one polls the first transfer that waits at each site.
    pub fn ask_sites(&mut self)
        ensures slots { self.new.slots ≡ self.old.slots }
        ensures room { self.new.room ≡ self.old.room }
    {
        self.schedule.ask_sites();
    }

    /// Polls those transfers that are due in this round, until one ends: where it stood, how it
    /// ended, and what was prepared. `None` once all were polled, which ends the round; what has
    /// become due meanwhile is polled in the next one.
    ///
    /// Asked of the caller: cache, dial and clock are always the same.
    pub fn poll_next<C: Cache<W>, D: Dial<W>, K: Clock>(
        &mut self,
        cx: &mut Context<'_>,
        cache: &mut C,
        dial: &mut D,
        clock: &K,
    ) -> Option<Ended>
        requires all_kept { AreKept (world_of W.untouched W.happened (K.tells clock.now))
            (C.home cache.old) self.old.slots }
        ensures stays { C.home cache.new ≡ C.home cache.old }
        ensures all_kept { AreKept (world_of W.untouched W.happened (K.tells clock.now))
            (C.home cache.new) self.new.slots }
        ensures ended { IfSome result (λ it. HasEnded
            (world_of W.untouched W.happened (K.tells clock.now)) (it.done, it.parts)) }
        ensures fewer { OnSome result (sum_by one_if_some self.new.slots + 1
            ≡ sum_by one_if_some self.old.slots) }
        ensures as_many { IfNone result (sum_by one_if_some self.new.slots
            ≡ sum_by one_if_some self.old.slots) }
        ensures polls { PollsInTurn C.did (world_of W.untouched W.happened (K.tells clock.now))
            D.shown cache.old cache.new dial.old dial.new
            self.old.slots self.new.slots result }
        ensures turns { failed_turns D.shown dial.new ≡ failed_turns D.shown dial.old }
        ensures room { self.new.room ≡ self.old.room }
    {
        for _ in 0..self.schedule.most_polls() {
            let Some(place) = self.schedule.next_due() else {
                break;
            };
            if let Some(ended) = self.poll_at(place, cx, cache, dial, clock) {
                return Some(ended);
            }
        }
        self.schedule.end_round();
        None
    }

    // Polls the transfer there, if there is one; how it ended, if it has.
    fn poll_at<C: Cache<W>, D: Dial<W>, K: Clock>(
        &mut self,
        place: usize,
        cx: &mut Context<'_>,
        cache: &mut C,
        dial: &mut D,
        clock: &K,
    ) -> Option<Ended>
        requires all_kept { AreKept (world_of W.untouched W.happened (K.tells clock.now))
            (C.home cache.old) self.old.slots }
        ensures stays { C.home cache.new ≡ C.home cache.old }
        ensures all_kept { AreKept (world_of W.untouched W.happened (K.tells clock.now))
            (C.home cache.new) self.new.slots }
        ensures ended { IfSome result (λ it. HasEnded
            (world_of W.untouched W.happened (K.tells clock.now)) (it.done, it.parts)) }
        ensures fewer { OnSome result (sum_by one_if_some self.new.slots + 1
            ≡ sum_by one_if_some self.old.slots) }
        ensures as_many { IfNone result (sum_by one_if_some self.new.slots
            ≡ sum_by one_if_some self.old.slots) }
        ensures polls { TriesPlace C.did (world_of W.untouched W.happened (K.tells clock.now))
            D.shown cache.old cache.new dial.old dial.new
            self.old.slots self.new.slots place result }
        ensures turns { failed_turns D.shown dial.new ≡ failed_turns D.shown dial.old }
        ensures room { self.new.room ≡ self.old.room }
    {
        let slot = self.slots.get_mut(place)?;
        let transfer = slot.as_mut()?;
        let waited = transfer.has_ticket();
        let told = self.schedule.place(place);
        let polled = poll_told(transfer, told, cx, cache, dial, clock);
        if polled.is_pending() {
            self.schedule.note_poll(place, waited, transfer);
            return None;
        }
        self.schedule
            .note_end(place, transfer.site(), waited, transfer.has_spent());
        self.len -= 1;
        let Some(transfer) = slot.take() else {
            unreachable!()
        };
        let (phases, reason) = (transfer.phases(), transfer.reason());
        let (done, parts) = transfer.finish();
        Some(Ended {
            place,
            done,
            parts,
            phases,
            reason,
        })
    }

    /// Whether a transfer is due: one that has joined, that took all steps of its last poll, that
    /// the dial has told of, or that may have been granted a connection. If none is, a round polls
    /// nothing until a transfer joins, a turn of the dial was taken by [`Slab::turn`], or
    /// [`Slab::ask_sites`] was called.
    pub fn has_due(&self) -> bool
        ensures { OnFalse result (AreIdle self.now.slots) }
    {
        self.schedule.has_due()
    }

    /// Takes a turn of the dial's event loop. It waits until the dial has something for a transfer,
    /// at most that long, and at most ten milliseconds; not at all if a transfer is due. Transfers
    /// that the dial tells of are due then.
    pub fn turn<D: Dial<W>>(&mut self, dial: &mut D, most: Duration) -> Turned
        ensures slots { self.new.slots ≡ self.old.slots }
        ensures room { self.new.room ≡ self.old.room }
        ensures turn { TurnsDial D.shown D.turned result dial.old dial.new }
    {
        let most = if self.has_due() { Duration::ZERO } else { most };
        let turned = dial.turn(most);
        self.note_ready(dial);
        turned
    }

    // Notes what the dial tells after a turn.
    fn note_ready<D: Dial<W>>(&mut self, dial: &mut D)
        ensures slots { self.new.slots ≡ self.old.slots }
        ensures room { self.new.room ≡ self.old.room }
        ensures tells { KeepsDial (D.shown dial.old) (D.shown dial.new) }
    {
        for _ in 0..u64::MAX {
            match dial.next_ready() {
                Ready::At(place) => self.schedule.note_ready(place),
                Ready::All => {
                    self.schedule.note_all_ready();
                    return;
                }
                Ready::Nothing => return,
            }
        }
    }

    /// Closes the transfer at that place, as [`Transfer::close`] does, at the time that the clock
    /// tells: how it ended, or that it was cancelled, and what was prepared. The place is free
    /// then. `None` if no transfer stands there, and then nothing is done.
    pub fn close_at<C: Cache<W>, D: Dial<W>, K: Clock>(
        &mut self,
        place: usize,
        cache: &mut C,
        dial: &mut D,
        clock: &K,
    ) -> Option<(Done, Prepared)>
        requires all_kept { AreKept (world_of W.untouched W.happened (K.tells clock.now))
            (C.home cache.old) self.old.slots }
        ensures stays { C.home cache.new ≡ C.home cache.old }
        ensures all_kept { AreKept (world_of W.untouched W.happened (K.tells clock.now))
            (C.home cache.new) self.new.slots }
        ensures closed { IfSome result
            (HasClosed (world_of W.untouched W.happened (K.tells clock.now))) }
        ensures closes { IfSome result (ClosesPlace C.did
            (world_of W.untouched W.happened (K.tells clock.now)) (C.home cache.old)
            cache.old cache.new D.shown dial.old dial.new self.old.slots
            self.new.slots place) }
        ensures fewer { OnSome result (sum_by one_if_some self.new.slots + 1
            ≡ sum_by one_if_some self.old.slots) }
        ensures none { IfNone result (HasNoneAt self.old.slots place) }
        ensures slots { IfNone result (self.new.slots ≡ self.old.slots) }
        ensures cache { IfNone result (cache.new ≡ cache.old) }
        ensures dial { IfNone result (dial.new ≡ dial.old) }
        ensures counts { KeepsCounts (D.shown dial.old) (D.shown dial.new) }
        ensures room { self.new.room ≡ self.old.room }
    {
        let slot = self.slots.get_mut(place)?;
        let transfer = slot.take()?;
        self.len -= 1;
        self.schedule.note_end(
            place,
            transfer.site(),
            transfer.has_ticket(),
            transfer.has_any(),
        );
        Some(transfer.close(clock.now(), cache, dial))
    }

    /// Whether a lease or a ticket was spent since the last call, by a poll or a close: then a
    /// transfer of another slab over the same cache may have been granted a connection.
    pub fn take_spent(&mut self) -> bool
        ensures spent { result ≡ self.old.has_spent }
        ensures taken { self.new.has_spent ≡ false }
        ensures slots { self.new.slots ≡ self.old.slots }
        ensures room { self.new.room ≡ self.old.room }
    {
        self.schedule.take_spent()
    }

    /// True if a transfer waits for a connection at a site below the number of sites that the slab
    /// was made for. It may stay true after the last wait, until [`Slab::ask_sites`]. No contract
    /// speaks of it.
    pub fn has_waiters(&self) -> bool {
        self.schedule.has_waiters()
    }

    /// How many transfers had their connection after a wait, and went on, since the last call.
    pub fn take_granted(&mut self) -> u64
        ensures slots { self.new.slots ≡ self.old.slots }
        ensures room { self.new.room ≡ self.old.room }
    {
        self.schedule.take_granted()
    }

    /// Closes one of the transfers that are left, as [`Transfer::close`] does, at the time that the
    /// clock tells: how it ended, or that it was cancelled, and what was prepared. `None` if
    /// none is left.
    pub fn close_last<C: Cache<W>, D: Dial<W>, K: Clock>(
        &mut self,
        cache: &mut C,
        dial: &mut D,
        clock: &K,
    ) -> Option<(Done, Prepared)>
        requires all_kept { AreKept (world_of W.untouched W.happened (K.tells clock.now))
            (C.home cache.old) self.old.slots }
        ensures stays { C.home cache.new ≡ C.home cache.old }
        ensures all_kept { AreKept (world_of W.untouched W.happened (K.tells clock.now))
            (C.home cache.new) self.new.slots }
        ensures closed { IfSome result
            (HasClosed (world_of W.untouched W.happened (K.tells clock.now))) }
        ensures closes { IfSome result (ClosesOne C.did
            (world_of W.untouched W.happened (K.tells clock.now)) (C.home cache.old)
            cache.old cache.new D.shown dial.old dial.new self.old.slots
            self.new.slots) }
        ensures fewer { OnSome result (sum_by one_if_some self.new.slots + 1
            ≡ sum_by one_if_some self.old.slots) }
        ensures empty { IfNone result (self.new.slots ≡ []) }
        ensures none_left { IfNone result (transfers_in self.old.slots ≡ []) }
        ensures cache { IfNone result (cache.new ≡ cache.old) }
        ensures dial { IfNone result (dial.new ≡ dial.old) }
        ensures counts { KeepsCounts (D.shown dial.old) (D.shown dial.new) }
        ensures room { self.new.room ≡ self.old.room }
    {
        while let Some(slot) = self.slots.pop() {
            self.schedule.note_gone(self.slots.len());
            if let Some(transfer) = slot {
                self.schedule.note_spent(transfer.has_any());
                self.len -= 1;
                return Some(transfer.close(clock.now(), cache, dial));
            }
        }
        None
    }

    /// Closes all transfers that are left, gives up what was begun for them at the dial, and lets
    /// go of the slab.
    pub fn close<C: Cache<W>, D: Dial<W>, K: Clock>(self, cache: &mut C, dial: &mut D, clock: &K)
        requires all_kept { AreKept (world_of W.untouched W.happened (K.tells clock.now))
            (C.home cache.old) self.slots }
        ensures stays { C.home cache.new ≡ C.home cache.old }
        ensures closes { ClosesAll C.did (world_of W.untouched W.happened (K.tells clock.now))
            cache.old cache.new (transfers_in self.slots) }
        ensures begun { GivesUpAll (D.shown dial.old) (D.shown dial.new)
            (transfers_in self.slots) }
    {
        let mut slab = self;
        while let Some(_closed) = slab.close_last(cache, dial, clock) {}
        slab.destroy_empty();
    }

    /// Lets go of a slab. Asked of the caller: it was emptied by [`Slab::close_last`].
    pub fn destroy_empty(self)
        requires { self.slots ≡ [] }
    {
        let Slab {
            slots,
            len: _,
            schedule: _,
            room: _,
        } = self;
        slots.destroy_empty();
    }
}
