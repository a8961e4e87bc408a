//! One request and its response over a connection of a cache, which is lent to each poll.

ghost use Rattle.std.specs.Prelude.{◌≡◌, ◌⊎◌, ℕ, List, None, Some, true, false, IfSome};
ghost use Rattle.futures.specs.Task.{Keeps};
ghost use Rattle.futures.specs.Poll.{IfReady, OnPending};
ghost use Rattle.bundle.specs.Seats.{Tables};
ghost use Rattle.exchange.specs.Answers.{IsUnused, IsSameJob};
ghost use Rattle.exchange.specs.Worlds.{world_of};
ghost use Rattle.exchange.specs.Standing.{GoesOn};
ghost use Rattle.exchange.specs.Waiting.{AtStep, StepLeaves, stage_at};
ghost use Rattle.exchange.specs.Stepping.{StepIs, StepAnswers, StepSpends};
ghost use Rattle.exchange.specs.Owning.{IsReady, OwnsAt, Owns};
ghost use Rattle.exchange.specs.Exchanging.{Continues, IsFinished, Leaves, StepEnds};
ghost use Rattle.exchange.specs.Exchanging.{Cancels, Closes, StaysEnded, GivesUpDial, LeavesDial};
ghost use Rattle.exchange.specs.Exchanging.{DialsAt, DialsItsOwn};
ghost use Rattle.exchange.specs.Exchanging.{IsPolled};
ghost use Rattle.exchange.specs.Balance.{HasAll, SpendsAll};
ghost use Rattle.exchange.specs.Waiting.{HasTicket, HasLease, IsAtWire};
ghost use Rattle.std.specs.Bool.{OnFalse, OnTrue};
ghost use Rattle.exchange.specs.declared.state.State.TheVariants as at;

use crate::connecting::{ask, claim, dial_up};
use crate::done::{Done, Fault};
use crate::ending::{abandon, withdraw};
use crate::job::Prepared;
use crate::phases::Phases;
use crate::reason::Reason;
use crate::state::{Stage, State, Step};
use crate::transferring::{read, send};
use crate::wire::{Clock, Dial, Wire};
use cache_trait::Cache;
use futures::task::{Context, Poll, Waker};
use std::marker::Model;
use std::mem;

/// The most steps of one poll: each is at most one read or one write.
const MOST_STEPS: u32 = 64;

/// One request and its response over a connection of a cache: it asks for the connection, waits,
/// dials, sends, reads and gives it back. Each poll is lent the cache, the dial and the clock, so
/// that any number of transfers may go on over one cache and one dial, each under a transfer number
/// of its own. It keeps to one cache and one dial, and has to be spent: finished once a poll was
/// ready, or cancelled.
pub struct Transfer<W: Wire> {
    parts: Prepared,
    state: Option<State<W>>,
    waker: Option<Waker>,
    // Its last poll took all its steps, and asked to be polled again.
    has_yielded: bool,
    // Its last poll spent a lease.
    has_spent: bool,
    phases: Phases,
    // Why its dial or its wire failed, since it last asked for a connection.
    reason: Option<Reason>,
}

impl<W: Wire> Model for Transfer<W> {
    ghost use Rattle.exchange.specs.Transfers.{TransferShown};

    ghost Value = { TransferShown W };

    ghost view = { λ transfer. record {
      parts = transfer.parts;
      state = transfer.state;
      has_yielded = transfer.has_yielded;
      has_spent = transfer.has_spent;
      waker = transfer.waker;
    } };
}

// Puts a value into an empty slot.
fn put<T>(slot: &mut Option<T>, value: T)
    requires { slot.old ≡ None }
    ensures { slot.new ≡ Some value }
{
    match mem::replace(slot, Some(value)) {
        None => {}
        Some(_) => unreachable!(),
    }
}

// Takes one step from where the transfer stands.
fn advance<W: Wire, C: Cache<W>, D: Dial<W>, K: Clock>(
    state: State<W>,
    parts: &mut Prepared,
    cache: &mut C,
    dial: &mut D,
    clock: &K,
    now: u64,
    cx: &mut Context<'_>,
    waker: &mut Option<Waker>,
    reason: &mut Option<Reason>,
) -> Step<W>
    requires told { K.tells clock.now now }
    requires owns { OwnsAt (C.home cache.old) parts.old state }
    requires ready { IsReady parts.old }
    ensures stays { C.home cache.new ≡ C.home cache.old }
    ensures owns { AtStep result (OwnsAt (C.home cache.new) parts.new) }
    ensures ready { IsReady parts.new }
    ensures same_job { IsSameJob parts.old parts.new }
    ensures story { AtStep result (GoesOn C.did (world_of W.untouched W.happened (K.tells
        clock.now)) parts.old parts.new cache.old cache.new state) }
    ensures steps { StepIs C.did (world_of W.untouched W.happened (K.tells clock.now))
        cache.old cache.new state result }
    ensures over { AtStep result (StaysEnded state) }
    ensures dials { AtStep result
        (DialsAt parts.old parts.new state (D.shown dial.old) (D.shown dial.new)) }
    ensures leaves { StepLeaves W.source_name (D.shown dial.new).source_name cx.old cx.new
        waker.new result }
{
    match state {
        State::Asking => {
            *reason = None;
            Step::Goes(ask(parts, cache, dial, clock, now))
        }
        State::Waiting(ticket) => claim(parts, cache, dial, clock, ticket, cx),
        State::Dialling(lease) => {
            dial_up(parts, cache, dial, clock, now, lease, cx, waker, reason)
        }
        State::Sending(lease, sent) => {
            send(parts, cache, clock, now, lease, sent, cx, waker, reason)
        }
        State::Reading(lease) => read(parts, cache, clock, now, lease, cx, waker, reason),
        State::Finished(done) => Step::Goes(State::Finished(done)),
    }
}

impl<W: Wire> Transfer<W> {
    /// A transfer of what was prepared. It takes no memory: [`Prepared::new`] takes it all.
    pub fn new(parts: Prepared) -> Self
        requires unused { IsUnused parts }
        ensures owns { (home : List Tables) → Owns home result.parts result.state }
        ensures ready { IsReady result.parts }
        ensures parts { result.parts ≡ parts }
        ensures asking { result.state ≡ Some at.Asking }
        ensures yielded { result.has_yielded ≡ false }
        ensures unspent { result.has_spent ≡ false }
    {
        Transfer {
            parts,
            state: Some(State::Asking),
            waker: None,
            has_yielded: false,
            has_spent: false,
            phases: Phases::default(),
            reason: None,
        }
    }

    /// Goes on as far as it can, with at most 64 reads and writes. Once it is ready it has ended,
    /// owns nothing, and every later poll is ready at once. If it is pending, it has registered
    /// with the wire or the dial that it waits for, or has asked to be polled again: see
    /// [`Transfer::waits_on`].
    ///
    /// Asked of the caller: what it has was made by this cache.
    pub fn poll<C: Cache<W>, D: Dial<W>, K: Clock>(
        &mut self,
        cx: &mut Context<'_>,
        cache: &mut C,
        dial: &mut D,
        clock: &K,
    ) -> Poll<()>
        requires owns { Owns (C.home cache.old) self.old.parts self.old.state }
        requires ready { IsReady self.old.parts }
        ensures stays { C.home cache.new ≡ C.home cache.old }
        ensures owns { Owns (C.home cache.new) self.new.parts self.new.state }
        ensures ready { IsReady self.new.parts }
        ensures polled { IsPolled C.did (world_of W.untouched W.happened (K.tells clock.now))
            cache.old cache.new (D.shown dial.old) (D.shown dial.new) self.old self.new }
        ensures out { HasAll (world_of W.untouched W.happened (K.tells clock.now)) self.new.parts
            self.new.state }
        ensures finished { IfReady result (λ _. IsFinished self.new.state) }
        ensures pending { OnPending result (Leaves W.source_name (D.shown dial.new).source_name
            cx.old cx.new self.new.waker self.new.has_yielded self.new.state) }
        ensures kept { Keeps cx.old cx.new }
    {
        let now = clock.now();
        self.has_yielded = false;
        self.has_spent = false;
        for _ in 0..MOST_STEPS {
            if let Some(polled) = self.step(cx, cache, dial, clock, now) {
                return polled;
            }
        }
        self.has_yielded = true;
        cx.yield_now()
    }

    // Takes one step; how the poll ends, if it ends there.
    fn step<C: Cache<W>, D: Dial<W>, K: Clock>(
        &mut self,
        cx: &mut Context<'_>,
        cache: &mut C,
        dial: &mut D,
        clock: &K,
        now: u64,
    ) -> Option<Poll<()>>
        requires told { K.tells clock.now now }
        requires owns { Owns (C.home cache.old) self.old.parts self.old.state }
        requires ready { IsReady self.old.parts }
        ensures stays { C.home cache.new ≡ C.home cache.old }
        ensures owns { Owns (C.home cache.new) self.new.parts self.new.state }
        ensures ready { IsReady self.new.parts }
        ensures same_job { IsSameJob self.old.parts self.new.parts }
        ensures story { Continues C.did (world_of W.untouched W.happened (K.tells clock.now))
            self.old.parts self.new.parts cache.old cache.new self.old.state self.new.state }
        ensures steps { StepAnswers C.did (world_of W.untouched W.happened (K.tells clock.now))
            cache.old cache.new result self.old.state self.new.state }
        ensures over { IsFinished self.old.state → self.new.state ≡ self.old.state }
        ensures dials { DialsItsOwn self.old.parts self.new.parts self.old.state self.new.state
            (D.shown dial.old) (D.shown dial.new) }
        ensures ends { StepEnds W.source_name (D.shown dial.new).source_name cx.old cx.new
            self.new.waker self.new.state result }
        ensures yielded { self.new.has_yielded ≡ self.old.has_yielded }
        ensures spent { StepSpends result self.old.has_spent self.new.has_spent self.old.state
            self.new.state }
    {
        let state = self.state.take().unwrap();
        let had_lease = state.has_lease();
        let before = state.stage();
        let step = advance(
            state,
            &mut self.parts,
            cache,
            dial,
            clock,
            now,
            cx,
            &mut self.waker,
            &mut self.reason,
        );
        let has_bytes = self.parts.reader.any_byte();
        self.phases.note(before, &step, has_bytes, clock);
        match step {
            Step::Goes(State::Finished(done)) => {
                self.has_spent |= had_lease;
                put(&mut self.state, State::Finished(done));
                Some(Poll::Ready(()))
            }
            Step::Goes(state) => {
                self.has_spent |= !state.has_lease() && had_lease;
                put(&mut self.state, state);
                None
            }
            Step::Waits(state) => {
                put(&mut self.state, state);
                Some(Poll::Pending)
            }
        }
    }

    /// What it waits for since its last poll, which was pending.
    pub fn waits_on(&self) -> Stage
        ensures { IfSome self.now.state (λ state.
            result ≡ stage_at self.now.has_yielded state) }
    {
        if self.has_yielded {
            return Stage::Turn;
        }
        match &self.state {
            Some(state) => state.stage(),
            None => Stage::Turn,
        }
    }

    /// Whether its last poll spent a lease, so that its connection may have been granted to another
    /// transfer, at any site.
    pub fn has_spent(&self) -> bool
        ensures { result ≡ self.now.has_spent }
    {
        self.has_spent
    }

    /// The moments of its progress. No contract speaks of them.
    pub fn phases(&self) -> Phases {
        self.phases
    }

    /// Why its dial or its wire failed, if that happened since it last asked for a connection, and
    /// the system said why. No contract speaks of it.
    pub fn reason(&self) -> Option<Reason> {
        self.reason
    }

    /// True if it waits for a connection, with a ticket.
    pub fn has_ticket(&self) -> bool
        ensures waits { OnTrue result (HasTicket self.now) }
        ensures none { OnFalse result (HasTicket self.now → ⊥) }
    {
        matches!(self.state, Some(State::Waiting(_)))
    }

    /// True if it has a lease.
    pub(crate) fn has_lease(&self) -> bool
        ensures holds { OnTrue result (HasLease self.now) }
        ensures none { OnFalse result (HasLease self.now → ⊥) }
    {
        match &self.state {
            Some(state) => state.has_lease(),
            None => false,
        }
    }

    /// True if it has a lease or a ticket, so that a close spends it.
    pub fn has_any(&self) -> bool
        ensures any { OnTrue result (HasLease self.now ⊎ HasTicket self.now) }
        ensures none { OnFalse result (HasLease self.now ⊎ HasTicket self.now → ⊥) }
    {
        self.has_lease() || self.has_ticket()
    }

    /// True if it waits for its dial or its wire since its last poll, which was pending.
    pub fn is_at_wire(&self) -> bool
        ensures waits { OnTrue result (IsAtWire self.now) }
        ensures other { OnFalse result (IsAtWire self.now → ⊥) }
    {
        !self.has_yielded && self.has_lease()
    }

    /// Its transfer number.
    pub fn number(&self) -> u64
        ensures { result ≡ self.now.parts.want.transfer }
    {
        self.parts.transfer()
    }

    /// The index of its host.
    pub fn site(&self) -> u32
        ensures { result ≡ self.now.parts.site }
    {
        self.parts.site
    }

    /// How it ended, and what was prepared. Asked of the caller: a poll was ready.
    pub fn finish(self) -> (Done, Prepared)
        requires finished { IsFinished self.state }
        ensures done { self.state ≡ Some (at.Finished result.0) }
        ensures parts { result.1 ≡ self.parts }
    {
        let Transfer {
            parts,
            state,
            waker: _,
            has_yielded: _,
            has_spent: _,
            phases: _,
            reason: _,
        } = self;
        match state {
            Some(State::Finished(done)) => (done, parts),
            _ => unreachable!(),
        }
    }

    /// Ends it where it stands: a wait is withdrawn, a lease is abandoned, at that moment in
    /// seconds, and what was begun at the dial is given up. Before the first poll, and once a poll
    /// was ready, it changes nothing. Gives back what was prepared.
    ///
    /// Asked of the caller: what it has was made by this cache.
    pub fn cancel<C: Cache<W>, D: Dial<W>>(self, now: u64, cache: &mut C, dial: &mut D) -> Prepared
        requires owns { Owns (C.home cache.old) self.parts self.state }
        ensures stays { C.home cache.new ≡ C.home cache.old }
        ensures cancels { Cancels C.did cache.old cache.new now self.state }
        ensures spends_all { SpendsAll C.did cache.old cache.new self.state }
        ensures parts { result ≡ self.parts }
        ensures begun { GivesUpDial (D.shown dial.old) (D.shown dial.new)
            self.parts.want.transfer self.state }
        ensures leaves_dial { LeavesDial dial.old dial.new self.state }
    {
        let (_done, parts) = self.close(now, cache, dial);
        parts
    }

    /// How it ended, if a poll was ready; else the same as `cancel`, and that it was cancelled.
    ///
    /// Asked of the caller: what it has was made by this cache.
    pub fn close<C: Cache<W>, D: Dial<W>>(
        self,
        now: u64,
        cache: &mut C,
        dial: &mut D,
    ) -> (Done, Prepared)
        requires owns { Owns (C.home cache.old) self.parts self.state }
        ensures stays { C.home cache.new ≡ C.home cache.old }
        ensures cancels { Cancels C.did cache.old cache.new now self.state }
        ensures spends_all { SpendsAll C.did cache.old cache.new self.state }
        ensures done { Closes result.0 self.state }
        ensures parts { result.1 ≡ self.parts }
        ensures begun { GivesUpDial (D.shown dial.old) (D.shown dial.new)
            self.parts.want.transfer self.state }
        ensures leaves_dial { LeavesDial dial.old dial.new self.state }
    {
        let Transfer {
            parts,
            state,
            waker: _,
            has_yielded: _,
            has_spent: _,
            phases: _,
            reason: _,
        } = self;
        match state {
            Some(State::Waiting(ticket)) => withdraw(cache, ticket, now),
            Some(State::Dialling(lease)) => {
                dial.give_up(&lease);
                abandon(cache, lease, now);
            }
            Some(State::Sending(lease, _) | State::Reading(lease)) => abandon(cache, lease, now),
            Some(State::Finished(done)) => return (done, parts),
            Some(State::Asking) => {}
            None => {}
        }
        (Done::Bad(Fault::Cancelled), parts)
    }
}
