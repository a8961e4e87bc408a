//! One transfer at a time, which borrows its cache, its dial and its clock for its life.

ghost use Rattle.std.specs.Prelude.{◌≡◌, ◌<◌, false, length, string_bytes};
ghost use Rattle.std.specs.Prelude.{Some, IfSome};
ghost use Rattle.futures.specs.Task.{Keeps};
ghost use Rattle.futures.specs.Poll.{IfReady, OnPending};
ghost use Rattle.exchange.specs.Dialling.{TakesTurn};
ghost use Rattle.exchange.specs.Answers.{IsUnused};
ghost use Rattle.exchange.specs.Worlds.{world_of};
ghost use Rattle.exchange.specs.Since.{since};
ghost use Rattle.exchange.specs.Waiting.{stage_at};
ghost use Rattle.exchange.specs.Kept.{OwnsIts, owns_prop};
ghost use Rattle.exchange.specs.Owning.{IsReady};
ghost use Rattle.exchange.specs.Exchanging.{Stands, IsFinished, Leaves, Cancels};
ghost use Rattle.exchange.specs.Exchanging.{Closes, GivesUpDial, LeavesDial};
ghost use Rattle.exchange.specs.Exchanging.{IsPolled};
ghost use Rattle.exchange.specs.Balance.{HasAll, SpendsAll};
ghost use Rattle.exchange.specs.declared.state.State.TheVariants as at;

use crate::done::Done;
use crate::job::Prepared;
use crate::phases::Phases;
use crate::reason::Reason;
use crate::state::Stage;
use crate::transfer::Transfer;
use crate::wire::{Clock, Dial, Turned, Wire};
use cache_trait::Cache;
use futures::task::{Context, Poll};
use std::marker::Model;
use std::time::Duration;

/// One request and its response over a connection of a cache, which it borrows for its life. It is
/// polled by hand, and has to be spent: closed, finished once a poll was ready, or cancelled.
pub struct Exchange<'a, W: Wire, C: Cache<W>, D: Dial<W>, K: Clock> {
    cache: &'a mut C,
    dial: &'a mut D,
    clock: &'a K,
    transfer: Transfer<W>,
    ghost owns: { OwnsIts (C.home cache.now) transfer } by { owns_prop W.code _ transfer },
    ghost text: { 0 < length (string_bytes transfer.parts.text) },
    ghost buffer: { 0 < length transfer.parts.buffer.items },
}

impl<'a, W: Wire, C: Cache<W>, D: Dial<W>, K: Clock> Model for Exchange<'a, W, C, D, K> {
    ghost use Rattle.exchange.specs.Transfers.{ExchangeShown};

    ghost Value = { ExchangeShown W C D K };

    ghost view = { λ exchange. record {
      cache = exchange.cache.now;
      cache_name = exchange.cache.ghost_name;
      dial = exchange.dial.now;
      dial_name = exchange.dial.ghost_name;
      clock = exchange.clock;
      transfer = exchange.transfer;
    } };
}

impl<'a, W: Wire, C: Cache<W>, D: Dial<W>, K: Clock> Exchange<'a, W, C, D, K> {
    /// An exchange of what was prepared, over that cache, dial and clock. It takes no memory, so
    /// that the cache stays with its caller if memory is short: [`Prepared::new`] takes it all.
    pub fn new(parts: Prepared, cache: &'a mut C, dial: &'a mut D, clock: &'a K) -> Self
        requires unused { IsUnused parts }
        ensures stands { Stands C.did (world_of W.untouched W.happened (K.tells clock.now))
            result.transfer.parts (since cache.old) result.cache result.transfer.state }
        ensures parts { result.transfer.parts ≡ parts }
        ensures asking { result.transfer.state ≡ Some at.Asking }
        ensures yielded { result.transfer.has_yielded ≡ false }
        ensures cache { result.cache ≡ cache.old }
        ensures dial { result.dial ≡ dial.old }
        ensures clock { result.clock ≡ clock.entry }
        ensures same_cache { result.cache_name ≡ cache.entry.ghost_name }
        ensures same_dial { result.dial_name ≡ dial.entry.ghost_name }
    {
        Exchange {
            cache,
            dial,
            clock,
            transfer: Transfer::new(parts),
        }
    }

    /// Goes on as far as it can, with at most 64 reads and writes. Once it is ready it has ended,
    /// owns nothing, and every later poll is ready at once. If it is pending, it has registered
    /// with the wire or the dial that it waits for, or has asked to be polled again: see
    /// [`Exchange::waits_on`].
    pub fn poll(&mut self, cx: &mut Context<'_>) -> Poll<()>
        ensures stays { C.home self.new.cache ≡ C.home self.old.cache }
        ensures polled { IsPolled C.did
            (world_of W.untouched W.happened (K.tells self.old.clock.now))
            self.old.cache self.new.cache (D.shown self.old.dial)
            (D.shown self.new.dial) self.old.transfer self.new.transfer }
        ensures out { HasAll (world_of W.untouched W.happened (K.tells self.old.clock.now))
            self.new.transfer.parts self.new.transfer.state }
        ensures finished { IfReady result (λ _. IsFinished self.new.transfer.state) }
        ensures pending { OnPending result (Leaves W.source_name
            (D.shown self.new.dial).source_name cx.old cx.new self.new.transfer.waker
            self.new.transfer.has_yielded self.new.transfer.state) }
        ensures kept { Keeps cx.old cx.new }
        ensures same_cache { self.new.cache_name ≡ self.old.cache_name }
        ensures same_dial { self.new.dial_name ≡ self.old.dial_name }
        ensures same_clock { self.new.clock ≡ self.old.clock }
    {
        self.transfer.poll(cx, self.cache, self.dial, self.clock)
    }

    /// What it waits for since its last poll, which was pending.
    pub fn waits_on(&self) -> Stage
        ensures { IfSome self.now.transfer.state (λ state.
            result ≡ stage_at self.now.transfer.has_yielded state) }
    {
        self.transfer.waits_on()
    }

    /// The moments of its progress. No contract speaks of them.
    pub fn phases(&self) -> Phases {
        self.transfer.phases()
    }

    /// Why its dial or its wire failed: see [`Transfer::reason`].
    pub fn reason(&self) -> Option<Reason> {
        self.transfer.reason()
    }

    /// Takes a turn of its dial's event loop, which waits at most ten milliseconds.
    pub fn turn(&mut self) -> Turned
        ensures turn { TakesTurn result (D.shown self.old.dial) (D.shown self.new.dial) }
        ensures turned { D.turned self.old.dial self.new.dial }
        ensures transfer { self.new.transfer ≡ self.old.transfer }
        ensures cache { self.new.cache ≡ self.old.cache }
        ensures same_cache { self.new.cache_name ≡ self.old.cache_name }
        ensures same_dial { self.new.dial_name ≡ self.old.dial_name }
        ensures same_clock { self.new.clock ≡ self.old.clock }
    {
        self.dial.turn(Duration::MAX)
    }

    /// How it ended, what was prepared, its cache and its dial. Asked of the caller: a poll was
    /// ready.
    pub fn finish(self) -> (Done, Prepared, &'a mut C, &'a mut D)
        requires finished { IsFinished self.transfer.state }
        ensures done { self.entry.transfer.state ≡ Some (at.Finished result.0) }
        ensures parts { result.1 ≡ self.entry.transfer.parts }
        ensures ready { IsReady result.1 }
        ensures cache { result.2.now ≡ self.entry.cache }
        ensures dial { result.3.now ≡ self.entry.dial }
        ensures same_cache { result.2.ghost_name ≡ self.entry.cache_name }
        ensures same_dial { result.3.ghost_name ≡ self.entry.dial_name }
    {
        let Exchange {
            cache,
            dial,
            clock: _,
            transfer,
        } = self;
        let (done, parts) = transfer.finish();
        (done, parts, cache, dial)
    }

    /// Ends it where it stands: a wait is withdrawn, a lease is abandoned, at that moment in
    /// seconds, and what was begun at the dial is given up. Before the first poll, and once a poll
    /// was ready, it changes nothing. Gives back what was prepared, the cache and the dial.
    pub fn cancel(self, now: u64) -> (Prepared, &'a mut C, &'a mut D)
        ensures stays { C.home result.1.now ≡ C.home self.entry.cache }
        ensures cancels { Cancels C.did self.entry.cache result.1.now now
            self.entry.transfer.state }
        ensures spends_all { SpendsAll C.did self.entry.cache result.1.now
            self.entry.transfer.state }
        ensures parts { result.0 ≡ self.entry.transfer.parts }
        ensures ready { IsReady result.0 }
        ensures begun { GivesUpDial (D.shown self.entry.dial) (D.shown result.2.now)
            self.entry.transfer.parts.want.transfer self.entry.transfer.state }
        ensures leaves_dial { LeavesDial self.entry.dial result.2.now self.entry.transfer.state }
        ensures same_cache { result.1.ghost_name ≡ self.entry.cache_name }
        ensures same_dial { result.2.ghost_name ≡ self.entry.dial_name }
    {
        let Exchange {
            cache,
            dial,
            clock: _,
            transfer,
        } = self;
        let parts = transfer.cancel(now, cache, dial);
        (parts, cache, dial)
    }

    /// How it ended, if a poll was ready; else the same as `cancel`, and that it was cancelled.
    pub fn close(self, now: u64) -> (Done, Prepared, &'a mut C, &'a mut D)
        ensures stays { C.home result.2.now ≡ C.home self.entry.cache }
        ensures cancels { Cancels C.did self.entry.cache result.2.now now
            self.entry.transfer.state }
        ensures spends_all { SpendsAll C.did self.entry.cache result.2.now
            self.entry.transfer.state }
        ensures done { Closes result.0 self.entry.transfer.state }
        ensures parts { result.1 ≡ self.entry.transfer.parts }
        ensures ready { IsReady result.1 }
        ensures begun { GivesUpDial (D.shown self.entry.dial) (D.shown result.3.now)
            self.entry.transfer.parts.want.transfer self.entry.transfer.state }
        ensures leaves_dial { LeavesDial self.entry.dial result.3.now self.entry.transfer.state }
        ensures same_cache { result.2.ghost_name ≡ self.entry.cache_name }
        ensures same_dial { result.3.ghost_name ≡ self.entry.dial_name }
    {
        let Exchange {
            cache,
            dial,
            clock: _,
            transfer,
        } = self;
        let (done, parts) = transfer.close(now, cache, dial);
        (done, parts, cache, dial)
    }
}
