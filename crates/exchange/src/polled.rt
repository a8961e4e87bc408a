//! An exchange as a future of `futures`.

ghost use Rattle.std.specs.Prelude.{◌≡◌, ⊤};
ghost use Rattle.futures.specs.Poll.{IfReady, OnPending};
ghost use Rattle.futures.specs.Task.{Covers, Keeps};
ghost use Rattle.exchange.specs.Worlds.{world_of};
ghost use Rattle.exchange.specs.Balance.{HasAll};
ghost use Rattle.exchange.specs.Exchanging.{Needs, IsFinished, Leaves};
ghost use Rattle.exchange.specs.Exchanging.{IsPolled};

use crate::exchange::Exchange;
use crate::wire::{Clock, Dial, Wire};
use cache_trait::Cache;
use futures::Future;
use futures::task::{Context, Poll};

/// An exchange as a future, which borrows it: once the future is ready or let go, whoever lent the
/// exchange closes it.
#[derive(Drop)]
pub struct Polled<'b, 'a, W: Wire, C: Cache<W>, D: Dial<W>, K: Clock> {
    exchange: &'b mut Exchange<'a, W, C, D, K>,
}

impl<'b, 'a, W: Wire, C: Cache<W>, D: Dial<W>, K: Clock> Polled<'b, 'a, W, C, D, K> {
    /// The future of an exchange.
    pub fn new(exchange: &'b mut Exchange<'a, W, C, D, K>) -> Self
        ensures exchange { result.exchange.now ≡ exchange.old }
        ensures borrow { result.exchange.ghost_name ≡ exchange.entry.ghost_name }
    {
        Polled { exchange }
    }
}

impl<'b, 'a, W: Wire, C: Cache<W>, D: Dial<W>, K: Clock> Future for Polled<'b, 'a, W, C, D, K> {
    type Output = ();

    ghost can_poll = { λ polled. ⊤ };

    ghost needs = { λ polled source. Needs W.source_name
        (D.shown polled.exchange.now.dial).source_name source
        polled.exchange.now.transfer.has_yielded polled.exchange.now.transfer.state };

    fn poll(&mut self, cx: &mut Context<'_>) -> Poll<()>
        requires { ⊤ }
        ensures value { IfReady result (λ _. ⊤) }
        ensures again { OnPending result ⊤ }
        ensures same { OnPending result ((x : Unit {0}) → ⊤ → ⊤) }
        ensures can_poll { ⊤ }
        ensures stays { C.home self.new.exchange.now.cache ≡ C.home self.old.exchange.now.cache }
        ensures polled { IsPolled C.did
            (world_of W.untouched W.happened (K.tells self.old.exchange.now.clock.now))
            self.old.exchange.now.cache self.new.exchange.now.cache
            (D.shown self.old.exchange.now.dial) (D.shown self.new.exchange.now.dial)
            self.old.exchange.now.transfer self.new.exchange.now.transfer }
        ensures out { HasAll
            (world_of W.untouched W.happened (K.tells self.old.exchange.now.clock.now))
            self.new.exchange.now.transfer.parts self.new.exchange.now.transfer.state }
        ensures finished { IfReady result (λ _. IsFinished self.new.exchange.now.transfer.state) }
        ensures pending { OnPending result (Leaves W.source_name
            (D.shown self.new.exchange.now.dial).source_name cx.old cx.new
            self.new.exchange.now.transfer.waker self.new.exchange.now.transfer.has_yielded
            self.new.exchange.now.transfer.state) }
        ensures registered { OnPending result (Covers cx.new (λ source. Needs W.source_name
            (D.shown self.new.exchange.now.dial).source_name source
            self.new.exchange.now.transfer.has_yielded self.new.exchange.now.transfer.state)) }
        ensures kept { Keeps cx.old cx.new }
        ensures same_cache { self.new.exchange.now.cache_name ≡ self.old.exchange.now.cache_name }
        ensures same_dial { self.new.exchange.now.dial_name ≡ self.old.exchange.now.dial_name }
        ensures same_clock { self.new.exchange.now.clock ≡ self.old.exchange.now.clock }
        ensures borrow { self.new.exchange.ghost_name ≡ self.old.exchange.ghost_name }
    {
        self.exchange.poll(cx)
    }
}
