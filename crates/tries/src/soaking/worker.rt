//! A thread's worker, which has one desk and one pass for its whole life.

ghost use Rattle.std.specs.Prelude.{IfSome};
ghost use Rattle.shared_cache.specs.Passes.{IsPassOf};

use crate::soaking::course::Course;
use crate::soaking::requester::Requester;
use crate::soaking::requesting::request_all;
use budget::Pass;
use bundle::Did;
use shared_cache::{Desk, Names, SharedCache};
use socket::WaitingWire;
use std::marker::{Model, PhantomData};
use std::mem;
use std::sync::Wait;

/// A thread's worker: the thread's index, the pass with which it calls the cache that `N` names,
/// unless its desk has the pass, and the requester.
pub(crate) struct Worker<'n, N: Names> {
    index: u64,
    pass: Option<Pass<Did>>,
    requester: Requester<'n>,
    of: PhantomData<N>,
}

impl<'n, N: Names> Model for Worker<'n, N> {
    ghost use Rattle.std.specs.Prelude.{Option, IfSome};
    ghost use Rattle.bundle.specs.Passes.{Accounts};
    ghost use Rattle.shared_cache.specs.Passes.{IsPassOf};

    ghost Value = { Option Accounts };

    ghost view = { λ worker. worker.pass };

    ghost invariant = { λ worker. IfSome worker.pass (IsPassOf N.names) };
}

impl<'n, N: Names> Drop for Worker<'n, N> {
    fn drop(self) {
        if let Some(pass) = self.leave() {
            pass.discard();
        }
    }
}

impl<'n, N: Names> Worker<'n, N> {
    /// Makes a worker with that pass, which has done nothing.
    pub(crate) fn new(index: u64, pass: Pass<Did>, requester: Requester<'n>) -> Self
        requires { IsPassOf N.names pass }
    {
        Worker {
            index,
            pass: Some(pass),
            requester,
            of: PhantomData,
        }
    }

    /// Ends the worker, and returns its pass.
    pub(crate) fn leave(self) -> Option<Pass<Did>>
        ensures { IfSome result (IsPassOf N.names) }
    {
        let Worker {
            index: _,
            pass,
            requester: _,
            of: _,
        } = self;
        pass
    }

    /// Makes requests at a private desk, one at least, until the run is over.
    pub(crate) fn work<R: Wait>(
        &mut self,
        rt: &R,
        cache: &SharedCache<WaitingWire, N>,
        course: &Course<'_>,
    ) {
        let Some(pass) = self.pass.take() else {
            return;
        };
        let mut desk = Desk::new(cache, rt, pass);
        request_all(
            &mut self.requester,
            rt,
            cache,
            course,
            self.index,
            &mut desk,
        );
        if let Some(other) = mem::replace(&mut self.pass, Some(desk.into_pass())) {
            other.discard();
        }
    }
}
