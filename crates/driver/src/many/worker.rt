//! A worker of a run with many jobs at once.

ghost use Rattle.exchange.specs.Dialling.{failed_turns};
ghost use Rattle.std.specs.Prelude.{◌≡◌, Some, None, IsSome};
ghost use Rattle.driver.specs.ManyWork.{hired_with, left_with};

use budget::Pass;
use bundle::Did;
use exchange::{Dial, Wire};
use run_loop::{JobSeat, RunEnd, RunLoop};
use std::marker::Model;
use std::mem;

/// What a worker is handed: its dial, and what takes its results.
#[derive(Drop)]
pub struct Tools<D, F> {
    /// It opens the worker's connections.
    pub dial: D,
    /// It takes the results of the worker's jobs.
    pub results: F,
}

/// What a worker hands back.
pub struct Finished<D, F> {
    /// The dial that was handed in.
    pub dial: D,
    /// What took the results, with all of them.
    pub results: F,
    /// What its desk was told at each site.
    pub pass: Pass<Did>,
}

/// A worker that has not begun.
pub(crate) struct Ready<W: Wire, D: Dial<W>, F> {
    pub(crate) places: RunLoop<W>,
    pub(crate) dial: D,
    pub(crate) results: F,
    pub(crate) seat: JobSeat,
    pub(crate) pass: Pass<Did>,
}

/// What a worker leaves.
pub(crate) struct WorkerResult<D, F> {
    pub(crate) dial: D,
    pub(crate) results: F,
    pub(crate) seat: JobSeat,
    pub(crate) pass: Pass<Did>,
    pub(crate) end: RunEnd,
}

/// A worker before its work, while it works, and after it.
pub(crate) struct LoopWorker<W: Wire, D: Dial<W>, F> {
    hired: Option<Ready<W, D, F>>,
    left: Option<WorkerResult<D, F>>,
}

impl<W: Wire, D: Dial<W>, F> Model for LoopWorker<W, D, F> {
    ghost use Rattle.exchange.specs.Dialling.{failed_turns};
    ghost use Rattle.std.specs.Option.{option_map};
    ghost use Rattle.driver.specs.ManyWork.{LoopShown, hired_with, left_with};

    ghost Value = { LoopShown W F };

    ghost view = { λ worker. record {
      hired = option_map (λ it. hired_with it.places.slab.slots it.results
          (failed_turns D.shown it.dial) it.seat it.pass) worker.hired;
      left = option_map (λ it. left_with it.results (failed_turns D.shown it.dial) it.seat it.pass
          it.end) worker.left;
    } };
}

impl<W: Wire, D: Dial<W>, F> LoopWorker<W, D, F> {
    /// One that has not begun.
    pub(crate) fn new(ready: Ready<W, D, F>) -> LoopWorker<W, D, F>
        ensures hired { result.hired ≡ Some (hired_with ready.places.slab.slots
            ready.results (failed_turns D.shown ready.dial) ready.seat ready.pass) }
        ensures none { result.left ≡ None }
    {
        LoopWorker {
            hired: Some(ready),
            left: None,
        }
    }

    /// Begins its work.
    pub(crate) fn begin(&mut self) -> Ready<W, D, F>
        requires { IsSome self.old.hired }
        ensures was { self.old.hired ≡ Some (hired_with result.places.slab.slots
            result.results (failed_turns D.shown result.dial) result.seat result.pass) }
        ensures now { self.new ≡ record self.old { hired = None } }
    {
        let Some(ready) = self.hired.take() else {
            unreachable!()
        };
        ready
    }

    /// Ends its work.
    pub(crate) fn leave(&mut self, left: WorkerResult<D, F>)
        requires { self.old.left ≡ None }
        ensures { self.new ≡ record self.old {
          left = Some (left_with left.results
              (failed_turns D.shown left.dial) left.seat left.pass left.end);
        } }
    {
        match mem::replace(&mut self.left, Some(left)) {
            None => {}
            Some(_) => unreachable!(),
        }
    }

    /// What it has left.
    pub(crate) fn into_left(self) -> WorkerResult<D, F>
        requires none { self.hired ≡ None }
        requires some { IsSome self.left }
        ensures { self.left ≡ Some (left_with result.results (failed_turns D.shown result.dial)
            result.seat result.pass result.end) }
    {
        let LoopWorker { hired, left } = self;
        match hired {
            None => {}
            Some(_) => unreachable!(),
        }
        let Some(left) = left else { unreachable!() };
        left
    }
}
