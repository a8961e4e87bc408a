//! A worker, which draws jobs and carries out one after another.

ghost use Rattle.exchange.specs.Dialling.{failed_turns};
ghost use Rattle.std.specs.Prelude.{◌≡◌, ◌+◌, ◌<◌, ◌≤◌, length, IfNone, IsSome, OnErr};
ghost use Rattle.std.specs.Prelude.{Some, None, []};
ghost use Rattle.exchange.specs.Worlds.{world_of};
ghost use Rattle.driver.specs.Quits.{QuitsOn, QuitsSo};
ghost use Rattle.run_loop.specs.Running.{numbers_of};
ghost use Rattle.driver.specs.Results.{RunsInTurn};
ghost use Rattle.driver.specs.Workers.{AreResults, Goes, left_with};

use crate::carrying::carry_job;
use crate::context::RunContext;
use crate::gate::Gate;
use crate::quit::Quit;
use budget::Pass;
use bundle::Did;
use cache_trait::Cache;
use exchange::{Clock, Dial, Done, JobRunner, Wire};
use run_loop::JobSeat;
use std::alloc::Global;
use std::marker::{Model, PhantomData};
use std::mem;
use std::sync::Wait;

/// A thread of a run: the runner of its jobs and the dial that opens their connections, its seat at
/// the counter that it draws jobs from, its pass, how its jobs ended, and why it gave up, if it
/// did.
pub(crate) struct Worker<'d, W: Wire, D: Dial<W>> {
    runner: JobRunner,
    dial: &'d mut D,
    of: PhantomData<W>,
    seat: JobSeat,
    // `None` while a desk has it.
    pass: Option<Pass<Did>>,
    // Each with the number of its job.
    results: Vec<(u64, Done)>,
    quit: Option<Quit>,
}

impl<'d, W: Wire, D: Dial<W>> Model for Worker<'d, W, D> {
    ghost use Rattle.exchange.specs.Dialling.{failed_turns};
    ghost use Rattle.driver.specs.Workers.{WorkerShown};

    ghost Value = { WorkerShown };

    ghost view = { λ worker. record {
      opened = (D.shown worker.dial.now).opened;
      failed = failed_turns D.shown worker.dial.now;
      seat = worker.seat;
      pass = worker.pass;
      results = worker.results.items;
      quit = worker.quit;
    } };
}

/// The results of a worker that has ended, with its seat and its pass.
pub(crate) struct WorkerResult {
    pub(crate) seat: JobSeat,
    pub(crate) pass: Pass<Did>,
    pub(crate) results: Vec<(u64, Done)>,
    pub(crate) quit: Option<Quit>,
}

impl<'d, W: Wire, D: Dial<W>> Worker<'d, W, D> {
    /// Makes a worker with that pass and that seat, which has done nothing yet.
    pub(crate) fn new(
        alloc: Global,
        runner: JobRunner,
        dial: &'d mut D,
        seat: JobSeat,
        pass: Pass<Did>,
    ) -> Self
        ensures seat { result.seat ≡ seat }
        ensures pass { result.pass ≡ Some pass }
        ensures no_results { result.results ≡ [] }
        ensures well { result.quit ≡ None }
        ensures turns { result.failed ≡ failed_turns D.shown dial.old }
    {
        Worker {
            runner,
            dial,
            of: PhantomData,
            seat,
            pass: Some(pass),
            results: Vec::new(alloc),
            quit: None,
        }
    }

    /// Lends its pass, which it must have.
    pub(crate) fn take_pass(&mut self) -> Pass<Did>
        requires { IsSome self.old.pass }
        ensures pass { self.old.pass ≡ Some result }
        ensures none { self.new ≡ record self.old { pass = None } }
    {
        let Some(pass) = self.pass.take() else {
            unreachable!()
        };
        pass
    }

    /// Takes its pass back, which was lent.
    pub(crate) fn put_pass(&mut self, pass: Pass<Did>)
        requires { self.old.pass ≡ None }
        ensures { self.new ≡ record self.old { pass = Some pass } }
    {
        match mem::replace(&mut self.pass, Some(pass)) {
            None => {}
            Some(_) => unreachable!(),
        }
    }

    /// Ends the worker, which must have its pass again. Its dial counts its failed turns.
    pub(crate) fn leave(self) -> WorkerResult
        requires { IsSome self.pass }
        ensures left { self.entry ≡ left_with self.entry.opened self.entry.failed result.seat
            result.pass result.results.items result.quit }
        ensures dial { (dial : D) × (failed_turns D.shown dial ≡ self.entry.failed) }
    {
        let Worker {
            runner: _,
            dial: _,
            of: _,
            seat,
            pass,
            results,
            quit,
        } = self;
        let Some(pass) = pass else { unreachable!() };
        WorkerResult {
            seat,
            pass,
            results,
            quit,
        }
    }

    /// Draws jobs and carries them out, until no job is left or any worker gives up.
    pub(crate) fn draw_all<C: Cache<W>, K: Clock, G: Gate, R: Wait>(
        &mut self,
        rt: &R,
        shared: &RunContext<'_, K, G>,
        cache: &mut C,
    )
        requires claim { self.old.seat.claim ≡ shared.now.claim.now }
        requires jobs { shared.now.claim.now.jobs ≡ length shared.now.jobs.now }
        requires not_past { self.old.seat.past ≡ 0 }
        requires no_draws { self.old.seat.drawn ≡ [] }
        requires no_results { self.old.results ≡ [] }
        requires well { self.old.quit ≡ None }
        ensures home { C.home cache.new ≡ C.home cache.old }
        ensures carried { IfNone self.new.quit (RunsInTurn C.did (world_of W.untouched W.happened
            (K.tells shared.now.clock.now)) (G.may_stop shared.now.gate.now) shared.now.jobs.now
            cache.old cache.new self.new.results) }
        ensures claim { self.new.seat.claim ≡ self.old.seat.claim }
        ensures share { self.new.seat.share ≡ self.old.seat.share }
        ensures drawn { IfNone self.new.quit (
            self.new.seat.drawn ≡ numbers_of self.new.results) }
        ensures past { IfNone self.new.quit (0 < self.new.seat.past) }
        ensures results { AreResults (world_of W.untouched W.happened (K.tells
            shared.now.clock.now)) (G.may_stop shared.now.gate.now) shared.now.jobs.now
            self.new.results }
        ensures turns { QuitsSo self.new.quit self.old.failed self.new.failed }
        ensures opens { self.new.opened ≤ self.old.opened + length self.new.results + 1 }
        ensures pass { self.new.pass ≡ self.old.pass }
    {
        for _ in rt.forever() {
            match self.draw(rt, shared, cache) {
                Ok(true) => {}
                Ok(false) => return,
                Err(quit) => {
                    shared.faults.meet();
                    self.quit = Some(quit);
                    return;
                }
            }
        }
        unreachable!()
    }

    // Draws a job and carries it out; answers whether a job was left.
    fn draw<C: Cache<W>, K: Clock, G: Gate, R: Wait>(
        &mut self,
        rt: &R,
        shared: &RunContext<'_, K, G>,
        cache: &mut C,
    ) -> Result<bool, Quit>
        requires claim { self.old.seat.claim ≡ shared.now.claim.now }
        requires jobs { shared.now.claim.now.jobs ≡ length shared.now.jobs.now }
        requires not_past { self.old.seat.past ≡ 0 }
        ensures goes { Goes C.did (world_of W.untouched W.happened (K.tells
            shared.now.clock.now)) (G.may_stop shared.now.gate.now) shared.now.jobs.now
            cache.old cache.new self.old.seat self.new.seat self.old.results
            self.new.results result }
        ensures gave_up { OnErr result (self.new.results ≡ self.old.results) }
        ensures home { C.home cache.new ≡ C.home cache.old }
        ensures claim { self.new.seat.claim ≡ self.old.seat.claim }
        ensures share { self.new.seat.share ≡ self.old.seat.share }
        ensures quit { self.new.quit ≡ self.old.quit }
        ensures opens { self.new.opened ≤ self.old.opened + 1 }
        ensures turns { QuitsOn result self.old.failed self.new.failed }
        ensures pass { self.new.pass ≡ self.old.pass }
    {
        if shared.faults.met() {
            return Err(Quit::Told);
        }
        let Ok(()) = self.results.reserve(1) else {
            return Err(Quit::Memory);
        };
        let Some(number) = shared.claim.draw(&mut self.seat) else {
            return Ok(false);
        };
        let done = carry_job(rt, shared, &mut self.runner, cache, self.dial, number)?;
        self.results.push_reserved((number, done));
        Ok(true)
    }
}
