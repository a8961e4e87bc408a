//! The loop of a run over one cache: any number of jobs at once, each carried out by a transfer.

ghost use Rattle.std.specs.Prelude.{◌≡◌, ◌≤◌, ◌<◌, ℕ, List, [], sum_by, IfOk, true};
ghost use Rattle.std.specs.Prelude.{None, replicate};
ghost use Rattle.exchange.specs.Dialling.{CountsTurn, failed_turns};
ghost use Rattle.exchange.specs.Worlds.{world_of};
ghost use Rattle.transfer_slab.specs.Slabs.{AreKept, one_if_some};
ghost use Rattle.run_loop.specs.Going.{rules_of, rules_at, point, RunsOn, RunsOnWith, RunsToEnd};
ghost use Rattle.run_loop.specs.Going.{MayClose, IfStopped, IfComplete, IfIncomplete, TurnsAt};
ghost use Rattle.run_loop.specs.Moments.{AreReadings, TakesTimed};
ghost use Rattle.run_loop.specs.Steps.{JoinsIf, IfNever};
ghost use Rattle.run_loop.specs.declared.until.Until.TheVariants.{Ended as EndedAll};

use crate::begins::{Begins, no_span};
use crate::jobs::{Draw, Jobs};
use crate::late::LateGrants;
use crate::results::Results;
use crate::run_end::RunEnd;
use crate::spares::Spares;
use crate::time_limit::LimitStarts;
use crate::timer::Timer;
use crate::until::Until;
use cache_trait::Cache;
use exchange::{Dial, Done, Fault, Turned, Wire};
use futures::task::{Poll, Solo};
use std::alloc::{AllocError, Global};
use std::sync::Wait;
use std::time::Duration;
use transfer_slab::{Ended, Slab};

/// Time between two sweeps, in microseconds.
const SWEEP_MICROS: u64 = 10_000;

/// The most rounds between two turns of the dial, beside the first one.
const MORE_ROUNDS: u32 = 7;

/// The moment at which the next job may begin.
#[derive(Clone, Copy)]
enum Next {
    /// Once a place is free.
    Free,
    /// At that moment, in microseconds.
    At(u64),
    /// Never: no job is left.
    Never,
}

/// The loop of a run over one cache. It has a fixed number of places, one for each job under way.
pub struct RunLoop<W: Wire> {
    slab: Slab<W>,
    places: usize,
    begins: Begins,
    limit_starts: LimitStarts,
    // The moment of the last sweep.
    swept: u64,
    spares: Spares,
    task: Solo,
    // Number of rings that were heard.
    heard: u64,
    // The timer knows that transfers wait for connections.
    has_waiters: bool,
    late: LateGrants,
    // Number of rounds since the last turn of the dial, beside the first one.
    rounds: u32,
    // A moment before the last turn of the dial, which found what had arrived by then.
    turned: u64,
    // A job has ended, or the bell has rung, since the last call.
    has_news: bool,
    ghost few: { sum_by one_if_some slab.slots ≤ places },
}

impl<W: Wire> RunLoop<W> {
    /// Makes a loop with `places` places, in which no job is under way. The sites of its jobs are
    /// below `site_count`. `task` polls its transfers.
    ///
    /// # Errors
    ///
    /// There is no memory for the places and sites.
    pub fn new(
        alloc: Global,
        places: usize,
        site_count: usize,
        task: Solo,
    ) -> Result<RunLoop<W>, AllocError>
        ensures empty { IfOk result (λ made. made.slab.slots ≡ []) }
        ensures fresh { IfOk result (λ made. made.begins.moments.items ≡ replicate places None) }
    {
        let spares = Spares::new(alloc, places)?;
        let begins = Begins::new(alloc, places)?;
        let limit_starts = LimitStarts::new(alloc, places)?;
        Ok(RunLoop {
            slab: Slab::with_room(alloc, places, site_count)?,
            places,
            begins,
            limit_starts,
            swept: 0,
            spares,
            task,
            heard: 0,
            has_waiters: false,
            late: LateGrants::new(),
            rounds: 0,
            turned: 0,
            has_news: false,
        })
    }

    /// Carries out the jobs that it draws, until none is left, the timer ends the run or breaks it
    /// off, or a turn of the dial fails; then the jobs under way are cancelled. Each job that was
    /// drawn has one result.
    ///
    /// Requires: no job is under way in the loop.
    pub fn run<C: Cache<W>, D: Dial<W>, J: Jobs, R: Results, T: Timer, H: Wait>(
        self,
        rt: &H,
        cache: &mut C,
        dial: &mut D,
        jobs: &mut J,
        results: &mut R,
        timer: &T,
    ) -> RunEnd
        requires { self.slab.slots ≡ [] }
        ensures stays { C.home cache.new ≡ C.home cache.old }
        ensures ends { RunsToEnd result (rules_of C.did (world_of W.untouched W.happened (T.tells
            timer.now)) (T.may_stop timer.now) (J.job_at jobs.old)
            (TakesTimed (T.tells_micros timer.now) R.took))
            (point cache.old (J.drawn jobs.old) [] results.old)
            (point cache.new (J.drawn jobs.new) [] results.new) }
        ensures fixed { J.kept jobs.new ≡ J.kept jobs.old }
        ensures complete { IfComplete result (J.is_over jobs.new) }
        ensures stopped { IfStopped result ((number : ℕ) → T.may_stop timer.now number) }
        ensures incomplete { IfIncomplete result (J.holds_none jobs.new) }
        ensures turns { TurnsAt result (failed_turns D.shown dial.old)
            (failed_turns D.shown dial.new) }
    {
        let mut run = self;
        run.begins.forget();
        let end = run.run_on(Until::Ended, rt, cache, dial, jobs, results, timer);
        run.shut_down(end, cache, dial, jobs, results, timer);
        end
    }

    /// Carries on with the jobs under way, and with the jobs that it draws, as `run` does, and ends
    /// the loop.
    ///
    /// Requires: each transfer in it is in a state that the wires and the clock can have led to,
    /// and the moments at which its jobs began are readings of the timer.
    pub fn finish<C: Cache<W>, D: Dial<W>, J: Jobs, R: Results, T: Timer, H: Wait>(
        self,
        rt: &H,
        cache: &mut C,
        dial: &mut D,
        jobs: &mut J,
        results: &mut R,
        timer: &T,
    ) -> RunEnd
        requires kept { AreKept (world_of W.untouched W.happened (T.tells timer.now))
            (C.home cache.old) self.slab.slots }
        requires readings { AreReadings (T.tells_micros timer.now) self.begins.moments.items }
        ensures stays { C.home cache.new ≡ C.home cache.old }
        ensures ends { RunsToEnd result (rules_of C.did (world_of W.untouched W.happened (T.tells
            timer.now)) (T.may_stop timer.now) (J.job_at jobs.old)
            (TakesTimed (T.tells_micros timer.now) R.took))
            (point cache.old (J.drawn jobs.old) self.slab.slots results.old)
            (point cache.new (J.drawn jobs.new) [] results.new) }
        ensures fixed { J.kept jobs.new ≡ J.kept jobs.old }
        ensures complete { IfComplete result (J.is_over jobs.new) }
        ensures stopped { IfStopped result ((number : ℕ) → T.may_stop timer.now number) }
        ensures incomplete { IfIncomplete result (J.holds_none jobs.new) }
        ensures turns { TurnsAt result (failed_turns D.shown dial.old)
            (failed_turns D.shown dial.new) }
    {
        let mut run = self;
        let end = run.run_on(Until::Ended, rt, cache, dial, jobs, results, timer);
        run.shut_down(end, cache, dial, jobs, results, timer);
        end
    }

    /// Ends a loop in which no job is under way.
    pub fn destroy_empty(self)
        requires { self.slab.slots ≡ [] }
    {
        let RunLoop {
            slab,
            places: _,
            begins: _,
            limit_starts: _,
            swept: _,
            spares: _,
            task: _,
            heard: _,
            has_waiters: _,
            late: _,
            rounds: _,
            turned: _,
            has_news: _,
        } = self;
        slab.destroy_empty();
    }

    /// Carries on with the jobs under way, and with the jobs that it draws, until no job is left,
    /// or the timer or a fault ends the run. `until` is the event that it waits for once no job is
    /// left to draw. Jobs that are still under way stay so: another call carries on with them, next
    /// to other jobs if need be. Bytes that have arrived since the last call are read before the
    /// timer stops a job. A job that is due at the moment at which the run ends does not begin.
    ///
    /// Requires: each transfer in it is in a state that the wires and the clock can have led to,
    /// and the moments at which its jobs began are readings of the timer.
    pub fn run_on<C: Cache<W>, D: Dial<W>, J: Jobs, R: Results, T: Timer, H: Wait>(
        &mut self,
        until: Until,
        rt: &H,
        cache: &mut C,
        dial: &mut D,
        jobs: &mut J,
        results: &mut R,
        timer: &T,
    ) -> RunEnd
        requires kept { AreKept (world_of W.untouched W.happened (T.tells timer.now))
            (C.home cache.old) self.old.slab.slots }
        requires readings { AreReadings (T.tells_micros timer.now) self.old.begins.moments.items }
        ensures stays { C.home cache.new ≡ C.home cache.old }
        ensures kept { AreKept (world_of W.untouched W.happened (T.tells timer.now))
            (C.home cache.new) self.new.slab.slots }
        ensures readings { AreReadings (T.tells_micros timer.now) self.new.begins.moments.items }
        ensures goes { RunsOn (rules_of C.did (world_of W.untouched W.happened (T.tells
            timer.now)) (T.may_stop timer.now) (J.job_at jobs.old)
            (TakesTimed (T.tells_micros timer.now) R.took))
            (point cache.old (J.drawn jobs.old) self.old.slab.slots results.old)
            (point cache.new (J.drawn jobs.new) self.new.slab.slots results.new) }
        ensures jobs { J.job_at jobs.new ≡ J.job_at jobs.old }
        ensures fixed { J.kept jobs.new ≡ J.kept jobs.old }
        ensures complete { IfComplete result (J.is_over jobs.new) }
        ensures empty { until ≡ EndedAll → IfComplete result
            (sum_by one_if_some self.new.slab.slots ≡ 0) }
        ensures stopped { IfStopped result ((number : ℕ) → T.may_stop timer.now number) }
        ensures turns { TurnsAt result (failed_turns D.shown dial.old)
            (failed_turns D.shown dial.new) }
    {
        self.set_out();
        let mut next = Next::Free;
        for _ in rt.forever() {
            if let Next::Never = next {
                if self.may_end(until) {
                    return RunEnd::Complete;
                }
            }
            if let Turned::Fault = self.rest(dial, timer, next) {
                return RunEnd::TurnFailed;
            }
            if timer.is_over() {
                return RunEnd::Stopped;
            }
            if timer.is_broken_off() {
                return RunEnd::BrokenOff;
            }
            self.poll_due(cache, dial, jobs, results, timer);
            self.sweep(cache, dial, jobs, results, timer);
            next = self.fill(cache, jobs, results, timer);
        }
        unreachable!()
    }

    // Notes that a call begins. If transfers are under way, it begins with a turn of the dial.
    fn set_out(&mut self)
        ensures slots { self.new.slab.slots ≡ self.old.slab.slots }
        ensures begins { self.new.begins ≡ self.old.begins }
    {
        self.has_news = false;
        if !self.slab.is_empty() {
            self.rounds = MORE_ROUNDS;
        }
    }

    // True if a call that has no job left to draw may return.
    fn may_end(&self, until: Until) -> bool
        ensures { result ≡ true → until ≡ EndedAll
            → sum_by one_if_some self.now.slab.slots ≡ 0 }
    {
        match until {
            Until::Begun => true,
            Until::Freed => self.has_news,
            Until::Ended => self.slab.is_empty(),
        }
    }

    // Draws jobs and begins them, while a place is free and a job is due. Returns when the next job
    // may begin.
    fn fill<C: Cache<W>, J: Jobs, R: Results, T: Timer>(
        &mut self,
        cache: &C,
        jobs: &mut J,
        results: &mut R,
        timer: &T,
    ) -> Next
        requires kept { AreKept (world_of W.untouched W.happened (T.tells timer.now))
            (C.home cache.now) self.old.slab.slots }
        requires readings { AreReadings (T.tells_micros timer.now) self.old.begins.moments.items }
        ensures kept { AreKept (world_of W.untouched W.happened (T.tells timer.now))
            (C.home cache.now) self.new.slab.slots }
        ensures readings { AreReadings (T.tells_micros timer.now) self.new.begins.moments.items }
        ensures goes { RunsOn (rules_of C.did (world_of W.untouched W.happened (T.tells
            timer.now)) (T.may_stop timer.now) (J.job_at jobs.old)
            (TakesTimed (T.tells_micros timer.now) R.took))
            (point cache.now (J.drawn jobs.old) self.old.slab.slots results.old)
            (point cache.now (J.drawn jobs.new) self.new.slab.slots results.new) }
        ensures jobs { J.job_at jobs.new ≡ J.job_at jobs.old }
        ensures fixed { J.kept jobs.new ≡ J.kept jobs.old }
        ensures over { IfNever result (J.is_over jobs.new) }
    {
        for _ in 0..self.places {
            if self.slab.len() >= self.places {
                return Next::Free;
            }
            match jobs.draw(timer.moment()) {
                Draw::Job(number) => self.begin(number, cache, jobs, results, timer),
                Draw::Later(due) => return Next::At(due),
                Draw::Over => return Next::Never,
            }
        }
        Next::Free
    }

    // Begins the job of that number, which was drawn; it has a result if there is no memory for it.
    fn begin<C: Cache<W>, J: Jobs, R: Results, T: Timer>(
        &mut self,
        number: u64,
        cache: &C,
        jobs: &J,
        results: &mut R,
        timer: &T,
    )
        requires kept { AreKept (world_of W.untouched W.happened (T.tells timer.now))
            (C.home cache.now) self.old.slab.slots }
        requires readings { AreReadings (T.tells_micros timer.now) self.old.begins.moments.items }
        requires free { sum_by one_if_some self.old.slab.slots < self.old.places }
        ensures kept { AreKept (world_of W.untouched W.happened (T.tells timer.now))
            (C.home cache.now) self.new.slab.slots }
        ensures readings { AreReadings (T.tells_micros timer.now) self.new.begins.moments.items }
        ensures goes { RunsOnWith (rules_of C.did (world_of W.untouched W.happened (T.tells
            timer.now)) (T.may_stop timer.now) (J.job_at jobs.now)
            (TakesTimed (T.tells_micros timer.now) R.took)) number cache.now
            self.old.slab.slots results.old self.new.slab.slots results.new }
        ensures places { self.new.places ≡ self.old.places }
    {
        if self.joins(number, cache, jobs, timer) {
            return;
        }
        results.take(number, Done::Bad(Fault::Memory), no_span(timer));
        self.has_news = true;
    }

    // Lets a transfer of the job of that number join, if there is memory for it. Returns true if it
    // did.
    fn joins<C: Cache<W>, J: Jobs, T: Timer>(
        &mut self,
        number: u64,
        cache: &C,
        jobs: &J,
        timer: &T,
    ) -> bool
        requires kept { AreKept (world_of W.untouched W.happened (T.tells timer.now))
            (C.home cache.now) self.old.slab.slots }
        requires readings { AreReadings (T.tells_micros timer.now) self.old.begins.moments.items }
        requires free { sum_by one_if_some self.old.slab.slots < self.old.places }
        ensures kept { AreKept (world_of W.untouched W.happened (T.tells timer.now))
            (C.home cache.now) self.new.slab.slots }
        ensures readings { AreReadings (T.tells_micros timer.now) self.new.begins.moments.items }
        ensures joins { JoinsIf result (J.job_at jobs.now number) number
            self.old.slab.slots self.new.slab.slots }
        ensures places { self.new.places ≡ self.old.places }
    {
        let parts = match jobs.prepare(number, self.spares.take()) {
            Ok(parts) => parts,
            Err(left) => {
                self.spares.keep(left);
                return false;
            }
        };
        match self.slab.join(parts, cache, timer) {
            Ok(place) => {
                let now = timer.moment();
                self.begins.begin(place, now);
                self.limit_starts.set(place, now);
                true
            }
            Err(unused) => {
                self.spares.keep(Some(unused));
                false
            }
        }
    }

    // Stops the jobs that the timer stops, if the last sweep was ten milliseconds ago, and all
    // transfers that the last turn of the dial found ready were polled. Each stopped job has its
    // result. The first transfer that waits at each site asks for its connection, though no bell
    // rang.
    fn sweep<C: Cache<W>, D: Dial<W>, J: Jobs, R: Results, T: Timer>(
        &mut self,
        cache: &mut C,
        dial: &mut D,
        _jobs: &J,
        results: &mut R,
        timer: &T,
    )
        requires kept { AreKept (world_of W.untouched W.happened (T.tells timer.now))
            (C.home cache.old) self.old.slab.slots }
        requires readings { AreReadings (T.tells_micros timer.now) self.old.begins.moments.items }
        ensures stays { C.home cache.new ≡ C.home cache.old }
        ensures kept { AreKept (world_of W.untouched W.happened (T.tells timer.now))
            (C.home cache.new) self.new.slab.slots }
        ensures readings { AreReadings (T.tells_micros timer.now) self.new.begins.moments.items }
        ensures goes { RunsOn (rules_of C.did (world_of W.untouched W.happened (T.tells
            timer.now)) (T.may_stop timer.now) (J.job_at _jobs.now)
            (TakesTimed (T.tells_micros timer.now) R.took))
            (point cache.old (J.drawn _jobs.now) self.old.slab.slots results.old)
            (point cache.new (J.drawn _jobs.now) self.new.slab.slots results.new) }
        ensures turns { failed_turns D.shown dial.new ≡ failed_turns D.shown dial.old }
    {
        if self.rounds == 0 && self.slab.has_due() {
            return;
        }
        let now = timer.moment();
        if now.saturating_sub(self.swept) < SWEEP_MICROS {
            return;
        }
        self.swept = now;
        timer.sweep();
        if !self.slab.has_due() {
            self.late.sweep(timer, self.heard);
        }
        self.slab.ask_sites();
        for place in 0..self.slab.places() {
            self.stop_at(place, cache, dial, _jobs, results, timer);
        }
    }

    // Stops the job at that place, if the timer stops one that is under way there, as of the last
    // turn of the dial. It has its result then.
    fn stop_at<C: Cache<W>, D: Dial<W>, J: Jobs, R: Results, T: Timer>(
        &mut self,
        place: usize,
        cache: &mut C,
        dial: &mut D,
        _jobs: &J,
        results: &mut R,
        timer: &T,
    )
        requires kept { AreKept (world_of W.untouched W.happened (T.tells timer.now))
            (C.home cache.old) self.old.slab.slots }
        requires readings { AreReadings (T.tells_micros timer.now) self.old.begins.moments.items }
        ensures stays { C.home cache.new ≡ C.home cache.old }
        ensures kept { AreKept (world_of W.untouched W.happened (T.tells timer.now))
            (C.home cache.new) self.new.slab.slots }
        ensures readings { AreReadings (T.tells_micros timer.now) self.new.begins.moments.items }
        ensures goes { RunsOn (rules_of C.did (world_of W.untouched W.happened (T.tells
            timer.now)) (T.may_stop timer.now) (J.job_at _jobs.now)
            (TakesTimed (T.tells_micros timer.now) R.took))
            (point cache.old (J.drawn _jobs.now) self.old.slab.slots results.old)
            (point cache.new (J.drawn _jobs.now) self.new.slab.slots results.new) }
        ensures turns { failed_turns D.shown dial.new ≡ failed_turns D.shown dial.old }
    {
        let Some(number) = self.slab.transfer_at(place) else {
            return;
        };
        let Some(start) = self.limit_starts.at(place) else {
            return;
        };
        if !timer.stops(number, start, self.turned) {
            return;
        }
        let phases = self.slab.phases_at(place);
        let Some((done, used)) = self.slab.close_at(place, cache, dial, timer) else {
            return;
        };
        let span = self.begins.span(place, phases, None, used.retried(), timer);
        results.take(used.transfer(), done, span);
        self.spares.keep(Some(used));
        self.has_news = true;
    }

    // Polls the transfers that are due, in one round. Each job that ends has its result.
    fn poll_due<C: Cache<W>, D: Dial<W>, J: Jobs, R: Results, T: Timer>(
        &mut self,
        cache: &mut C,
        dial: &mut D,
        _jobs: &J,
        results: &mut R,
        timer: &T,
    )
        requires kept { AreKept (world_of W.untouched W.happened (T.tells timer.now))
            (C.home cache.old) self.old.slab.slots }
        requires readings { AreReadings (T.tells_micros timer.now) self.old.begins.moments.items }
        ensures stays { C.home cache.new ≡ C.home cache.old }
        ensures kept { AreKept (world_of W.untouched W.happened (T.tells timer.now))
            (C.home cache.new) self.new.slab.slots }
        ensures readings { AreReadings (T.tells_micros timer.now) self.new.begins.moments.items }
        ensures goes { RunsOn (rules_of C.did (world_of W.untouched W.happened (T.tells
            timer.now)) (T.may_stop timer.now) (J.job_at _jobs.now)
            (TakesTimed (T.tells_micros timer.now) R.took))
            (point cache.old (J.drawn _jobs.now) self.old.slab.slots results.old)
            (point cache.new (J.drawn _jobs.now) self.new.slab.slots results.new) }
        ensures turns { failed_turns D.shown dial.new ≡ failed_turns D.shown dial.old }
    {
        let before = self.slab.len();
        let mut context = self.task.begin();
        let (slab, spares) = (&mut self.slab, &mut self.spares);
        while let Some(ended) = slab.poll_next(&mut context, cache, dial, timer) {
            let Ended {
                place,
                done,
                parts,
                phases,
                reason,
            } = ended;
            let retried = parts.retried();
            let span = self.begins.span(place, phases, reason, retried, timer);
            results.take(parts.transfer(), done, span);
            spares.keep(Some(parts));
        }
        let turn: Poll<()> = context.yield_now();
        context.end(&turn);
        let granted = self.slab.take_granted();
        self.late.grant(granted, timer, self.heard);
        self.has_news |= self.slab.len() < before;
    }

    // Waits, if nothing can be done at once, or eight rounds were taken since the last turn.
    fn rest<D: Dial<W>, T: Timer>(&mut self, dial: &mut D, timer: &T, next: Next) -> Turned
        ensures turns { CountsTurn result (failed_turns D.shown dial.old)
            (failed_turns D.shown dial.new) }
        ensures slots { self.new.slab.slots ≡ self.old.slab.slots }
        ensures begins { self.new.begins ≡ self.old.begins }
    {
        self.tell_spent(timer);
        let has_waiters = self.slab.has_waiters();
        self.set_waiters(timer, has_waiters);
        if self.rounds < MORE_ROUNDS && self.goes_on(next) {
            self.rounds += 1;
            return Turned::Done;
        }
        self.rounds = 0;
        self.wait(dial, timer, next)
    }

    // True if a transfer is due, or a place is free for a job that may begin at once.
    fn goes_on(&self, next: Next) -> bool {
        match next {
            Next::Free if self.slab.len() < self.places => true,
            _ => self.slab.has_due(),
        }
    }

    // The longest wait of a turn of the dial, if no transfer becomes due.
    fn most_wait<T: Timer>(&self, timer: &T, next: Next) -> Duration {
        match next {
            Next::At(due) => Duration::from_micros(due.saturating_sub(timer.moment())),
            Next::Free if self.goes_on(next) => Duration::ZERO,
            Next::Free | Next::Never => Duration::MAX,
        }
    }

    // Waits for an event of a transfer, or until the next job is due, by a turn of the dial. It
    // checks for rings once the bell can end the turn, so no ring is missed.
    fn wait<D: Dial<W>, T: Timer>(&mut self, dial: &mut D, timer: &T, next: Next) -> Turned
        ensures turns { CountsTurn result (failed_turns D.shown dial.old)
            (failed_turns D.shown dial.new) }
        ensures slots { self.new.slab.slots ≡ self.old.slab.slots }
        ensures begins { self.new.begins ≡ self.old.begins }
    {
        let most = self.most_wait(timer, next);
        if !self.slab.has_due() {
            self.late.settle();
        }
        timer.fall_asleep();
        self.hear(timer.rings());
        let now = timer.moment();
        self.limit_starts.delay(self.turned, now);
        self.turned = now;
        let turned = self.slab.turn(dial, most);
        let rings = timer.rings();
        let was_rung = timer.wake_up();
        if rings != self.heard && !was_rung && !self.slab.has_due() {
            self.late.miss();
        }
        self.hear(rings);
        turned
    }

    // Records whether transfers wait for connections. Once some do, the first one at each site asks
    // again: a grant before the record may have had no ring.
    fn set_waiters<T: Timer>(&mut self, timer: &T, has_waiters: bool)
        ensures slots { self.new.slab.slots ≡ self.old.slab.slots }
        ensures begins { self.new.begins ≡ self.old.begins }
    {
        if has_waiters == self.has_waiters {
            return;
        }
        self.has_waiters = has_waiters;
        timer.note_waiters(has_waiters);
        self.slab.ask_sites();
    }

    // Rings the bell if leases or tickets were spent since the last call.
    fn tell_spent<T: Timer>(&mut self, timer: &T)
        ensures slots { self.new.slab.slots ≡ self.old.slab.slots }
        ensures begins { self.new.begins ≡ self.old.begins }
    {
        if self.slab.take_spent() {
            self.heard = timer.ring(self.heard);
        }
    }

    // Lets the first transfer that waits at each site ask for its connection, if the bell rang.
    fn hear(&mut self, rings: u64)
        ensures slots { self.new.slab.slots ≡ self.old.slab.slots }
        ensures begins { self.new.begins ≡ self.old.begins }
    {
        if rings != self.heard {
            self.heard = rings;
            self.has_news = true;
            self.slab.ask_sites();
        }
    }

    // Ends a run, as `end` says, and its loop: stops a job that was drawn early, closes the
    // transfers under way, and rings the bell for the connections that they held.
    fn shut_down<C: Cache<W>, D: Dial<W>, J: Jobs, R: Results, T: Timer>(
        self,
        end: RunEnd,
        cache: &mut C,
        dial: &mut D,
        jobs: &mut J,
        results: &mut R,
        timer: &T,
    )
        requires kept { AreKept (world_of W.untouched W.happened (T.tells timer.now))
            (C.home cache.old) self.slab.slots }
        requires readings { AreReadings (T.tells_micros timer.now) self.begins.moments.items }
        requires may { MayClose end (T.may_stop timer.now) self.slab.slots }
        ensures stays { C.home cache.new ≡ C.home cache.old }
        ensures goes { RunsOn (rules_at end (rules_of C.did (world_of W.untouched W.happened
            (T.tells timer.now)) (T.may_stop timer.now) (J.job_at jobs.old)
            (TakesTimed (T.tells_micros timer.now) R.took)))
            (point cache.old (J.drawn jobs.old) self.slab.slots results.old)
            (point cache.new (J.drawn jobs.new) [] results.new) }
        ensures fixed { J.kept jobs.new ≡ J.kept jobs.old }
        ensures complete { IfComplete end (jobs.new ≡ jobs.old) }
        ensures incomplete { IfIncomplete end (J.holds_none jobs.new) }
        ensures turns { failed_turns D.shown dial.new ≡ failed_turns D.shown dial.old }
    {
        let mut run = self;
        run.drop_early(end, cache, jobs, results, timer);
        run.close_all(end, cache, dial, jobs, results, timer);
        let _ = timer.ring(run.heard);
        run.set_waiters(timer, false);
        timer.fall_asleep();
        run.destroy_empty();
    }

    // A job that was drawn before it was due, if there is one, is stopped before it begins, unless
    // the run is complete.
    fn drop_early<C: Cache<W>, J: Jobs, R: Results, T: Timer>(
        &self,
        end: RunEnd,
        _cache: &C,
        jobs: &mut J,
        results: &mut R,
        _timer: &T,
    )
        requires may { MayClose end (T.may_stop _timer.now) self.now.slab.slots }
        ensures goes { RunsOn (rules_at end (rules_of C.did (world_of W.untouched W.happened
            (T.tells _timer.now)) (T.may_stop _timer.now) (J.job_at jobs.old)
            (TakesTimed (T.tells_micros _timer.now) R.took)))
            (point _cache.now (J.drawn jobs.old) self.now.slab.slots results.old)
            (point _cache.now (J.drawn jobs.new) self.now.slab.slots results.new) }
        ensures jobs { J.job_at jobs.new ≡ J.job_at jobs.old }
        ensures fixed { J.kept jobs.new ≡ J.kept jobs.old }
        ensures complete { IfComplete end (jobs.new ≡ jobs.old) }
        ensures incomplete { IfIncomplete end (J.holds_none jobs.new) }
    {
        if end.is_complete() {
            return;
        }
        let Some(number) = jobs.draw_early() else {
            return;
        };
        results.take(number, Done::Bad(Fault::Cancelled), no_span(_timer));
    }

    // Closes the transfers under way. Each of their jobs has its result.
    fn close_all<C: Cache<W>, D: Dial<W>, J: Jobs, R: Results, T: Timer>(
        &mut self,
        end: RunEnd,
        cache: &mut C,
        dial: &mut D,
        _jobs: &J,
        results: &mut R,
        timer: &T,
    )
        requires kept { AreKept (world_of W.untouched W.happened (T.tells timer.now))
            (C.home cache.old) self.old.slab.slots }
        requires readings { AreReadings (T.tells_micros timer.now) self.old.begins.moments.items }
        requires may { MayClose end (T.may_stop timer.now) self.old.slab.slots }
        ensures stays { C.home cache.new ≡ C.home cache.old }
        ensures goes { RunsOn (rules_at end (rules_of C.did (world_of W.untouched W.happened
            (T.tells timer.now)) (T.may_stop timer.now) (J.job_at _jobs.now)
            (TakesTimed (T.tells_micros timer.now) R.took)))
            (point cache.old (J.drawn _jobs.now) self.old.slab.slots results.old)
            (point cache.new (J.drawn _jobs.now) self.new.slab.slots results.new) }
        ensures none { self.new.slab.slots ≡ [] }
        ensures turns { failed_turns D.shown dial.new ≡ failed_turns D.shown dial.old }
    {
        let mut phases = self.slab.last_phases();
        while let Some((done, used)) = self.slab.close_last(cache, dial, timer) {
            // it stood behind all places that are left
            let place = self.slab.places();
            let span = self.begins.span(place, phases, None, used.retried(), timer);
            results.take(used.transfer(), done, span);
            phases = self.slab.last_phases();
        }
    }
}
