//! The jobs of one worker, whose numbers it draws from the run's word.

ghost use Rattle.std.specs.Prelude.{◌≡◌, ◌<◌, None, IfNone};
ghost use Rattle.driver.specs.ManyJobs.{given_out, fixed_of, IsDrawing};

use crate::many::job_source::JobSource;
use exchange::Prepared;
use run_loop::{Draw, JobCounter, JobSeat, Jobs};

/// The jobs of one worker: their numbers are drawn from the run's word. A number whose job is not
/// due yet is held until it is.
#[derive(Drop)]
pub(crate) struct DrawnJobs<'a, S: JobSource> {
    claim: &'a JobCounter,
    source: &'a S,
    /// The worker's number.
    worker: usize,
    seat: JobSeat,
    held: Option<u64>,
    /// Whether a number past the jobs was drawn.
    is_over: bool,
    ghost drawing: { IsDrawing claim.now seat held is_over },
}

impl<'a, S: JobSource> DrawnJobs<'a, S> {
    /// Makes the jobs of the worker of that number, whose seat has drawn nothing.
    pub(crate) fn new(claim: &'a JobCounter, source: &'a S, worker: usize, seat: JobSeat) -> Self
        requires at { seat.claim ≡ claim.now }
        requires not_past { seat.past ≡ 0 }
        ensures source { result.source.now ≡ source.now }
        ensures worker { result.worker ≡ worker }
        ensures seat { result.seat ≡ seat }
        ensures none { result.held ≡ None }
    {
        DrawnJobs {
            claim,
            source,
            worker,
            seat,
            held: None,
            is_over: false,
        }
    }

    /// Its seat, at the end.
    pub(crate) fn into_seat(self) -> JobSeat
        ensures { result ≡ self.entry.seat }
    {
        self.seat
    }

    // The number that is held, which is drawn if none is; None once no job is left.
    fn hold_next(&mut self) -> Option<u64>
        ensures held { result ≡ self.new.held }
        ensures same { given_out self.new.held self.new.seat.drawn
            ≡ given_out self.old.held self.old.seat.drawn }
        ensures over { IfNone result (0 < self.new.seat.past) }
        ensures source { self.new.source.now ≡ self.old.source.now }
        ensures worker { self.new.worker ≡ self.old.worker }
        ensures fixed { fixed_of self.new.seat ≡ fixed_of self.old.seat }
    {
        if self.held.is_some() {
            return self.held;
        }
        if self.is_over {
            return None;
        }
        self.held = self.claim.draw(&mut self.seat);
        self.is_over = self.held.is_none();
        self.held
    }
}

impl<'a, S: JobSource> Jobs for DrawnJobs<'a, S> {
    ghost use Rattle.std.specs.Prelude.{◌≡◌, ℕ, ◌<◌, None};
    ghost use Rattle.run_loop.specs.Draws.{Jobs as Claimed};
    ghost use Rattle.driver.specs.ManyJobs.{given_out, fixed_of};

    ghost job_at = { λ jobs number. S.job_at jobs.source.now jobs.worker number };

    ghost drawn = { λ jobs. given_out jobs.held jobs.seat.drawn };

    ghost is_over = { λ jobs. (0 < jobs.seat.past) × (jobs.held ≡ None) };

    ghost holds_none = { λ jobs. jobs.held ≡ None };

    ghost Kept = { Claimed × ℕ };

    ghost kept = { λ jobs. fixed_of jobs.seat };

    fn draw(&mut self, now: u64) -> Draw {
        let Some(number) = self.hold_next() else {
            return Draw::Over;
        };
        let due = self.source.due(number);
        if due > now {
            return Draw::Later(due);
        }
        self.held = None;
        Draw::Job(number)
    }

    fn draw_early(&mut self) -> Option<u64> {
        self.held.take()
    }

    fn prepare(&self, number: u64, spare: Option<Prepared>) -> Result<Prepared, Option<Prepared>> {
        self.source.prepare(self.worker, number, spare)
    }
}
