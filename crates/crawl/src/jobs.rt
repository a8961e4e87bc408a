//! The jobs of a batch, as a run draws them.

ghost use Rattle.std.specs.Prelude.{◌≡◌, ◌≤◌, ◌+◌, [], length, IfSome};
ghost use Rattle.crawl.specs.Results.{first_number};

use exchange::{Job, Prepared};
use run_loop::{Draw, Jobs};
use std::alloc::Global;

/// The jobs of a batch, all due at once, with consecutive numbers.
#[derive(Drop)]
pub(crate) struct BatchJobs<'a> {
    alloc: Global,
    jobs: &'a [Job],
    // A job for each number that is not among them.
    other: &'a Job,
    // The number of the first job.
    first: u64,
    // Number of jobs that were drawn.
    drawn: usize,
    ghost within: { drawn ≤ length jobs.now },
    ghost numbered: { first + length jobs.now ≤ 18446744073709551615 },
}

impl<'a> BatchJobs<'a> {
    /// Makes the jobs of a batch, of which none was drawn; none if their numbers would pass the
    /// greatest `u64`.
    pub(crate) fn new(alloc: Global, jobs: &'a [Job], other: &'a Job) -> Option<BatchJobs<'a>>
        ensures jobs { IfSome result (λ batch. batch.jobs.now ≡ jobs.now) }
        ensures other { IfSome result (λ batch. batch.other.now ≡ other.now) }
        ensures first { IfSome result (λ batch. batch.first ≡ first_number jobs.now) }
        ensures none { IfSome result (λ batch. batch.drawn ≡ 0) }
    {
        let first = first_number(jobs);
        first.checked_add(jobs.len() as u64)?;
        Some(BatchJobs {
            alloc,
            jobs,
            other,
            first,
            drawn: 0,
        })
    }

    /// Makes no jobs.
    pub(crate) fn none(alloc: Global, other: &'a Job) -> BatchJobs<'a>
        ensures jobs { result.jobs.now ≡ [] }
        ensures other { result.other.now ≡ other.now }
        ensures first { result.first ≡ 0 }
        ensures none { result.drawn ≡ 0 }
    {
        BatchJobs {
            alloc,
            jobs: &[],
            other,
            first: 0,
            drawn: 0,
        }
    }
}

// Returns the number of the first of these jobs, or 0 if there is none.
#[tactic(auto, using(crate::proofs::Numbers::first_is, crate::proofs::Numbers::first_none))]
fn first_number(jobs: &[Job]) -> u64
    ensures { result ≡ first_number jobs.now }
{
    match jobs.first() {
        Some(job) => job.want.transfer,
        None => 0,
    }
}

impl Jobs for BatchJobs<'_> {
    ghost use Rattle.std.specs.Prelude.{◌≡◌, ◌-◌, length, slice_index_or};
    ghost use Rattle.crawl.specs.Results.{numbers_from};

    ghost job_at = { λ batch number. slice_index_or batch.jobs.now (number - batch.first)
        batch.other.now };

    ghost drawn = { λ batch. numbers_from batch.first batch.drawn };

    ghost is_over = { λ batch. batch.drawn ≡ length batch.jobs.now };

    ghost holds_none = { λ batch. Unit {0} };

    ghost kept = { λ batch. tt };

    #[tactic(auto, using(crate::proofs::Numbers::all_below))]
    fn draw(&mut self, _now: u64) -> Draw {
        if self.drawn >= self.jobs.len() {
            return Draw::Over;
        }
        let number = self.first + self.drawn as u64;
        self.drawn += 1;
        Draw::Job(number)
    }

    fn draw_early(&mut self) -> Option<u64> {
        None
    }

    fn prepare(&self, number: u64, spare: Option<Prepared>) -> Result<Prepared, Option<Prepared>> {
        let place = number.saturating_sub(self.first);
        let Some(job) = self.jobs.get(place as usize) else {
            return Err(spare);
        };
        if job.want.transfer != number {
            return Err(spare);
        }
        let Some(used) = spare else {
            return Prepared::new(self.alloc, job).map_err(|_| None);
        };
        used.again(job).map_err(|(left, _)| Some(left))
    }
}
