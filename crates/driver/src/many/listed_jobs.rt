//! Jobs in a list.

ghost use Rattle.std.specs.Prelude.{◌≡◌, IfSome};

use crate::many::job_source::JobSource;
use exchange::{Job, Prepared};
use std::alloc::Global;

/// Jobs in a list, all due at once: the number of each is its place there, and its transfer.
#[derive(Drop)]
pub struct ListedJobs<'a> {
    alloc: Global,
    jobs: &'a [Job],
    first: &'a Job,
}

impl<'a> ListedJobs<'a> {
    /// The jobs in that list; none if it is empty.
    pub fn new(alloc: Global, jobs: &'a [Job]) -> Option<ListedJobs<'a>>
        ensures { IfSome result (λ source. source.jobs.now ≡ jobs.now) }
    {
        let (first, _) = jobs.split_first()?;
        Some(ListedJobs { alloc, jobs, first })
    }
}

impl JobSource for ListedJobs<'_> {
    ghost use Rattle.driver.specs.Results.{job_in};

    // past the list it is the first one, which is not prepared
    ghost job_at = { λ listed worker number. job_in listed.jobs.now listed.first.now number };

    fn due(&self, _number: u64) -> u64 {
        0
    }

    fn prepare(
        &self,
        _worker: usize,
        number: u64,
        spare: Option<Prepared>,
    ) -> Result<Prepared, Option<Prepared>> {
        let Some(job) = self.jobs.get(number as usize) else {
            return Err(spare);
        };
        if job.want.transfer != number {
            return Err(spare);
        }
        let Some(used) = spare else {
            return Prepared::new(self.alloc, job).map_err(|_| None);
        };
        used.again(job).map_err(|(left, _)| Some(left))
    }
}
