//! Requests one after another.

use crate::jobs::job_of;
use crate::soaking::course::Course;
use crate::soaking::time_limit::TimeLimit;
use cache_trait::Cache;
use conn_key::Target;
use exchange::{Done, Fault, Job, JobRunner};
use futures::task::{Doorbell, Solo};
use socket::{Addresses, WaitingDial, WaitingWire};
use std::alloc::{AllocError, Global};
use std::fmt::Write;

/// Number of body lengths: 0, 1 and so on.
const BODY_LENGTHS: u64 = 1_000;

/// Makes requests one after another, over a private dial.
#[derive(Drop)]
pub(crate) struct Requester<'n> {
    runner: JobRunner,
    dial: WaitingDial<'n, HostRuntime>,
    job: Job,
}

impl<'n> Requester<'n> {
    /// Makes a requester; `None` if the system has no memory, no poller or no random number.
    pub(crate) fn new(system: &'n HostRuntime, addresses: Addresses) -> Option<Requester<'n>> {
        let alloc = system.alloc();
        let task = Solo::new(system, Doorbell::spinning()).ok()?;
        let job = first_job(alloc).ok()?;
        let dial = WaitingDial::new(system, alloc, addresses).ok()?;
        Some(Requester {
            runner: JobRunner::new(alloc, task),
            dial,
            job,
        })
    }

    /// Makes the request of that number, and returns its result.
    pub(crate) fn request<C: Cache<WaitingWire>>(
        &mut self,
        course: &Course<'_>,
        cache: &mut C,
        number: u64,
    ) -> Done {
        let Ok(()) = self.set_job(course, number) else {
            return Done::Bad(Fault::Memory);
        };
        let clock = &course.clock;
        let control = TimeLimit::new(course);
        match self
            .runner
            .run(&self.job, cache, &mut self.dial, clock, &control)
        {
            Ok(ran) => ran.done,
            Err(_error) => Done::Bad(Fault::Memory),
        }
    }

    // Makes the job the request of that number: its path is the number. One request in sixteen
    // needs a new connection, and one in sixteen a connection that is closed after it.
    fn set_job(&mut self, course: &Course<'_>, number: u64) -> Result<(), AllocError> {
        let (site, port) = course.host(number / 3);
        self.job.site = site;
        self.job.target.port = port;
        self.job.want.transfer = number;
        self.job.want.fresh = number % 16 == 3;
        self.job.want.forbid_reuse = number % 16 == 11;
        self.job.target.path.clear();
        write!(self.job.target.path, "/{number}")
    }
}

/// Returns the length of the response to the request of that number.
pub(crate) fn bytes_of(number: u64) -> u64 {
    number % BODY_LENGTHS
}

// Makes the job of the first request.
fn first_job(alloc: Global) -> Result<Job, AllocError> {
    let host = String::from_str(alloc, "127.0.0.1")?;
    let target = Target {
        host,
        port: 0,
        path: String::new(alloc),
    };
    Ok(job_of(0, 0, target))
}
