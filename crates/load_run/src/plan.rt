//! The plan of a load.

ghost use Rattle.std.specs.Prelude.{◌≡◌, ℕ, min, unwrap_or, IsSome, OnSome};
ghost use Rattle.load_run.specs.Counting.{end_by, limit_of, warm_of};

use crate::pace::Rate;
use budget::Limits;
use exchange::Job;
use socket::Addresses;

/// Microseconds in a second.
const SECOND: u64 = 1_000_000;

/// The plan of a load.
#[derive(Drop)]
pub struct ManyPlan<'a> {
    /// Limits of the cache.
    pub limits: Limits,
    /// Number of sites.
    pub sites: u32,
    /// Number of hosts that each site has in the cache: 1, or the number of threads, so that no two
    /// of them share a host. The cache has at most 1,024 hosts.
    pub each: u32,
    /// The addresses of the cache's hosts, `each` consecutive ones a site, for each of 1 to 64
    /// threads.
    pub addresses: Vec<Addresses>,
    /// The job of each URL. There is at least one.
    pub urls: &'a [Job],
    /// Number of jobs; if None, as many as the time allows.
    pub jobs: Option<u64>,
    /// Maximum number of jobs in flight.
    pub connections: u32,
    /// Its times.
    pub times: LoadTimes,
    /// Counts a status of 400 or above as failed.
    pub fails_statuses: bool,
}

/// The times of a load.
#[derive(Clone, Copy, Debug)]
pub struct LoadTimes {
    /// Duration in seconds, after the warm-up; if None, the load ends with its last job.
    pub seconds: Option<u32>,
    /// Duration of the warm-up in seconds. Jobs that end in it are in no figure.
    pub warmup: u32,
    /// Jobs due per second; if None, each is due at once.
    pub rate: Option<Rate>,
    /// Time limit of a job in seconds.
    pub timeout: Option<u32>,
}

impl LoadTimes {
    /// Returns the end of the warm-up, in microseconds after the start.
    pub(crate) fn warm(self) -> u64
        ensures { result ≡ warm_of self }
    {
        self.warmup as u64 * SECOND
    }

    /// Returns the end of the load, in microseconds after the start.
    pub(crate) fn end(self) -> Option<u64>
        ensures end { (ended : ℕ) → min (unwrap_or result ended) ended ≡ end_by self ended }
        ensures some { OnSome result (IsSome self.seconds) }
    {
        let seconds = self.seconds?;
        Some((self.warmup as u64 + seconds as u64) * SECOND)
    }

    /// Returns the time limit of a job, in microseconds.
    pub(crate) fn timeout(self) -> Option<u64>
        ensures limit { unwrap_or result 0 ≡ limit_of self.timeout }
        ensures some { OnSome result (IsSome self.timeout) }
    {
        let seconds = self.timeout?;
        Some(seconds as u64 * SECOND)
    }
}
