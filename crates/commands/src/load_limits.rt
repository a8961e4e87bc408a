//! The six numbers of a load, and the limits of its cache.

ghost use Rattle.std.specs.Prelude.{◌≡◌};
ghost use Rattle.budget.specs.Limits.{bounds_of};
ghost use Rattle.commands.specs.LoadRanges.{AreInRange};

use budget::Limits;

/// The numbers of a load, each in its range.
#[derive(Clone, Copy, Debug)]
pub struct LoadOptions {
    /// Number of sites, 1 to 8.
    pub sites: u32,
    /// Number of jobs, 1 to 10,000; with URLs or seconds up to 4,294,967,295.
    pub jobs: u32,
    /// Number of threads, 1 to 64.
    pub workers: u32,
    /// Maximum number of open connections to a site, up to 65,535; 0 means no limit.
    pub host_limit: u32,
    /// Maximum number of open connections in total, up to 65,535; 0 means no limit.
    pub total: u32,
    /// Maximum number of idle connections, 1 to 65,535.
    pub connects: u32,
    ghost in_range: { AreInRange sites jobs workers host_limit total connects },
}

impl LoadOptions {
    /// Returns the limits of the cache.
    pub fn limits(self) -> Limits
        ensures { result ≡ bounds_of self.host_limit self.total self.connects }
    {
        match Limits::new(self.host_limit, self.total, self.connects) {
            Ok(limits) => limits,
            Err(_) => unreachable!(),
        }
    }
}
