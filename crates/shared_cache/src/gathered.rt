ghost use Rattle.std.specs.Prelude.{◌≡◌, ◌≤◌, Some, length, slice_get, IfSome, IfNone};
ghost use Rattle.bundle.specs.Lease.{HostShown};

use bundle::Bundle;
use conn_log::Log;

/// What happened at one host, counted from its log.
#[derive(Clone, Copy, Debug, PartialEq, Eq)]
pub struct HostCount {
    /// How many connections were opened.
    pub opened: u64,
    /// How many times an idle connection was leased.
    pub reused: u64,
    /// How many connections were closed.
    pub closed: u64,
    /// How many times a transfer began to wait.
    pub waited: u64,
    /// How many connections are open.
    pub alive: u64,
}

/// The account of a shared cache at its end. The connections that are left open close with it.
#[derive(Drop)]
pub struct Gathered<S: Drop> {
    /// What happened at each host, by its index.
    pub hosts: Vec<HostCount>,
    /// How many connections are open over all hosts: those opened less those closed.
    pub total: u64,
    /// How many of them are idle: all.
    pub kept: u64,
    // The hosts that were counted: who counts others has others here.
    pub(crate) bundles: Vec<Bundle<S>>,
}

impl<S: Drop> Gathered<S> {
    /// The log of that host, from which it was counted; `None` where there is no such site.
    pub fn log(&self, site: u32) -> Option<&Log>
        ensures there { IfSome result (λ log. (host : HostShown S)
            × (slice_get self.now.bundles.items site ≡ Some host)
            × (log.now.entries ≡ host.log) × (log.now.cut_away ≡ host.cut_away)) }
        ensures not_there { IfNone result (length self.now.bundles.items ≤ site) }
    {
        match self.bundles.get(site as usize) {
            Some(bundle) => Some(bundle.log()),
            None => None,
        }
    }
}
