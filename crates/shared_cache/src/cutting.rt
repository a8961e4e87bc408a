//! How a host's log is cut while others work.

ghost use Rattle.std.specs.Prelude.{◌≡◌, ◌<◌, ◌≤◌, length, Err, IfOk, IfErr, OnOk};
ghost use Rattle.bundle.specs.Lease.{HostShown, IsPartOf, cut_refusal};
ghost use Rattle.shared_cache.specs.Inspecting.{IsInspected};

use crate::cache::SharedCache;
use crate::locked::LockedHost;
use crate::names::Names;
use budget::Refusal;
use conn_log::Entry;
use std::sync::Wait;

impl<S: Drop, N: Names> SharedCache<S, N> {
    /// Cuts a host's log while the host's lock is held: hands out the entries since its last cut,
    /// oldest first, and keeps of them what later ones depend on. What all cuts of a host hand out,
    /// one after the other, is its whole log, of which contracts speak and from which the cache is
    /// gathered. No event is logged, and no pass is told. This call takes no other lock.
    ///
    /// Refused, in this order, with [`Refusal::BadSite`] if there is no such site, with
    /// [`Refusal::Exhausted`] if more than 9,223,372,036,854,775,807 entries of the host would be
    /// cut away, and with [`Refusal::Memory`] if memory runs out; then nothing changes.
    pub fn cut<R: Wait>(&self, rt: &R, site: u32) -> Result<Vec<Entry>, Refusal>
        ensures cut { site < length N.names.hosts → (host : HostShown S)
            × IsInspected N.names site host
            × IfOk result (λ part. IsPartOf host part.items)
            × IfErr result (λ reason. reason ≡ cut_refusal host) }
        ensures there { OnOk result (site < length N.names.hosts) }
        ensures bad_site { length N.names.hosts ≤ site → result ≡ Err Refusal.BadSite }
    {
        if !self.has(site) {
            return Err(Refusal::BadSite);
        }
        let mut host = self.at(rt, site);
        host.cut()
    }
}

impl<S: Drop, N: Names> LockedHost<S, N> {
    // Cuts the log.
    fn cut(&mut self) -> Result<Vec<Entry>, Refusal>
        ensures { (host : HostShown S) × IsInspected N.names self.old.host.host host
            × IfOk result (λ part. IsPartOf host part.items)
            × IfErr result (λ reason. reason ≡ cut_refusal host) }
    {
        // It is legal, quiet and within its limit.
        let _log = self.bundle.log();
        self.bundle.cut()
    }
}
