//! How a host is looked at.

ghost use Rattle.std.specs.Prelude.{◌≡◌, ◌<◌, ◌≤◌, length, Err, IfOk, OnOk, IsOk};
ghost use Rattle.std.specs.Fn.{FnOnceTakesAt, FnOnceReturnsAt};
ghost use Rattle.bundle.specs.Lease.{HostShown};
ghost use Rattle.shared_cache.specs.Inspecting.{IsInspected};

use crate::cache::SharedCache;
use crate::locked::LockedHost;
use crate::names::Names;
use budget::Refusal;
use bundle::Bundle;
use std::sync::Wait;

impl<S: Drop, N: Names> SharedCache<S, N> {
    /// Lends `inspection` the bundle of that site while its lock is held, and gives what it
    /// answers. This call has no other lock. An inspection that calls the cache may wait for ever.
    ///
    /// Refused with [`Refusal::BadSite`] exactly where there is no such site.
    ///
    /// Asked of the caller: `inspection` takes every bundle of that site that is legal, quiet and
    /// within the limit in force.
    pub fn inspect<T, R: Wait, F: FnOnce(&Bundle<S>) -> T + Drop>(
        &self,
        rt: &R,
        site: u32,
        inspection: F,
    ) -> Result<T, Refusal>
        requires { (host : HostShown S) → IsInspected N.names site host →
            FnOnceTakesAt F.FnOnce inspection host }
        ensures ok { IfOk result (λ answer. (host : HostShown S)
            × IsInspected N.names site host × FnOnceReturnsAt F.FnOnce inspection host answer) }
        ensures there { OnOk result (site < length N.names.hosts) }
        ensures err { length N.names.hosts ≤ site → result ≡ Err Refusal.BadSite }
        ensures ok_if_there { site < length N.names.hosts → IsOk result }
    {
        if !self.has(site) {
            return Err(Refusal::BadSite);
        }
        let host = self.at(rt, site);
        Ok(host.lend(inspection))
    }
}

impl<S: Drop, N: Names> LockedHost<S, N> {
    // Lends the bundle.
    fn lend<T, F: FnOnce(&Bundle<S>) -> T>(&self, inspection: F) -> T
        requires { (host : HostShown S) → IsInspected N.names self.now.host.host host →
            FnOnceTakesAt F.FnOnce inspection host }
        ensures { (host : HostShown S) × IsInspected N.names self.now.host.host host
            × FnOnceReturnsAt F.FnOnce inspection host result }
    {
        // It is legal, quiet and within its limit.
        let _log = self.bundle.log();
        inspection(&self.bundle)
    }
}
