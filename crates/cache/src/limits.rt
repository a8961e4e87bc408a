//! How idle connections are pruned, and how a host's limit is changed.

ghost use Rattle.std.specs.Prelude.{◌≡◌, ◌<◌, length, IfSome, IfErr, OnOk};
ghost use Rattle.host_state.specs.Calls.{limit_refusal};
ghost use Rattle.cache.specs.AllHosts.{with_log, log_at};
ghost use Rattle.cache.specs.Calls.{pruned, pruned_log, pruned_at, prune_count, limited};
ghost use Rattle.cache.specs.Pools.{host_at, all_hosts};
ghost use Rattle.cache.specs.PoolCalls.{IsCallAtAll, IsReason};

use crate::hosts::Hosts;
use crate::notes::note_oldest;
use budget::Refusal;
use bundle::Changed;

impl<S: Drop> Hosts<S> {
    /// Closes every idle connection that has been idle for longer than `max_age`, or open for
    /// longer than `max_life` unless that is 0, in seconds; how many it closed. `now` is in
    /// seconds.
    pub fn prune(&mut self, now: u64, max_age: u64, max_life: u64) -> u32
        ensures done { let end = pruned now max_age max_life (all_hosts self.old) in
            IsCallAtAll end self.old self.new }
        ensures count { result ≡ prune_count now max_age max_life (all_hosts self.old) }
    {
        // No more are kept than the limit, so their count fits.
        let _kept = self.budget.kept();
        let mut closed = 0;
        let mut site = 0;
        while (site as usize) < self.bundles.len() {
            closed += self.prune_at(site, now, max_age, max_life);
            site += 1;
        }
        closed
    }

    // Prunes one host.
    fn prune_at(&mut self, site: u32, now: u64, max_age: u64, max_life: u64) -> u32
        requires there { site < length self.old.hosts }
        ensures done { let all = all_hosts self.old in
            let log = pruned_log now max_age max_life (log_at all site) in
            IsCallAtAll (with_log site log all) self.old self.new }
        ensures count { let log = log_at (all_hosts self.old) site in
            result ≡ pruned_at now max_age max_life log }
    {
        let bundle = &mut self.bundles[site as usize];
        let mut permits = self.budget.at(site);
        let closed = bundle.prune(now, max_age, max_life, &mut permits, &mut self.pass);
        let oldest = bundle.oldest();
        self.noted.set(site as usize, oldest);
        closed
    }

    /// Changes the most connections that the host may have open; 0 is kept as 65,535. `now` is in
    /// seconds. Refused as [`bundle::Bundle::set_host_limit`] is.
    pub fn set_host_limit(&mut self, site: u32, limit: u32, now: u64) -> Result<(), Refusal>
        requires there { site < length self.old.hosts }
        ensures done { let end = limited self.old.limits site limit now (all_hosts self.old) in
            OnOk result (IsCallAtAll end self.old self.new) }
        ensures refused { let due = limit_refusal limit (host_at self.old site).log in
            IfErr result (λ reason. (self.new ≡ self.old) × IsReason due reason) }
        ensures due { let due = limit_refusal limit (host_at self.old site).log in
            IfSome due (λ reason. result ≡ Err reason) }
    {
        let bundle = &mut self.bundles[site as usize];
        let mut permits = self.budget.at(site);
        let (pass, lobby) = (&mut self.pass, &mut self.lobby);
        let changed = bundle.set_host_limit(limit, now, &mut permits, lobby, pass);
        note_oldest(&mut self.noted, bundle);
        match changed {
            Ok(Changed::Done { freed: _ }) => Ok(()),
            // The budget of one thread need not be asked again.
            Ok(Changed::Again) => unreachable!(),
            Err(refusal) => Err(refusal),
        }
    }
}
