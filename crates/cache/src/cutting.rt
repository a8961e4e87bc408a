//! How a host's log is cut.

ghost use Rattle.std.specs.Prelude.{◌≡◌, ℕ, ◌<◌, length, IfOk, IfErr};
ghost use Rattle.bundle.specs.Lease.{cut_refusal};
ghost use Rattle.cache.specs.Pools.{host_at};
ghost use Rattle.cache.specs.PoolCalls.{CutsHost};

use crate::hosts::Hosts;
use budget::Refusal;
use conn_log::Entry;

impl<S: Drop> Hosts<S> {
    /// Cuts the host's log: hands out the entries since its last cut, oldest first. Refused as
    /// [`bundle::Bundle::cut`] is.
    pub fn cut(&mut self, site: u32) -> Result<Vec<Entry>, Refusal>
        requires there { site < length self.old.hosts }
        ensures done { IfOk result (λ part. CutsHost site self.old self.new part.items) }
        ensures refused { let host = host_at self.old site in
            IfErr result (λ reason. (self.new ≡ self.old) × (reason ≡ cut_refusal host)) }
        ensures booked { (host : ℕ) →
            (host_at self.new host).booked ≡ (host_at self.old host).booked }
    {
        self.bundles[site as usize].cut()
    }
}
