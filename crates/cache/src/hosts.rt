//! The hosts of a pool, whatever is queued: what a pool's calls are made of.

ghost use Rattle.std.specs.Prelude.{◌≡◌, ◌<◌, ◌≤◌, [], length, replicate, vec_capacity};
ghost use Rattle.std.specs.Prelude.{IfOk, IfErr, IfSome, IfNone, OnOk};
ghost use Rattle.budget.specs.Accounts.{vacant};
ghost use Rattle.host_state.specs.Calls.{is_queued};
ghost use Rattle.host_state.specs.Counts.{snapshot_of};
ghost use Rattle.bundle.specs.Lease.{HasItsStreams, UnclaimedAreStarts};
ghost use Rattle.bundle.specs.Seats.{gone};
ghost use Rattle.cache.specs.AllHosts.{IsLawful, oldest_of_all};
ghost use Rattle.cache.specs.NewHosts.{AreNewHosts, NoneBooked};
ghost use Rattle.cache.specs.Pools.{IsNewPool, AreInPlace, host_at, all_hosts};

use crate::winner_tree::WinnerTree;
use budget::{Limits, Lobby, Pass, PlainBudget, Refusal};
use bundle::{Bundle, Did, Snapshot};
use conn_log::{Log, Stamp};
use std::alloc::Global;
use std::marker::Model;

// The number of each host's first connection.
const FIRST: u32 = 1;

/// The bundles of all hosts by index, the budget that they share, the hosts that are queued for
/// room in total, the pass that all calls are lent, and for each host a stamp that is no later than
/// that of its oldest idle connection. It must be taken apart.
pub(crate) struct Hosts<S: Drop> {
    pub(crate) bundles: Vec<Bundle<S>>,
    pub(crate) budget: PlainBudget,
    pub(crate) lobby: Lobby,
    pub(crate) pass: Pass<Did>,
    pub(crate) noted: WinnerTree,
}

impl<S: Drop> Model for Hosts<S> {
    ghost use Rattle.cache.specs.Pools.{PoolShown, AreKept};

    ghost Value = { PoolShown S };

    ghost view = { λ h. record {
      limits = h.budget.limits;
      hosts = h.bundles.items;
      queue = h.lobby.order;
    } };

    ghost invariant = { λ h. AreKept h.bundles.items h.budget h.lobby h.pass h.noted };
}

impl<S: Drop> Hosts<S> {
    /// So many hosts without connections.
    ///
    /// The only refusal is [`Refusal::Memory`].
    pub fn new(alloc: Global, limits: Limits, hosts: u32) -> Result<Hosts<S>, Refusal>
        requires { hosts ≤ 1024 }
        ensures new_pool { IfOk result (IsNewPool limits hosts) }
        ensures none_booked { IfOk result NoneBooked }
        ensures only_memory { IfErr result (λ refusal. refusal ≡ Refusal.Memory) }
    {
        let budget = PlainBudget::new(alloc, limits, hosts)?;
        let lobby = Lobby::new(alloc, hosts)?;
        let noted = WinnerTree::new(alloc, hosts)?;
        let mut bundles = Vec::with_capacity(alloc, hosts as usize)?;
        let mut pass = Pass::new(alloc, hosts as usize)?;
        match add_bundles(alloc, limits, hosts, &mut bundles, &mut pass) {
            Ok(()) => Ok(Hosts {
                bundles,
                budget,
                lobby,
                pass,
                noted,
            }),
            Err(refusal) => {
                pass.discard();
                Err(refusal)
            }
        }
    }

    /// How many hosts there are.
    #[inline(always)]
    pub fn len(&self) -> usize
        ensures count { result ≡ length self.now.hosts }
        ensures few { length self.now.hosts ≤ 1024 }
    {
        self.bundles.len()
    }

    /// States, for proofs, that all hosts are lawful, each in its place. Does nothing at run time.
    pub fn is_lawful(&self)
        ensures lawful { IsLawful self.now.limits (all_hosts self.now) }
        ensures places { AreInPlace self.now }
    {
        // The budget is within its limits, and a host that is listed is one that there is.
        let _kept = self.budget.kept();
        let _first = self.lobby.first();
    }

    /// A host's log.
    pub fn log(&self, site: u32) -> Option<&Log>
        ensures lawful { IsLawful self.now.limits (all_hosts self.now) }
        ensures places { AreInPlace self.now }
        ensures there { IfSome result (λ log. (site < length self.now.hosts)
            × (log.now.entries ≡ (host_at self.now site).log)) }
        ensures cut_away { IfSome result (λ log.
            log.now.cut_away ≡ (host_at self.now site).cut_away) }
        ensures has_streams { IfSome result (λ log. HasItsStreams (host_at self.now site)) }
        ensures unclaimed { IfSome result (λ log. UnclaimedAreStarts (host_at self.now site)) }
        ensures not_there { IfNone result (length self.now.hosts ≤ site) }
    {
        self.is_lawful();
        match self.bundles.get(site as usize) {
            Some(bundle) => Some(bundle.log()),
            None => None,
        }
    }

    /// The counts of a host.
    pub fn look(&self, site: u32) -> Option<Snapshot>
        ensures there { IfSome result (λ counts. (site < length self.now.hosts)
            × (let host = host_at self.now site in
            counts ≡ snapshot_of host.log (is_queued host.settings host.log))) }
        ensures not_there { IfNone result (length self.now.hosts ≤ site) }
    {
        match self.bundles.get(site as usize) {
            Some(bundle) => Some(bundle.look()),
            None => None,
        }
    }

    /// How many leases were spent with the pass at a host. The clause counts the starts that are
    /// gone in the log: that the pass has spent as many is an invariant.
    pub fn spent(&self, site: u32) -> Option<u64>
        ensures there { IfSome result (λ spent. (site < length self.now.hosts)
            × (spent ≡ gone (host_at self.now site).log)) }
        ensures not_there { IfNone result (length self.now.hosts ≤ site) }
    {
        if (site as usize) < self.bundles.len() {
            return Some(self.pass.spent(site as usize));
        }
        None
    }

    /// The stamp of the oldest of all idle connections. Where nothing is idle no host is looked at.
    pub fn oldest(&mut self) -> Option<Stamp>
        ensures same { self.new ≡ self.old }
        ensures oldest { result ≡ oldest_of_all (all_hosts self.old) }
    {
        if self.budget.kept() == 0 {
            return None;
        }
        while let Some(noted) = self.noted.first() {
            let host = noted.host as usize;
            let stamp = self.bundles[host].oldest();
            if stamp == Some(noted) {
                return stamp;
            }
            self.noted.set(host, stamp);
        }
        None
    }

    /// The bundles that are left; the pass is given up.
    pub fn into_bundles(self) -> Vec<Bundle<S>>
        ensures { result.items ≡ self.hosts }
    {
        let Hosts {
            bundles,
            budget: _,
            lobby: _,
            pass,
            noted: _,
        } = self;
        pass.discard();
        bundles
    }
}

// A bundle for each host, at which the pass is enrolled.
fn add_bundles<S: Drop>(
    alloc: Global,
    limits: Limits,
    hosts: u32,
    bundles: &mut Vec<Bundle<S>>,
    pass: &mut Pass<Did>,
) -> Result<(), Refusal>
    requires empty { bundles.old.items ≡ [] }
    requires spare { hosts ≤ vec_capacity bundles.old }
    requires vacant { pass.old ≡ replicate hosts vacant }
    ensures new_hosts { OnOk result (AreNewHosts limits hosts bundles.new.items pass.new) }
    ensures accounts { length pass.new ≡ hosts }
    ensures only_memory { IfErr result (λ refusal. refusal ≡ Refusal.Memory) }
{
    for host in 0..hosts {
        let mut bundle = Bundle::new(alloc, limits.host(), host, FIRST)?;
        bundle.enrol(pass);
        bundles.push_reserved(bundle);
    }
    Ok(())
}
