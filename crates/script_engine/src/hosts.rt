//! The hosts of a script: their pool, and the leases and tickets of its transfers.

ghost use Rattle.std.specs.Prelude.{◌≡◌, ◌<◌, ◌≤◌, length, string_bytes, IfOk, IfErr};
ghost use Rattle.std.specs.Prelude.{IfNone, IfSome};
ghost use Rattle.budget.specs.Limits.{Bounds};
ghost use Rattle.cache.specs.Pools.{all_hosts, StaysPool};
ghost use Rattle.script_text.specs.declared.command.Action.TheVariants as actions;
ghost use Rattle.script_text.specs.declared.command.HostCommand.TheVariants as asks;
ghost use Rattle.cache.specs.AllHosts.{log_at};
ghost use Rattle.script_engine.specs.Meaning.{asked_answer, new_hosts, at_site};
ghost use Rattle.script_engine.specs.Ending.{IsEnding};
ghost use Rattle.script_engine.specs.Hosted.{GivesAt, GivesAll};
ghost use Rattle.script_engine.specs.Hosted.{KeepsAllDue, NothingIsKept, tickets_kept};

use crate::site_leases::SiteLeases;
use crate::telling::lines;
use budget::{Limits, Refusal};
use bundle::Snapshot;
use cache::Pool;
use conn_log::{Log, Want};
use script_text::{Ending, FaultKind, LookLine, reply, too_many_leased, upkeep};
use std::alloc::Global;
use std::marker::Model;

/// The pool of the hosts, the leases and tickets of each site's transfers, and the number of its
/// log's entries that were told. Leases have empty streams. It must be ended.
pub struct PooledHosts {
    pool: Pool<()>,
    kept: Vec<SiteLeases>,
    told: Vec<usize>,
}

impl Model for PooledHosts {
    ghost use Rattle.cache.specs.Pools.{all_hosts};
    ghost use Rattle.script_engine.specs.Hosted.{Hosted, AreHosted, tickets_kept};

    ghost Value = { Hosted };

    ghost view = { λ h. record {
      limits = h.pool.limits;
      hosts = record { all = all_hosts h.pool; tickets = tickets_kept h.kept.items };
    } };

    ghost invariant = { λ h. AreHosted h.pool h.kept.items h.told.items };
}

impl PooledHosts {
    /// Makes hosts without connections, under these limits.
    pub fn new(alloc: Global, limits: Limits, sites: u32) -> Result<PooledHosts, FaultKind>
        requires few { sites ≤ 1024 }
        ensures ok { IfOk result (λ h. h ≡ record { limits = limits; hosts = new_hosts sites }) }
        ensures err { IfErr result (λ kind. kind ≡ FaultKind.Memory) }
    {
        let Ok(pool) = Pool::new(alloc, limits, sites) else {
            return Err(FaultKind::Memory);
        };
        let Ok(mut told) = Vec::with_capacity(alloc, sites as usize) else {
            return Err(FaultKind::Memory);
        };
        let Ok(mut kept) = Vec::with_capacity(alloc, sites as usize) else {
            return Err(FaultKind::Memory);
        };
        while told.len() < sites as usize {
            told.push_reserved(0);
            kept.push_reserved(SiteLeases::new(alloc));
        }
        Ok(PooledHosts { pool, kept, told })
    }

    /// How many sites there are.
    pub fn sites(&self) -> u32
        ensures { result ≡ length self.now.hosts.all.logs }
    {
        self.pool.hosts()
    }

    /// The log of a site's host.
    pub fn log(&self, site: u32) -> Option<&Log>
        ensures there { IfSome result (λ log.
            log.now.entries ≡ log_at self.now.hosts.all site) }
        ensures none { IfNone result (length self.now.hosts.all.logs ≤ site) }
    {
        self.pool.log(site)
    }

    /// The transfer acquires a connection of the site, or begins to wait for one.
    pub fn get(
        &mut self,
        alloc: Global,
        site: u32,
        want: Want,
        moment: u64,
    ) -> Result<String, FaultKind>
        requires there { site < length self.old.hosts.all.logs }
        ensures { GivesAt string_bytes self.old site (actions.Get want moment) result self.new }
    {
        let begun = self.kept[site as usize].acquire(&mut self.pool, site, want, moment);
        // Events count as told even if the lease or ticket could not be kept.
        let text = lines(alloc, &self.pool, &mut self.told, want.transfer);
        match begun {
            Ok(()) => text,
            Err(Refusal::TransferBusy) => reply(alloc, "busy"),
            Err(Refusal::Exhausted) => reply(alloc, "exhausted"),
            // The only other reason is an allocation failure.
            Err(_) => Err(FaultKind::Memory),
        }
    }

    /// The transfer claims the connection that it waits for.
    pub fn claim(&mut self, alloc: Global, site: u32, transfer: u64) -> Result<String, FaultKind>
        requires there { site < length self.old.hosts.all.logs }
        ensures { GivesAt string_bytes self.old site (actions.Claim transfer) result self.new }
    {
        match self.kept[site as usize].claim(alloc, &mut self.pool, site, transfer) {
            Ok(text) => Ok(text),
            Err(kind) => {
                // The transcript does not tell that the lease was given up.
                let _untold = lines(alloc, &self.pool, &mut self.told, transfer);
                Err(kind)
            }
        }
    }

    /// The transfer gives its connection back.
    pub fn back(
        &mut self,
        alloc: Global,
        site: u32,
        transfer: u64,
        ending: Ending,
        moment: u64,
    ) -> Result<String, FaultKind>
        requires there { site < length self.old.hosts.all.logs }
        ensures { GivesAt string_bytes self.old site (actions.Back transfer ending moment) result
            self.new }
    {
        let kept = &mut self.kept[site as usize];
        if kept.give_back(&mut self.pool, site, transfer, ending, moment) {
            lines(alloc, &self.pool, &mut self.told, transfer)
        } else {
            reply(alloc, "stranger")
        }
    }

    /// The transfer abandons its connection.
    pub fn abandon(
        &mut self,
        alloc: Global,
        site: u32,
        transfer: u64,
        moment: u64,
    ) -> Result<String, FaultKind>
        requires there { site < length self.old.hosts.all.logs }
        ensures { GivesAt string_bytes self.old site (actions.Drop transfer moment) result
            self.new }
    {
        if self.kept[site as usize].abandon(&mut self.pool, site, transfer, moment) {
            lines(alloc, &self.pool, &mut self.told, transfer)
        } else {
            reply(alloc, "stranger")
        }
    }

    /// The transfer stops waiting.
    pub fn leave(
        &mut self,
        alloc: Global,
        site: u32,
        transfer: u64,
        moment: u64,
    ) -> Result<String, FaultKind>
        requires there { site < length self.old.hosts.all.logs }
        ensures { GivesAt string_bytes self.old site (actions.Leave transfer moment) result
            self.new }
    {
        if self.kept[site as usize].withdraw(&mut self.pool, site, transfer, moment) {
            lines(alloc, &self.pool, &mut self.told, transfer)
        } else {
            reply(alloc, "stranger")
        }
    }

    /// Changes the most open connections of the site's host.
    pub fn limit(
        &mut self,
        alloc: Global,
        site: u32,
        limit: u32,
        moment: u64,
    ) -> Result<String, FaultKind>
        requires there { site < length self.old.hosts.all.logs }
        ensures { GivesAt string_bytes self.old site (actions.Limit limit moment) result self.new }
    {
        match self.pool.set_host_limit(site, limit, moment) {
            // No connection comes back.
            Ok(()) => lines(alloc, &self.pool, &mut self.told, 0),
            Err(Refusal::BadLimit) => reply(alloc, "bad-limit"),
            Err(Refusal::Busy(held)) => too_many_leased(alloc, held),
            // The only other reason is an allocation failure.
            Err(_) => Err(FaultKind::Memory),
        }
    }

    /// The numbers of the site's connections and waiters.
    pub fn look(&self, alloc: Global, site: u32) -> Result<String, FaultKind>
        requires there { site < length self.now.hosts.all.logs }
        ensures { GivesAt string_bytes self.now site actions.Look result self.now }
    {
        // Proof: each host has the pool's limits.
        let _log = self.pool.log(site);
        let Ok(counts) = self.pool.look(site) else {
            unreachable!()
        };
        let Snapshot {
            alive,
            idle,
            leased,
            waiting,
            queued,
        } = counts;
        let line = LookLine {
            host: site,
            alive,
            idle,
            leased,
            waiting,
            queued,
        };
        match line.to_string(alloc) {
            Ok(text) => Ok(text),
            Err(_) => Err(FaultKind::Memory),
        }
    }

    /// Closes, at all hosts, the connections that are idle for longer than `max_age` seconds, or
    /// open for longer than `max_life` seconds if that is not 0.
    pub fn prune(
        &mut self,
        alloc: Global,
        max_age: u64,
        max_life: u64,
        moment: u64,
    ) -> Result<String, FaultKind>
        ensures { GivesAll string_bytes self.old
            (asked_answer (asks.Prune max_age max_life moment)) result self.new }
    {
        self.pool.prune(moment, max_age, max_life);
        // No connection comes back.
        lines(alloc, &self.pool, &mut self.told, 0)
    }

    /// Keeps connections alive.
    pub fn upkeep(&mut self, alloc: Global) -> Result<String, FaultKind>
        ensures { GivesAll string_bytes self.old (asked_answer asks.Upkeep) result self.new }
    {
        upkeep(alloc, self.pool.upkeep())
    }

    /// Abandons the leases and withdraws the tickets, by site and then by transfer, at moment 0.
    /// Gives the pool.
    pub fn end(self) -> Pool<()>
        ensures ending { IsEnding self.limits self.hosts (all_hosts result) }
        ensures limits { result.limits ≡ self.limits }
    {
        let PooledHosts {
            mut pool,
            kept,
            told: _,
        } = self;
        let mut kept = kept;
        spend_all(&mut pool, &mut kept);
        destroy_all(kept);
        pool
    }
}

/// Abandons the leases and withdraws the tickets, by site and then by transfer, at moment 0.
fn spend_all(pool: &mut Pool<()>, kept: &mut Vec<SiteLeases>)
    requires keeps { KeepsAllDue pool.old kept.old.items }
    ensures ending { IsEnding pool.old.limits
        (record { all = all_hosts pool.old; tickets = tickets_kept kept.old.items })
        (all_hosts pool.new) }
    ensures nothing { NothingIsKept kept.new.items }
    ensures stays { StaysPool pool.old pool.new }
{
    // For the proof.
    pool.is_at_rest();
    for site in 0..pool.hosts() {
        kept[site as usize].spend_all(pool, site);
    }
}

/// Drops the leases and tickets, which must be empty.
fn destroy_all(kept: Vec<SiteLeases>)
    requires { NothingIsKept kept.items }
{
    let mut kept = kept;
    while let Some(here) = kept.pop() {
        here.destroy();
    }
    kept.destroy_empty();
}
