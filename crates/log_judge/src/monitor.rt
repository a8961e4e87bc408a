//! Several hosts under one total limit.

ghost use Rattle.std.specs.Prelude.{◌≡◌, ◌<◌, ◌∷◌, length, None, IsTrue};
ghost use Rattle.std.specs.Prelude.{IfOk, IfErr, OnOk, OnErr};
ghost use Rattle.conn_log.specs.Legal.{IsLegal};
ghost use Rattle.log_judge.specs.Rules.{first_broken, violation_of};
ghost use Rattle.std.specs.List.{sum_by};
ghost use Rattle.log_judge.specs.Tables.{open_at};
ghost use Rattle.log_judge.specs.AllHosts.{begun_hosts, host_at, more_at, has_room, past_total};
ghost use Rattle.log_judge.specs.AllHosts.{past_kept, beside_idle, beside_room, first_waiting};
ghost use Rattle.log_judge.specs.AllHosts.{first_unrest};

use crate::host::HostMonitor;
use crate::totals::Totals;
use crate::unrest::Unrest;
use crate::violation::Fault;
use budget::Limits;
use conn_log::Entry;
use std::alloc::{AllocError, Global};
use std::marker::Model;

/// Judges the logs of several hosts entry by entry, each by the rules of [`HostMonitor`], and what
/// is unsettled while the pool is at rest. A host's site is its index.
///
/// The total limit and that of connections kept are judged at rest alone: a pool may open a
/// connection before it closes the one that makes room.
#[derive(Drop)]
pub struct Monitor {
    limits: Limits,
    hosts: Vec<HostMonitor>,
    totals: Totals,
}

impl Model for Monitor {
    ghost use Rattle.log_judge.specs.AllHosts.{AllHosts, AreCounted};

    ghost Value = { AllHosts };

    ghost view = { λ monitor. record { limits = monitor.limits; hosts = monitor.hosts.items } };

    ghost invariant = { λ monitor. AreCounted monitor.totals monitor.hosts.items };
}

impl Monitor {
    /// So many hosts without connections, under these limits. The only error is an allocation
    /// failure.
    pub fn new(alloc: Global, limits: Limits, hosts: u32) -> Result<Monitor, AllocError>
        ensures { IfOk result (λ monitor. monitor ≡ begun_hosts limits hosts) }
    {
        let mut monitors = Vec::with_capacity(alloc, hosts as usize)?;
        for _ in 0..hosts {
            monitors.push(HostMonitor::new(alloc, limits.host())?)?;
        }
        Ok(Monitor {
            limits,
            hosts: monitors,
            totals: Totals::none(),
        })
    }

    /// How many hosts there are.
    pub fn len(&self) -> u32
        ensures { result ≡ length self.now.hosts }
    {
        self.hosts.len() as u32
    }

    /// A host, as it is judged so far.
    pub fn host(&self, site: u32) -> &HostMonitor
        requires there { site < length self.now.hosts }
        ensures { result.now ≡ host_at self.now site }
    {
        &self.hosts[site as usize]
    }

    /// Takes one more entry of a host if the host's log with it is legal. The other hosts' logs
    /// stay as they are. It costs what [`HostMonitor::step`] costs, for any number of hosts.
    ///
    /// The error is [`Fault::Broken`] with the first rule that the entry breaks, and
    /// [`Fault::Memory`] if it breaks none and an allocation failed; then nothing has changed.
    pub fn step(&mut self, site: u32, entry: Entry) -> Result<(), Fault>
        requires there { site < length self.old.hosts }
        ensures ok { OnOk result (self.new ≡ more_at site entry self.old) }
        ensures legal { let host = host_at self.old site in
            OnOk result (IsLegal host.settings (entry ∷ host.log)) }
        ensures fault { let host = host_at self.old site in IfErr result (λ fault.
            first_broken host.settings host.log entry ≡ violation_of fault) }
        ensures err { OnErr result (self.new ≡ self.old) }
    {
        let host = &mut self.hosts[site as usize];
        let before = Totals::of(host);
        host.step(entry)?;
        let after = Totals::of(host);
        self.totals.exchange(before, after);
        Ok(())
    }

    /// Whether one more connection may be open in total, or an idle one could be closed for it.
    fn has_room(&self) -> bool
        ensures { result ≡ has_room self.now }
    {
        self.totals.open_len < u64::from(self.limits.total()) || self.totals.idle_len > 0
    }

    /// How many connections are open in total.
    pub fn open_len(&self) -> u64
        ensures { result ≡ sum_by open_at self.now.hosts }
    {
        self.totals.open_len
    }

    /// [`Unrest::PastTotal`] if more connections are open than the total limit allows.
    pub fn past_total(&self) -> Option<Unrest>
        ensures { result ≡ past_total self.now }
    {
        let (count, limit) = (self.totals.open_len, self.limits.total());
        if count > u64::from(limit) {
            return Some(Unrest::PastTotal { count, limit });
        }
        None
    }

    /// [`Unrest::PastKept`] if more connections are idle than may be kept.
    pub fn past_kept(&self) -> Option<Unrest>
        ensures { result ≡ past_kept self.now }
    {
        let (count, limit) = (self.totals.idle_len, self.limits.connects());
        if count > u64::from(limit) {
            return Some(Unrest::PastKept { count, limit });
        }
        None
    }

    /// [`Unrest::WaiterBesideIdle`] if a transfer waits at the host and a connection is idle there.
    pub fn waiter_beside_idle(&self, site: u32) -> Option<Unrest>
        requires there { site < length self.now.hosts }
        ensures { result ≡ beside_idle site (host_at self.now site) }
    {
        let host = self.host(site);
        let first = host.first_waiter()?.transfer;
        if host.idle_len() > 0 {
            return Some(Unrest::WaiterBesideIdle { site, first });
        }
        None
    }

    /// [`Unrest::WaiterBesideRoom`] if a transfer waits at the host, the host has room for one more
    /// connection, and the total has room or an idle connection could be closed for it.
    pub fn waiter_beside_room(&self, site: u32) -> Option<Unrest>
        requires there { site < length self.now.hosts }
        ensures { result ≡ beside_room (has_room self.now) site (host_at self.now site) }
    {
        let host = self.host(site);
        let first = host.first_waiter()?.transfer;
        let (count, limit) = (host.open_len(), host.limit());
        if self.has_room() && count < u64::from(limit) {
            return Some(Unrest::WaiterBesideRoom {
                site,
                first,
                count,
                limit,
            });
        }
        None
    }

    // What is unsettled at the first host that is not settled.
    fn first_waiting(&self) -> Option<Unrest>
        ensures { result ≡ first_waiting (has_room self.now) 0 self.now.hosts }
    {
        for site in 0..self.len() {
            let unrest = self
                .waiter_beside_idle(site)
                .or(self.waiter_beside_room(site));
            if unrest.is_some() {
                return unrest;
            }
        }
        None
    }

    // Whether no transfer waits beside an idle connection, or beside room.
    fn none_waits_in_vain(&self) -> bool
        ensures { IsTrue result → first_waiting (has_room self.now) 0 self.now.hosts ≡ None }
    {
        self.totals.beside_idle == 0 && (self.totals.beside_room == 0 || !self.has_room())
    }

    /// What is unsettled, if the pool is at rest; `None` if nothing is. It takes constant time if
    /// nothing is. Told first is [`Unrest::PastTotal`], then [`Unrest::PastKept`], and then host
    /// after host [`Unrest::WaiterBesideIdle`] and [`Unrest::WaiterBesideRoom`].
    pub fn first_unrest(&self) -> Option<Unrest>
        ensures { result ≡ first_unrest self.now }
    {
        let limits = self.past_total().or(self.past_kept());
        if limits.is_some() || self.none_waits_in_vain() {
            return limits;
        }
        self.first_waiting()
    }
}
