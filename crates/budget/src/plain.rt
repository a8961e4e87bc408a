ghost use Rattle.std.specs.Prelude.{◌≡◌, ◌<◌, ◌==◌, length, IfOk, IfErr};
ghost use Rattle.budget.specs.Permits.{one_more_open, one_more_kept, if_got};
ghost use Rattle.budget.specs.Permits.{one_less_open, one_less_kept};
ghost use Rattle.budget.specs.Plain.{held_at_host, changed_at, nothing_held, IsWithin};
ghost use Rattle.budget.specs.Plain.{TellsOfOpen, TellsOfKept, alive_in, kept_in};

use crate::limits::Limits;
use crate::permits::{Held, Permits, Try};
use crate::refusal::Refusal;
use std::alloc::Global;
use std::marker::Model;

/// The budget of one thread: how many connections are open and how many are kept over all hosts,
/// never above the limits, and what each host holds of them. Contracts see limits and hosts.
#[derive(Drop)]
pub struct PlainBudget {
    limits: Limits,
    total: u32,
    kept: u32,
    hosts: Vec<Held>,
}

impl Model for PlainBudget {
    ghost use Rattle.std.specs.Prelude.{◌≡◌};
    ghost use Rattle.budget.specs.Plain.{Plain, IsWithin, alive_in, kept_in};

    ghost Value = { Plain };

    ghost view = { λ budget. record { limits = budget.limits; hosts = budget.hosts.items } };

    ghost invariant = { λ budget. record {
      total : budget.total ≡ alive_in budget.hosts.items;
      kept : budget.kept ≡ kept_in budget.hosts.items;
      within : IsWithin record { limits = budget.limits; hosts = budget.hosts.items };
    } };
}

impl PlainBudget {
    /// A budget under these limits for that many hosts, which hold nothing yet.
    ///
    /// The only refusal is [`Refusal::Memory`].
    pub fn new(alloc: Global, limits: Limits, hosts: u32) -> Result<PlainBudget, Refusal>
        ensures ok { IfOk result (λ budget. budget ≡ nothing_held limits hosts) }
        ensures err { IfErr result (λ refusal. refusal ≡ Refusal.Memory) }
    {
        let nothing = Held { alive: 0, kept: 0 };
        let mut parts = Vec::new(alloc);
        parts.resize(hosts as usize, nothing)?;
        Ok(PlainBudget {
            limits,
            total: 0,
            kept: 0,
            hosts: parts,
        })
    }

    /// The part of that host, which asks for its permits.
    pub fn at(&mut self, host: u32) -> HostPermits<'_>
        requires { host < length self.old.hosts }
        ensures same_reference { result.budget.ghost_name ≡ self.entry.ghost_name }
        ensures budget { result.budget.now ≡ self.old }
        ensures host { result.host ≡ host }
        ensures within { IsWithin self.old }
    {
        let _ = &self.limits;
        HostPermits {
            budget: self,
            host: host as usize,
        }
    }

    /// Whether as many connections are open as may be in total.
    #[inline(always)]
    pub fn is_full(&self) -> bool
        ensures full { result ≡ (alive_in self.now.hosts == self.now.limits.total) }
        ensures within { IsWithin self.now }
    {
        self.total == self.limits.total()
    }

    /// How many connections are kept over all hosts.
    #[inline(always)]
    pub fn kept(&self) -> u32
        ensures kept { result ≡ kept_in self.now.hosts }
        ensures within { IsWithin self.now }
    {
        let _ = &self.limits;
        self.kept
    }

    fn held(&self, host: usize) -> Held
        requires { host < length self.now.hosts }
        ensures { result ≡ held_at_host self.now.hosts host }
    {
        self.hosts[host]
    }

    fn reserve_open(&mut self, host: usize) -> Try
        requires { host < length self.old.hosts }
        ensures told { TellsOfOpen self.new result }
        ensures part { self.new ≡ changed_at host (if_got result one_more_open) self.old }
        ensures within { IsWithin self.new }
    {
        if self.total == self.limits.total() {
            return Try::Full;
        }
        let part = self.hosts[host];
        self.total += 1;
        self.hosts[host] = Held {
            alive: part.alive + 1,
            kept: part.kept,
        };
        Try::Got
    }

    fn reserve_kept(&mut self, host: usize) -> Try
        requires { host < length self.old.hosts }
        ensures told { TellsOfKept self.new result }
        ensures part { self.new ≡ changed_at host (if_got result one_more_kept) self.old }
        ensures within { IsWithin self.new }
    {
        if self.kept == self.limits.connects() {
            return Try::Full;
        }
        let part = self.hosts[host];
        self.kept += 1;
        self.hosts[host] = Held {
            alive: part.alive,
            kept: part.kept + 1,
        };
        Try::Got
    }

    fn release_open(&mut self, host: usize)
        requires there { host < length self.old.hosts }
        requires one { 0 < (held_at_host self.old.hosts host).alive }
        ensures part { self.new ≡ changed_at host one_less_open self.old }
        ensures within { IsWithin self.new }
    {
        let part = self.hosts[host];
        self.total -= 1;
        self.hosts[host] = Held {
            alive: part.alive - 1,
            kept: part.kept,
        };
    }

    fn release_kept(&mut self, host: usize)
        requires there { host < length self.old.hosts }
        requires one { 0 < (held_at_host self.old.hosts host).kept }
        ensures part { self.new ≡ changed_at host one_less_kept self.old }
        ensures within { IsWithin self.new }
    {
        let part = self.hosts[host];
        self.kept -= 1;
        self.hosts[host] = Held {
            alive: part.alive,
            kept: part.kept - 1,
        };
    }
}

/// One host's part of a budget of one thread. It is never answered Contended, and Full only where
/// the total, or the number kept, is at its limit. How often it is asked nobody else can tell, so
/// that is not counted.
#[derive(Drop)]
pub struct HostPermits<'a> {
    budget: &'a mut PlainBudget,
    host: usize,
}

impl<K> Permits<K> for HostPermits<'_> {
    ghost use Rattle.std.specs.Prelude.{◌≡◌, ◌<◌, length};
    ghost use Rattle.std.specs.Prelude.{refl};
    ghost use Rattle.std.proofs.Common.{◌∙◌};
    ghost use Rattle.budget.specs.Plain.{alive_in, kept_in, held_at_host, IsWithin};
    ghost use Rattle.budget.specs.Plain.{KeepsOtherHosts};
    ghost use Rattle.budget.specs.Plain.{TellsOfOpen, TellsOfKept, AsksOpen, AsksKept};
    ghost use Rattle.budget.specs.PlainLaws.{keeps_from_start, keeps_on, open_still, kept_still};

    ghost stands = { λ part. (part.host < length part.budget.now.hosts)
        × IsWithin part.budget.now };

    ghost held = { λ part. held_at_host part.budget.now.hosts part.host };

    ghost stays = { λ x y. (y.budget.ghost_name ≡ x.budget.ghost_name) × (y.host ≡ x.host)
        × KeepsOtherHosts x.host x.budget.now y.budget.now };

    ghost opening = { λ x y. TellsOfOpen y.budget.now };

    ghost keeping = { λ x y. TellsOfKept y.budget.now };

    ghost asks_open = { λ x y. AsksOpen x.host x.budget.now y.budget.now };

    ghost asks_kept = { λ x y. AsksKept x.host x.budget.now y.budget.now };

    ghost asked = { λ x y opens keeps. Unit {0} };

    ghost same_total = { λ x y. alive_in y.budget.now.hosts ≡ alive_in x.budget.now.hosts };

    ghost same_kept = { λ x y. kept_in y.budget.now.hosts ≡ kept_in x.budget.now.hosts };

    fn reserve_open(&mut self, _key: &K) -> Try {
        self.budget.reserve_open(self.host)
    }

    fn reserve_kept(&mut self, _key: &K) -> Try {
        self.budget.reserve_kept(self.host)
    }

    fn release_open(&mut self) {
        self.budget.release_open(self.host)
    }

    fn release_kept(&mut self) {
        self.budget.release_kept(self.host)
    }

    fn held(&self) -> Held {
        self.budget.held(self.host)
    }

    ghost stays_from_start = { λ x. (refl, refl, keeps_from_start x.host x.budget.now) };

    ghost stays_on = { λ x y z p q. (q.0 ∙ p.0, q.1 ∙ p.1, keeps_on p.1 p.2 q.2) };

    ghost asked_from_start = { λ x. tt };

    ghost asked_on = { λ x y z opens keeps more_opens more_keeps first later. tt };

    ghost not_asked_to_open = { λ x y s. tt };

    ghost not_asked_to_keep = { λ x y s. tt };

    ghost opening_since = { λ x y z answer s told. told };

    ghost keeping_since = { λ x y z answer s told. told };

    ghost opening_still = { λ x y z answer told s.
        open_still y.host y.budget.now z.budget.now answer told s.2 };

    ghost keeping_still = { λ x y z answer told s.
        kept_still y.host y.budget.now z.budget.now answer told s.2 };

    ghost contended_to_open = { λ x y z never s. never };

    ghost contended_to_keep = { λ x y z never s. never };

    ghost same_total_on = { λ x y z p q. q ∙ p };

    ghost same_kept_on = { λ x y z p q. q ∙ p };

    ghost same_total_from_start = { λ x. refl };

    ghost same_kept_from_start = { λ x. refl };
}
